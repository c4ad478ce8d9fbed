//! How something ended, and what it leaves.

/// How something ended, and what it leaves of what it was lent.
#[derive(Drop)]
pub struct Ended<E, T> {
    /// How it ended.
    pub end: E,
    /// What was handed in, as it is now.
    pub left: T,
}
