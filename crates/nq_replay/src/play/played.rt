//! How a schedule went.

use nq_world::Stepped;

/// How a schedule went.
#[derive(Clone, Copy)]
pub enum Played {
    /// Each event of each line was taken.
    All,
    /// An event of this line was not taken, which is never answered by `Done`.
    Stopped {
        /// The number of the line in the text.
        line: u32,
        /// What the world answered.
        answer: Stepped,
    },
}
