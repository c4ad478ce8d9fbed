//! Where a redo record stands.

/// Where a redo record stands on a disk.
#[derive(Clone, Copy)]
pub struct Area {
    /// Its first byte, the gate.
    pub place: u64,
    /// How many bytes it has, 16 at least.
    pub size: u32,
    /// The byte at which each range has to end, or before it.
    pub bound: u64,
}
