//! Words of refusals.

/// What is said where memory was wanting.
pub const NO_MEMORY: &[u8] = b"memory: memory was wanting";

/// What is said of a file that was made by calls.
pub(crate) const NOT_WHOLE: &[u8] = b"the file of this name was not stored as a whole one";

/// What is said where a file is stored so often that no `get` comes to its end.
pub(crate) const AGAIN: &[u8] = b"others store it again and again";
