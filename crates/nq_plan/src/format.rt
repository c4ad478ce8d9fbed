//! For what the bytes of a disk stand, and the image in which nothing is kept.

mod empty;

pub use empty::format;
