//! The tests of the rules by which anybody's journal is judged, and how far the calls of an incarnation have come.
//!
//! Each function computes a definition. Journals are slices of entries, the oldest first. `nq_check` links the entries of a journal by the
//! keys of `keys`, and looks for those of `sought` along these links.
#![tactic(auto)]

pub mod accounted;
pub mod calls;
pub mod entries;
pub mod excused;
pub mod keys;
mod legal;
pub mod lines;
pub mod named;
pub mod ordered;
pub mod sought;
pub mod synchronized;
