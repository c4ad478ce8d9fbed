//! The text of schedules in which hosts list directories and find names: that of a schedule of version 2, in which lines
//! `list H PREFIX` and `find H NAME` may stand where lines `flow` may.
//!
//! What such a text is stands in `specs/Text` of `nq_replay::asides`, and what its asides say in `specs/Text` here.

mod aside;
mod lines;

pub use aside::Aside;
pub use lines::{parse_find, parse_list};
