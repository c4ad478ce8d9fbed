//! The commands of a server over the image on a disk: one makes an empty image, one serves over what it keeps.
#![tactic(auto)]

pub mod blank;
mod formatting;
pub mod mount;
pub mod recent;
mod serving;

pub use formatting::format_disk;
pub use serving::serve_disk;
