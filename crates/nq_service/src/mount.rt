//! Serving on over the image on a disk, which is made where the disk is empty.

mod opening;
mod serving;
mod survey;

pub use opening::open_or_make;
pub use serving::{Greeter, serve_image};
pub use survey::{Survey, surveyed};
