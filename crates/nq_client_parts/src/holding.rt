//! What a client holds on a file: nothing, or a lease (Gray and Cheriton 1989) of one of three kinds (Macklem 1994).
//! Times are in ticks of the client's clock; one tick is one second.

mod held;
mod lease;
mod notice;
mod taken;

pub use held::Held;
pub use lease::Lease;
pub use notice::Notice;
pub use taken::{GrantTaken, Take};
