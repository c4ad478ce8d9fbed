//! How the commands end, with the exit status of each end, and why turns stop. It is small, since all that runs a command stands on it.

mod ended;
mod ending;
mod fault;

pub use ended::Ended;
pub use ending::Ending;
pub use fault::Fault;
