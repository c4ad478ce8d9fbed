//! What the program `client` does: it reads calls, one a line, attaches a client over a link, runs each call to its answer, and
//! prints the answers.

mod aims;
mod calling;
mod plan;
mod running;
mod session;
mod turning;
mod using;

pub use plan::UsePlan;
pub use using::client;
