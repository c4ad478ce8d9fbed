//! Where the bytes of a run come from and where they go: the traits `Source` and `Sink`, with an object in memory for
//! each, and `read_all`, which reads a source to its end. Those of std are in `streams`.
//!
//! A contract knows a source by the bytes left in it and a sink by the bytes that it holds, where the object tells
//! them, and both by a count of their faults. An answer `Failed` comes only where that count rose in the call.
#![tactic(auto)]

mod calls;
mod mem_sink;
mod mem_source;
mod sink;
mod source;
pub mod streams;
mod whole;

pub use calls::Calls;
pub use mem_sink::MemSink;
pub use mem_source::MemSource;
pub use nq_memory::NoMemory;
pub use sink::{Put, Sink, put_line};
pub use source::{Got, Source};
pub use whole::{Whole, read_all};
