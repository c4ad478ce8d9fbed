//! The items of XDR, the external data representation of RFC 1014, read and written.
//!
//! Each item is a multiple of four bytes, numbers stand with their highest byte first, and each value
//! has one spelling (`specs/Item.antt`). [`Reader`] reads exactly what is spelled so, and names the
//! first fault of anything else; [`Writer`] writes it. The messages of RPC stand in `rpc`.
#![tactic(auto)]

mod fault;
pub mod laws;
mod reader;
pub mod rpc;
mod words;
mod writer;

pub use fault::XdrFault;
pub use nq_memory::NoMemory;
pub use reader::Reader;
pub use words::push_words;
pub use writer::Writer;
