//! Requests that are decided once, and what else is asked about files, over any keeper.
//!
//! A request is decided from what is kept and a gate alone. A fresh one is kept with its effect and the row of its host in
//! one change, so a copy that comes later is answered again and not executed.

mod asking;
pub mod boot;
mod deciding;
mod effects;
mod for_proofs;
mod laws;
mod reading;

pub use deciding::decide;
pub use laws::{repeats_are_met, requests_are_decided_once, what_is_kept_is_said};
pub use nq_base::{Decided, Gate};
pub use reading::{ReadOut, getattr, lookup, read_block};
