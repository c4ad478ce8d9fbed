//! Leases never conflict at a server of the code either, whatever comes to it.

mod arriving;
mod serving;

pub use arriving::{Arrival, hand};
pub use serving::{rows_stand_apart, served_rows_are_met};
