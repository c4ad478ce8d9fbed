//! How the server has leases given up before they end (Macklem 1994): it asks their holders, and drops the row of one that
//! gives its lease up.

mod notifying;
mod vacating;

pub use notifying::{NoticeTo, notices};
pub use vacating::vacated;
