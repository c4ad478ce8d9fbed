//! The delayed writes of a client: blocks that were written and are not stored yet, in the order in which they became
//! dirty, and the push under way; and what they mean for the leases under which they were written.
//!
//! A notice that a lease is to be given up is spent by a vacated message, and that is made of a clean file alone: a
//! [`Vacancy`] comes from a notice and a [`Clean`], and no block becomes dirty while a `Clean` lives.

mod clean;
mod dirty;
mod due;
mod entries;
mod fault;
mod under_way;
mod vacancy;

pub use clean::Clean;
pub use dirty::Dirty;
pub use fault::DirtyFault;
pub use vacancy::Vacancy;
