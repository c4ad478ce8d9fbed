//! A boot over a keeper. It serves at once where no boot served before it; else it recovers first, until the leases of the
//! boot that served last are over (Macklem 1994).
//!
//! The states are types: nobody has a [`Serving`] but from a boot that may serve at once, or from a [`Recovering`] that
//! waited to its end.

mod recovering;
mod starting;

pub use recovering::{Finish, Recovering, Serving};
pub use starting::{LAST_BOOT, StartFault, Started, start};
