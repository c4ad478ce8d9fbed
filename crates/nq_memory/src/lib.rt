//! Want of memory, as every crate of this project answers it.
#![tactic(auto)]

ghost use Rattle.std.specs.Prelude.{◌≡◌};
ghost use Rattle.nq_memory.specs.declared.NoMemory.TheVariants.{Memory};

use std::alloc::{AllocError, AllocFailed};
use thiserror::Error;

/// Memory was wanted and refused. What the call says stays as before has stayed so.
#[derive(Clone, Copy, Debug, PartialEq, Eq, Error)]
pub enum NoMemory {
    /// The one reason.
    #[error("out of memory")]
    Memory,
}

impl From<AllocError> for NoMemory {
    ghost from_gives = { λ _ error. error ≡ Memory };

    fn from(_: AllocError) -> NoMemory {
        NoMemory::Memory
    }
}

impl<T: Drop> From<AllocFailed<T>> for NoMemory {
    ghost from_gives = { λ _ error. error ≡ Memory };

    fn from(_: AllocFailed<T>) -> NoMemory {
        NoMemory::Memory
    }
}
