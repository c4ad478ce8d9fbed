//! Why a write is not delayed.

ghost use Rattle.std.specs.Prelude.{◌≡◌};
ghost use Rattle.nq_client_parts.specs.declared.dirty.fault.DirtyFault.TheVariants.{Memory};

use nq_base::NoMemory;

/// Why a write is not delayed.
#[derive(Clone, Copy)]
pub enum DirtyFault {
    /// As many blocks as there may be are delayed or under way, and this is not one of those that are delayed.
    Full,
    /// Memory was wanted and refused.
    Memory,
}

impl From<NoMemory> for DirtyFault {
    ghost from_gives = { λ _ fault. fault ≡ Memory };

    fn from(_: NoMemory) -> DirtyFault {
        DirtyFault::Memory
    }
}
