//! Room for the blocks that a step copies.

ghost use Rattle.std.specs.Prelude.{OnOk};
ghost use Rattle.nq_client.specs.Finishing.{HasRooms};

use nq_base::{NoMemory, Spare};
use std::alloc::Global;

/// Room for the blocks that a step copies, taken before it changes anything.
#[derive(Drop)]
pub(crate) struct Rooms {
    /// For the block that a read is answered with, or whose write is delayed.
    pub(crate) kept: Spare,
    /// For the block that is sent.
    pub(crate) sent: Spare,
}

impl Rooms {
    /// No room. It takes no memory.
    pub(crate) fn none() -> Rooms {
        Rooms {
            kept: Spare::none(),
            sent: Spare::none(),
        }
    }

    /// Makes room for the blocks that a step may copy.
    pub(crate) fn reserve(&mut self, alloc: Global) -> Result<(), NoMemory>
        ensures { OnOk result (HasRooms self.new) }
    {
        self.kept.reserve(alloc)?;
        self.sent.reserve(alloc)
    }
}
