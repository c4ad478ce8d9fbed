//! What turns of a loop are made of, and why they stop.

use nq_base::{NoMemory, Party};
use nq_world::Limit;

/// Why a turn of a loop stops.
#[derive(Drop)]
pub enum Halt {
    /// A link failed, which it has counted.
    Link,
    /// The keeper failed, which it has counted.
    Keep,
    /// Memory was wanting.
    Memory,
    /// There were too many events, or too many packets, before the next event.
    Limit(Limit),
}

impl From<NoMemory> for Halt {
    ghost use Rattle.std.specs.Prelude.{◌≡◌};
    ghost use Rattle.nq_loop.specs.declared.turns.Halt.TheVariants.{Memory};

    ghost from_gives = { λ _ halt. halt ≡ Memory };

    fn from(_: NoMemory) -> Halt {
        Halt::Memory
    }
}

/// A step of a turn.
#[derive(Drop)]
pub(crate) enum Deed {
    /// The clock of this host ticks.
    Tick(u32),
    /// The server's clock ticks.
    ServerTick,
    /// The next call of this host begins, if it has one left and none under way.
    Call(u32),
    /// This party receives once on its link.
    Receive(Party),
}
