//! Why turns and events stop.

use nq_memory::NoMemory;

/// Why the turns of a server, those of a client for one of its calls, or an event of a world, stop before they bring what they
/// were taken for.
#[derive(Clone, Copy)]
pub enum Fault {
    /// The link failed.
    Link,
    /// The keeper of a server failed.
    Keep,
    /// Memory was wanting.
    Memory,
    /// No more can be taken in.
    Spent,
    /// All turns of a client were taken, and none brought the answer.
    NoAnswer,
}

impl From<NoMemory> for Fault {
    ghost use Rattle.std.specs.Prelude.{◌≡◌};
    ghost use Rattle.nq_base.specs.declared.ending.fault.Fault.TheVariants.{Memory};

    ghost from_gives = { λ _ fault. fault ≡ Memory };

    fn from(_: NoMemory) -> Fault {
        Fault::Memory
    }
}
