//! Why a text is refused.

ghost use Rattle.std.specs.Prelude.{◌≡◌};
ghost use Rattle.nq_script.specs.declared.faults.ScriptFault.TheVariants.{Memory};

use nq_base::NoMemory;

/// Why a text is refused.
#[derive(Clone, Copy)]
pub enum ScriptFault {
    /// The text is outside the grammar, and this line is the first that is; lines are counted from 1.
    Bad(u32),
    /// Memory was wanting; nothing changed.
    Memory,
}

impl From<NoMemory> for ScriptFault {
    ghost from_gives = { λ _ e. e ≡ Memory };

    fn from(_fault: NoMemory) -> ScriptFault {
        ScriptFault::Memory
    }
}
