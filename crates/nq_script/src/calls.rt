//! Calls, which have a block where words tell its value.

ghost use Rattle.std.specs.Prelude.{◌≡◌, ◌≢◌};
ghost use Rattle.nq_script.specs.Calls.{call_of, SpellsCall};
ghost use Rattle.nq_base.specs.declared.Call.{Call};
ghost use Rattle.nq_base.specs.declared.Told.{Told};
ghost use Rattle.nq_script.specs.Faults.{Answers};
ghost use Rattle.nq_script.specs.declared.faults.ScriptFault.{ScriptFault};

use crate::faults::ScriptFault;
use crate::words::read_told;
use nq_base::{Block, Call, Told};
use std::alloc::Global;

/// The call that is told, with its body.
pub(crate) fn call_of(told: &Told) -> Call
    ensures { result ≡ call_of told.now }
{
    match *told {
        Told::Create { name, blocks } => Call::Create { name, blocks },
        Told::Lookup { name } => Call::Lookup { name },
        Told::Attr { file } => Call::Attr { file },
        Told::Read { file, block } => Call::Read { file, block },
        Told::Fetch { file, block } => Call::Fetch { file, block },
        Told::Write { file, block, value } => Call::Write {
            file,
            block,
            body: Block::fill(value),
        },
        Told::Put { file, block, value } => Call::Put {
            file,
            block,
            body: Block::fill(value),
        },
        Told::Sync { file } => Call::Sync { file },
        Told::Resize { file, blocks } => Call::Resize { file, blocks },
        Told::Remove { file } => Call::Remove { file },
    }
}

/// The call that the words write in a version, as `put F B V` or `fetch F B`. Takes no memory.
///
/// # Errors
///
/// `Bad(1)` where the words are outside the grammar.
pub fn parse_call(_alloc: Global, words: &[u8], version: u32) -> Result<Call, ScriptFault>
    ensures found { Answers result (λ call. SpellsCall version call words.now) (λ line. line ≡ 1) }
    ensures only { (call : Call) → SpellsCall version call words.now → Answers result (λ found. found ≡ call) (λ line. ⊥) }
    ensures memory { result ≢ Err ScriptFault.Memory }
{
    match read_told(words, version) {
        Some(told) => Ok(call_of(&told)),
        None => Err(ScriptFault::Bad(1)),
    }
}
