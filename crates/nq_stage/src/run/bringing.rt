//! What the types of an event say of it.

ghost use Rattle.std.specs.Prelude.{◌<◌, ◌^◌};
ghost use Rattle.nq_stage.specs.Theorem.{BringsBlock, StagedBrings};

use crate::run::event::StagedEvent;
use nq_base::{Call, Event};

/// A number of 32 bits is a word.
fn is_word(number: u32)
    ensures { number < 2 ^ 32 }
{}

/// A call that writes brings 4096 bytes, and the numbers of its file and of its block are words. Nothing is done.
fn call_brings(call: &Call)
    ensures { BringsBlock call.now }
{
    match call {
        Call::Write { file, block, body } | Call::Put { file, block, body } => {
            is_word(file.0);
            is_word(block.0);
            let _bytes = body.seen();
        }
        _ => {}
    }
}

/// An event that is a call which writes brings 4096 bytes, and the numbers of its file and of its block are words: the laws of
/// staged runs ask no more of an event. Nothing is done.
pub fn event_brings(event: &StagedEvent)
    ensures { StagedBrings event.now }
{
    if let StagedEvent::Plain(Event::Call { call, .. }) = event {
        call_brings(call);
    }
}
