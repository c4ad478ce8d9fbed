//! Copies of events, which the schedule of the inner world keeps.

ghost use Rattle.std.specs.Prelude.{◌≡◌, IfOk};

use nq_base::{Event, NoMemory};
use std::alloc::Global;

/// The event once more. A body that a number fills takes no memory.
pub(crate) fn copied(alloc: Global, event: &Event) -> Result<Event, NoMemory>
    ensures { IfOk result (λ e. e ≡ event.now) }
{
    Ok(match event {
        Event::Call { host, call } => Event::Call {
            host: *host,
            call: call.copied(alloc)?,
        },
        Event::Deliver(number) => Event::Deliver(*number),
        Event::ServerTick => Event::ServerTick,
        Event::ClientTick(host) => Event::ClientTick(*host),
        Event::Restart(host) => Event::Restart(*host),
        Event::Crash { longest } => Event::Crash { longest: *longest },
    })
}
