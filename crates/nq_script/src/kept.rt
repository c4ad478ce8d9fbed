//! Events as they are kept: in few bytes, since a run has many.

ghost use Rattle.std.specs.Prelude.{◌≡◌, IfOk, IsTrue};
ghost use Rattle.nq_base.specs.Calls.{told};
ghost use Rattle.nq_script.specs.Calls.{IsFilled, IsFilledCall};
ghost use Rattle.nq_script.specs.Kept.{event_of};

use crate::calls::call_of;
use nq_base::{Block, Call, Event, Host, KeptCall, NoMemory, Seen};
use std::alloc::Global;

/// An event as it is kept: one whose body no number fills stands apart.
#[derive(Drop)]
pub(crate) enum KeptEvent {
    Call { host: Host, call: KeptCall },
    Whole(Box<Event>),
    Deliver(u64),
    ServerTick,
    ClientTick(Host),
    Restart(Host),
    Crash { longest: u32 },
}

/// Keeps an event.
pub(crate) fn keep_event(alloc: Global, event: Event) -> Result<KeptEvent, NoMemory>
    ensures { IfOk result (λ kept. event_of kept ≡ event) }
{
    match event {
        Event::Call { host, call } => keep_called(alloc, host, call),
        Event::Deliver(packet) => Ok(KeptEvent::Deliver(packet)),
        Event::ServerTick => Ok(KeptEvent::ServerTick),
        Event::ClientTick(host) => Ok(KeptEvent::ClientTick(host)),
        Event::Restart(host) => Ok(KeptEvent::Restart(host)),
        Event::Crash { longest } => Ok(KeptEvent::Crash { longest }),
    }
}

/// Keeps the event of a call.
fn keep_called(alloc: Global, host: Host, call: Call) -> Result<KeptEvent, NoMemory>
    ensures { IfOk result (λ kept. event_of kept ≡ Event.Call host call) }
{
    if is_filled_call(&call) {
        keep_filled_call(alloc, host, &call)
    } else {
        Ok(KeptEvent::Whole(Box::new(alloc, Event::Call { host, call })?))
    }
}

/// Keeps the event of a call whose body, if it has one, a number fills.
pub(crate) fn keep_filled_call(
    alloc: Global,
    host: Host,
    call: &Call,
) -> Result<KeptEvent, NoMemory>
    requires { IsFilledCall call.now }
    ensures { IfOk result (λ kept. event_of kept ≡ Event.Call host call.now) }
{
    let call = KeptCall::new(alloc, &call.told())?;
    Ok(KeptEvent::Call { host, call })
}

/// Whether a number fills the body of a call, if it has one.
fn is_filled_call(call: &Call) -> bool
    ensures { IsTrue result → IsFilledCall call.now }
{
    match call {
        Call::Write { body, .. } | Call::Put { body, .. } => is_filled(body),
        _ => true,
    }
}

/// Whether a number fills a body.
fn is_filled(body: &Block) -> bool
    ensures { IsTrue result → IsFilled body.now }
{
    match body.seen() {
        Seen::Filled(_) => true,
        Seen::Bytes(_) => false,
    }
}

/// Another event like one that is kept.
pub(crate) fn event_of(alloc: Global, kept: &KeptEvent) -> Result<Event, NoMemory>
    ensures { IfOk result (λ event. event ≡ event_of kept.now) }
{
    match kept {
        KeptEvent::Call { host, call } => Ok(Event::Call {
            host: *host,
            call: call_of(&call.told()),
        }),
        KeptEvent::Whole(event) => copied(alloc, event),
        KeptEvent::Deliver(packet) => Ok(Event::Deliver(*packet)),
        KeptEvent::ServerTick => Ok(Event::ServerTick),
        KeptEvent::ClientTick(host) => Ok(Event::ClientTick(*host)),
        KeptEvent::Restart(host) => Ok(Event::Restart(*host)),
        KeptEvent::Crash { longest } => Ok(Event::Crash { longest: *longest }),
    }
}

/// A second event like this one.
fn copied(alloc: Global, event: &Event) -> Result<Event, NoMemory>
    ensures { IfOk result (λ second. second ≡ event.now) }
{
    Ok(match event {
        Event::Call { host, call } => Event::Call {
            host: *host,
            call: call.copied(alloc)?,
        },
        Event::Deliver(packet) => Event::Deliver(*packet),
        Event::ServerTick => Event::ServerTick,
        Event::ClientTick(host) => Event::ClientTick(*host),
        Event::Restart(host) => Event::Restart(*host),
        Event::Crash { longest } => Event::Crash { longest: *longest },
    })
}

/// Whether a clock ticks in an event that is kept.
pub(crate) fn is_tick(kept: &KeptEvent) -> bool {
    matches!(kept, KeptEvent::ServerTick | KeptEvent::ClientTick(_))
}
