//! Whole steps of a client: memory is taken first, then the step is made, then its outcome is given.

ghost use Rattle.std.specs.Prelude.{◌≡◌, ◌≤◌, ◌<◌, ◌+◌, ◌^◌, IfOk, OnOk};
ghost use Rattle.nq_base.specs.Calls.{told};
ghost use Rattle.nq_model.specs.protocol.ClientStep.{changed_file, client_call, client_tick, losses_for};
ghost use Rattle.nq_client.specs.Finishing.{Hears, IsKept, IsSupplied, Makes};
ghost use Rattle.nq_client.specs.Receiving.{HasRoomForFiles, IsHeeded, most_entries, on_heard};
ghost use Rattle.nq_client.specs.State.{client_of};
ghost use Rattle.nq_client.specs.Step.{HasNumbers, IsBegun};
ghost use Rattle.nq_client.specs.Tied.{Tied};

use crate::finishing::Letters;
use crate::receiving::most_entries;
use crate::step::Step;
use nq_base::{Call, Journal, KeptCall, NoMemory, Ticks};
use nq_client_parts::Named;
use nq_wire::Outbox;

/// Takes the memory that a step may want: for so many entries, a block that becomes dirty, and what may be sent.
pub(crate) fn reserve(
    step: &mut Step,
    letters: &mut Letters,
    entries: usize,
    out: &mut Outbox,
    log: &mut Journal,
) -> Result<(), NoMemory>
    requires { IsBegun step.old }
    ensures kept { IsKept step.old step.new out.old out.new log.old log.new }
    ensures supplied { OnOk result (IsSupplied entries step.new letters.new out.new log.new) }
{
    letters.reserve(step.state.alloc)?;
    step.entries.reserve(entries)?;
    step.state.dirty.reserve(1)?;
    out.reserve(2)?;
    log.reserve(entries)
}

/// Takes the memory that a call may want, and makes the losses that it is told.
pub(crate) fn room_for_call(
    step: &mut Step,
    letters: &mut Letters,
    call: &Call,
    out: &mut Outbox,
    log: &mut Journal,
) -> Result<Named, NoMemory>
    requires { IsBegun step.old }
    ensures kept { IsKept step.old step.new out.old out.new log.old log.new }
    ensures supplied { OnOk result (IsSupplied 3 step.new letters.new out.new log.new) }
    ensures named { IfOk result (λ n. n ≡ losses_for (changed_file call.now) step.new.state.losses.items) }
{
    reserve(step, letters, 3, out, log)?;
    step.state.losses.named_for(step.state.alloc, call)
}

/// Makes a call, with the memory that it may want. It leaves its answer in the step.
pub(crate) fn make_call(
    step: &mut Step,
    letters: &mut Letters,
    call: Call,
    kept: KeptCall,
    named: Named,
    out: &mut Outbox,
    log: &mut Journal,
)
    requires begun { IsBegun step.old }
    requires supplied { IsSupplied 3 step.old letters.old out.old log.old }
    requires numbers { HasNumbers 2 step.old.state }
    requires calls { step.old.state.calls < 2 ^ 62 }
    requires kept { kept ≡ told call }
    requires named { named ≡ losses_for (changed_file call) step.old.state.losses.items }
    requires tied { Tied step.old.state.asked step.old.state.dirty.push }
    ensures { Makes (client_call (client_of step.old.state) call) step.new out.old out.new log.old log.new }
{
    step.call(call, kept, named, &mut letters.rooms);
    step.finish(letters, out, log);
}

/// Makes a tick, with the memory that it may want. It leaves its answer in the step.
pub(crate) fn make_tick(
    step: &mut Step,
    letters: &mut Letters,
    now: Ticks,
    out: &mut Outbox,
    log: &mut Journal,
)
    requires begun { IsBegun step.old }
    requires supplied { IsSupplied 2 step.old letters.old out.old log.old }
    requires numbers { HasNumbers 2 step.old.state }
    requires early { now < 2 ^ 62 }
    requires tied { Tied step.old.state.asked step.old.state.dirty.push }
    ensures { Makes (client_tick (client_of step.old.state) now) step.new out.old out.new log.old log.new }
{
    step.tick(now, &mut letters.rooms);
    step.finish(letters, out, log);
}

/// Takes the memory that a datagram may want which counts.
fn room_for_heard(
    step: &mut Step,
    letters: &mut Letters,
    out: &mut Outbox,
    log: &mut Journal,
) -> Result<(), NoMemory>
    requires { IsBegun step.old }
    ensures kept { IsKept step.old step.new out.old out.new log.old log.new }
    ensures supplied { OnOk result (IsSupplied (most_entries (client_of step.old.state)) step.new letters.new out.new log.new) }
    ensures files { OnOk result (HasRoomForFiles step.new) }
{
    let entries = most_entries(&step.state);
    reserve(step, letters, entries, out, log)?;
    step.state.leases.reserve(1)?;
    step.state.notices.reserve(1)?;
    step.state.cache.reserve(1)
}

/// Takes in what counts. It leaves its answer in the step.
pub(crate) fn hear(
    step: &mut Step,
    letters: &mut Letters,
    packet: u64,
    heard: &nq_datagrams::Heard,
    out: &mut Outbox,
    log: &mut Journal,
) -> Result<(), NoMemory>
    requires begun { IsBegun step.old }
    requires numbers { HasNumbers 3 step.old.state }
    requires tied { Tied step.old.state.asked step.old.state.dirty.push }
    requires heeded { IsHeeded step.old.state.asked heard.now }
    ensures { Hears result (on_heard (client_of step.old.state) packet heard.now) step.old step.new out.old out.new log.old log.new }
{
    room_for_heard(step, letters, out, log)?;
    step.hears(packet, heard, &mut letters.rooms)?;
    step.finish(letters, out, log);
    Ok(())
}
