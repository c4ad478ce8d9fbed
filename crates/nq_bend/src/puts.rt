//! Lines that are put into a schedule.

ghost use Rattle.std.specs.List.{AllByRecursion};
ghost use Rattle.std.specs.Prelude.{◌≡◌, IfOk, IfSome, IsTrue};
ghost use Rattle.nq_observe.specs.Told.{TellsEvent};
ghost use Rattle.nq_replay.specs.Schedules.{IsReady};
ghost use Rattle.nq_script.specs.Heads.{FitsHead};

use nq_base::NoMemory;
use nq_script::words::push_bytes;
use nq_script::{Head, Line, Lines, Script, ScriptFault, parse, print_head};
use std::alloc::Global;

/// The most bytes of a line.
const MOST_BYTES: usize = 4096;

/// The most bytes of a schedule that has only this line. A head has at most 256 files.
const MOST_WHOLE: usize = 1_048_576;

/// The lines that a text tells in a schedule with this head; None where it tells none, or others than calls, ticks, restarts and
/// crashes.
pub(crate) fn read_put(alloc: Global, head: &Head, text: &[u8]) -> Result<Option<Lines>, NoMemory>
    requires { FitsHead head.now }
    ensures { IfOk result (λ read. IfSome read (λ lines. AllByRecursion (TellsEvent head.now) lines)) }
{
    if text.len() > MOST_BYTES {
        return Ok(None);
    }
    let mut whole = print_head(alloc, head)?;
    push_bytes(&mut whole, text)?;
    push_bytes(&mut whole, b"\nend\n")?;
    if whole.len() > MOST_WHOLE {
        return Ok(None);
    }
    match parse(alloc, &whole) {
        Ok(script) => Ok(acts_of(head, script)),
        Err(ScriptFault::Bad(_number)) => Ok(None),
        Err(ScriptFault::Memory) => Err(NoMemory::Memory),
    }
}

/// The lines of a schedule that begins with this head, where all tell calls, ticks, restarts and crashes.
fn acts_of(head: &Head, script: Script) -> Option<Lines>
    requires { IsReady script }
    ensures { IfSome result (λ lines. AllByRecursion (TellsEvent head.now) lines) }
{
    let Script {
        head: own,
        lines,
        ..
    } = script;
    if !is_alike(head, &own) || !are_acts(&lines) {
        return None;
    }
    Some(lines)
}

/// Whether two heads allow the same events.
fn is_alike(one: &Head, other: &Head) -> bool
    ensures { IsTrue result → (one.now.version ≡ other.now.version) × (one.now.hosts ≡ other.now.hosts) × (one.now.longest ≡ other.now.longest) }
{
    one.version == other.version && one.hosts == other.hosts && one.longest == other.longest
}

/// Whether each line tells an event, and none the delivery of a packet.
fn are_acts(lines: &Lines) -> bool {
    for place in 0..lines.len() {
        if lines.packet_at(place).is_some() {
            return false;
        }
        match lines.get(place) {
            Some(Line::Events { .. }) => {}
            _ => return false,
        }
    }
    true
}
