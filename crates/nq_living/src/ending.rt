//! How a host ends.

ghost use Rattle.std.specs.Prelude.{◌≡◌, true};
ghost use Rattle.nq_clock.specs.Clocks.{clock_told};
ghost use Rattle.nq_link.specs.Links.{link_told};
ghost use Rattle.nq_living.specs.Living.{Lived, is_ready, life};

use crate::askers::Askers;
use crate::calling::make;
use crate::host::{Host, first_delayed, is_delaying, is_ready};
use crate::line::Line;
use crate::turning::hear;
use nq_clock::Clock;
use std::alloc::Global;

/// How often it looks at most, in the end, whether what was delayed is stored.
const FAREWELL: u32 = 400;

/// Where somebody wants the host to end: stores what is delayed, as long as that does not take too long, and tells whoever wants it to end.
/// Whether it ends.
pub(crate) fn end_on<L: Line, C: Clock, A: Askers>(
    alloc: Global,
    host: &mut Host,
    link: &mut L,
    clock: &mut C,
    askers: &mut A,
) -> bool
    ensures { Lived A.gives A.takes A.notes A.pages A.stirs
        (life host.old (clock_told C.floor C.readings C.reads clock.old) (link_told L.sent L.waiting L.faults L.receives link.old) askers.old)
        (life host.new (clock_told C.floor C.readings C.reads clock.new) (link_told L.sent L.waiting L.faults L.receives link.new) askers.new) }
{
    if !askers.wants_end() {
        return false;
    }
    store_all(alloc, host, link, clock, askers);
    askers.end(is_delaying(&host.client))
}

/// Stores what is delayed, as long as that does not take too long.
fn store_all<L: Line, C: Clock, A: Askers>(
    alloc: Global,
    host: &mut Host,
    link: &mut L,
    clock: &mut C,
    askers: &mut A,
)
    ensures { Lived A.gives A.takes A.notes A.pages A.stirs
        (life host.old (clock_told C.floor C.readings C.reads clock.old) (link_told L.sent L.waiting L.faults L.receives link.old) askers.old)
        (life host.new (clock_told C.floor C.readings C.reads clock.new) (link_told L.sent L.waiting L.faults L.receives link.new) askers.new) }
{
    for _look in 0..FAREWELL {
        hear(alloc, host, link, clock, askers);
        if host.halt.is_some() || !is_delaying(&host.client) {
            return;
        }
        store_on(alloc, host, link, clock, askers);
        askers.rest();
    }
}

/// Stores what is delayed of a file, if it can be done now.
fn store_on<L: Line, C: Clock, A: Askers>(
    alloc: Global,
    host: &mut Host,
    link: &mut L,
    clock: &mut C,
    askers: &mut A,
)
    ensures { Lived A.gives A.takes A.notes A.pages A.stirs
        (life host.old (clock_told C.floor C.readings C.reads clock.old) (link_told L.sent L.waiting L.faults L.receives link.old) askers.old)
        (life host.new (clock_told C.floor C.readings C.reads clock.new) (link_told L.sent L.waiting L.faults L.receives link.new) askers.new) }
{
    if is_ready(&host.client) {
        store_now(alloc, host, link, clock, askers);
    }
}

/// Stores what is delayed of a file, where a call can be made.
fn store_now<L: Line, C: Clock, A: Askers>(
    alloc: Global,
    host: &mut Host,
    link: &mut L,
    clock: &mut C,
    askers: &mut A,
)
    requires { is_ready host.old.client.client ≡ true }
    ensures { Lived A.gives A.takes A.notes A.pages A.stirs
        (life host.old (clock_told C.floor C.readings C.reads clock.old) (link_told L.sent L.waiting L.faults L.receives link.old) askers.old)
        (life host.new (clock_told C.floor C.readings C.reads clock.new) (link_told L.sent L.waiting L.faults L.receives link.new) askers.new) }
{
    if let Some(file) = first_delayed(&host.client) {
        let call = askers.last_call(file);
        let _answered = make(alloc, host, link, clock, askers, &call);
    }
}
