//! Calls of a host, for those who ask.

ghost use Rattle.std.specs.Prelude.{◌≡◌, Option, Some, true};
ghost use Rattle.nq_clock.specs.Clocks.{clock_told};
ghost use Rattle.nq_link.specs.Links.{link_told};
ghost use Rattle.nq_living.specs.Living.{Hands, Lived, Makes, final, is_ready, life, over_by};

use crate::askers::Askers;
use crate::host::{Host, first_delayed, is_ready};
use crate::line::Line;
use nq_base::ending::Fault;
use nq_base::{Answer, Call, Journal};
use nq_calling::call_now;
use nq_clock::Clock;
use std::alloc::Global;

/// The most calls of a round.
const MOST_CALLS: u32 = 256;

/// Makes calls, each behind a turn that has read the clock, until one has no answer yet or nothing is to be done. Whether more can be made.
pub(crate) fn call_on<L: Line, C: Clock, A: Askers>(
    alloc: Global,
    host: &mut Host,
    link: &mut L,
    clock: &mut C,
    askers: &mut A,
) -> bool
    ensures { Lived A.gives A.takes A.notes A.pages A.stirs
        (life host.old (clock_told C.floor C.readings C.reads clock.old) (link_told L.sent L.waiting L.faults L.receives link.old) askers.old)
        (life host.new (clock_told C.floor C.readings C.reads clock.new) (link_told L.sent L.waiting L.faults L.receives link.new) askers.new) }
{
    for _call in 0..MOST_CALLS {
        if host.halt.is_some() || !is_ready(&host.client) {
            return false;
        }
        if !call_next(alloc, host, link, clock, askers) {
            return false;
        }
    }
    true
}

/// Makes the next call, if there is one. Whether it has its answer.
fn call_next<L: Line, C: Clock, A: Askers>(
    alloc: Global,
    host: &mut Host,
    link: &mut L,
    clock: &mut C,
    askers: &mut A,
) -> bool
    requires { is_ready host.old.client.client ≡ true }
    ensures { Lived A.gives A.takes A.notes A.pages A.stirs
        (life host.old (clock_told C.floor C.readings C.reads clock.old) (link_told L.sent L.waiting L.faults L.receives link.old) askers.old)
        (life host.new (clock_told C.floor C.readings C.reads clock.new) (link_told L.sent L.waiting L.faults L.receives link.new) askers.new) }
{
    let now = host.client.time().0;
    let delayed = first_delayed(&host.client);
    match askers.next_call(now, delayed) {
        Some(call) => make(alloc, host, link, clock, askers, &call),
        None => false,
    }
}

/// Makes the call that those who ask have given. Whether it has its answer, which goes to them.
pub(crate) fn make<L: Line, C: Clock, A: Askers>(
    alloc: Global,
    host: &mut Host,
    link: &mut L,
    clock: &mut C,
    askers: &mut A,
    call: &Call,
) -> bool
    ensures { Makes A.takes A.notes call.now
        (life host.old (clock_told C.floor C.readings C.reads clock.old) (link_told L.sent L.waiting L.faults L.receives link.old) askers.old)
        (life host.new (clock_told C.floor C.readings C.reads clock.new) (link_told L.sent L.waiting L.faults L.receives link.new) askers.new) }
{
    let mut log = Journal::new(alloc).unwrap();
    let answer = call_now(
        alloc,
        &mut host.client,
        link,
        clock,
        &mut host.next,
        &mut log,
        call,
    );
    askers.note(&log);
    link.let_go();
    host.halt = why_over(&answer);
    hand(askers, &answer)
}

/// Why no more can be asked behind this answer, if that is so.
fn why_over(answer: &Answer) -> Option<Fault>
    ensures { result ≡ over_by answer.now }
{
    match answer {
        Answer::Memory => Some(Fault::Memory),
        Answer::Spent => Some(Fault::Spent),
        _ => None,
    }
}

/// Hands an answer over, unless it comes later. Whether it was there.
fn hand<A: Askers>(askers: &mut A, answer: &Answer) -> bool
    ensures { Hands A.takes (final answer.now) askers.old askers.new }
{
    match answer {
        Answer::Pending | Answer::Busy => false,
        _ => {
            askers.take(answer);
            true
        }
    }
}
