//! Turns of a host, whose answers go to those who ask.

ghost use Rattle.std.specs.Prelude.{◌≡◌, Option};
ghost use Rattle.nq_clock.specs.Clocks.{clock_told};
ghost use Rattle.nq_link.specs.Links.{link_told};
ghost use Rattle.nq_living.specs.Living.{Hands, Lived, brought, life, stopped_by};

use crate::askers::Askers;
use crate::host::Host;
use crate::line::Line;
use nq_base::ending::Fault;
use nq_base::{Answer, Journal};
use nq_clock::Clock;
use nq_hosts::node::client_turn;
use std::alloc::Global;

/// The most turns that are taken one behind the other before askers are heard again.
const MOST_TURNS: u32 = 1024;

/// Takes in what came, and ends what is over by now: takes turns until nothing is there. Each reads the clock once, before all else.
pub fn hear<L: Line, C: Clock, A: Askers>(
    alloc: Global,
    host: &mut Host,
    link: &mut L,
    clock: &mut C,
    askers: &mut A,
)
    ensures { Lived A.gives A.takes A.notes A.pages A.stirs
        (life host.old (clock_told C.floor C.readings C.reads clock.old) (link_told L.sent L.waiting L.faults L.receives link.old) askers.old)
        (life host.new (clock_told C.floor C.readings C.reads clock.new) (link_told L.sent L.waiting L.faults L.receives link.new) askers.new) }
{
    for _turn in 0..MOST_TURNS {
        turn(alloc, host, link, clock, askers);
        if host.halt.is_some() || link.is_dry() {
            return;
        }
    }
}

/// Takes one turn. The answer that it brings goes to those who ask.
fn turn<L: Line, C: Clock, A: Askers>(
    alloc: Global,
    host: &mut Host,
    link: &mut L,
    clock: &mut C,
    askers: &mut A,
)
    ensures { Lived A.gives A.takes A.notes A.pages A.stirs
        (life host.old (clock_told C.floor C.readings C.reads clock.old) (link_told L.sent L.waiting L.faults L.receives link.old) askers.old)
        (life host.new (clock_told C.floor C.readings C.reads clock.new) (link_told L.sent L.waiting L.faults L.receives link.new) askers.new) }
{
    let mut log = Journal::new(alloc).unwrap();
    let ended = client_turn(
        alloc,
        &mut host.client,
        link,
        clock,
        &mut host.next,
        &mut log,
    );
    askers.note(&log);
    link.let_go();
    host.halt = hand(askers, ended);
}

/// Hands over the answer that a turn brought. Why no more can be asked, if that is so.
fn hand<A: Askers>(askers: &mut A, ended: Result<Option<Answer>, Fault>) -> Option<Fault>
    ensures hands { Hands A.takes (brought ended) askers.old askers.new }
    ensures halts { result ≡ stopped_by ended }
{
    match ended {
        Ok(Some(answer)) => {
            askers.take(&answer);
            None
        }
        Ok(None) | Err(Fault::Link) => None,
        Err(why) => Some(why),
    }
}
