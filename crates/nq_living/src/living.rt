//! A host that lives, round by round.

ghost use Rattle.std.specs.Option.{ForSome};
ghost use Rattle.std.specs.Prelude.{option_map};
ghost use Rattle.nq_clock.specs.Clocks.{clock_told};
ghost use Rattle.nq_link.specs.Links.{link_told};
ghost use Rattle.nq_living.specs.Living.{EndsFor, Lived, Posts, PostsOne, TurnsPage, life};

use crate::askers::Askers;
use crate::calling::call_on;
use crate::ending::end_on;
use crate::host::Host;
use crate::line::Line;
use crate::turning::hear;
use nq_base::Party;
use nq_clock::Clock;
use nq_link::Sent;
use std::alloc::Global;

/// Why a host lives no more.
#[derive(Clone, Copy)]
pub enum End {
    /// It was told to end, and has stored what it delayed.
    Told,
    /// No more can be asked of its client.
    Halted,
    /// Nobody can be waited for.
    Deaf,
    /// All rounds were made.
    Rounds,
}

/// Lives for so many rounds, or until it is told to end, or no more can be asked. In each round it takes in what came from the server, hears
/// those who ask, and makes their calls. Its client, its clock, its link and those who ask are then as after the steps of a fold: turns, and
/// calls behind a turn that has read the clock, each made once where no other call was under way; each answer goes to those who gave the call.
/// Where it ends as halted, `halt` says why: what the last turn or call found wanting.
pub fn live<L: Line, C: Clock, A: Askers>(
    alloc: Global,
    host: &mut Host,
    link: &mut L,
    clock: &mut C,
    askers: &mut A,
    rounds: u64,
) -> End
    ensures lives { Lived A.gives A.takes A.notes A.pages A.stirs
        (life host.old (clock_told C.floor C.readings C.reads clock.old) (link_told L.sent L.waiting L.faults L.receives link.old) askers.old)
        (life host.new (clock_told C.floor C.readings C.reads clock.new) (link_told L.sent L.waiting L.faults L.receives link.new) askers.new) }
    ensures why { EndsFor result host.new.halt }
{
    let mut is_busy = false;
    for _round in 0..rounds {
        if let Some(end) = live_on(alloc, host, link, clock, askers, &mut is_busy) {
            return end;
        }
    }
    End::Rounds
}

/// Lives for one round, which waits first. Why it lives no more, if that is so.
fn live_on<L: Line, C: Clock, A: Askers>(
    alloc: Global,
    host: &mut Host,
    link: &mut L,
    clock: &mut C,
    askers: &mut A,
    is_busy: &mut bool,
) -> Option<End>
    ensures lives { Lived A.gives A.takes A.notes A.pages A.stirs
        (life host.old (clock_told C.floor C.readings C.reads clock.old) (link_told L.sent L.waiting L.faults L.receives link.old) askers.old)
        (life host.new (clock_told C.floor C.readings C.reads clock.new) (link_told L.sent L.waiting L.faults L.receives link.new) askers.new) }
    ensures why { ForSome result (λ end. EndsFor end host.new.halt) }
{
    if !askers.wait(*is_busy) {
        return Some(End::Deaf);
    }
    *is_busy = round(alloc, host, link, clock, askers);
    if host.halt.is_some() {
        return Some(End::Halted);
    }
    if end_on(alloc, host, link, clock, askers) {
        Some(End::Told)
    } else {
        None
    }
}

/// Hears all once, and does what can be done. Whether something is left to be done at once.
fn round<L: Line, C: Clock, A: Askers>(
    alloc: Global,
    host: &mut Host,
    link: &mut L,
    clock: &mut C,
    askers: &mut A,
) -> bool
    ensures { Lived A.gives A.takes A.notes A.pages A.stirs
        (life host.old (clock_told C.floor C.readings C.reads clock.old) (link_told L.sent L.waiting L.faults L.receives link.old) askers.old)
        (life host.new (clock_told C.floor C.readings C.reads clock.new) (link_told L.sent L.waiting L.faults L.receives link.new) askers.new) }
{
    hear(alloc, host, link, clock, askers);
    let has_heard = askers.tend();
    let has_called = call_on(alloc, host, link, clock, askers);
    let is_over = turn_page(host, link, askers);
    any(has_heard, has_called, is_over, !link.is_dry())
}

/// Whether one of these is so.
fn any(heard: bool, called: bool, over: bool, wet: bool) -> bool {
    heard || called || over || wet
}

/// Hands over the page of a list that came, and sends the request for the next one that is due. Whether something is over.
fn turn_page<L: Line, A: Askers>(host: &Host, link: &mut L, askers: &mut A) -> bool
    ensures { TurnsPage A.pages (link_told L.sent L.waiting L.faults L.receives link.old) (link_told L.sent L.waiting L.faults L.receives link.new)
        askers.old askers.new }
{
    let page = link.take_page();
    let paged = askers.turn_page(host.client.time().0, page);
    post(link, &paged.request);
    paged.is_over
}

/// Sends a request for a page to the server, if there is one.
fn post<L: Line>(link: &mut L, request: &Option<Vec<u8>>)
    ensures { Posts (option_map (λ request. request.items) request.now) (link_told L.sent L.waiting L.faults L.receives link.old)
        (link_told L.sent L.waiting L.faults L.receives link.new) }
{
    match request {
        Some(request) => {
            let _sent = post_one(link, request);
        }
        None => {}
    }
}

/// Sends a request for a page to the server.
fn post_one<L: Line>(link: &mut L, request: &[u8]) -> Sent
    ensures { PostsOne result request.now (link_told L.sent L.waiting L.faults L.receives link.old)
        (link_told L.sent L.waiting L.faults L.receives link.new) }
{
    let sent = link.send(Party::Server, request);
    link.let_go();
    sent
}
