//! A call behind a turn.

ghost use Rattle.std.specs.Prelude.{◌≡◌};
ghost use Rattle.nq_calling.specs.Calling.{CallsNow, Makes, MakesUnless, refusal_of};
ghost use Rattle.nq_clock.specs.Clocks.{clock_told};
ghost use Rattle.nq_link.specs.Links.{link_told};

use nq_base::ending::Fault;
use nq_base::{Answer, Call, Journal};
use nq_client::Client;
use nq_clock::Clock;
use nq_hosts::node::client_turn;
use nq_link::{Link, send_all};
use nq_wire::Outbox;
use std::alloc::Global;

/// Takes a turn of a client, then makes a call and sends what it pushes. So the client has taken in one reading of the clock directly before the
/// call, and whatever lease answers it runs by that reading. What came of the turn, and what the link refused, is not told: it is sent again later.
/// Where the turn could not take that reading in, no call is made.
///
/// # Errors
///
/// Those of `Client::call`, and `Memory` and `Spent` where the turn stopped so.
pub fn call_now<L: Link, C: Clock>(
    alloc: Global,
    client: &mut Client,
    link: &mut L,
    clock: &mut C,
    next: &mut u64,
    log: &mut Journal,
    call: &Call,
) -> Answer
    ensures { CallsNow call.now result next.old next.new
        (clock_told C.floor C.readings C.reads clock.old) (clock_told C.floor C.readings C.reads clock.new)
        (link_told L.sent L.waiting L.faults L.receives link.old)
        (link_told L.sent L.waiting L.faults L.receives link.new)
        client.old client.new log.old log.new }
{
    let turn = client_turn(alloc, client, link, clock, next, log);
    let refusal = refusal_of(&turn);
    make_unless(refusal, alloc, client, link, log, call)
}

/// The answer behind a turn that could not take in what it read or heard.
fn refusal_of(turn: &Result<Option<Answer>, Fault>) -> Option<Answer>
    ensures { result ≡ refusal_of turn.now }
{
    match turn {
        Err(Fault::Memory) => Some(Answer::Memory),
        Err(Fault::Spent) => Some(Answer::Spent),
        _ => None,
    }
}

/// Makes a call, unless it has this answer already.
fn make_unless<L: Link>(
    refusal: Option<Answer>,
    alloc: Global,
    client: &mut Client,
    link: &mut L,
    log: &mut Journal,
    call: &Call,
) -> Answer
    ensures { MakesUnless refusal call.now result client.old client.new log.old log.new
        (link_told L.sent L.waiting L.faults L.receives link.old)
        (link_told L.sent L.waiting L.faults L.receives link.new) }
{
    match refusal {
        Some(answer) => answer,
        None => make(alloc, client, link, log, call),
    }
}

/// Makes a call, and sends what it pushes.
fn make<L: Link>(
    alloc: Global,
    client: &mut Client,
    link: &mut L,
    log: &mut Journal,
    call: &Call,
) -> Answer
    ensures { Makes call.now result client.old client.new log.old log.new
        (link_told L.sent L.waiting L.faults L.receives link.old)
        (link_told L.sent L.waiting L.faults L.receives link.new) }
{
    let mut out = Outbox::new(alloc, 0).unwrap();
    let answer = client.call(call, &mut out, log);
    let _sent = send_all(link, &out);
    answer
}
