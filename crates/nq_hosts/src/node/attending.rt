//! Turns of a client.

ghost use Rattle.std.specs.Prelude.{◌≡◌, ◌<◌, ◌^◌, length, Option, Ok};
ghost use Rattle.nq_base.specs.declared.Answer.{Answer};
ghost use Rattle.nq_base.specs.declared.Party.{Party};
ghost use Rattle.nq_hosts.specs.ClientTurn.{AttendsTurn, GoesOn, Receives, SendsOut, Stages, Takes, first_of, given_by, goes_on, tick_due};
ghost use Rattle.nq_clock.specs.Clocks.{clock_told};
ghost use Rattle.nq_link.specs.Links.{link_told, most_bytes};

use nq_base::ending::Fault;
use nq_base::{Answer, Journal, Party, Ticks};
use nq_client::{Client, Reaction};
use nq_clock::Clock;
use nq_link::{Came, Link, MOST_BYTES, Sent, send_all};
use nq_wire::Outbox;
use std::alloc::Global;

/// A turn of a client. It reads the clock once. Where the reading is above the client's time, the client takes in one tick to that
/// time. It asks the link for one receive. The client takes in the datagram that came, cut to 4401 bytes; one that another party
/// than the server sent is dropped. Then all that came out is sent, in order. `next` is the number that the client is told of
/// the next datagram that it is given; it rises by one for each that it takes in, and stops at `u64::MAX`. It answers with what answers
/// the call under way, if anything does.
///
/// # Errors
///
/// `Link` only where the link counted a fault, `Memory` where memory was refused, and `Spent` where the client was at the step
/// that stopped the turn. What was done before stays done, the rest of the turn is left out, an answer that the tick brought is
/// told by the journal alone, and the datagram of the step that was refused is gone.
pub fn client_turn<L: Link, C: Clock>(
    alloc: Global,
    client: &mut Client,
    link: &mut L,
    clock: &mut C,
    next: &mut u64,
    log: &mut Journal,
) -> Result<Option<Answer>, Fault>
    ensures turn { AttendsTurn result next.old next.new
        (clock_told C.floor C.readings C.reads clock.old) (clock_told C.floor C.readings C.reads clock.new)
        (link_told L.sent L.waiting L.faults L.receives link.old)
        (link_told L.sent L.waiting L.faults L.receives link.new)
        client.old client.new log.old log.new }
{
    let mut out = Outbox::new(alloc, 0).unwrap();
    attend(client, link, clock, next, &mut out, log)
}

/// The stages of a turn. It answers with what answers the call under way, if anything does.
fn attend<L: Link, C: Clock>(
    client: &mut Client,
    link: &mut L,
    clock: &mut C,
    next: &mut u64,
    out: &mut Outbox,
    log: &mut Journal,
) -> Result<Option<Answer>, Fault>
    ensures { Stages result (clock_told C.floor C.readings C.reads clock.old) (clock_told C.floor C.readings C.reads clock.new)
        (link_told L.sent L.waiting L.faults L.receives link.old)
        (link_told L.sent L.waiting L.faults L.receives link.new)
        (record { client = client.old; out = out.old; log = log.old; next = next.old })
        (record { client = client.new; out = out.new; log = log.new; next = next.new }) }
{
    let reading = clock.now();
    match tick_to(client, reading, next, out, log) {
        Ok(ticked) => go_on(client, link, ticked, next, out, log),
        Err(why) => Err(why),
    }
}

/// What a turn does after its tick: it receives, takes in, and sends.
fn go_on<L: Link>(
    client: &mut Client,
    link: &mut L,
    ticked: Option<Answer>,
    next: &mut u64,
    out: &mut Outbox,
    log: &mut Journal,
) -> Result<Option<Answer>, Fault>
    ensures { GoesOn (Ok ticked) result
        (link_told L.sent L.waiting L.faults L.receives link.old)
        (link_told L.sent L.waiting L.faults L.receives link.new)
        (record { client = client.old; out = out.old; log = log.old; next = next.old })
        (record { client = client.new; out = out.new; log = log.new; next = next.new }) }
{
    match take_from(client, link, next, out, log) {
        Ok(came) => send_out(link, out, first(ticked, came)),
        Err(why) => Err(why),
    }
}

/// Sends all that came out, and ends the turn with the answer that it brought.
fn send_out<L: Link>(
    link: &mut L,
    out: &Outbox,
    answer: Option<Answer>,
) -> Result<Option<Answer>, Fault>
    ensures { SendsOut out.now.datagrams answer result
        (link_told L.sent L.waiting L.faults L.receives link.old)
        (link_told L.sent L.waiting L.faults L.receives link.new) }
{
    match send_all(link, out) {
        Sent::All => Ok(answer),
        Sent::Failed => Err(Fault::Link),
    }
}

/// The first of two answers.
fn first(one: Option<Answer>, other: Option<Answer>) -> Option<Answer>
    ensures { result ≡ first_of one other }
{
    match one {
        Some(answer) => Some(answer),
        None => other,
    }
}

/// Gives a client the tick to this time, where the time is above its own.
fn tick_to(
    client: &mut Client,
    reading: Ticks,
    next: &u64,
    out: &mut Outbox,
    log: &mut Journal,
) -> Result<Option<Answer>, Fault>
    requires { reading < 2 ^ 62 }
    ensures { Takes (tick_due client.old.client.now reading) result
        (record { client = client.old; out = out.old; log = log.old; next = next.now })
        (record { client = client.new; out = out.new; log = log.new; next = next.now }) }
{
    if reading <= client.time() {
        return Ok(None);
    }
    heard(client.tick(reading, out, log))
}

/// Receives once, and gives a client the datagram that came.
#[tactic(auto, unfolding(nq_link::specs::Links::most_bytes))]
fn take_from<L: Link>(
    client: &mut Client,
    link: &mut L,
    next: &mut u64,
    out: &mut Outbox,
    log: &mut Journal,
) -> Result<Option<Answer>, Fault>
    ensures { Receives result
        (link_told L.sent L.waiting L.faults L.receives link.old)
        (link_told L.sent L.waiting L.faults L.receives link.new)
        (record { client = client.old; out = out.old; log = log.old; next = next.old })
        (record { client = client.new; out = out.new; log = log.new; next = next.new }) }
{
    let mut buffer = [0; MOST_BYTES];
    take_through(client, link, &mut buffer, next, out, log)
}

/// Receives once into a buffer, and gives a client the datagram that came.
fn take_through<L: Link>(
    client: &mut Client,
    link: &mut L,
    buffer: &mut [u8],
    next: &mut u64,
    out: &mut Outbox,
    log: &mut Journal,
) -> Result<Option<Answer>, Fault>
    requires { length buffer.old ≡ most_bytes }
    ensures { Receives result
        (link_told L.sent L.waiting L.faults L.receives link.old)
        (link_told L.sent L.waiting L.faults L.receives link.new)
        (record { client = client.old; out = out.old; log = log.old; next = next.old })
        (record { client = client.new; out = out.new; log = log.new; next = next.new }) }
{
    match link.receive(buffer) {
        Came::Nothing => Ok(None),
        Came::Failed => Err(Fault::Link),
        Came::Datagram { length, sender } => {
            take_in(client, sender, &buffer[..length], next, out, log)
        }
    }
}

/// Gives a client a datagram, if the server sent it.
fn take_in(
    client: &mut Client,
    sender: Party,
    datagram: &[u8],
    next: &mut u64,
    out: &mut Outbox,
    log: &mut Journal,
) -> Result<Option<Answer>, Fault>
    ensures { Takes (given_by (sender, datagram.now)) result
        (record { client = client.old; out = out.old; log = log.old; next = next.old })
        (record { client = client.new; out = out.new; log = log.new; next = next.new }) }
{
    match sender {
        Party::Client(_) => Ok(None),
        Party::Server => {
            let made = heard(client.receive(*next, datagram, out, log));
            if made.is_ok() {
                *next = next.saturating_add(1);
            }
            made
        }
    }
}

/// The answer that a turn brings where a client has taken something so.
fn heard(how: Reaction) -> Result<Option<Answer>, Fault>
    ensures { result ≡ goes_on how }
{
    match how {
        Reaction::Nothing | Reaction::Ignored => Ok(None),
        Reaction::Answered(answer) => Ok(Some(answer)),
        Reaction::Memory => Err(Fault::Memory),
        Reaction::Spent => Err(Fault::Spent),
    }
}
