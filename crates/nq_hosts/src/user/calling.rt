//! Running one call to its answer.

ghost use Rattle.std.specs.Prelude.{◌≡◌};
ghost use Rattle.nq_link.specs.Links.{link_told};
ghost use Rattle.nq_clock.specs.Clocks.{clock_told};
ghost use Rattle.nq_hosts.specs.Calling.{Makes, RunsCall, SendsOut, refusal_of};
ghost use Rattle.nq_hosts.specs.UserTurning.{between};

use crate::user::aims::Aim;
use crate::user::session::Session;
use crate::user::turning::{is_reached, take_turns};
use nq_base::ending::Fault;
use nq_base::{Answer, Call, Journal};
use nq_client::Client;
use nq_clock::Clock;
use nq_link::{Link, Sent, send_all};
use nq_wire::Outbox;
use std::alloc::Global;

/// Runs a call to its answer, in at most so many turns.
pub(crate) fn run_call<L: Link, C: Clock>(
    alloc: Global,
    session: &mut Session,
    link: &mut L,
    clock: &mut C,
    call: &Call,
    turns: u32,
) -> Result<(), Fault>
    ensures { RunsCall turns call.now result
        (between session.old (clock_told C.floor C.readings C.reads clock.old) (link_told L.sent L.waiting L.faults L.receives link.old))
        (between session.new (clock_told C.floor C.readings C.reads clock.new) (link_told L.sent L.waiting L.faults L.receives link.new)) }
{
    match make_call(alloc, &mut session.client, link, &mut session.log, call) {
        Err(why) => Err(why),
        Ok(()) => {
            if is_reached(&session.client, Aim::Answered) {
                Ok(())
            } else {
                take_turns(alloc, session, link, clock, Aim::Answered, turns)
            }
        }
    }
}

/// Makes a call, and sends what it pushes.
fn make_call<L: Link>(
    alloc: Global,
    client: &mut Client,
    link: &mut L,
    log: &mut Journal,
    call: &Call,
) -> Result<(), Fault>
    ensures { Makes call.now result client.old client.new log.old log.new
        (link_told L.sent L.waiting L.faults L.receives link.old)
        (link_told L.sent L.waiting L.faults L.receives link.new) }
{
    let mut out = Outbox::new(alloc, 0).unwrap();
    let answer = client.call(call, &mut out, log);
    match refusal(&answer) {
        Some(why) => Err(why),
        None => send_out(link, &out),
    }
}

/// Why a call was refused that has this answer, if it was.
fn refusal(answer: &Answer) -> Option<Fault>
    ensures { result ≡ refusal_of answer.now }
{
    match answer {
        Answer::Memory => Some(Fault::Memory),
        Answer::Spent => Some(Fault::Spent),
        _ => None,
    }
}

/// Sends all that came out.
pub(crate) fn send_out<L: Link>(link: &mut L, out: &Outbox) -> Result<(), Fault>
    ensures { SendsOut out.now.datagrams result
        (link_told L.sent L.waiting L.faults L.receives link.old)
        (link_told L.sent L.waiting L.faults L.receives link.new) }
{
    match send_all(link, out) {
        Sent::All => Ok(()),
        Sent::Failed => Err(Fault::Link),
    }
}
