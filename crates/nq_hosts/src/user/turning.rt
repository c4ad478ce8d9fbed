//! Turns of a client, up to the one that reaches what they are taken for.

ghost use Rattle.std.specs.Prelude.{◌≡◌};
ghost use Rattle.nq_clock.specs.Clocks.{clock_told};
ghost use Rattle.nq_link.specs.Links.{link_told};
ghost use Rattle.nq_hosts.specs.UserTurning.{TakesTurn, TakesTurns, between, reached};

use crate::node::client_turn;
use crate::user::aims::Aim;
use crate::user::session::Session;
use nq_base::ending::Fault;
use nq_client::Client;
use nq_clock::Clock;
use nq_link::Link;
use std::alloc::Global;

/// Takes turns of a client, at most so many, up to the first that reaches the aim.
pub(crate) fn take_turns<L: Link, C: Clock>(
    alloc: Global,
    session: &mut Session,
    link: &mut L,
    clock: &mut C,
    aim: Aim,
    turns: u32,
) -> Result<(), Fault>
    ensures { TakesTurns aim turns result
        (between session.old (clock_told C.floor C.readings C.reads clock.old) (link_told L.sent L.waiting L.faults L.receives link.old))
        (between session.new (clock_told C.floor C.readings C.reads clock.new) (link_told L.sent L.waiting L.faults L.receives link.new)) }
{
    for _turn in 0..turns {
        match take_turn(alloc, session, link, clock, aim) {
            Ok(done) => {
                if done {
                    return Ok(());
                }
            }
            Err(why) => return Err(why),
        }
    }
    Err(Fault::NoAnswer)
}

/// Takes one turn of a client, and tells whether the aim is reached.
fn take_turn<L: Link, C: Clock>(
    alloc: Global,
    session: &mut Session,
    link: &mut L,
    clock: &mut C,
    aim: Aim,
) -> Result<bool, Fault>
    ensures { TakesTurn aim result
        (between session.old (clock_told C.floor C.readings C.reads clock.old) (link_told L.sent L.waiting L.faults L.receives link.old))
        (between session.new (clock_told C.floor C.readings C.reads clock.new) (link_told L.sent L.waiting L.faults L.receives link.new)) }
{
    let client = &mut session.client;
    match client_turn(
        alloc,
        client,
        link,
        clock,
        &mut session.next,
        &mut session.log,
    ) {
        Ok(_answer) => Ok(is_reached(&session.client, aim)),
        Err(why) => Err(why),
    }
}

/// Whether a client is where turns are to bring it.
pub(crate) fn is_reached(client: &Client, aim: Aim) -> bool
    ensures { result ≡ reached aim client.now.client }
{
    match aim {
        Aim::Attached => client.is_attached(),
        Aim::Answered => client.call_under_way().is_none(),
    }
}
