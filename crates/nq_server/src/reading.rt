//! Datagrams to a server.

ghost use Rattle.std.specs.Prelude.{ℕ, ◌<◌, ◌^◌};
ghost use Rattle.nq_base.specs.Entries.{EntryList};
ghost use Rattle.nq_datagrams.specs.Told.{told};
ghost use Rattle.nq_model.specs.protocol.Kept.{Kept};
ghost use Rattle.nq_model.specs.protocol.ServerStep.{receive};
ghost use Rattle.nq_server.specs.Answering.{IsNoRequest};
ghost use Rattle.nq_server.specs.Leasing.{Does};
ghost use Rattle.nq_server.specs.Sound.{IsSound, StaysSound};
ghost use Rattle.nq_server.specs.State.{Beside, beside_of, server_of};
ghost use Rattle.nq_server.specs.Stepping.{LeavesStep, Takes, next_of};

use crate::received::{EventTaken, Reason};
use crate::replying::say_error;
use crate::requests::{Origin, answer};
use crate::state::State;
use nq_base::{Host, Journal};
use nq_datagrams::{ErrorReply, Incoming};
use nq_keeper::{KeepFault, Keeper};
use nq_wire::Outbox;
use std::alloc::Global;

/// Takes in a datagram that is no request.
fn take_other(
    alloc: Global,
    sender: Host,
    incoming: &Incoming,
    out: &mut Outbox,
) -> Result<EventTaken, KeepFault>
    requires { IsNoRequest incoming.now }
    ensures { (held : Beside) (kept : Kept) (next : ℕ) (log : EntryList)
        → Does (receive (server_of held kept) sender next (told incoming.now)) result held held out.old out.new log log }
{
    match incoming {
        Incoming::TooLong => Ok(EventTaken::Dropped(Reason::TooLong)),
        Incoming::NoMessage(fault) => Ok(EventTaken::Dropped(Reason::Rpc(*fault))),
        Incoming::NoCall => Ok(EventTaken::Dropped(Reason::NotACall)),
        Incoming::OtherRpc { xid } => {
            say_error(alloc, sender, *xid, ErrorReply::RpcMismatch, out)
        }
        Incoming::OtherProgram { xid } => {
            say_error(alloc, sender, *xid, ErrorReply::ProgramUnavailable, out)
        }
        Incoming::OtherVersion { xid } => {
            say_error(alloc, sender, *xid, ErrorReply::ProgramMismatch, out)
        }
        Incoming::UnknownProcedure { xid } => {
            say_error(alloc, sender, *xid, ErrorReply::ProcedureUnavailable, out)
        }
        Incoming::GarbageVacated => Ok(EventTaken::Dropped(Reason::NoReplyOwed)),
        Incoming::Garbage { xid } => {
            say_error(alloc, sender, *xid, ErrorReply::GarbageArguments, out)
        }
        Incoming::Request { .. } => unreachable!(),
    }
}

/// Takes a datagram in, by what it is: a request is answered, another call gets a reply that brings no result, and the rest is
/// dropped.
pub(crate) fn take_datagram<K: Keeper>(
    alloc: Global,
    keeper: &mut K,
    state: &mut State,
    sender: Host,
    incoming: Incoming,
    out: &mut Outbox,
    log: &mut Journal,
) -> Result<EventTaken, KeepFault>
    requires sound { IsSound state.old }
    requires drawn { state.old.table.drawn < 2 ^ 62 }
    ensures takes { Takes (λ kept. receive (server_of (beside_of state.old) kept) sender (next_of out.old) (told incoming)) result (K.content keeper.old)
        (K.content keeper.new) (K.faults keeper.old) (K.faults keeper.new) (beside_of state.old) (beside_of state.new) out.old out.new log.old log.new }
    ensures stays { StaysSound state.old state.new }
    ensures follows { K.follows keeper.old keeper.new }
    ensures leaves { LeavesStep (λ kept. receive (server_of (beside_of state.old) kept) sender (next_of out.old) (told incoming)) (K.content keeper.old)
        (K.leaves keeper.old keeper.new) }
{
    keeper.pause();
    match incoming {
        Incoming::Request { xid, request } => {
            let origin = Origin { host: sender, xid };
            answer(alloc, keeper, state, origin, request, out, log)
        }
        _ => take_other(alloc, sender, &incoming, out),
    }
}
