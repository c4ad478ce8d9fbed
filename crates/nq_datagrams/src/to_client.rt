//! What a datagram is to a client.

ghost use Rattle.std.specs.Prelude.{◌≡◌, true};
ghost use Rattle.nq_xdr.specs.Lent.{lent_outcome};
ghost use Rattle.nq_datagrams.specs.Incoming.{call_in, heard_for, reply_to};
ghost use Rattle.nq_datagrams.specs.Told.{owned, told_client, told_lent};

use crate::numbers::{EVICTED, PROGRAM, RPC_VERSION, VERSION};
use nq_base::{Reply, Request, Spare};
use nq_wire::{LentReply, Procedure, decode_reply_in_place, decode_request};
use nq_xdr::rpc::{LentCall, LentMessage, LentOutcome, decode_in_place};

/// The request of a client for whose reply it waits.
#[derive(Clone, Copy)]
pub struct Awaited {
    /// Its number.
    pub xid: u32,
    /// Its procedure: a reply names none.
    pub procedure: Procedure,
}

/// What a client takes in, as it stands in a datagram, which lends the body that it brings.
#[derive(Drop)]
pub enum LentHeard<'a> {
    /// An EVICTED.
    Notice { xid: u32, request: Request },
    /// The reply to the request for which it waits.
    Reply { xid: u32, reply: LentReply<'a> },
}

/// What a client takes in.
#[derive(Drop)]
pub enum Heard {
    /// An EVICTED.
    Notice { xid: u32, request: Request },
    /// The reply to the request for which it waits.
    Reply { xid: u32, reply: Reply },
}

impl LentHeard<'_> {
    /// The same with a body of its own, in room that was taken ahead.
    pub fn kept(self, room: &mut Spare) -> Heard
        requires { room.old ≡ true }
        ensures { result ≡ owned self.entry }
    {
        match self {
            LentHeard::Notice { xid, request } => Heard::Notice { xid, request },
            LentHeard::Reply { xid, reply } => Heard::Reply {
                xid,
                reply: reply.kept(room),
            },
        }
    }
}

/// Reads a datagram that came to a client; None where it is neither a notice nor the reply for which it waits. A body goes
/// into `room`, so no memory is wanted.
pub fn read_heard(awaited: Option<Awaited>, datagram: &[u8], room: &mut Spare) -> Option<Heard>
    requires { room.old ≡ true }
    ensures { told_client result ≡ heard_for awaited datagram.now }
{
    match read_heard_in_place(awaited, datagram) {
        Some(heard) => Some(heard.kept(room)),
        None => None,
    }
}

/// Reads a datagram that came to a client; None where it is neither a notice nor the reply for which it waits. A body is
/// lent.
#[tactic(auto, unfolding(crate::specs::Incoming::heard_for))]
pub fn read_heard_in_place(awaited: Option<Awaited>, datagram: &[u8]) -> Option<LentHeard<'_>>
    ensures { told_lent result ≡ heard_for awaited datagram.now }
{
    let message = match decode_in_place(datagram) {
        Err(_) => return None,
        Ok(message) => message,
    };
    match message {
        LentMessage::Call(call) => of_call(call),
        LentMessage::Reply(reply) => of_reply(awaited, reply.xid, reply.outcome),
    }
}

/// A call: EVICTED alone concerns a client. It brings no body.
#[tactic(auto, unfolding(crate::specs::Incoming::call_in))]
fn of_call(call: LentCall<'_>) -> Option<LentHeard<'_>>
    ensures { told_lent result ≡ call_in (record { head = call.entry.head; rpcvers = call.entry.rpcvers; arguments = call.entry.arguments.now }) }
{
    let LentCall {
        head,
        rpcvers,
        arguments,
    } = call;
    if rpcvers != RPC_VERSION
        || head.prog != PROGRAM
        || head.vers != VERSION
        || head.procedure != EVICTED
    {
        return None;
    }
    match decode_request(EVICTED, arguments, &mut Spare::none()) {
        Ok(request) => Some(LentHeard::Notice {
            xid: head.xid,
            request,
        }),
        Err(_) => None,
    }
}

/// A reply: one to the request for which the client waits is read by the procedure of that request.
#[tactic(auto, unfolding(crate::specs::Incoming::reply_to))]
fn of_reply(awaited: Option<Awaited>, xid: u32, outcome: LentOutcome<'_>) -> Option<LentHeard<'_>>
    ensures { told_lent result ≡ reply_to awaited xid (lent_outcome outcome.entry) }
{
    match (awaited, outcome) {
        (Some(awaited), LentOutcome::Success(results)) if xid == awaited.xid => {
            match decode_reply_in_place(awaited.procedure.number(), results) {
                Ok(reply) => Some(LentHeard::Reply { xid, reply }),
                Err(_) => None,
            }
        }
        _ => None,
    }
}
