//! What a datagram is to the server.

ghost use Rattle.std.specs.Prelude.{◌≡◌, true, Ok};
ghost use Rattle.nq_xdr.specs.Lent.{lent_message};
ghost use Rattle.nq_datagrams.specs.Incoming.{asked_as, called_as, datagram_in, read_as};
ghost use Rattle.nq_datagrams.specs.Told.{told};

use crate::numbers::{
    EVICTED, LAST_PROCEDURE, LONGEST_DATAGRAM, PROGRAM, RPC_VERSION, VACATED, VERSION,
};
use nq_base::{Request, Spare};
use nq_wire::{WireFault, decode_request};
use nq_xdr::rpc::{LentCall, LentMessage, RpcFault, decode_in_place};

/// What a datagram is to the server: the classes stand in the order in which they are tried.
#[derive(Drop)]
pub enum Incoming {
    /// It has more than 4400 bytes.
    TooLong,
    /// It is no message of RPC (RFC 1057 section 8).
    NoMessage(RpcFault),
    /// It is a reply.
    NoCall,
    /// It is a call of another version of RPC than 2.
    OtherRpc { xid: u32 },
    /// It is a call of another program.
    OtherProgram { xid: u32 },
    /// It is a call of another version of the program than 1.
    OtherVersion { xid: u32 },
    /// It is a call of a procedure that is not served: EVICTED, or one above the last.
    UnknownProcedure { xid: u32 },
    /// It is a VACATED whose arguments are not in its grammar. No reply is owed.
    GarbageVacated,
    /// It is a call whose arguments are not in the grammar of its procedure.
    Garbage { xid: u32 },
    /// It is a request.
    Request { xid: u32, request: Request },
}

/// Reads a datagram that came to the server. A body goes into `room`, so no memory is wanted.
#[tactic(auto, unfolding(crate::specs::Incoming::datagram_in))]
pub fn read_incoming(datagram: &[u8], room: &mut Spare) -> Incoming
    requires { room.old ≡ true }
    ensures { told result ≡ datagram_in datagram.now }
{
    if datagram.len() > LONGEST_DATAGRAM {
        return Incoming::TooLong;
    }
    match decode_in_place(datagram) {
        Err(fault) => Incoming::NoMessage(fault),
        Ok(message) => of_message(message, room),
    }
}

fn of_message(message: LentMessage<'_>, room: &mut Spare) -> Incoming
    requires { room.old ≡ true }
    ensures { told result ≡ read_as (Ok (lent_message message.entry)) }
{
    match message {
        LentMessage::Reply(_) => Incoming::NoCall,
        LentMessage::Call(call) => called(call, room),
    }
}

/// A call, by its numbers in the order in which they are tested.
#[tactic(auto, unfolding(crate::specs::Incoming::called_as))]
fn called(call: LentCall<'_>, room: &mut Spare) -> Incoming
    requires { room.old ≡ true }
    ensures { told result ≡ called_as (record { head = call.entry.head; rpcvers = call.entry.rpcvers; arguments = call.entry.arguments.now }) }
{
    let LentCall {
        head,
        rpcvers,
        arguments,
    } = call;
    let xid = head.xid;
    if rpcvers != RPC_VERSION {
        return Incoming::OtherRpc { xid };
    }
    if head.prog != PROGRAM {
        return Incoming::OtherProgram { xid };
    }
    if head.vers != VERSION {
        return Incoming::OtherVersion { xid };
    }
    if head.procedure == EVICTED || head.procedure > LAST_PROCEDURE {
        return Incoming::UnknownProcedure { xid };
    }
    asked(
        xid,
        head.procedure,
        decode_request(head.procedure, arguments, room),
    )
}

/// A call of a procedure that is served, by what its arguments are.
fn asked(xid: u32, procedure: u32, read: Result<Request, WireFault>) -> Incoming
    ensures { told result ≡ asked_as xid procedure read }
{
    match read {
        Ok(request) => Incoming::Request { xid, request },
        Err(_) if procedure == VACATED => Incoming::GarbageVacated,
        Err(_) => Incoming::Garbage { xid },
    }
}
