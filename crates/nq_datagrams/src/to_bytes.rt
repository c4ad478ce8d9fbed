//! Writing messages.

ghost use Rattle.std.specs.Prelude.{◌≡◌, ◌+◌, ◌≤◌, ◌++◌, IsOk, OnOk, OnErr};
ghost use Rattle.nq_model.specs.protocol.Message.{call};
ghost use Rattle.nq_wire.specs.Request.{HasSpelling, procedure_of};
ghost use Rattle.nq_wire.specs.Procedure.{number_of};
ghost use Rattle.nq_datagrams.specs.Messages.{FitsMessage, bytes_of, program, version};

use crate::numbers::{PROGRAM, VERSION};
use nq_base::{NoMemory, Request};
use nq_wire::{LONGEST_ARGUMENTS, Procedure, encode_request_into};
use nq_xdr::Writer;
use nq_xdr::rpc::{CallHead, begin_call};

/// The most bytes of a call: those of a WRITE that is a push.
pub const LONGEST_CALL: usize = 40 + LONGEST_ARGUMENTS;

/// Writes a request as a call behind what `out` holds. Memory is wanted only where `out` has too little room, and
/// [`LONGEST_CALL`] bytes are always room enough. A refusal leaves `out` as it was.
#[tactic(auto, unfolding(crate::specs::Messages::bytes_of))]
pub fn write_call(xid: u32, request: &Request, out: &mut Writer) -> Result<(), NoMemory>
    requires { HasSpelling request.now }
    ensures written { OnOk result (out.new.bytes ≡ out.old.bytes ++ bytes_of (call xid request.now)) }
    ensures fits { OnOk result (FitsMessage (call xid request.now)) }
    ensures refused { OnErr result (out.new ≡ out.old) }
    ensures succeeds { LONGEST_CALL ≤ out.old.spare → IsOk result }
    ensures spare { out.old.spare ≤ out.new.spare + LONGEST_CALL }
{
    out.reserve(LONGEST_CALL)?;
    begin_call(&head_of(xid, request), out).unwrap();
    encode_request_into(request, out).unwrap();
    Ok(())
}

/// What a call of the program begins with.
pub(crate) fn head_of(xid: u32, request: &Request) -> CallHead
    ensures { result ≡ record { xid = xid; prog = program; vers = version; procedure = number_of (procedure_of request.now) } }
{
    CallHead {
        xid,
        prog: PROGRAM,
        vers: VERSION,
        procedure: Procedure::of(request).number(),
    }
}
