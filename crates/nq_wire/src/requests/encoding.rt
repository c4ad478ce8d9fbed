//! Writing arguments.

ghost use Rattle.std.specs.Prelude.{◌≡◌, ◌+◌, ◌≤◌, ◌++◌, true, length, IfSome, IfOk, OnOk, OnErr, IsOk};
ghost use Rattle.nq_xdr.specs.Item.{word, hyper};
ghost use Rattle.nq_wire.specs.Parts.{head, base_bytes, optional, optional_len, IsWho, IsPushBase};
ghost use Rattle.nq_wire.specs.Procedure.{number_of};
ghost use Rattle.nq_wire.specs.Request.{procedure_of, arguments, arguments_len, is_of_block, is_of_length, IsRequest, HasSpelling, IsArguments};

use crate::parts::encoding::{
    name_len, put_body, put_name, put_optional_base, put_optional_want, put_tag, put_want, put_who,
};
use crate::{NoMemory, PushBase, Request};
use nq_base::Who;
use nq_xdr::Writer;
use std::alloc::Global;

/// The most bytes that the arguments of a procedure take: those of a WRITE that is a push.
pub const LONGEST_ARGUMENTS: usize = 4156;

/// How many bytes the arguments take.
fn arguments_len(request: &Request) -> usize
    ensures length { result ≡ arguments_len request.now }
    ensures most { result ≤ LONGEST_ARGUMENTS }
{
    match request {
        Request::Null => 0,
        Request::Attach { .. } => 8,
        Request::Lookup { name, .. } => 8 + name_len(name),
        Request::Create { name, .. } => 20 + name_len(name),
        Request::GetAttr { .. } => 12,
        Request::Read { want, .. } => 28 + if want.is_some() { 8 } else { 0 },
        Request::Write { push, .. } => 4144 + if push.is_some() { 12 } else { 0 },
        Request::GetLease { .. } => 20,
        Request::Vacated { .. } | Request::Evicted { .. } => 24,
        Request::Resize { .. } => 32,
        Request::Remove { .. } => 28,
    }
}

/// Writes who asks, and a file.
fn put_file(who: &Who, file: u32, out: &mut Writer)
    requires { 12 ≤ out.old.spare }
    ensures written { out.new.bytes ≡ out.old.bytes ++ head who.now ++ word file }
    ensures fits { IsWho who.now }
    ensures spare { out.old.spare ≤ out.new.spare + 12 }
{
    put_who(who, out);
    out.put_u32(file);
}

/// Writes who asks, and a sequence.
fn put_sequence(who: &Who, seq: u64, out: &mut Writer)
    requires { 16 ≤ out.old.spare }
    ensures written { out.new.bytes ≡ out.old.bytes ++ head who.now ++ hyper seq }
    ensures fits { IsWho who.now }
    ensures spare { out.old.spare ≤ out.new.spare + 16 }
{
    put_who(who, out);
    out.put_u64(seq);
}

/// Writes a file and a block.
fn put_place(file: u32, block: u32, out: &mut Writer)
    requires { 8 ≤ out.old.spare }
    ensures written { out.new.bytes ≡ out.old.bytes ++ word file ++ word block }
    ensures spare { out.old.spare ≤ out.new.spare + 8 }
{
    out.put_u32(file);
    out.put_u32(block);
}

/// Writes the numbers of the first and the last write, and what they rest on.
fn put_span(first: u64, last: u64, push: &Option<PushBase>, out: &mut Writer)
    requires { 16 + optional_len 12 push.now ≤ out.old.spare }
    ensures written { out.new.bytes ≡ out.old.bytes ++ hyper first ++ hyper last ++ optional base_bytes push.now }
    ensures fits { IfSome push.now IsPushBase }
    ensures spare { out.old.spare ≤ out.new.spare + (16 + optional_len 12 push.now) }
{
    out.put_u64(first);
    out.put_u64(last);
    put_optional_base(push, out);
}

/// Writes who asks, a sequence, and the number of a call.
fn put_of_call(who: &Who, seq: u64, call: u64, out: &mut Writer)
    requires { 24 ≤ out.old.spare }
    ensures written { out.new.bytes ≡ out.old.bytes ++ head who.now ++ hyper seq ++ hyper call }
    ensures fits { IsWho who.now }
    ensures spare { out.old.spare ≤ out.new.spare + 24 }
{
    put_sequence(who, seq, out);
    out.put_u64(call);
}

/// Writes the arguments, item by item. There is room.
#[tactic(auto, unfolding(crate::specs::Request::arguments))]
fn put_request(request: &Request, out: &mut Writer)
    requires { arguments_len request.now ≤ out.old.spare }
    ensures written { out.new.bytes ≡ out.old.bytes ++ arguments request.now }
    ensures fits { IsRequest request.now }
    ensures spare { out.old.spare ≤ out.new.spare + arguments_len request.now }
{
    match request {
        Request::Null => {}
        Request::Attach { who } => put_who(who, out),
        Request::Lookup { who, name } => {
            put_who(who, out);
            put_name(name, out);
        }
        Request::GetAttr { who, file } => put_file(who, file.0, out),
        Request::GetLease { who, file, want } => {
            put_file(who, file.0, out);
            put_want(want, out);
        }
        Request::Vacated { who, file, tag } | Request::Evicted { who, file, tag } => {
            put_file(who, file.0, out);
            put_tag(tag, out);
        }
        Request::Read { .. } | Request::Write { .. } => put_of_block(request, out),
        Request::Create { .. } | Request::Resize { .. } | Request::Remove { .. } => {
            put_of_length(request, out)
        }
    }
}

/// Writes the arguments of a request that reads or writes a block. There is room.
#[tactic(auto, unfolding(crate::specs::Request::arguments))]
fn put_of_block(request: &Request, out: &mut Writer)
    requires block { is_of_block request.now ≡ true }
    requires room { arguments_len request.now ≤ out.old.spare }
    ensures written { out.new.bytes ≡ out.old.bytes ++ arguments request.now }
    ensures fits { IsRequest request.now }
    ensures spare { out.old.spare ≤ out.new.spare + arguments_len request.now }
{
    match request {
        Request::Read {
            who,
            call,
            file,
            block,
            want,
        } => {
            put_sequence(who, *call, out);
            put_place(file.0, block.0, out);
            put_optional_want(want, out);
        }
        Request::Write {
            who,
            seq,
            file,
            block,
            first,
            last,
            push,
            body,
        } => {
            put_sequence(who, seq.0, out);
            put_place(file.0, block.0, out);
            put_span(first.0, last.0, push, out);
            put_body(body, out);
        }
        _ => unreachable!(),
    }
}

/// Writes the arguments of a request that makes a file, gives it another length, or takes it away. There is room.
#[tactic(auto, unfolding(crate::specs::Request::arguments))]
fn put_of_length(request: &Request, out: &mut Writer)
    requires length { is_of_length request.now ≡ true }
    requires room { arguments_len request.now ≤ out.old.spare }
    ensures written { out.new.bytes ≡ out.old.bytes ++ arguments request.now }
    ensures fits { IsRequest request.now }
    ensures spare { out.old.spare ≤ out.new.spare + arguments_len request.now }
{
    match request {
        Request::Create {
            who,
            seq,
            name,
            blocks,
        } => {
            put_sequence(who, seq.0, out);
            put_name(name, out);
            out.put_u32(*blocks);
        }
        Request::Resize {
            who,
            seq,
            call,
            file,
            blocks,
        } => {
            put_of_call(who, seq.0, *call, out);
            put_place(file.0, *blocks, out);
        }
        Request::Remove {
            who,
            seq,
            call,
            file,
        } => {
            put_of_call(who, seq.0, *call, out);
            out.put_u32(file.0);
        }
        _ => unreachable!(),
    }
}

/// Writes the arguments of a request behind what `out` holds. Memory is wanted only where `out` has too
/// little room, and [`LONGEST_ARGUMENTS`] are always room enough. A refusal leaves `out` as it was.
pub fn encode_request_into(request: &Request, out: &mut Writer) -> Result<(), NoMemory>
    requires { HasSpelling request.now }
    ensures written { OnOk result (out.new.bytes ≡ out.old.bytes ++ arguments request.now) }
    ensures fits { OnOk result (IsRequest request.now) }
    ensures refused { OnErr result (out.new ≡ out.old) }
    ensures succeeds { arguments_len request.now ≤ out.old.spare → IsOk result }
    ensures room_enough { LONGEST_ARGUMENTS ≤ out.old.spare → IsOk result }
    ensures spare { out.old.spare ≤ out.new.spare + arguments_len request.now }
{
    out.reserve(arguments_len(request))?;
    put_request(request, out);
    Ok(())
}

/// The arguments of a request.
pub fn encode_request(alloc: Global, request: &Request) -> Result<Vec<u8>, NoMemory>
    requires { HasSpelling request.now }
    ensures { IfOk result (λ v. IsArguments (number_of (procedure_of request.now)) request.now v.items) }
{
    let mut out = Writer::new(alloc)?;
    encode_request_into(request, &mut out)?;
    Ok(out.into_bytes())
}
