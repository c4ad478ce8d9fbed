//! Writing results.

ghost use Rattle.std.specs.Prelude.{◌≡◌, ◌+◌, ◌≤◌, ◌^◌, ◌<◌, ◌++◌, length, IfOk, OnOk, OnErr, IsOk};
ghost use Rattle.nq_xdr.specs.Item.{word};
ghost use Rattle.nq_wire.specs.declared.procedure.Procedure.{Procedure};
ghost use Rattle.nq_wire.specs.Procedure.{number_of};
ghost use Rattle.nq_wire.specs.Reply.{ok, results, results_len, IsReply, Answers, IsResults};

use crate::parts::encoding::{put_body, put_optional_grant};
use crate::{NoMemory, Reply, status};
use nq_base::Inc;
use nq_xdr::Writer;
use std::alloc::Global;

/// The most bytes that the results of a procedure take: those of a READ with a grant.
pub const LONGEST_RESULTS: usize = 4164;

/// How many bytes the results take.
fn results_len(reply: &Reply) -> usize
    ensures length { result ≡ results_len reply.now }
    ensures most { result ≤ LONGEST_RESULTS }
{
    match reply {
        Reply::Null => 0,
        Reply::Attach { .. } | Reply::Remove { .. } | Reply::Refused { .. } => 8,
        Reply::Create { .. } => 12,
        Reply::Lookup { .. } | Reply::Write { .. } | Reply::Resize { .. } => 16,
        Reply::GetAttr { .. } => 20,
        Reply::Read { grant, .. } => 4120 + if grant.is_some() { 44 } else { 0 },
        Reply::GetLease { grant, .. } => 12 + if grant.is_some() { 44 } else { 0 },
    }
}

/// Writes the incarnation and a status.
fn put_status(inc: Inc, status: u32, out: &mut Writer)
    requires { 8 ≤ out.old.spare }
    ensures written { out.new.bytes ≡ out.old.bytes ++ word inc ++ word status }
    ensures fits { inc < 2 ^ 32 }
    ensures spare { out.old.spare ≤ out.new.spare + 8 }
{
    out.put_u32(inc.0);
    out.put_u32(status);
}

#[tactic(auto, unfolding(crate::specs::Reply::ok))]
fn put_ok(inc: Inc, out: &mut Writer)
    requires { 8 ≤ out.old.spare }
    ensures written { out.new.bytes ≡ out.old.bytes ++ ok inc }
    ensures fits { inc < 2 ^ 32 }
    ensures spare { out.old.spare ≤ out.new.spare + 8 }
{
    put_status(inc, status::OK, out);
}

/// Writes the results. There is room. It is inlined, so that a caller's reply that has no block needs no room for one.
#[inline(always)]
#[tactic(auto, unfolding(crate::specs::Reply::results))]
fn put_reply(reply: &Reply, out: &mut Writer)
    requires { results_len reply.now ≤ out.old.spare }
    ensures written { out.new.bytes ≡ out.old.bytes ++ results reply.now }
    ensures fits { IsReply reply.now }
    ensures spare { out.old.spare ≤ out.new.spare + results_len reply.now }
{
    match reply {
        Reply::Null => {}
        Reply::Attach { inc } | Reply::Remove { inc } => put_ok(*inc, out),
        Reply::Lookup { inc, file, blocks } => {
            put_ok(*inc, out);
            out.put_u32(file.0);
            out.put_u32(*blocks);
        }
        Reply::Create { inc, file } => {
            put_ok(*inc, out);
            out.put_u32(file.0);
        }
        Reply::GetAttr { inc, blocks, rev } => {
            put_ok(*inc, out);
            out.put_u32(*blocks);
            out.put_u64(rev.0);
        }
        Reply::Read {
            inc,
            rev,
            body,
            grant,
        } => {
            put_ok(*inc, out);
            out.put_u64(rev.0);
            put_body(body, out);
            put_optional_grant(grant, out);
        }
        Reply::Write { inc, rev } | Reply::Resize { inc, rev } => {
            put_ok(*inc, out);
            out.put_u64(rev.0);
        }
        Reply::GetLease { inc, grant } => {
            put_ok(*inc, out);
            put_optional_grant(grant, out);
        }
        Reply::Refused { inc, status } => put_status(*inc, status::number(*status), out),
    }
}

/// Writes the results of a reply behind what `out` holds. Memory is wanted only where `out` has too
/// little room, and [`LONGEST_RESULTS`] are always room enough. A refusal leaves `out` as it was. It is inlined,
/// as what it calls is.
#[inline(always)]
pub fn encode_reply_into(reply: &Reply, out: &mut Writer) -> Result<(), NoMemory>
    ensures written { OnOk result (out.new.bytes ≡ out.old.bytes ++ results reply.now) }
    ensures fits { OnOk result (IsReply reply.now) }
    ensures refused { OnErr result (out.new ≡ out.old) }
    ensures succeeds { results_len reply.now ≤ out.old.spare → IsOk result }
    ensures room_enough { LONGEST_RESULTS ≤ out.old.spare → IsOk result }
    ensures spare { out.old.spare ≤ out.new.spare + results_len reply.now }
{
    out.reserve(results_len(reply))?;
    put_reply(reply, out);
    Ok(())
}

/// The results of a reply, whichever procedure it answers.
pub fn encode_reply(alloc: Global, reply: &Reply) -> Result<Vec<u8>, NoMemory>
    ensures written { IfOk result (λ v. v.items ≡ results reply.now) }
    ensures spelled { IfOk result (λ v. (p : Procedure) → Answers reply.now p → IsResults (number_of p) reply.now v.items) }
{
    let mut out = Writer::new(alloc)?;
    encode_reply_into(reply, &mut out)?;
    Ok(out.into_bytes())
}
