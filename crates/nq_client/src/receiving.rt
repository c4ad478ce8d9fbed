//! Datagrams that come to a client, and which of them count.

ghost use Rattle.std.specs.Prelude.{◌≡◌, ℕ, Some, None, IfSome, IsTrue, if◌then◌else◌, option_map};
ghost use Rattle.nq_datagrams.specs.Incoming.{awaited_of, hears_in};
ghost use Rattle.nq_datagrams.specs.Told.{owned, told_message};
ghost use Rattle.nq_model.specs.protocol.Hear.{hear, hear_call, inc_of, reply_counts};
ghost use Rattle.nq_wire.specs.Lent.{lent_reply};
ghost use Rattle.nq_client.specs.Receiving.{IsHeeded, at_stake, counts, most_entries, on_call, on_heard};
ghost use Rattle.nq_client.specs.State.{client_of};

use crate::asked::AskedRequest;
use crate::hearing::is_same;
use crate::state::State;
use nq_base::{FileId, Inc, Reply, Request};
use nq_client_parts::{file_at_stake, holds_later, is_of_procedure, refusal_counts};
use nq_datagrams::{Awaited, LentHeard, read_heard_in_place};
use nq_wire::{LentReply, Procedure};

/// The number and the procedure of the request under way.
fn awaited(asked: &Option<AskedRequest>) -> Option<Awaited>
    ensures { result ≡ awaited_of asked.now }
{
    match asked {
        Some(asked) => Some(Awaited {
            xid: asked.xid(),
            procedure: Procedure::of(asked.request()),
        }),
        None => None,
    }
}

/// Whether a reply without a body counts.
fn plain_counts(reply: &Reply, asked: &AskedRequest) -> bool
    ensures { result ≡ reply_counts reply.now asked.now }
{
    match reply {
        Reply::Refused { status, .. } => refusal_counts(*status, asked.request(), asked.job()),
        Reply::Null
        | Reply::Attach { .. }
        | Reply::Lookup { .. }
        | Reply::Create { .. }
        | Reply::GetAttr { .. }
        | Reply::Read { .. }
        | Reply::Write { .. }
        | Reply::GetLease { .. }
        | Reply::Resize { .. }
        | Reply::Remove { .. } => is_of_procedure(reply, asked.request()),
    }
}

/// Whether a reply counts for the request under way: it is of its procedure, or a refusal that counts for it.
fn reply_counts(reply: &LentReply<'_>, asked: &AskedRequest) -> bool
    ensures { result ≡ reply_counts (lent_reply reply.now) asked.now }
{
    match reply {
        LentReply::Read { .. } => matches!(asked.request(), Request::Read { .. }),
        LentReply::Plain(reply) => plain_counts(reply, asked),
    }
}

/// The incarnation that a reply repeats.
fn inc_of(reply: &LentReply<'_>) -> Inc
    ensures { result ≡ inc_of (lent_reply reply.now) }
{
    match reply {
        LentReply::Read { inc, .. } => *inc,
        LentReply::Plain(reply) => nq_client_parts::inc_of(reply),
    }
}

/// Whether a reply counts.
fn counts(state: &State, xid: u32, reply: &LentReply<'_>) -> bool
    ensures { result ≡ counts (client_of state.now) xid (lent_reply reply.now) state.now.asked }
{
    match &state.asked {
        Some(asked) => {
            xid == asked.xid() && inc_of(reply) == state.who.inc && reply_counts(reply, asked)
        }
        None => false,
    }
}

/// Whether a call of the server counts: it is a notice of this incarnation, and no lease with a later tag is held.
fn call_counts(state: &State, request: &Request) -> bool
    ensures { (if result then Some (on_call (client_of state.now) request.now) else None) ≡ hear_call (client_of state.now) request.now }
{
    match request {
        Request::Evicted { who, file, tag } => {
            is_same(who, &state.who) && !holds_later(*tag, &state.leases.on(*file))
        }
        _ => false,
    }
}

/// Whether what was heard counts.
fn heeds(state: &State, heard: &LentHeard<'_>) -> bool
    ensures step { (number : ℕ) → (if result then Some (on_heard (client_of state.now) number (owned heard.now)) else None)
        ≡ hear (client_of state.now) number (told_message (owned heard.now)) }
    ensures heeded { IsTrue result → IsHeeded state.now.asked (owned heard.now) }
{
    match heard {
        LentHeard::Notice { request, .. } => call_counts(state, request),
        LentHeard::Reply { xid, reply } => counts(state, *xid, reply),
    }
}

/// Reads a datagram; None where it does not count. It wants no memory.
pub(crate) fn read<'a>(state: &State, datagram: &'a [u8]) -> Option<LentHeard<'a>>
    ensures heard { (number : ℕ) → hears_in (client_of state.now) number datagram.now
        ≡ option_map (λ heard. on_heard (client_of state.now) number (owned heard)) result }
    ensures heeded { IfSome result (λ heard. IsHeeded state.now.asked (owned heard)) }
{
    let heard = read_heard_in_place(awaited(&state.asked), datagram)?;
    if heeds(state, &heard) {
        Some(heard)
    } else {
        None
    }
}

/// The file whose delayed writes the reply to the request under way may lose, or 0.
fn at_stake(asked: &Option<AskedRequest>) -> FileId
    ensures { result ≡ at_stake asked.now }
{
    match asked {
        Some(asked) => file_at_stake(asked.request()),
        None => FileId(0),
    }
}

/// How many entries a client makes at most of what counts.
pub(crate) fn most_entries(state: &State) -> usize
    ensures { result ≡ most_entries (client_of state.now) }
{
    state.dirty.pending_of(at_stake(&state.asked)) + 4
}
