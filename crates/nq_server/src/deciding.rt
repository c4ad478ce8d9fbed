//! Requests that are decided once.

ghost use Rattle.std.specs.Prelude.{◌≡◌, ◌≤◌, ◌+◌, ◌++◌, ℕ, List, true, length, map, OnOk, OnErr, IfOk, IsSome};
ghost use Rattle.std.specs.Option.{ForSome};
ghost use Rattle.nq_base.specs.declared.Party.{Party as Receiver};
ghost use Rattle.nq_datagrams.specs.Sent.{sent};
ghost use Rattle.nq_keeper.specs.Deciding.{IsOfHost};
ghost use Rattle.nq_base.specs.Entries.{EntryList};
ghost use Rattle.nq_keeper.specs.Keeping.{LeavesOne, Reads};
ghost use Rattle.nq_model.specs.protocol.Change.{heads_of};
ghost use Rattle.nq_model.specs.protocol.Decided.{decided as decided_of, decided_step, gate_of, is_decided_once, later_aside};
ghost use Rattle.nq_model.specs.protocol.Kept.{Kept};
ghost use Rattle.nq_model.specs.protocol.Message.{Packet};
ghost use Rattle.nq_server.specs.Answering.{IsSilent};
ghost use Rattle.nq_server.specs.Deciding.{Concludes, IsReady, Warns, as_told, file_to_tell as told_file, is_put_off, length_in, warnings_if};
ghost use Rattle.nq_server.specs.Sound.{IsSound, StaysSound};
ghost use Rattle.nq_server.specs.State.{beside_of, phase_of, server_of};
ghost use Rattle.nq_server.specs.Stepping.{LeavesStep, SaysNothing, Sends, Takes};
ghost use Rattle.nq_wire.specs.Outbox.{Datagrams};

use crate::aside::do_if_fresh;
use crate::gates::{file_to_change, file_to_tell, gate};
use crate::leasing::make_room;
use crate::received::EventTaken;
use crate::replying::{Caller, end_reply};
use crate::state::{Phase, State};
use crate::verdicts::{answer_to, drop_reason};
use nq_base::{Access, Block, Decided, FileId, Heads, Journal, NoMemory, Request, Verdict, Who};
use nq_datagrams::BegunReply;
use nq_keeper::requests::decide;
use nq_keeper::{KeepFault, Keeper};
use nq_lease::evict::{NoticeTo, notices};
use nq_wire::Outbox;
use std::alloc::Global;

/// The most bytes of results of a request that is decided once: those of a WRITE.
const LONGEST_DECIDED: usize = 16;

/// What a step reads before it decides a request.
#[derive(Clone, Copy)]
struct Before {
    /// The server's numbers.
    heads: Heads,
    /// The length of the file that the journal tells of, in blocks.
    length: u32,
}

/// The kept length of a file, if there is one; 0 where it is not kept.
fn length_of<K: Keeper>(keeper: &mut K, file: Option<FileId>) -> Result<u32, KeepFault>
    ensures told { ForSome (K.content keeper.old) (λ kept. IfOk result (λ blocks. blocks ≡ length_in kept file)) }
    ensures reads { Reads result (K.content keeper.old) (K.content keeper.new) (K.faults keeper.old) (K.faults keeper.new) }
    ensures follows { K.follows keeper.old keeper.new }
    ensures leaves { LeavesOne (K.content keeper.old) (K.leaves keeper.old keeper.new) }
{
    let Some(file) = file else {
        keeper.pause();
        return Ok(0);
    };
    match keeper.file(file)? {
        Some(row) => Ok(row.blocks),
        None => Ok(0),
    }
}

/// Reads what a step has to know before it decides a request.
fn read_before<K: Keeper>(keeper: &mut K, request: &Request) -> Result<Before, KeepFault>
    ensures heads { ForSome (K.content keeper.old) (λ kept. IfOk result (λ b. b.heads ≡ heads_of kept)) }
    ensures length { ForSome (K.content keeper.old) (λ kept. IfOk result (λ b. b.length ≡ length_in kept (told_file request.now))) }
    ensures reads { Reads result (K.content keeper.old) (K.content keeper.new) (K.faults keeper.old) (K.faults keeper.new) }
    ensures follows { K.follows keeper.old keeper.new }
    ensures leaves { LeavesOne (K.content keeper.old) (K.leaves keeper.old keeper.new) }
{
    let heads = keeper.heads()?;
    let length = length_of(keeper, file_to_tell(request))?;
    Ok(Before { heads, length })
}

/// Sends the notices that are due where an incarnation that is about to change a file is put off, with numbers from
/// `notice` on.
#[tactic(auto, unfolding(nq_model::specs::protocol::Decided::put_off_aside, nq_model::specs::protocol::Decided::nothing_aside))]
fn warn(
    alloc: Global,
    state: &State,
    who: Who,
    file: Option<FileId>,
    notice: &mut u32,
    out: &mut Outbox,
) -> Result<(), NoMemory>
    requires { notice.old ≡ state.now.notice }
    ensures told { OnOk result ((kept : Kept)
        → Sends (later_aside (server_of (beside_of state.now) kept) (phase_of state.now.phase) who file).sends out.old out.new) }
    ensures counted { OnOk result ((kept : Kept)
        → notice.new ≡ (later_aside (server_of (beside_of state.now) kept) (phase_of state.now.phase) who file).notice) }
    ensures silent { OnErr result (IsSilent out.old out.new) }
{
    match (&state.phase, file) {
        (Phase::Recovering { .. }, _) => Ok(()),
        (Phase::Serving(_), None) => Ok(()),
        (Phase::Serving(_), Some(file)) => {
            let to = NoticeTo::Others {
                host: who.host,
                access: Access::Write,
            };
            notices(alloc, &state.table, file, to, notice, out)
        }
    }
}

/// What was made ready before a request is decided.
#[derive(Drop)]
struct Ready {
    /// How many datagrams there were.
    len: usize,
    /// The number of the next notice, where the request is put off.
    notice: u32,
    /// The front of the reply.
    begun: BegunReply,
    /// The length of the file that the journal tells of, in blocks.
    length: u32,
}

/// Takes all memory that a request may need: the notices that are due where it is put off, and room for its reply and its
/// entry. Where memory is wanting the datagrams and the entries are as before.
fn prepare(
    alloc: Global,
    state: &State,
    caller: Caller,
    request: &Request,
    length: u32,
    out: &mut Outbox,
    log: &mut Journal,
) -> Result<Ready, NoMemory>
    ensures ready { IfOk result (λ ready. IsReady caller.xid ready out.old out.new log.old log.new) }
    ensures warns { IfOk result (λ ready. (kept : Kept) → Warns (server_of (beside_of state.now) kept) caller.who request.now ready.notice out.old out.new) }
    ensures length { IfOk result (λ ready. ready.length ≡ length) }
    ensures refused { OnErr result (SaysNothing out.old out.new log.old log.new) }
{
    let len = out.len();
    let mut notice = state.notice;
    let file = file_to_change(request);
    warn(alloc, state, caller.who, file, &mut notice, out)?;
    match make_room(alloc, caller.xid, LONGEST_DECIDED, 1, out, log) {
        Ok(begun) => Ok(Ready {
            len,
            notice,
            begun,
            length,
        }),
        Err(fault) => {
            out.cut(len);
            Err(fault)
        }
    }
}

/// Whether a request was put off just now.
fn was_put_off(decided: &Decided) -> bool
    ensures { result ≡ is_put_off decided.now }
{
    matches!(
        decided,
        Decided::Fresh {
            verdict: Verdict::TryLater,
            ..
        }
    )
}

/// Takes the notices back, of which there are those behind the first `len` datagrams, unless the request was put off.
fn keep_warnings(decided: &Decided, len: usize, out: &mut Outbox)
    requires { len ≤ length out.old.datagrams }
    ensures first { out.new.first ≡ out.old.first }
    ensures kept { (before : List (Receiver × List ℕ)) (packets : List Packet) → len ≡ length before → out.old.datagrams ≡ before ++ map sent packets
        → out.new.datagrams ≡ before ++ map sent (warnings_if (is_put_off decided.now) packets) }
    ensures spare { out.old.spare ≤ out.new.spare }
{
    if !was_put_off(decided) {
        out.cut(len);
    }
}

/// Answers a request that was decided, and does what is due beside the kept state. It takes no memory.
#[tactic(auto, unfolding(nq_model::specs::protocol::Decided::fresh_step, nq_model::specs::protocol::Server::says, nq_model::specs::protocol::Server::drops))]
fn conclude(
    state: &mut State,
    caller: Caller,
    request: &Request,
    decided: &Decided,
    ready: Ready,
    out: &mut Outbox,
    log: &mut Journal,
) -> EventTaken
    requires sound { IsSound state.old }
    requires within { ready.len ≤ length out.old.datagrams }
    requires number { ready.begun.xid ≡ caller.xid }
    requires room { 16 ≤ ready.begun.room }
    requires datagram { 1 ≤ out.old.spare }
    requires line { 1 ≤ log.old.spare }
    ensures makes { (kept : Kept) (before : Datagrams) (entries : EntryList) → IsReady caller.xid ready before out.old entries log.old
        → Warns (server_of (beside_of state.old) kept) caller.who request.now ready.notice before out.old
        → ready.length ≡ length_in kept (told_file request.now)
        → Concludes (decided_step (server_of (beside_of state.old) kept) caller.who caller.xid request.now decided.now) result
        (beside_of state.new) before out.new entries log.new }
    ensures stays { StaysSound state.old state.new }
{
    let Ready {
        len,
        notice,
        begun,
        length,
    } = ready;
    let who = caller.who;
    keep_warnings(decided, len, out);
    let Some(said) = answer_to(&who, request, decided) else {
        return EventTaken::Dropped(drop_reason(decided));
    };
    end_reply(who.host, begun, &said, out);
    do_if_fresh(state, who, request, decided, length, notice, log);
    EventTaken::Done
}

/// A second RESIZE or REMOVE of the same words.
fn second_change(request: &Request) -> Request
    requires { IsSome (told_file request.now) }
    ensures { result ≡ request.now }
{
    match request {
        Request::Resize {
            who,
            seq,
            call,
            file,
            blocks,
        } => Request::Resize {
            who: *who,
            seq: *seq,
            call: *call,
            file: *file,
            blocks: *blocks,
        },
        Request::Remove {
            who,
            seq,
            call,
            file,
        } => Request::Remove {
            who: *who,
            seq: *seq,
            call: *call,
            file: *file,
        },
        _ => unreachable!(),
    }
}

/// A request of which the body is handed on: a block that repeats its value stands in its place, for the journal tells of the
/// value alone.
fn without_body(request: &Request) -> Request
    requires { is_decided_once request.now ≡ true }
    ensures { result ≡ as_told request.now }
{
    match request {
        Request::Attach { who } => Request::Attach { who: *who },
        Request::Create {
            who,
            seq,
            name,
            blocks,
        } => Request::Create {
            who: *who,
            seq: *seq,
            name: *name,
            blocks: *blocks,
        },
        Request::Write {
            who,
            seq,
            file,
            block,
            first,
            last,
            push,
            body,
        } => Request::Write {
            who: *who,
            seq: *seq,
            file: *file,
            block: *block,
            first: *first,
            last: *last,
            push: *push,
            body: Block::fill(body.value()),
        },
        Request::Resize { .. } => second_change(request),
        Request::Remove { .. } => second_change(request),
        _ => unreachable!(),
    }
}

/// Decides a request that is decided once, and answers it. At most one change is kept, and all memory is taken before it.
pub(crate) fn decide_once<K: Keeper>(
    alloc: Global,
    keeper: &mut K,
    state: &mut State,
    caller: Caller,
    request: Request,
    out: &mut Outbox,
    log: &mut Journal,
) -> Result<EventTaken, KeepFault>
    requires sound { IsSound state.old }
    requires once { is_decided_once request ≡ true }
    requires host { IsOfHost request }
    ensures takes { Takes (λ kept. decided_step (server_of (beside_of state.old) kept) caller.who caller.xid request
        (decided_of kept (gate_of (server_of (beside_of state.old) kept) caller.who request) request)) result (K.content keeper.old) (K.content keeper.new)
        (K.faults keeper.old) (K.faults keeper.new) (beside_of state.old) (beside_of state.new) out.old out.new log.old log.new }
    ensures stays { StaysSound state.old state.new }
    ensures follows { K.follows keeper.old keeper.new }
    ensures leaves { LeavesStep (λ kept. decided_step (server_of (beside_of state.old) kept) caller.who caller.xid request
        (decided_of kept (gate_of (server_of (beside_of state.old) kept) caller.who request) request)) (K.content keeper.old) (K.leaves keeper.old keeper.new) }
{
    let told = without_body(&request);
    let before = read_before(keeper, &told)?;
    let gate = gate(state, &before.heads, &caller.who, file_to_change(&request));
    let ready = match prepare(alloc, state, caller, &told, before.length, out, log) {
        Ok(ready) => ready,
        Err(NoMemory::Memory) => return Err(KeepFault::Memory),
    };
    match decide(keeper, request, gate) {
        Err(fault) => {
            out.cut(ready.len);
            Err(fault)
        }
        Ok(decided) => Ok(conclude(state, caller, &told, &decided, ready, out, log)),
    }
}
