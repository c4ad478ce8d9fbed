//! Requests to a server.

ghost use Rattle.std.specs.Prelude.{◌≡◌, ◌<◌, ◌^◌, ◌==◌, ◌&&◌, false, nat_lt};
ghost use Rattle.nq_base.specs.declared.HostRow.{HostRow as Line};
ghost use Rattle.nq_base.specs.Entries.{EntryList};
ghost use Rattle.nq_model.specs.protocol.Decided.{is_decided_once as decided_once};
ghost use Rattle.nq_model.specs.protocol.Message.{asker as asked_by};
ghost use Rattle.nq_model.specs.protocol.Profile.{most_hosts};
ghost use Rattle.nq_model.specs.protocol.ServerStep.{admit as admits, answer_request, look as looks, not_attached as is_not_attached, perform as performs};
ghost use Rattle.nq_model.specs.protocol.Server.{serving};
ghost use Rattle.nq_model.specs.protocol.Kept.{Kept, host_row};
ghost use Rattle.nq_keeper.specs.Keeping.{LeavesOne};
ghost use Rattle.nq_server.specs.Leasing.{Does};
ghost use Rattle.nq_server.specs.Sound.{IsSound, MayServe, StaysSound};
ghost use Rattle.nq_server.specs.State.{Beside, beside_of, server_of};
ghost use Rattle.nq_server.specs.Stepping.{LeavesStep, Takes, next_of};

use crate::deciding::decide_once;
use crate::leasing::{LeaseWish, Wish, get_lease, read};
use crate::looking::{get_attr, look_up};
use crate::received::{EventTaken, Reason};
use crate::replying::{self, Caller, refuse};
use crate::state::{Phase, State};
use nq_base::{Host, HostRow, Journal, Refusal, Reply, Request, Who};
use nq_keeper::{KeepFault, Keeper};
use nq_lease::evict::vacated;
use nq_wire::Outbox;
use std::alloc::Global;

/// The incarnation that asks; None for NULL.
fn asker(request: &Request) -> Option<Who>
    ensures { result ≡ asked_by request.now }
{
    match request {
        Request::Null => None,
        Request::Attach { who } => Some(*who),
        Request::Lookup { who, .. } => Some(*who),
        Request::Create { who, .. } => Some(*who),
        Request::GetAttr { who, .. } => Some(*who),
        Request::Read { who, .. } => Some(*who),
        Request::Write { who, .. } => Some(*who),
        Request::GetLease { who, .. } => Some(*who),
        Request::Vacated { who, .. } => Some(*who),
        Request::Evicted { who, .. } => Some(*who),
        Request::Resize { who, .. } => Some(*who),
        Request::Remove { who, .. } => Some(*who),
    }
}

/// Whether a request is decided once.
fn is_decided_once(request: &Request) -> bool
    ensures { result ≡ decided_once request.now }
{
    matches!(
        request,
        Request::Attach { .. }
            | Request::Create { .. }
            | Request::Write { .. }
            | Request::Resize { .. }
            | Request::Remove { .. }
    )
}

/// Answers a request of an incarnation that is not attached.
#[tactic(auto, unfolding(nq_model::specs::protocol::Server::quiet, nq_model::specs::protocol::Server::says))]
fn not_attached(
    alloc: Global,
    caller: Caller,
    request: &Request,
    out: &mut Outbox,
) -> Result<EventTaken, KeepFault>
    ensures { (held : Beside) (kept : Kept) (log : EntryList)
        → Does (is_not_attached (server_of held kept) caller.who caller.xid request.now) result held held out.old out.new log log }
{
    match request {
        Request::Vacated { .. } => Ok(EventTaken::Done),
        _ => refuse(alloc, caller.who, caller.xid, Refusal::NotAttached, out),
    }
}

/// Answers, while serving, a request that changes no file.
#[tactic(auto, unfolding(nq_model::specs::protocol::Server::quiet))]
fn look<K: Keeper>(
    alloc: Global,
    keeper: &mut K,
    state: &mut State,
    caller: Caller,
    request: &Request,
    out: &mut Outbox,
    log: &mut Journal,
) -> Result<EventTaken, KeepFault>
    requires { MayServe state.old }
    ensures takes { Takes (λ kept. looks (server_of (beside_of state.old) kept) serving caller.who caller.xid (next_of out.old) request.now) result
        (K.content keeper.old) (K.content keeper.new) (K.faults keeper.old) (K.faults keeper.new) (beside_of state.old)
        (beside_of state.new) out.old out.new log.old log.new }
    ensures stays { StaysSound state.old state.new }
    ensures follows { K.follows keeper.old keeper.new }
    ensures leaves { LeavesOne (K.content keeper.old) (K.leaves keeper.old keeper.new) }
{
    match request {
        Request::Lookup { name, .. } => {
            look_up(alloc, keeper, caller.who, caller.xid, name, out)
        }
        Request::GetAttr { file, .. } => {
            get_attr(alloc, keeper, caller.who, caller.xid, *file, out)
        }
        Request::Read {
            call,
            file,
            block,
            want,
            ..
        } => {
            let wish = Wish {
                call: *call,
                file: *file,
                block: *block,
                want: *want,
            };
            read(alloc, keeper, state, caller, &wish, out, log)
        }
        Request::GetLease { file, want, .. } => {
            let wish = LeaseWish {
                file: *file,
                want: *want,
            };
            get_lease(alloc, keeper, state, caller, wish, out, log)
        }
        _ => {
            keeper.pause();
            Ok(EventTaken::Done)
        }
    }
}

/// Answers a request that is not decided once, of the incarnation that is attached.
#[tactic(auto, unfolding(nq_model::specs::protocol::Server::quiet, nq_model::specs::protocol::Server::says, nq_model::specs::protocol::Server::with_table, nq_model::specs::protocol::ServerStep::vacates))]
fn perform<K: Keeper>(
    alloc: Global,
    keeper: &mut K,
    state: &mut State,
    caller: Caller,
    request: &Request,
    out: &mut Outbox,
    log: &mut Journal,
) -> Result<EventTaken, KeepFault>
    requires sound { IsSound state.old }
    requires drawn { state.old.table.drawn < 2 ^ 62 }
    requires other { decided_once request.now ≡ false }
    ensures takes { (line : Kept → Line)
        → Takes (λ kept. performs (server_of (beside_of state.old) kept) caller.who caller.xid (next_of out.old) (line kept) request.now) result
        (K.content keeper.old) (K.content keeper.new) (K.faults keeper.old) (K.faults keeper.new) (beside_of state.old)
        (beside_of state.new) out.old out.new log.old log.new }
    ensures stays { StaysSound state.old state.new }
    ensures follows { K.follows keeper.old keeper.new }
    ensures leaves { LeavesOne (K.content keeper.old) (K.leaves keeper.old keeper.new) }
{
    match (request, &state.phase) {
        (Request::Vacated { file, tag, .. }, _) => {
            keeper.pause();
            vacated(&mut state.table, caller.who, *file, *tag);
            Ok(EventTaken::Done)
        }
        (Request::Null | Request::Evicted { .. }, _) => {
            keeper.pause();
            Ok(EventTaken::Done)
        }
        (_, Phase::Serving(_)) => look(alloc, keeper, state, caller, request, out, log),
        (_, Phase::Recovering { .. }) => {
            keeper.pause();
            refuse(alloc, caller.who, caller.xid, Refusal::TryLater, out)
        }
    }
}

/// Whether an incarnation is an earlier one than the one that is attached.
fn is_older(who: &Who, line: &HostRow) -> bool
    ensures { result ≡ nat_lt who.now.inc line.now.inc }
{
    who.inc < line.inc
}

/// Whether an incarnation is a later one than the one that is attached.
fn is_newer(who: &Who, line: &HostRow) -> bool
    ensures { result ≡ nat_lt line.now.inc who.now.inc }
{
    line.inc < who.inc
}

/// Answers a request that is not decided once, by the incarnation of its host that is attached.
fn admit<K: Keeper>(
    alloc: Global,
    keeper: &mut K,
    state: &mut State,
    caller: Caller,
    request: &Request,
    out: &mut Outbox,
    log: &mut Journal,
) -> Result<EventTaken, KeepFault>
    requires sound { IsSound state.old }
    requires drawn { state.old.table.drawn < 2 ^ 62 }
    requires few { caller.who.host < most_hosts }
    requires other { decided_once request.now ≡ false }
    ensures takes { Takes (λ kept. admits (server_of (beside_of state.old) kept) caller.who caller.xid (next_of out.old) request.now
        (host_row kept caller.who.host)) result (K.content keeper.old) (K.content keeper.new) (K.faults keeper.old) (K.faults keeper.new) (beside_of state.old)
        (beside_of state.new) out.old out.new log.old log.new }
    ensures stays { StaysSound state.old state.new }
    ensures follows { K.follows keeper.old keeper.new }
    ensures leaves { LeavesOne (K.content keeper.old) (K.leaves keeper.old keeper.new) }
{
    let who = caller.who;
    let line = keeper.host(who.host)?;
    if is_older(&who, &line) {
        return Ok(EventTaken::Dropped(Reason::OldIncarnation));
    }
    if is_newer(&who, &line) {
        return not_attached(alloc, caller, request, out);
    }
    perform(alloc, keeper, state, caller, request, out, log)
}

/// The hosts that there can be.
const MOST_HOSTS: u32 = 64;

/// Whether a host is one that there can be.
fn is_known(host: Host) -> bool
    ensures { result ≡ nat_lt host most_hosts }
{
    host.0 < MOST_HOSTS
}

/// Whether an incarnation is of the sender, and of a host that there can be.
fn is_of_sender(who: &Who, sender: Host) -> bool
    ensures { result ≡ (who.now.host == sender && nat_lt who.now.host most_hosts) }
{
    who.host == sender && is_known(who.host)
}

/// Where a call comes from.
#[derive(Clone, Copy)]
pub(crate) struct Origin {
    /// The host that sent it.
    pub(crate) host: Host,
    /// The number of the call.
    pub(crate) xid: u32,
}

/// Answers a request that came from a host. At most one change is kept, and all memory is taken before it.
pub(crate) fn answer<K: Keeper>(
    alloc: Global,
    keeper: &mut K,
    state: &mut State,
    origin: Origin,
    request: Request,
    out: &mut Outbox,
    log: &mut Journal,
) -> Result<EventTaken, KeepFault>
    requires sound { IsSound state.old }
    requires drawn { state.old.table.drawn < 2 ^ 62 }
    ensures takes { Takes (λ kept. answer_request (server_of (beside_of state.old) kept) origin.host origin.xid (next_of out.old) request
        (asked_by request)) result (K.content keeper.old) (K.content keeper.new) (K.faults keeper.old) (K.faults keeper.new) (beside_of state.old)
        (beside_of state.new) out.old out.new log.old log.new }
    ensures stays { StaysSound state.old state.new }
    ensures follows { K.follows keeper.old keeper.new }
    ensures leaves { LeavesStep (λ kept. answer_request (server_of (beside_of state.old) kept) origin.host origin.xid (next_of out.old) request
        (asked_by request)) (K.content keeper.old) (K.leaves keeper.old keeper.new) }
{
    keeper.pause();
    let Origin { host, xid } = origin;
    let Some(who) = asker(&request) else {
        return replying::answer(alloc, host, xid, &Reply::Null, out);
    };
    if !is_of_sender(&who, host) {
        return Ok(EventTaken::Dropped(Reason::WrongHost));
    }
    let caller = Caller { who, xid };
    if is_decided_once(&request) {
        decide_once(alloc, keeper, state, caller, request, out, log)
    } else {
        admit(alloc, keeper, state, caller, &request, out, log)
    }
}
