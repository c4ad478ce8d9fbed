//! READ and GETLEASE while serving.

ghost use Rattle.std.specs.Prelude.{◌≡◌, ◌≤◌, ◌+◌, OnOk, OnErr, IfOk};
ghost use Rattle.nq_lease.specs.Telling.{told_rows};
ghost use Rattle.nq_base.specs.Entries.{EntryList};
ghost use Rattle.nq_keeper.specs.Keeping.{LeavesOne};
ghost use Rattle.nq_model.specs.protocol.Ask.{ask as asked_of};
ghost use Rattle.nq_model.specs.protocol.Kept.{Kept, find_file};
ghost use Rattle.nq_model.specs.protocol.Server.{Server};
ghost use Rattle.nq_model.specs.protocol.ServerStep.{access_of as access_as, get_lease as gets_lease, grants, lease_asked, leases, read as reads, read_asked};
ghost use Rattle.nq_model.specs.protocol.ServerStep.{serves, tells_later};
ghost use Rattle.nq_server.specs.Leasing.{Does, HasRoom, MakesBeside, MayAsk, asks, file_asked, granted_in as grant_of, to_tell as to_tell_of};
ghost use Rattle.nq_server.specs.Sound.{MayServe, StaysSound};
ghost use Rattle.nq_server.specs.State.{beside_of, server_of};
ghost use Rattle.nq_server.specs.Stepping.{Enters, SaysNothing, Takes, next_of};

use crate::received::EventTaken;
use crate::replying::{Caller, end_reply, put_off, refuse};
use crate::state::State;
use nq_base::{
    Access, Asked, Block, BlockNo, Entry, FileId, FileRow, Grant, Journal, Mode, NoMemory,
    Question, Refusal, Reply, RowKey, Want, Who,
};
use nq_datagrams::BegunReply;
use nq_keeper::requests::{ReadOut, read_block};
use nq_keeper::{KeepFault, Keeper};
use nq_lease::Table;
use nq_lease::evict::NoticeTo;
use nq_lease::grant::{ask, conflict};
use nq_wire::{LONGEST_RESULTS, Outbox};
use std::alloc::Global;

/// What a READ asks for.
#[derive(Clone, Copy)]
pub(crate) struct Wish {
    /// The number of the call for which the block is read.
    pub(crate) call: u64,
    /// The file.
    pub(crate) file: FileId,
    /// The block.
    pub(crate) block: BlockNo,
    /// The lease that is wanted, if any.
    pub(crate) want: Option<Want>,
}

/// What a GETLEASE asks for.
#[derive(Clone, Copy)]
pub(crate) struct LeaseWish {
    /// The file.
    pub(crate) file: FileId,
    /// The lease.
    pub(crate) want: Want,
}

/// A block that was read for a call.
#[derive(Drop)]
struct Found {
    /// The number of the call.
    call: u64,
    /// The block.
    block: BlockNo,
    /// What it holds.
    body: Block,
}

/// The most bytes of results of a GETLEASE: those with a grant.
const LONGEST_LEASE: usize = 56;

/// What a host is about to do that wants this lease.
fn access_of(want: Option<Want>) -> Access
    ensures { result ≡ access_as want }
{
    match want {
        Some(want) => match want.mode {
            Mode::Writing => Access::Write,
            Mode::NonCaching | Mode::Reading => Access::Read,
        },
        None => Access::Read,
    }
}

/// What the ask table is asked about a file.
fn question(state: &State, who: Who, row: &FileRow, want: Option<Want>) -> Question
    ensures { result ≡ asks (beside_of state.now) who row.now want }
{
    Question {
        who,
        file: row.id,
        access: access_of(want),
        want,
        longest: state.longest,
        time: state.time,
        rev: row.rev,
        blocks: row.blocks,
    }
}

/// Whose holders are told, where the asker is put off.
fn to_tell(table: &Table, question: &Question) -> Option<NoticeTo>
    ensures { result ≡ to_tell_of table.now question.now }
{
    let file = question.file;
    let host = question.who.host;
    let access = question.access;
    if conflict(table, host, file, access) {
        return Some(NoticeTo::Others { host, access });
    }
    match (question.want, table.row(RowKey { file, host })) {
        (Some(_), Some(own)) if own.evicting => Some(NoticeTo::Own(host)),
        _ => None,
    }
}

/// The grant that the asker was told of.
fn granted_in(asked: Asked) -> Option<Grant>
    ensures { result ≡ grant_of asked }
{
    match asked {
        Asked::Granted(grant) => Some(grant),
        Asked::Free | Asked::NoLease | Asked::TryLater(_) => None,
    }
}

/// Makes room for a reply with so many bytes of results, and for so many entries. Where memory is wanting the datagrams
/// and the entries are as before.
pub(crate) fn make_room(
    alloc: Global,
    xid: u32,
    results: usize,
    entries: usize,
    out: &mut Outbox,
    log: &mut Journal,
) -> Result<BegunReply, NoMemory>
    ensures begun { IfOk result (λ b. (b.xid ≡ xid) × (results ≤ b.room)) }
    ensures room { OnOk result (HasRoom entries out.old out.new log.old log.new) }
    ensures refused { OnErr result (SaysNothing out.old out.new log.old log.new) }
{
    out.reserve(1)?;
    log.reserve(entries)?;
    BegunReply::new(alloc, xid, results)
}

/// Tells of a grant, if there is one.
fn enter_grant(log: &mut Journal, question: &Question, grant: &Option<Grant>)
    requires { 1 ≤ log.old.spare }
    ensures entered { (s : Server) → s.now ≡ question.now.time → Enters (grants s question.now.who question.now.file grant.now) log.old log.new }
    ensures spare { log.old.spare ≤ log.new.spare + 1 }
{
    if let Some(grant) = grant {
        let entry = Entry::G {
            who: question.who,
            file: question.file,
            mode: grant.mode,
            tag: grant.tag,
            term: grant.term,
            now: question.time,
        };
        log.push(entry).unwrap();
    }
}

/// Puts the asker off.
#[tactic(auto, unfolding(nq_model::specs::protocol::ServerStep::tells_later, nq_model::specs::protocol::Server::after_notices))]
fn later(
    alloc: Global,
    state: &mut State,
    question: &Question,
    to: NoticeTo,
    xid: u32,
    out: &mut Outbox,
) -> Result<EventTaken, KeepFault>
    requires { MayAsk state.old question.now }
    ensures { (kept : Kept) (log : EntryList)
        → Does (tells_later (server_of (beside_of state.old) kept) question.now.who xid (asked_of state.old.table question.now).table
        (told_rows question.now.file to state.old.table.rows)) result (beside_of state.old) (beside_of state.new) out.old out.new log log }
{
    let mut notice = state.notice;
    let caller = Caller {
        who: question.who,
        xid,
    };
    let file = question.file;
    match put_off(alloc, &state.table, file, to, caller, &mut notice, out) {
        Ok(()) => {
            ask(&mut state.table, question);
            state.notice = notice;
            Ok(EventTaken::Done)
        }
        Err(NoMemory::Memory) => Err(KeepFault::Memory),
    }
}

/// Grants a lease, where nobody is put off, and ends the reply, for which there is room. It takes no memory.
#[tactic(auto, unfolding(nq_model::specs::protocol::ServerStep::leases, nq_model::specs::protocol::Server::with_table))]
fn give(
    state: &mut State,
    question: &Question,
    begun: BegunReply,
    out: &mut Outbox,
    log: &mut Journal,
)
    requires may { MayAsk state.old question.now }
    requires room { 56 ≤ begun.room }
    requires datagram { 1 ≤ out.old.spare }
    requires line { 1 ≤ log.old.spare }
    ensures { (kept : Kept) → MakesBeside
        (leases (server_of (beside_of state.old) kept) question.now.who begun.xid question.now.file (asked_of state.old.table question.now).table
        (grant_of (asked_of state.old.table question.now).asked)) (beside_of state.new) out.old out.new log.old log.new }
{
    let who = question.who;
    let grant = granted_in(ask(&mut state.table, question));
    let said = Reply::GetLease {
        inc: who.inc,
        grant,
    };
    end_reply(who.host, begun, &said, out);
    enter_grant(log, question, &grant);
}

/// Answers a GETLEASE of a file.
fn lease(
    alloc: Global,
    state: &mut State,
    question: &Question,
    xid: u32,
    out: &mut Outbox,
    log: &mut Journal,
) -> Result<EventTaken, KeepFault>
    requires { MayAsk state.old question.now }
    ensures { (kept : Kept) → Does
        (lease_asked (server_of (beside_of state.old) kept) question.now.who xid question.now.file question.now.access
        (asked_of state.old.table question.now).table (asked_of state.old.table question.now).asked) result (beside_of state.old)
        (beside_of state.new) out.old out.new log.old log.new }
{
    match to_tell(&state.table, question) {
        Some(to) => later(alloc, state, question, to, xid, out),
        None => match make_room(alloc, xid, LONGEST_LEASE, 1, out, log) {
            Err(NoMemory::Memory) => Err(KeepFault::Memory),
            Ok(begun) => {
                give(state, question, begun, out, log);
                Ok(EventTaken::Done)
            }
        },
    }
}

/// Answers a GETLEASE.
pub(crate) fn get_lease<K: Keeper>(
    alloc: Global,
    keeper: &mut K,
    state: &mut State,
    caller: Caller,
    wish: LeaseWish,
    out: &mut Outbox,
    log: &mut Journal,
) -> Result<EventTaken, KeepFault>
    requires { MayServe state.old }
    ensures takes { Takes (λ kept. gets_lease (server_of (beside_of state.old) kept) caller.who caller.xid wish.want (find_file wish.file kept.files)) result
        (K.content keeper.old) (K.content keeper.new) (K.faults keeper.old) (K.faults keeper.new) (beside_of state.old)
        (beside_of state.new) out.old out.new log.old log.new }
    ensures stays { StaysSound state.old state.new }
    ensures follows { K.follows keeper.old keeper.new }
    ensures leaves { LeavesOne (K.content keeper.old) (K.leaves keeper.old keeper.new) }
{
    match keeper.file(wish.file)? {
        None => refuse(alloc, caller.who, caller.xid, Refusal::Stale, out),
        Some(row) => {
            let question = question(state, caller.who, &row, Some(wish.want));
            lease(alloc, state, &question, caller.xid, out, log)
        }
    }
}

/// Serves a block, where nobody is put off, and ends the reply, for which there is room. It takes no memory.
#[tactic(auto, unfolding(nq_model::specs::protocol::ServerStep::serves, nq_model::specs::protocol::Server::with_table))]
fn serve(
    state: &mut State,
    question: &Question,
    found: Found,
    begun: BegunReply,
    out: &mut Outbox,
    log: &mut Journal,
)
    requires may { MayAsk state.old question.now }
    requires room { 4164 ≤ begun.room }
    requires datagram { 1 ≤ out.old.spare }
    requires lines { 2 ≤ log.old.spare }
    ensures { (kept : Kept) → MakesBeside
        (serves (server_of (beside_of state.old) kept) question.now.who begun.xid (next_of out.old) found.call (file_asked question.now) found.block found.body
        (asked_of state.old.table question.now).table (grant_of (asked_of state.old.table question.now).asked))
        (beside_of state.new) out.old out.new log.old log.new }
{
    let Found { call, block, body } = found;
    let value = body.value();
    let number = out.next();
    let who = question.who;
    let grant = granted_in(ask(&mut state.table, question));
    let said = Reply::Read {
        inc: who.inc,
        rev: question.rev,
        body,
        grant,
    };
    end_reply(who.host, begun, &said, out);
    enter_grant(log, question, &grant);
    let entry = Entry::R {
        who,
        q: call,
        file: question.file,
        block,
        value,
        served: Some(number),
    };
    log.push(entry).unwrap();
}

/// Answers a READ of a block that is there.
fn read_found(
    alloc: Global,
    state: &mut State,
    question: &Question,
    xid: u32,
    found: Found,
    out: &mut Outbox,
    log: &mut Journal,
) -> Result<EventTaken, KeepFault>
    requires { MayAsk state.old question.now }
    ensures { (kept : Kept) → Does
        (read_asked (server_of (beside_of state.old) kept) question.now.who xid (next_of out.old) found.call
        (file_asked question.now) found.block found.body question.now.access (asked_of state.old.table question.now).table
        (asked_of state.old.table question.now).asked) result (beside_of state.old) (beside_of state.new) out.old out.new log.old log.new }
{
    match to_tell(&state.table, question) {
        Some(to) => later(alloc, state, question, to, xid, out),
        None => match make_room(alloc, xid, LONGEST_RESULTS, 2, out, log) {
            Err(NoMemory::Memory) => Err(KeepFault::Memory),
            Ok(begun) => {
                serve(state, question, found, begun, out, log);
                Ok(EventTaken::Done)
            }
        },
    }
}

/// Answers a READ.
pub(crate) fn read<K: Keeper>(
    alloc: Global,
    keeper: &mut K,
    state: &mut State,
    caller: Caller,
    wish: &Wish,
    out: &mut Outbox,
    log: &mut Journal,
) -> Result<EventTaken, KeepFault>
    requires { MayServe state.old }
    ensures takes { Takes (λ kept. reads (server_of (beside_of state.old) kept) caller.who caller.xid
        (next_of out.old) wish.now.call wish.now.block wish.now.want (find_file wish.now.file kept.files)) result (K.content keeper.old) (K.content keeper.new)
        (K.faults keeper.old) (K.faults keeper.new) (beside_of state.old) (beside_of state.new) out.old out.new log.old log.new }
    ensures stays { StaysSound state.old state.new }
    ensures follows { K.follows keeper.old keeper.new }
    ensures leaves { LeavesOne (K.content keeper.old) (K.leaves keeper.old keeper.new) }
{
    let who = caller.who;
    match read_block(keeper, wish.file, wish.block)? {
        ReadOut::Stale => refuse(alloc, who, caller.xid, Refusal::Stale, out),
        ReadOut::Invalid => refuse(alloc, who, caller.xid, Refusal::Inval, out),
        ReadOut::Got { row, body } => {
            let question = question(state, who, &row, wish.want);
            let found = Found {
                call: wish.call,
                block: wish.block,
                body,
            };
            read_found(alloc, state, &question, caller.xid, found, out, log)
        }
    }
}
