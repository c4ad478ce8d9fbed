//! What a request that is decided once does beside the kept state.

ghost use Rattle.std.specs.Prelude.{◌≡◌, ◌<◌, ◌≤◌, ◌^◌, Some, true};
ghost use Rattle.nq_model.specs.protocol.Decided.{done_aside, file_to_change as changed_file, later_aside};
ghost use Rattle.nq_model.specs.protocol.Kept.{Kept};
ghost use Rattle.nq_model.specs.protocol.Table.{find_row, with_rows};
ghost use Rattle.nq_server.specs.Deciding.{DoesAside, DoesIfFresh, entries_of, entries_recovering, entries_serving, file_to_tell as told_file, heard_rows};
ghost use Rattle.nq_server.specs.Deciding.{length_in, recovery_after, rows_serving};
ghost use Rattle.nq_server.specs.Sound.{IsSound, StaysSound};
ghost use Rattle.nq_server.specs.State.{beside_of, phase_of, server_of};
ghost use Rattle.nq_server.specs.Stepping.{Enters};

use crate::gates::file_to_change;
use crate::state::{Phase, State};
use nq_base::{
    Access, BlockNo, Decided, Entry, FileId, Host, Journal, Number, Request, Row, RowKey, Ticks,
    Verdict, Who,
};
use nq_keeper::requests::boot::Recovering;
use nq_lease::Table;

/// A write of the holder of this row was heard now.
#[tactic(auto, unfolding(nq_model::specs::protocol::Table::with_rows))]
fn put_heard(table: &mut Table, row: &Row, time: Ticks)
    requires { find_row row.now.file row.now.who.host table.old.rows ≡ Some row.now }
    ensures { table.new ≡ with_rows table.old (heard_rows time (Some row.now) table.old.rows) }
{
    let heard = Row {
        heard: time,
        ..*row
    };
    table.put_row(heard).unwrap();
}

/// A write of the holder of a row was heard now.
#[tactic(auto, unfolding(nq_model::specs::protocol::Table::with_rows))]
fn hear(table: &mut Table, file: FileId, host: Host, time: Ticks)
    ensures { table.new ≡ with_rows table.old (heard_rows time (find_row file host table.old.rows) table.old.rows) }
{
    if let Some(row) = table.row(RowKey { file, host }) {
        put_heard(table, &row, time);
    }
}

/// Adds an entry, if there is one. There is room for it.
fn enter(log: &mut Journal, entry: Option<Entry>)
    requires { 1 ≤ log.old.spare }
    ensures { Enters (entries_of entry) log.old log.new }
{
    if let Some(entry) = entry {
        log.push(entry).unwrap();
    }
}

/// The entry of a write that went through at the server.
fn through(who: &Who, file: FileId, block: BlockNo, number: Number, value: u32) -> Entry
    ensures { result ≡ Entry.W who.now file block number value true }
{
    Entry::W {
        who: *who,
        file,
        block,
        number,
        value,
        through: true,
    }
}

/// The entry of call `q`, which gave a file another length in blocks.
fn resized(who: &Who, q: u64, file: FileId, from: u32, to: u32) -> Entry
    ensures { result ≡ Entry.Z who.now q file from to }
{
    Entry::Z {
        who: *who,
        q,
        file,
        from,
        to,
    }
}

/// What a journal tells of a request that was done while serving; `length` is the length that its file had.
fn told_serving(who: &Who, request: &Request, length: u32, now: Ticks) -> Option<Entry>
    ensures { entries_of result ≡ entries_serving who.now request.now length now }
{
    match request {
        Request::Write {
            file,
            block,
            first,
            push: None,
            body,
            ..
        } => Some(through(who, *file, *block, *first, body.value())),
        Request::Write {
            file,
            block,
            first,
            last,
            push: Some(_),
            ..
        } => Some(Entry::S {
            who: *who,
            file: *file,
            block: *block,
            first: *first,
            last: *last,
            now,
        }),
        Request::Resize {
            call,
            file,
            blocks,
            ..
        } => Some(resized(who, *call, *file, length, *blocks)),
        Request::Remove { call, file, .. } => Some(resized(who, *call, *file, length, 0)),
        _ => None,
    }
}

/// What a request that was done while serving does to the rows.
#[tactic(auto, unfolding(nq_model::specs::protocol::Table::with_rows))]
fn change_rows(table: &mut Table, who: &Who, request: &Request, now: Ticks)
    ensures { table.new ≡ with_rows table.old (rows_serving who.now request.now now table.old.rows) }
{
    match request {
        Request::Attach { .. } => table.drop_host(who.host),
        Request::Write { push: None, .. } => {}
        Request::Write {
            file,
            push: Some(_),
            ..
        } => hear(table, *file, who.host, now),
        Request::Remove { file, .. } => table.drop_file(*file),
        _ => {}
    }
}

/// What is done beside the kept state where a request was done while serving; `length` is the length that its file had.
fn done_serving(
    table: &mut Table,
    who: Who,
    request: &Request,
    length: u32,
    now: Ticks,
    log: &mut Journal,
)
    requires { 1 ≤ log.old.spare }
    ensures table { table.new ≡ with_rows table.old (rows_serving who request.now now table.old.rows) }
    ensures entries { Enters (entries_serving who request.now length now) log.old log.new }
{
    change_rows(table, &who, request, now);
    enter(log, told_serving(&who, request, length, now));
}

/// What is done beside the kept state where a request was done while the server recovers, which has no rows.
fn done_recovering(
    recovery: &mut Recovering,
    who: Who,
    request: &Request,
    now: Ticks,
    log: &mut Journal,
)
    requires line { 1 ≤ log.old.spare }
    requires early { now < 2 ^ 62 }
    ensures recovery { recovery.new ≡ recovery_after request.now now recovery.old }
    ensures entries { Enters (entries_recovering who request.now now) log.old log.new }
{
    match request {
        Request::Write {
            file,
            block,
            first,
            last,
            ..
        } => {
            recovery.wrote(now);
            let entry = Entry::S {
                who,
                file: *file,
                block: *block,
                first: *first,
                last: *last,
                now,
            };
            enter(log, Some(entry));
        }
        _ => {}
    }
}

/// What is done beside the kept state where a request was done; `length` is the length that its file had.
fn done(state: &mut State, who: Who, request: &Request, length: u32, log: &mut Journal)
    requires line { 1 ≤ log.old.spare }
    requires sound { IsSound state.old }
    ensures stays { StaysSound state.old state.new }
    ensures does { (kept : Kept) → length ≡ length_in kept (told_file request.now)
        → DoesAside (done_aside (server_of (beside_of state.old) kept) (phase_of state.old.phase) who request.now) (beside_of state.old)
        (beside_of state.new) log.old log.new }
{
    let now = state.time;
    match &mut state.phase {
        Phase::Serving(_) => done_serving(&mut state.table, who, request, length, now, log),
        Phase::Recovering {
            recovery: Some(recovery),
            ..
        } => done_recovering(recovery, who, request, now, log),
        Phase::Recovering { recovery: None, .. } => unreachable!(),
    }
}

/// What is done beside the kept state where a request was put off: the rows in the way are to be given up.
#[tactic(auto, unfolding(nq_model::specs::protocol::Decided::put_off_aside, nq_model::specs::protocol::Decided::nothing_aside, nq_model::specs::protocol::Table::with_rows))]
fn put_off(state: &mut State, who: Who, file: Option<FileId>, notice: u32, log: &Journal)
    requires { IsSound state.old }
    ensures stays { StaysSound state.old state.new }
    ensures does { (kept : Kept) → notice ≡ (later_aside (server_of (beside_of state.old) kept) (phase_of state.old.phase) who file).notice
        → DoesAside (later_aside (server_of (beside_of state.old) kept) (phase_of state.old.phase) who file) (beside_of state.old)
        (beside_of state.new) log.now log.now }
{
    match (&state.phase, file) {
        (Phase::Recovering { .. }, _) | (Phase::Serving(_), None) => {}
        (Phase::Serving(_), Some(file)) => {
            state.table.mark_evicting(file, who.host, Access::Write);
            state.notice = notice;
        }
    }
}

/// What is done beside the kept state, where a request is fresh, by its verdict.
pub(crate) fn do_if_fresh(
    state: &mut State,
    who: Who,
    request: &Request,
    decided: &Decided,
    length: u32,
    notice: u32,
    log: &mut Journal,
)
    requires line { 1 ≤ log.old.spare }
    requires sound { IsSound state.old }
    ensures stays { StaysSound state.old state.new }
    ensures does { (kept : Kept) → length ≡ length_in kept (told_file request.now)
        → notice ≡ (later_aside (server_of (beside_of state.old) kept) (phase_of state.old.phase) who (changed_file request.now)).notice
        → DoesIfFresh (server_of (beside_of state.old) kept) who request.now decided.now (beside_of state.old) (beside_of state.new) log.old log.new }
{
    match decided {
        Decided::Fresh { verdict, .. } => match verdict {
            Verdict::Done => done(state, who, request, length, log),
            Verdict::TryLater => put_off(state, who, file_to_change(request), notice, log),
            _ => {}
        },
        Decided::Again { .. }
        | Decided::Old
        | Decided::OldIncarnation
        | Decided::NotAttached
        | Decided::OutOfBounds => {}
    }
}
