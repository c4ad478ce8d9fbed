//! A fast pass over the losses that are reported by the first call that has to.

ghost use Rattle.std.specs.Prelude.{◌≡◌, ◌+◌, ◌<◌, true, IsTrue, Some, IfOk, OnOk, if◌then◌else◌, length, reverse, take, drop};
ghost use Rattle.std.specs.List.{slice_get};
ghost use Rattle.nq_check.specs.Fronts.{KeepsBelow};
ghost use Rattle.nq_check.specs.Losses.{PassBetween, is_told};
ghost use Rattle.nq_rules.specs.Named.{is_reported};
ghost use Rattle.nq_check.specs.Reports.{AreNext, IsReportKey, TakesReport, answers, reports_of};
ghost use Rattle.nq_check.specs.Tables.{AreTables};
ghost use Rattle.nq_check.specs.declared.rules.Rule.{Rule};
ghost use Rattle.nq_model.specs.laws.ReportedTest.{names};

use crate::along::{call_along, is_there};
use crate::links::{Heads, head_at, set_head};
use crate::namings::loss_key;
use crate::tables::LinkTables;
use nq_base::{Entry, KeptCall, Loss, NoMemory, Said, Told, Who};
use nq_rules::calls::speaks_of;
use nq_rules::entries::is_answer;
use nq_rules::keys::{EntryKey, file_key};
use nq_rules::named::are_names_of;
use nq_rules::sought::Sought;
use std::alloc::Global;
use std::collections::HashMap;

/// The incarnation and file whose losses a call reports, if any.
pub(crate) fn reports_of(who: &Who, told: &KeptCall) -> Option<EntryKey>
    ensures { result ≡ reports_of who.now told.now }
{
    match told.told() {
        Told::Write { file, .. } => Some(file_key(who, file)),
        Told::Put { file, .. } => Some(file_key(who, file)),
        Told::Sync { file } => Some(file_key(who, file)),
        Told::Resize { file, .. } => Some(file_key(who, file)),
        Told::Remove { file } => Some(file_key(who, file)),
        _ => None,
    }
}

/// The incarnation and file whose losses the entry at a place may have to report.
fn may_report(whole: &[Entry], place: usize, entry: &Entry) -> Option<EntryKey>
    requires { place < length whole.now }
    ensures { IsReportKey (reverse whole.now) entry.now result }
{
    match entry {
        Entry::C { who, q, told } => {
            if is_there(whole, place + 1, Sought::Busy { who, q: *q }) {
                return None;
            }
            reports_of(who, told)
        }
        _ => None,
    }
}

/// Takes in the entry at a place, which stands before all that were taken in.
fn take_report(
    next: &mut Heads,
    whole: &[Entry],
    place: usize,
    entry: &Entry,
) -> Result<(), NoMemory>
    requires there { (place < length whole.now) × (slice_get whole.now place ≡ Some entry.now) }
    ensures { OnOk result (TakesReport whole.now place next.old.entries next.new.entries) }
{
    match may_report(whole, place, entry) {
        Some(key) => set_head(next, key, whole.len() - place),
        None => Ok(()),
    }
}

/// Whether an entry is an A `lost` that names a loss.
pub(crate) fn names(
    tables: &LinkTables,
    whole: &[Entry],
    by: &Who,
    loss: &Loss,
    entry: &Entry,
) -> bool
    requires tables { AreTables whole.now tables.now }
    ensures { result ≡ names (reverse whole.now) by.now loss.now entry.now }
{
    match entry {
        Entry::A {
            who,
            q,
            said: Said::Lost(spans),
        } => {
            *by == *who
                && are_names_of(loss, spans)
                && speaks_of(loss.file, call_along(&tables.calls, whole, who, *q))
        }
        _ => false,
    }
}

/// Whether an entry is the A of a C.
fn answers(call: &Entry, entry: &Entry) -> bool
    ensures { result ≡ answers call.now entry.now }
{
    match call {
        Entry::C { who, q, .. } => is_answer(entry, who, *q),
        _ => false,
    }
}

/// What passes over a journal have found of its losses.
#[derive(Drop)]
pub(crate) struct Found<'a> {
    /// The links of the journal.
    pub(crate) tables: &'a LinkTables,
    /// Where losses are named.
    pub(crate) named: &'a Heads,
    /// A place below which each entry stands in order.
    pub(crate) ordered: usize,
}

/// Whether the loss of the L at a place is named before a call has to report it, or by the A of that call.
fn is_reported(
    found: &Found,
    next: &Heads,
    whole: &[Entry],
    place: usize,
    by: &Who,
    loss: &Loss,
) -> bool
    requires tables { AreTables whole.now found.now.tables.now }
    requires ordered { KeepsBelow Rule.Ordered whole.now found.now.ordered }
    requires next { AreNext whole.now (place + 1) next.now.entries }
    requires within { place < length whole.now }
    ensures { IsTrue result → is_reported (reverse whole.now) (reverse (take (place + 1) whole.now)) by.now loss.now (drop (place + 1) whole.now) ≡ true }
{
    let call = whole
        .len()
        .saturating_sub(head_at(next, file_key(by, loss.file)));
    if call >= whole.len() {
        return true;
    }
    let at = head_at(found.named, loss_key(by, loss.first, loss.last));
    if at <= place + 1 || at > whole.len() {
        return false;
    }
    let answered = at - 1;
    let answer = &whole[answered];
    if !names(found.tables, whole, by, loss, answer) {
        return false;
    }
    if answered <= call {
        return true;
    }
    if call <= place || answered > call + 1 || answered >= found.ordered {
        return false;
    }
    answers(&whole[call], answer)
}

/// Whether the entry at a place is no L, or one that is reported.
fn is_told(found: &Found, next: &Heads, whole: &[Entry], place: usize, entry: &Entry) -> bool
    requires tables { AreTables whole.now found.now.tables.now }
    requires ordered { KeepsBelow Rule.Ordered whole.now found.now.ordered }
    requires next { AreNext whole.now (place + 1) next.now.entries }
    requires there { (place < length whole.now) × (slice_get whole.now place ≡ Some entry.now) }
    ensures { IsTrue result → is_told whole.now place entry.now ≡ true }
{
    match entry {
        Entry::L {
            who,
            file,
            block,
            first,
            last,
        } => {
            let loss = Loss {
                file: *file,
                block: *block,
                first: *first,
                last: *last,
            };
            is_reported(found, next, whole, place, who, &loss)
        }
        _ => true,
    }
}

/// A front once an entry before it was looked at: it stays where that passes, and else it is the entry's place.
fn front_with(passes: bool, place: usize, front: usize) -> usize
    ensures { result ≡ (if passes then front else place) }
{
    if passes { front } else { place }
}

/// A place below which each L is reported.
pub(crate) fn reports_front(
    alloc: Global,
    found: &Found,
    whole: &[Entry],
) -> Result<usize, NoMemory>
    requires tables { AreTables whole.now found.now.tables.now }
    requires ordered { KeepsBelow Rule.Ordered whole.now found.now.ordered }
    ensures { IfOk result (λ front. PassBetween (is_told whole.now) whole.now 0 front) }
{
    let mut next = HashMap::new(alloc);
    let mut front = whole.len();
    let mut left = whole.len();
    while left > 0 {
        let place = left - 1;
        let entry = &whole[place];
        let told = is_told(found, &next, whole, place, entry);
        front = front_with(told, place, front);
        take_report(&mut next, whole, place, entry)?;
        left = place;
    }
    Ok(front)
}
