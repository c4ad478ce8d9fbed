//! Fast tests that an answered `sync`, `resize` or `remove` is kept: they are true only where it is.

ghost use Rattle.std.specs.Prelude.{◌≡◌, ◌≤◌, IsTrue, reverse, take, true};
ghost use Rattle.nq_check.specs.Ready.{IsReady};
ghost use Rattle.nq_check.specs.Settling.{call_of_ok, is_sizing_of, is_sync_of};
ghost use Rattle.nq_check.specs.Tables.{AreTables};
ghost use Rattle.nq_model.specs.laws.JournalTest.{somewhere};
ghost use Rattle.nq_model.specs.laws.SynchronizedTest.{are_stored_or_told, is_settled_resize};

use crate::along::{back_from, call_along};
use crate::fates::Linked;
use crate::links::head_at;
use crate::settled::{Settling, are_settled};
use crate::trail::Trail;
use nq_base::{Entry, FileId, Said, Told, Who};
use nq_rules::entries::is_resize_by;
use nq_rules::keys::{KeyKind, call_key, file_key};

/// A call as its A names it, and what it asks.
#[derive(Drop)]
pub(crate) struct AskedCall<'a> {
    pub(crate) who: &'a Who,
    pub(crate) q: u64,
    pub(crate) call: Option<Told>,
}

/// Whether a call is a `sync` of a file.
fn is_sync_of(on: FileId, call: Option<Told>) -> bool
    ensures { result ≡ is_sync_of on call }
{
    let Some(told) = call else {
        return false;
    };
    match told {
        Told::Sync { file } => file == on,
        _ => false,
    }
}

/// Whether a call is a `resize` or `remove` of a file.
fn is_sizing_of(on: FileId, call: Option<Told>) -> bool
    ensures { result ≡ is_sizing_of on call }
{
    let Some(told) = call else {
        return false;
    };
    match told {
        Told::Resize { file, .. } => file == on,
        Told::Remove { file } => file == on,
        _ => false,
    }
}

/// The call to which an entry says ok, if it is such an answer of an incarnation.
fn call_of_ok(linked: &Linked, by: &Who, entry: &Entry) -> Option<Told>
    requires tables { AreTables linked.now.whole.now linked.now.tables.now }
    ensures { result ≡ call_of_ok (reverse linked.now.whole.now) by.now entry.now }
{
    match entry {
        Entry::A {
            who,
            q,
            said: Said::Ok,
        } if *by == *who => call_along(&linked.tables.calls, linked.whole, who, *q),
        _ => None,
    }
}

/// A place up to which an earlier `sync` has shown that delayed writes are stored or told.
fn synced_before(linked: &Linked, trail: &Trail, place: usize, by: &Who, on: FileId) -> usize
    requires ready { IsReady linked.now.whole.now place linked.now.tables.now trail.now.delays }
    ensures low { result ≤ place }
    ensures known { are_stored_or_told (reverse linked.now.whole.now) (reverse linked.now.whole.now)
        (reverse (take result linked.now.whole.now)) by.now on ≡ true }
{
    let whole = linked.whole;
    let at = head_at(&trail.hints.synced, file_key(by, on));
    if at < place && is_sync_of(on, call_of_ok(linked, by, &whole[at])) {
        return at;
    }
    0
}

/// A place up to which an earlier `resize` or `remove` has shown that delayed writes are stored before another place, or told.
fn resized_before(
    linked: &Linked,
    trail: &Trail,
    resize: usize,
    place: usize,
    by: &Who,
    on: FileId,
) -> usize
    requires ready { IsReady linked.now.whole.now place linked.now.tables.now trail.now.delays }
    requires upto { resize ≤ place }
    ensures low { result ≤ place }
    ensures known { are_stored_or_told (reverse linked.now.whole.now) (reverse (take resize linked.now.whole.now))
        (reverse (take result linked.now.whole.now)) by.now on ≡ true }
{
    let whole = linked.whole;
    let at = head_at(&trail.hints.resized, file_key(by, on));
    if at < resize && is_sizing_of(on, call_of_ok(linked, by, &whole[at])) {
        return at;
    }
    0
}

/// Whether each delayed write of an incarnation on a file before the A of its `sync` is stored or told.
pub(crate) fn is_sync_kept(
    linked: &Linked,
    trail: &Trail,
    place: usize,
    by: &Who,
    on: FileId,
) -> bool
    requires ready { IsReady linked.now.whole.now place linked.now.tables.now trail.now.delays }
    ensures { IsTrue result → are_stored_or_told (reverse linked.now.whole.now) (reverse linked.now.whole.now)
        (reverse (take place linked.now.whole.now)) by.now on ≡ true }
{
    let known = synced_before(linked, trail, place, by, on);
    let these = Settling {
        who: by,
        file: on,
        place,
    };
    are_settled(linked, &trail.delays, linked.whole, known, &these)
}

/// Whether the last entry of a call before its A is its Z, and each delayed write on the file before the A is
/// stored before the Z, or told.
pub(crate) fn is_resize_kept(
    linked: &Linked,
    trail: &Trail,
    place: usize,
    asked: &AskedCall,
    on: FileId,
) -> bool
    requires ready { IsReady linked.now.whole.now place linked.now.tables.now trail.now.delays }
    ensures { IsTrue result → somewhere (is_settled_resize (reverse linked.now.whole.now) (reverse (take place linked.now.whole.now)) asked.now.who.now
        asked.now.q on) (reverse (take place linked.now.whole.now)) ≡ true }
{
    let whole = linked.whole;
    let key = call_key(asked.who, asked.q);
    let at = back_from(
        &linked.tables.calls,
        KeyKind::Calls,
        key,
        whole,
        whole.len(),
        place,
    );
    if at == 0 || !is_resize_by(&whole[at - 1], asked.who, asked.q) {
        return false;
    }
    let known = resized_before(linked, trail, at - 1, place, asked.who, on);
    let these = Settling {
        who: asked.who,
        file: on,
        place,
    };
    are_settled(linked, &trail.delays, &whole[..at - 1], known, &these)
}
