//! A fast pass over the losses before which a lease has ended, late enough.

ghost use Rattle.std.specs.Prelude.{◌≡◌, ◌+◌, ◌<◌, ◌≤◌, ◌&&◌, nat_eq, nat_le, true, IsTrue, Some, IfOk, IfSome, drop, length, reverse, take};
ghost use Rattle.std.specs.List.{slice_get};
ghost use Rattle.nq_rules.specs.Grants.{given};
ghost use Rattle.nq_check.specs.Leases.{AreLinked, HasEndBetween, IsStorePast};
ghost use Rattle.nq_check.specs.Links.{IsFree, IsLinked};
ghost use Rattle.nq_check.specs.Losses.{PassBetween, is_ended};
ghost use Rattle.nq_check.specs.Rising.{Rises};
ghost use Rattle.nq_check.specs.Tables.{AreTables};
ghost use Rattle.nq_model.specs.laws.CutOff.{last_grant};
ghost use Rattle.nq_model.specs.laws.CutOffTest.{has_passed, is_cut_off, is_store_over};
ghost use Rattle.nq_model.specs.laws.JournalTest.{each};
ghost use Rattle.nq_model.specs.protocol.Table.{same_who};

use crate::along::{back_from, covers_behind};
use crate::links::{Heads, Links, head_at, set_head};
use crate::rising::rising_front;
use crate::tables::LinkTables;
use nq_base::{Entry, FileId, NoMemory, Ticks, Who};
use nq_rules::excused::{
    Granted, WRITE_SLACK, ends_first, grant_by, has_passed, is_grant_over, is_long_wait,
};
use nq_rules::keys::{EntryKey, KeyKind, file_key, own_key};
use std::alloc::Global;
use std::collections::HashMap;

/// Where leases may have ended. Places are counted from 1.
#[derive(Drop)]
struct Ends {
    /// The last F of an incarnation on a file.
    silent: Heads,
    /// The last O.
    opened: usize,
    /// The last X before it.
    boot: usize,
    /// The last X.
    booted: usize,
}

/// A lease of an incarnation on a file, as an entry sees it.
#[derive(Drop)]
struct Lease<'a> {
    who: &'a Who,
    file: FileId,
    /// The place of the entry.
    place: usize,
}

/// The place of the last entry of a key before a place, as the links from a later place lead to it. Counted from 1.
fn last_before(
    links: &Links,
    kind: KeyKind,
    key: EntryKey,
    whole: &[Entry],
    from: usize,
    to: usize,
) -> usize
    requires linked { IsLinked kind whole.now (length whole.now) links.now.heads.entries links.now.earlier.items }
    requires within { from < length whole.now }
    requires upto { to ≤ from }
    ensures low { result ≤ to }
    ensures free { IsFree kind key whole.now result to }
{
    let mut at = back_from(links, kind, key, whole, whole.len(), from);
    while at > to {
        at = back_from(links, kind, key, whole, whole.len(), at - 1);
    }
    at
}

/// The last grant of a lease before a place, if it is known.
fn grant_before(tables: &LinkTables, whole: &[Entry], lease: &Lease, to: usize) -> Option<Granted>
    requires linked { AreLinked whole.now tables.now lease.now.place }
    requires upto { to ≤ lease.now.place }
    ensures { IfSome result (λ grant. given (Some grant) ≡ last_grant (reverse (take to whole.now)) lease.now.who.now lease.now.file) }
{
    let key = file_key(lease.who, lease.file);
    let at = last_before(
        &tables.leases.grants,
        KeyKind::Grants,
        key,
        whole,
        lease.place,
        to,
    );
    if at == 0 {
        return None;
    }
    grant_by(&whole[at - 1], lease.who, lease.file)
}

/// Whether an entry is an S since which write slack has passed.
fn is_store_past(entry: &Entry, at: Ticks) -> bool
    ensures { IsTrue result → IsStorePast at entry.now }
{
    match entry {
        Entry::S { now, .. } => has_passed(*now, WRITE_SLACK, at),
        _ => false,
    }
}

/// Whether write slack has passed since each S of a lease before a place.
fn are_stores_past(
    tables: &LinkTables,
    whole: &[Entry],
    lease: &Lease,
    to: usize,
    now: Ticks,
) -> bool
    requires linked { AreLinked whole.now tables.now lease.now.place }
    requires upto { to ≤ lease.now.place }
    ensures { IsTrue result → each (is_store_over lease.now.who.now lease.now.file now) (reverse (take to whole.now)) ≡ true }
{
    let key = file_key(lease.who, lease.file);
    let at = last_before(
        &tables.leases.stores,
        KeyKind::Stores,
        key,
        whole,
        lease.place,
        to,
    );
    if at == 0 {
        return true;
    }
    is_store_past(&whole[at - 1], now)
}

/// Whether a lease is that of an incarnation on a file.
fn is_of(lease: &Lease, who: &Who, file: FileId) -> bool
    ensures { result ≡ (same_who who.now lease.now.who.now && nat_eq file lease.now.file) }
{
    *who == *lease.who && file == lease.file
}

/// Whether a lease that was granted ended in silence late enough, as its F tells it.
fn is_late(until: Ticks, heard: Ticks, now: Ticks, grant: Option<Granted>) -> bool
    ensures { result ≡ ((nat_le (heard + 5) now && nat_le (until + 5) now) && has_passed now (given grant)) }
{
    (has_passed(heard, WRITE_SLACK, now) && has_passed(until, WRITE_SLACK, now))
        && is_grant_over(grant, now)
}

/// Whether the lease of an L ended behind a place and before the L, late enough, by the F at a place that is counted from 1.
fn ends_in_silence(
    tables: &LinkTables,
    whole: &[Entry],
    lease: &Lease,
    last: usize,
    silent: usize,
) -> bool
    requires linked { AreLinked whole.now tables.now lease.now.place }
    ensures { IsTrue result → HasEndBetween whole.now last lease.now.place lease.now.who.now lease.now.file }
{
    if silent <= last || silent > lease.place {
        return false;
    }
    let end = silent - 1;
    match &whole[end] {
        Entry::F {
            who,
            file,
            until,
            heard,
            now,
        } => {
            if !is_of(lease, who, *file) {
                return false;
            }
            let grant = grant_before(tables, whole, lease, end);
            if !is_late(*until, *heard, *now, grant) {
                return false;
            }
            are_stores_past(tables, whole, lease, end, *now)
        }
        _ => false,
    }
}

/// Whether it ended so by the last O, late enough since the last X before that.
fn ends_by_opening(
    tables: &LinkTables,
    whole: &[Entry],
    lease: &Lease,
    last: usize,
    ends: &Ends,
) -> bool
    requires linked { AreLinked whole.now tables.now lease.now.place }
    ensures { IsTrue result → HasEndBetween whole.now last lease.now.place lease.now.who.now lease.now.file }
{
    let opened = ends.opened;
    let since = ends.boot;
    if opened <= last || opened > lease.place || since == 0 || since >= opened {
        return false;
    }
    let end = opened - 1;
    let booted = &whole[since - 1];
    match &whole[end] {
        Entry::O { boot, now, .. } => {
            let grant = grant_before(tables, whole, lease, end);
            if !is_long_wait(booted, *boot, *now, &grant) {
                return false;
            }
            are_stores_past(tables, whole, lease, end, *now)
        }
        _ => false,
    }
}

/// Whether the lease of an L ended behind a place and before the L.
fn ends_behind(
    ends: &Ends,
    tables: &LinkTables,
    whole: &[Entry],
    lease: &Lease,
    last: usize,
) -> bool
    requires linked { AreLinked whole.now tables.now lease.now.place }
    ensures { IsTrue result → HasEndBetween whole.now last lease.now.place lease.now.who.now lease.now.file }
{
    let silent = head_at(&ends.silent, file_key(lease.who, lease.file));
    if ends_in_silence(tables, whole, lease, last, silent) {
        return true;
    }
    ends_by_opening(tables, whole, lease, last, ends)
}

/// Whether the entry at a place is no L, or a lease ended before it and behind each write that it covers, and it covers none
/// behind it.
fn is_ended_at(
    ends: &Ends,
    tables: &LinkTables,
    whole: &[Entry],
    place: usize,
    entry: &Entry,
) -> bool
    requires linked { AreLinked whole.now tables.now place }
    requires there { slice_get whole.now place ≡ Some entry.now }
    ensures { IsTrue result → is_ended whole.now place entry.now ≡ true }
{
    match entry {
        Entry::L {
            who,
            file,
            block,
            ..
        } => {
            if covers_behind(&tables.leases.own, whole, place, entry) {
                return false;
            }
            let key = own_key(who, *file, *block);
            let last = back_from(
                &tables.leases.own,
                KeyKind::Own,
                key,
                whole,
                whole.len(),
                place,
            );
            let lease = Lease {
                who,
                file: *file,
                place,
            };
            ends_behind(ends, tables, whole, &lease, last)
        }
        _ => true,
    }
}

/// Takes in the entry at a place.
fn take_end(ends: &mut Ends, place: usize, entry: &Entry) -> Result<(), NoMemory>
    requires { place < 18446744073709551615 }
{
    match entry {
        Entry::F { who, file, .. } => {
            return set_head(&mut ends.silent, file_key(who, *file), place + 1);
        }
        Entry::X { .. } => ends.booted = place + 1,
        Entry::O { .. } => {
            ends.opened = place + 1;
            ends.boot = ends.booted;
        }
        _ => {}
    }
    Ok(())
}

/// Whether an L is cut off.
pub(crate) fn is_cut_off(tables: &LinkTables, whole: &[Entry], place: usize, entry: &Entry) -> bool
    requires tables { AreTables whole.now tables.now }
    requires within { place < length whole.now }
    ensures { result ≡ is_cut_off (drop (place + 1) whole.now) entry.now (reverse (take place whole.now)) }
{
    match entry {
        Entry::L { who, file, .. } => {
            ends_first(&whole[..place], entry, who, *file)
                && !covers_behind(&tables.leases.own, whole, place, entry)
        }
        _ => true,
    }
}

/// Whether the entry at a place is no L, or is cut off. Where the times of stores rise, the last ends of its lease are looked at first.
fn is_ended(
    ends: &Ends,
    tables: &LinkTables,
    whole: &[Entry],
    rising: usize,
    place: usize,
    entry: &Entry,
) -> bool
    requires tables { AreTables whole.now tables.now }
    requires rises { Rises whole.now rising }
    requires there { (place < length whole.now) × (slice_get whole.now place ≡ Some entry.now) }
    ensures { IsTrue result → is_ended whole.now place entry.now ≡ true }
{
    if place < rising && is_ended_at(ends, tables, whole, place, entry) {
        return true;
    }
    is_cut_off(tables, whole, place, entry)
}

/// A place below which a lease ended before each L and behind each write that it covers.
pub(crate) fn endings_front(
    alloc: Global,
    tables: &LinkTables,
    whole: &[Entry],
) -> Result<usize, NoMemory>
    requires { AreTables whole.now tables.now }
    ensures { IfOk result (λ front. PassBetween (is_ended whole.now) whole.now 0 front) }
{
    let rising = rising_front(whole);
    let mut ends = Ends {
        silent: HashMap::new(alloc),
        opened: 0,
        boot: 0,
        booted: 0,
    };
    for (place, entry) in whole.iter().enumerate() {
        if !is_ended(&ends, tables, whole, rising, place, entry) {
            return Ok(place);
        }
        take_end(&mut ends, place, entry)?;
    }
    Ok(whole.len())
}
