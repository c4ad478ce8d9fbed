//! The links of a journal in each kind.

ghost use Rattle.std.specs.Prelude.{◌≡◌, ◌+◌, ◌<◌, List, IfOk, OnOk, Some, length};
ghost use Rattle.std.specs.List.{slice_get};
ghost use Rattle.nq_base.specs.declared.Entry.{Entry};
ghost use Rattle.nq_check.specs.Tables.{AreLeasesTo, AreTables, AreTablesTo};

use crate::links::{Links, link_at, no_links};
use nq_base::{Entry, NoMemory};
use nq_rules::keys::KeyKind;
use std::alloc::Global;

/// The links of what tells whether a lease has ended.
#[derive(Drop)]
pub(crate) struct Leases {
    pub(crate) grants: Links,
    pub(crate) stores: Links,
    pub(crate) own: Links,
}

/// The links of each kind but that of delayed writes.
#[derive(Drop)]
pub(crate) struct LinkTables {
    pub(crate) calls: Links,
    pub(crate) reads: Links,
    pub(crate) writes: Links,
    pub(crate) covers: Links,
    pub(crate) cuts: Links,
    pub(crate) leases: Leases,
    /// For each C the place of the first entry behind it to which the links of its call lead: a hint.
    pub(crate) later: Vec<usize>,
}

/// No links of any kind.
fn no_tables(alloc: Global) -> LinkTables
    ensures { (whole : List Entry) → AreTablesTo whole 0 result }
{
    LinkTables {
        calls: no_links(alloc),
        reads: no_links(alloc),
        writes: no_links(alloc),
        covers: no_links(alloc),
        cuts: no_links(alloc),
        leases: Leases {
            grants: no_links(alloc),
            stores: no_links(alloc),
            own: no_links(alloc),
        },
        later: Vec::new(alloc),
    }
}

/// Links the grant, store or write at a place.
fn link_lease(
    leases: &mut Leases,
    whole: &[Entry],
    place: usize,
    entry: &Entry,
) -> Result<(), NoMemory>
    requires there { (place < length whole.now) × (slice_get whole.now place ≡ Some entry.now) }
    requires linked { AreLeasesTo whole.now place leases.old }
    ensures { OnOk result (AreLeasesTo whole.now (place + 1) leases.new) }
{
    link_at(&mut leases.grants, KeyKind::Grants, whole, place, entry)?;
    link_at(&mut leases.stores, KeyKind::Stores, whole, place, entry)?;
    link_at(&mut leases.own, KeyKind::Own, whole, place, entry)
}

/// Links the entry at a place in each kind.
fn link_next(
    tables: &mut LinkTables,
    whole: &[Entry],
    place: usize,
    entry: &Entry,
) -> Result<(), NoMemory>
    requires there { (place < length whole.now) × (slice_get whole.now place ≡ Some entry.now) }
    requires linked { AreTablesTo whole.now place tables.old }
    ensures { OnOk result (AreTablesTo whole.now (place + 1) tables.new) }
{
    link_at(&mut tables.calls, KeyKind::Calls, whole, place, entry)?;
    link_at(&mut tables.reads, KeyKind::Reads, whole, place, entry)?;
    link_at(&mut tables.writes, KeyKind::Writes, whole, place, entry)?;
    link_at(&mut tables.covers, KeyKind::Covers, whole, place, entry)?;
    link_at(&mut tables.cuts, KeyKind::Cuts, whole, place, entry)?;
    link_lease(&mut tables.leases, whole, place, entry)
}

/// The place that is kept at another.
fn place_in(places: &Vec<usize>, at: usize) -> usize {
    places.get(at).copied().unwrap_or(0)
}

/// Takes in the entry at a place, whose link leads to another, which is counted from 1.
fn keep_later(later: &mut Vec<usize>, place: usize, earlier: usize) -> Result<(), NoMemory> {
    if 0 < earlier && earlier <= later.len() {
        later[earlier - 1] = place;
    }
    later.push(0)?;
    Ok(())
}

/// Links the entries of a journal in each kind.
pub(crate) fn make_tables(alloc: Global, whole: &[Entry]) -> Result<LinkTables, NoMemory>
    ensures { IfOk result (AreTables whole.now) }
{
    let mut tables = no_tables(alloc);
    for (place, entry) in whole.iter().enumerate() {
        link_next(&mut tables, whole, place, entry)?;
        let earlier = place_in(&tables.calls.earlier, place);
        keep_later(&mut tables.later, place, earlier)?;
    }
    Ok(tables)
}

/// Where the call of the read at a place is perhaps answered: whoever takes it looks at the entry.
pub(crate) fn answer_near(tables: &LinkTables, place: usize) -> usize {
    place_in(
        &tables.later,
        place_in(&tables.calls.earlier, place).saturating_sub(1),
    )
}
