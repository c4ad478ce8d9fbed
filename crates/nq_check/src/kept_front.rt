//! A fast pass over the answers that are kept.

ghost use Rattle.std.specs.Prelude.{◌≡◌, [], IfOk, IsTrue, Some, reverse, take, true};
ghost use Rattle.std.specs.List.{slice_get};
ghost use Rattle.nq_check.specs.Fronts.{KeepsBelow};
ghost use Rattle.nq_rules.specs.Kept.{is_kept, is_kept_at};
ghost use Rattle.nq_check.specs.Ready.{IsReady};
ghost use Rattle.nq_check.specs.Tables.{AreTables};
ghost use Rattle.nq_check.specs.declared.rules.Rule.{Rule};
ghost use Rattle.nq_model.specs.laws.JournalTest.{is_answer};

use crate::along::call_near;
use crate::fates::{Fates, Linked};
use crate::puts::is_put_kept;
use crate::syncs::{AskedCall, is_resize_kept, is_sync_kept};
use crate::tables::LinkTables;
use crate::trail::{Trail, no_trail, take_in};
use nq_base::{Entry, NoMemory, Said, Told};
use nq_rules::synchronized::is_kept;
use std::alloc::Global;

/// Whether what an ok says is seen to be kept, with a look at few entries.
fn is_seen_kept(
    linked: &Linked,
    trail: &Trail,
    place: usize,
    entry: &Entry,
    asked: &AskedCall,
) -> bool
    requires ready { IsReady linked.now.whole.now place linked.now.tables.now trail.now.delays }
    requires there { slice_get linked.now.whole.now place ≡ Some entry.now }
    requires answer { is_answer asked.now.who.now asked.now.q entry.now ≡ true }
    ensures { IsTrue result → is_kept (reverse linked.now.whole.now) (reverse (take place linked.now.whole.now)) asked.now.who.now asked.now.q
        asked.now.call ≡ true }
{
    let Some(told) = asked.call else {
        return false;
    };
    match told {
        Told::Put { .. } => is_put_kept(linked, &trail.hints, place, entry, asked.who, asked.q),
        Told::Sync { file } => is_sync_kept(linked, trail, place, asked.who, file),
        Told::Resize { file, .. } | Told::Remove { file } => {
            is_resize_kept(linked, trail, place, asked, file)
        }
        _ => false,
    }
}

/// Whether an A that says ok is kept, where links show what its call asks.
fn is_kept_at(
    tables: &LinkTables,
    fates: &Fates,
    trail: &Trail,
    whole: &[Entry],
    place: usize,
    entry: &Entry,
) -> bool
    requires ready { IsReady whole.now place tables.now trail.now.delays }
    requires there { slice_get whole.now place ≡ Some entry.now }
    ensures { result ≡ is_kept_at (reverse whole.now) entry.now (reverse (take place whole.now)) }
{
    match entry {
        Entry::A {
            who,
            q,
            said: Said::Ok | Said::OkValue(_) | Said::OkBy { .. },
        } => {
            let asked = AskedCall {
                who,
                q: *q,
                call: call_near(&tables.calls, whole, place, who, *q),
            };
            let linked = Linked {
                whole,
                tables,
                fates,
            };
            is_seen_kept(&linked, trail, place, entry, &asked)
                || is_kept(whole, &whole[..place], who, *q, &asked.call)
        }
        _ => true,
    }
}

/// How far the answers of a journal are kept, one after another, behind a trail that has nothing yet.
fn keep_all(
    trail: &mut Trail,
    tables: &LinkTables,
    fates: &Fates,
    whole: &[Entry],
    ordered: usize,
) -> Result<usize, NoMemory>
    requires tables { AreTables whole.now tables.now }
    requires ordered { KeepsBelow Rule.Ordered whole.now ordered }
    requires none { (trail.old.delays.heads.entries ≡ []) × (trail.old.delays.earlier.items ≡ []) }
    ensures { IfOk result (KeepsBelow Rule.Synchronized whole.now) }
{
    for (place, entry) in whole.iter().enumerate() {
        if place >= ordered || !is_kept_at(tables, fates, trail, whole, place, entry) {
            return Ok(place);
        }
        take_in(trail, tables, whole, place, entry)?;
    }
    Ok(whole.len())
}

/// How far the answers of a journal are kept, one after another, among its entries that stand in order.
pub(crate) fn kept_front(
    alloc: Global,
    tables: &LinkTables,
    fates: &Fates,
    whole: &[Entry],
    ordered: usize,
) -> Result<usize, NoMemory>
    requires tables { AreTables whole.now tables.now }
    requires ordered { KeepsBelow Rule.Ordered whole.now ordered }
    ensures { IfOk result (KeepsBelow Rule.Synchronized whole.now) }
{
    let mut trail = no_trail(alloc);
    keep_all(&mut trail, tables, fates, whole, ordered)
}
