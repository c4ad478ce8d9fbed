//! A fast test that the delayed writes of an incarnation on a file are stored or told: it is true only where they are.

ghost use Rattle.std.specs.Prelude.{◌≡◌, ◌<◌, ◌≤◌, IsTrue, length, reverse, take, true};
ghost use Rattle.nq_check.specs.Links.{IsLinked};
ghost use Rattle.nq_check.specs.Tables.{AreTables};
ghost use Rattle.nq_rules.specs.declared.keys.KeyKind.TheVariants.{Delays};
ghost use Rattle.nq_model.specs.laws.JournalTest.{exists};
ghost use Rattle.nq_model.specs.laws.ReportedTest.{names};
ghost use Rattle.nq_model.specs.laws.SynchronizedTest.{are_stored_or_told, is_named_loss, is_stored_or_told};

use crate::along::{back_from, entry_at, is_there};
use crate::fates::{Linked, fate_at};
use crate::links::{Links, head_at};
use crate::namings::loss_key;
use crate::reports::names;
use nq_base::{Entry, FileId, Loss, Who};
use nq_rules::entries::loss_covers;
use nq_rules::keys::{KeyKind, file_key};
use nq_rules::sought::Sought;

/// Whose delayed writes have to be settled: those of an incarnation on a file, before a place.
#[derive(Drop)]
pub(crate) struct Settling<'a> {
    pub(crate) who: &'a Who,
    pub(crate) file: FileId,
    pub(crate) place: usize,
}

/// Whether an entry before an answer, at the place that is kept for a loss, names the loss.
fn is_named_at(linked: &Linked, answered: &[Entry], by: &Who, loss: &Loss) -> bool
    requires tables { AreTables linked.now.whole.now linked.now.tables.now }
    ensures { IsTrue result → exists (names (reverse linked.now.whole.now) by.now loss.now) (reverse answered.now) ≡ true }
{
    let at = head_at(&linked.fates.named, loss_key(by, loss.first, loss.last));
    if at == 0 {
        return false;
    }
    match entry_at(answered, at - 1) {
        Some(entry) => names(linked.tables, linked.whole, by, loss, entry),
        None => false,
    }
}

/// Whether an entry is an L that covers a write, and an entry before the answer is known to name it.
fn is_named_loss(linked: &Linked, answered: &[Entry], write: &Entry, entry: &Entry) -> bool
    requires tables { AreTables linked.now.whole.now linked.now.tables.now }
    ensures { IsTrue result → is_named_loss (reverse linked.now.whole.now) (reverse answered.now) write.now entry.now ≡ true }
{
    match entry {
        Entry::L {
            who,
            file,
            block,
            first,
            last,
        } => {
            let loss = Loss {
                file: *file,
                block: *block,
                first: *first,
                last: *last,
            };
            if !loss_covers(entry, write) {
                return false;
            }
            is_named_at(linked, answered, who, &loss)
        }
        _ => false,
    }
}

/// Whether an S among the `stores` covers a write, or an L that is told.
fn is_settled(
    linked: &Linked,
    stores: &[Entry],
    answered: &[Entry],
    fate: usize,
    write: &Entry,
) -> bool
    requires tables { AreTables linked.now.whole.now linked.now.tables.now }
    ensures { IsTrue result → is_stored_or_told (reverse linked.now.whole.now) (reverse stores.now) (reverse answered.now) write.now ≡ true }
{
    if is_there(stores, fate, Sought::Store(write)) {
        return true;
    }
    match entry_at(linked.whole, fate) {
        Some(entry) => is_named_loss(linked, answered, write, entry),
        None => false,
    }
}

/// Whether each of the delayed writes that have to be settled is stored, by an S among the `stores`, or told. Those before
/// another place are known to be.
pub(crate) fn are_settled(
    linked: &Linked,
    delays: &Links,
    stores: &[Entry],
    known: usize,
    these: &Settling,
) -> bool
    requires tables { AreTables linked.now.whole.now linked.now.tables.now }
    requires delays { IsLinked Delays linked.now.whole.now these.now.place delays.now.heads.entries delays.now.earlier.items }
    requires within { these.now.place < length linked.now.whole.now }
    requires known { (known ≤ these.now.place) × (are_stored_or_told (reverse linked.now.whole.now) (reverse stores.now)
        (reverse (take known linked.now.whole.now)) these.now.who.now these.now.file ≡ true) }
    ensures { IsTrue result → are_stored_or_told (reverse linked.now.whole.now) (reverse stores.now) (reverse (take these.now.place linked.now.whole.now))
        these.now.who.now these.now.file ≡ true }
{
    let whole = linked.whole;
    let place = these.place;
    let answered = &whole[..place];
    let key = file_key(these.who, these.file);
    let mut at = back_from(delays, KeyKind::Delays, key, whole, place, place);
    while at > known {
        let fate = fate_at(linked.fates, at - 1);
        if !is_settled(linked, stores, answered, fate, &whole[at - 1]) {
            return false;
        }
        at = back_from(delays, KeyKind::Delays, key, whole, place, at - 1);
    }
    true
}
