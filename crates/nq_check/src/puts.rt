//! A fast test that an answered `put` is kept: it is true only where it is.

ghost use Rattle.std.specs.Prelude.{◌≡◌, ◌||◌, ◌+◌, ◌<◌, IsTrue, Some, length, reverse, take, true};
ghost use Rattle.std.specs.List.{slice_get};
ghost use Rattle.nq_check.specs.Fronts.{KeepsBelow};
ghost use Rattle.nq_rules.specs.Kept.{is_put_kept};
ghost use Rattle.nq_check.specs.Tables.{AreTables};
ghost use Rattle.nq_check.specs.declared.rules.Rule.TheVariants.{Ordered};
ghost use Rattle.nq_model.specs.laws.JournalTest.{is_answer, is_stored, is_through, somewhere};

use crate::along::{back_from, is_before_near};
use crate::fates::{Linked, fate_at};
use crate::links::head_at;
use crate::trail::Hints;
use nq_base::{Entry, Who};
use nq_rules::entries::{is_call, is_through, is_write_by};
use nq_rules::keys::{KeyKind, call_key};
use nq_rules::sought::Sought;

/// Whether a write is through, or an S before a place covers it. The entry that is its fate is looked at first.
fn is_through_or_stored(linked: &Linked, place: usize, at: usize, write: &Entry) -> bool
    requires tables { AreTables linked.now.whole.now linked.now.tables.now }
    requires within { place < length linked.now.whole.now }
    ensures { result ≡ (is_through write.now || is_stored (reverse (take place linked.now.whole.now)) write.now) }
{
    is_through(write)
        || is_before_near(
            &linked.tables.covers,
            linked.whole,
            place,
            fate_at(linked.fates, at),
            Sought::Store(write),
        )
}

/// Whether the last write of an incarnation before the A of its `put` is the write of that call, and is through or stored
/// before the A.
pub(crate) fn is_put_kept(
    linked: &Linked,
    hints: &Hints,
    place: usize,
    entry: &Entry,
    by: &Who,
    n: u64,
) -> bool
    requires tables { AreTables linked.now.whole.now linked.now.tables.now }
    requires there { (place < length linked.now.whole.now) × (slice_get linked.now.whole.now place ≡ Some entry.now) }
    requires answer { is_answer by.now n entry.now ≡ true }
    requires ordered { KeepsBelow Ordered linked.now.whole.now (place + 1) }
    ensures { IsTrue result → somewhere (is_put_kept (reverse (take place linked.now.whole.now)) by.now n)
        (reverse (take place linked.now.whole.now)) ≡ true }
{
    let whole = linked.whole;
    let key = call_key(by, n);
    let call = back_from(
        &linked.tables.calls,
        KeyKind::Calls,
        key,
        whole,
        whole.len(),
        place,
    );
    let write = head_at(&hints.written, call_key(by, 0));
    if call == 0 || call > write || write >= place {
        return false;
    }
    let written = &whole[write];
    if !is_call(&whole[call - 1], by, n) || !is_write_by(written, by) {
        return false;
    }
    is_through_or_stored(linked, place, write, written)
}
