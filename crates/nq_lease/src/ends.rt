//! The times at which rows end.

ghost use Rattle.std.specs.Prelude.{◌≡◌, ℕ, ◌+◌, ◌<◌, ◌≤◌, ◌==◌, length, slice_index_or, vec_capacity, if◌then◌else◌};
ghost use Rattle.std.specs.List.Sorted.{IsNonDecreasingBy};
ghost use Rattle.nq_model.specs.protocol.Profile.{most_rows};
ghost use Rattle.nq_lease.specs.declared.ends.End.{End};
ghost use Rattle.nq_lease.specs.Ends.{end_of as end_of_row};
ghost use Rattle.nq_lease.specs.Kept.{AreEnds, AreEndsOf, rows_ending, rows_ending_at};

use nq_base::{Mode, Row, Ticks};

/// How long a writing row goes on after its lease is over and its last write was heard, in ticks (Macklem 1994).
const WRITE_SLACK: u64 = 5;

/// When a row ends. A sum that is too large stops at the last time.
pub(crate) fn end_of(row: &Row) -> Ticks
    ensures { result ≡ end_of_row row.now }
{
    let until = row.until.0;
    let heard = row.heard.0;
    match row.mode {
        Mode::NonCaching | Mode::Reading => Ticks(until),
        Mode::Writing => Ticks(until.max(heard).saturating_add(WRITE_SLACK)),
    }
}

/// A time at which rows end, and how many of them do: at least one.
#[derive(Clone, Copy)]
pub(crate) struct End {
    pub(crate) time: Ticks,
    pub(crate) rows: u32,
}

/// The place of a time: the first at which no lesser one stands.
fn place_of(ends: &[End], time: Ticks) -> usize
    requires { IsNonDecreasingBy (λ e. e.time) ends.now }
    ensures bound { result ≤ length ends.now }
    ensures before { (k : ℕ) (d : End) → k < result → (slice_index_or ends.now k d).time < time }
    ensures behind { (k : ℕ) (d : End) → result ≤ k → k < length ends.now → time ≤ (slice_index_or ends.now k d).time }
{
    ends.partition_point(|end| end.time < time)
}

/// Adds the end of one row, without memory.
pub(crate) fn add(ends: &mut Vec<End>, time: Ticks)
    requires ends { AreEnds ends.old.items }
    requires few { rows_ending ends.old.items < most_rows }
    requires room { most_rows ≤ vec_capacity ends.old }
    ensures ends { AreEnds ends.new.items }
    ensures counts { (other : ℕ) → rows_ending_at other ends.new.items ≡ rows_ending_at other ends.old.items + (if time == other then 1 else 0) }
    ensures all { rows_ending ends.new.items ≡ rows_ending ends.old.items + 1 }
    ensures capacity { vec_capacity ends.old ≤ vec_capacity ends.new }
{
    let place = place_of(ends.as_slice(), time);
    if place < ends.len() && ends[place].time == time {
        ends[place].rows += 1;
    } else {
        ends.insert(place, End { time, rows: 1 }).unwrap();
    }
}

/// Takes the end of one row out, which is there.
pub(crate) fn take_end(ends: &mut Vec<End>, time: Ticks)
    requires ends { AreEnds ends.old.items }
    requires there { 1 ≤ rows_ending_at time ends.old.items }
    ensures ends { AreEnds ends.new.items }
    ensures counts { (other : ℕ) → rows_ending_at other ends.new.items + (if time == other then 1 else 0) ≡ rows_ending_at other ends.old.items }
    ensures all { rows_ending ends.new.items + 1 ≡ rows_ending ends.old.items }
    ensures capacity { vec_capacity ends.new ≡ vec_capacity ends.old }
{
    let place = place_of(ends.as_slice(), time);
    if ends[place].rows > 1 {
        ends[place].rows -= 1;
    } else {
        ends.remove(place);
    }
}

/// Puts the ends of these rows in place of all that is there, without memory.
pub(crate) fn fill(ends: &mut Vec<End>, rows: &[Row])
    requires few { length rows.now ≤ most_rows }
    requires room { most_rows ≤ vec_capacity ends.old }
    ensures ends { AreEndsOf rows.now ends.new.items }
    ensures all { rows_ending ends.new.items ≡ length rows.now }
    ensures capacity { vec_capacity ends.old ≤ vec_capacity ends.new }
{
    ends.clear();
    for row in rows {
        add(ends, end_of(row));
    }
}
