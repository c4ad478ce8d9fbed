//! A slower pass over the entries that account for the delayed writes which they cover, in whatever order they cover them: it sorts the ranges
//! of numbers.

ghost use Rattle.std.specs.Prelude.{◌≡◌, ◌<◌, IfOk, IfSome, IsTrue, Some, length, nat_le, reverse, true};
ghost use Rattle.std.specs.List.{slice_get};
ghost use Rattle.nq_check.specs.Apart.{AreApart, FollowsAt, HasRange, IsRanked, IsUnder, is_below, range_of};
ghost use Rattle.nq_check.specs.Covered.{covers_some};
ghost use Rattle.nq_check.specs.Fronts.{KeepsBelow};
ghost use Rattle.nq_check.specs.declared.rules.Rule.{Rule};
ghost use Rattle.nq_rules.specs.Marks.{same_spot};

use crate::along::is_there;
use crate::covering::number_key;
use crate::links::{Heads, head_at};
use nq_base::{Entry, NoMemory};
use nq_rules::keys::own_key;
use nq_rules::sought::Sought;
use std::alloc::Global;

/// A block and the first number that is covered, the last one and the place of the entry.
type Range = ((usize, u64), (u64, usize));

/// The ranges of a journal.
#[derive(Drop)]
struct Ranges {
    /// In order.
    sorted: Vec<Range>,
    /// For each entry where its range stands among them.
    ranks: Vec<usize>,
}

/// The range of the S or L at a place.
fn range_of(marks: &Heads, place: usize, entry: &Entry) -> Option<Range>
    ensures { result ≡ range_of marks.now.entries place entry.now }
{
    match entry {
        Entry::S {
            who,
            file,
            block,
            first,
            last,
            ..
        }
        | Entry::L {
            who,
            file,
            block,
            first,
            last,
        } => Some((
            (head_at(marks, own_key(who, *file, *block)), first.0),
            (last.0, place),
        )),
        _ => None,
    }
}

/// Keeps where each range stands.
fn rank(ranks: &mut Vec<usize>, sorted: &[Range]) {
    for (rank, range) in sorted.iter().enumerate() {
        let place = range.1.1;
        if place < ranks.len() {
            ranks[place] = rank;
        }
    }
}

/// Sorts the ranges of a journal.
fn sort_ranges(alloc: Global, marks: &Heads, whole: &[Entry]) -> Result<Ranges, NoMemory> {
    let mut sorted = Vec::new(alloc);
    let mut ranks = Vec::new(alloc);
    for (place, entry) in whole.iter().enumerate() {
        if let Some(range) = range_of(marks, place, entry) {
            sorted.push(range)?;
        }
        ranks.push(0)?;
    }
    sorted.sort()?;
    rank(&mut ranks, &sorted);
    Ok(Ranges { sorted, ranks })
}

/// Whether a range is of an earlier block than another, or of the same and ends before the other begins.
fn is_below(low: &Range, high: &Range) -> bool
    ensures { result ≡ is_below low.now high.now }
{
    low.0.0 < high.0.0 || (low.0.0 == high.0.0 && low.1.0 < high.0.1)
}

/// Whether a range does not end before it begins.
fn is_upright(range: &Range) -> bool
    ensures { result ≡ nat_le range.now.0.1 range.now.1.0 }
{
    range.0.1 <= range.1.0
}

/// The range at a place; None where the place is not below the length.
fn range_at(sorted: &[Range], rank: usize) -> Option<&Range>
    ensures { IfSome result (λ range. slice_get sorted.now rank ≡ Some range.now) }
{
    sorted.get(rank)
}

/// Whether a range does not end before it begins, and is below that at a place.
fn is_under(low: &Range, sorted: &[Range], high: usize) -> bool
    ensures { IsTrue result → IsUnder low.now sorted.now high }
{
    if !is_upright(low) {
        return false;
    }
    match range_at(sorted, high) {
        Some(higher) => is_below(low, higher),
        None => false,
    }
}

/// Whether the range at one place does not end before it begins, and is below that at another.
fn follows(sorted: &[Range], low: usize, high: usize) -> bool
    ensures { IsTrue result → FollowsAt sorted.now low high }
{
    match range_at(sorted, low) {
        Some(lower) => is_under(lower, sorted, high),
        None => false,
    }
}

/// Whether each range is below all that stand behind it.
fn are_apart(sorted: &[Range]) -> bool
    ensures { IsTrue result → AreApart sorted.now (length sorted.now) }
{
    let mut next: usize = 1;
    while next < sorted.len() {
        if !follows(sorted, next - 1, next) {
            return false;
        }
        next += 1;
    }
    true
}

/// Whether two ranges are one.
fn same_range(a: Range, b: Range) -> bool
    ensures { result ≡ same_spot a b }
{
    (a.0.0 == b.0.0 && a.0.1 == b.0.1) && (a.1.0 == b.1.0 && a.1.1 == b.1.1)
}

/// Whether a range stands at a place.
fn is_range_at(sorted: &[Range], rank: usize, range: Range) -> bool
    ensures { IsTrue result → HasRange sorted.now range }
{
    match range_at(sorted, rank) {
        Some(found) => same_range(*found, range),
        None => false,
    }
}

/// Whether the range of the entry at a place, if it has one, is among the ranges.
fn is_ranked(sorted: &[Range], ranks: &[usize], marks: &Heads, place: usize, entry: &Entry) -> bool
    ensures { IsTrue result → IsRanked sorted.now marks.now.entries place entry.now }
{
    match range_of(marks, place, entry) {
        Some(range) => {
            let rank = ranks.get(place).copied().unwrap_or(usize::MAX);
            is_range_at(sorted, rank, range)
        }
        None => true,
    }
}

/// Whether an entry is no L, or is one that covers the write with its last number.
fn covers_some(places: &Heads, whole: &[Entry], entry: &Entry) -> bool
    ensures { IsTrue result → covers_some (reverse whole.now) entry.now ≡ true }
{
    match entry {
        Entry::L { who, last, .. } => is_there(
            whole,
            head_at(places, number_key(who, *last)),
            Sought::Covered(entry),
        ),
        _ => true,
    }
}

/// How far the entries account for what they cover, where their ranges are apart.
fn front_apart(
    sorted: &[Range],
    ranks: &[usize],
    marks: &Heads,
    places: &Heads,
    whole: &[Entry],
) -> usize
    requires apart { AreApart sorted.now (length sorted.now) }
    ensures { KeepsBelow Rule.Accounted whole.now result }
{
    for (place, entry) in whole.iter().enumerate() {
        if !is_ranked(sorted, ranks, marks, place, entry) || !covers_some(places, whole, entry) {
            return place;
        }
    }
    whole.len()
}

/// How far they do, as their sorted ranges show it.
fn front_sorted(
    sorted: &[Range],
    ranks: &[usize],
    marks: &Heads,
    places: &Heads,
    whole: &[Entry],
) -> usize
    ensures { KeepsBelow Rule.Accounted whole.now result }
{
    if !are_apart(sorted) {
        return 0;
    }
    front_apart(sorted, ranks, marks, places, whole)
}

/// A place below which each entry accounts for what it covers, in whatever order they do. Blocks are told by their marks.
pub(crate) fn apart_front(
    alloc: Global,
    marks: &Heads,
    places: &Heads,
    whole: &[Entry],
) -> Result<usize, NoMemory>
    ensures { IfOk result (KeepsBelow Rule.Accounted whole.now) }
{
    let ranges = sort_ranges(alloc, marks, whole)?;
    Ok(front_sorted(&ranges.sorted, &ranges.ranks, marks, places, whole))
}
