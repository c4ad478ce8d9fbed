//! A fast pass over the entries that account for the delayed writes which they cover.

ghost use Rattle.std.specs.Prelude.{◌≡◌, reverse, IfOk, IsTrue, OnOk, ◌-◌};
ghost use Rattle.nq_check.specs.Covered.{Accounts, IsAnew, IsRaised, is_outside};
ghost use Rattle.nq_check.specs.Fronts.{KeepsBelow};
ghost use Rattle.nq_check.specs.declared.rules.Rule.{Rule};

use crate::along::is_there;
use crate::apart::apart_front;
use crate::links::{Heads, head_at, set_head};
use nq_base::{Entry, NoMemory, Number, Who};
use nq_rules::keys::{EntryKey, own_key};
use nq_rules::sought::Sought;
use std::alloc::Global;
use std::collections::HashMap;

/// The key of a write by its number, as an incarnation counts it.
pub(crate) fn number_key(who: &Who, number: Number) -> EntryKey {
    ((who.host.0, who.inc.0), (number.0, 0))
}

/// The places of the delayed writes, each at its incarnation and its number.
pub(crate) fn places_of_writes(alloc: Global, whole: &[Entry]) -> Result<Heads, NoMemory> {
    let mut places = HashMap::new(alloc);
    for (place, entry) in whole.iter().enumerate() {
        if let Entry::W {
            who,
            number,
            through: false,
            ..
        } = entry
        {
            set_head(&mut places, number_key(who, *number), place)?;
        }
    }
    Ok(places)
}

/// How far the writes of each block are covered.
#[derive(Drop)]
pub(crate) struct Reach {
    /// The highest number that is covered.
    highest: Heads,
    /// How far the lowest is below the highest number that there is.
    lowest: Heads,
}

/// How far a number is below the highest one.
fn below_highest(number: Number) -> usize
    ensures { result ≡ 18446744073709551615 - number }
{
    (u64::MAX - number.0) as usize
}

#[tactic(auto, using(crate::proofs::Once::raised_to, crate::proofs::Once::raised_before))]
/// Raises the number at a key to another where it is lower.
fn raise(marks: &mut Heads, at: EntryKey, number: usize) -> Result<(), NoMemory>
    ensures { OnOk result (IsRaised at number marks.old.entries marks.new.entries) }
{
    if head_at(marks, at) >= number {
        return Ok(());
    }
    set_head(marks, at, number)
}

/// Whether numbers are above all that are covered on a block, or below them.
fn is_outside(reach: &Reach, at: EntryKey, first: Number, last: Number) -> bool
    ensures { result ≡ is_outside 18446744073709551615 reach.now at first last }
{
    head_at(&reach.highest, at) < first.0 as usize
        || head_at(&reach.lowest, at) < below_highest(last)
}

/// Whether numbers are above all that are covered on a block, or below them. Then they are taken in.
fn covers_anew(
    reach: &mut Reach,
    at: EntryKey,
    first: Number,
    last: Number,
) -> Result<bool, NoMemory>
    ensures { IfOk result (λ anew. IsTrue anew → IsAnew 18446744073709551615 at first last reach.old reach.new) }
{
    if !is_outside(reach, at, first, last) {
        return Ok(false);
    }
    raise(&mut reach.highest, at, last.0 as usize)?;
    raise(&mut reach.lowest, at, below_highest(first))?;
    Ok(true)
}

/// Whether an entry covers only what is outside of what is covered on its block, and a write where it is an L. Then it is taken
/// in.
fn accounts(
    whole: &[Entry],
    places: &Heads,
    reach: &mut Reach,
    entry: &Entry,
) -> Result<bool, NoMemory>
    ensures { IfOk result (λ yes. IsTrue yes → Accounts 18446744073709551615 (reverse whole.now) entry.now reach.old reach.new) }
{
    match entry {
        Entry::S {
            who,
            file,
            block,
            first,
            last,
            ..
        } => covers_anew(reach, own_key(who, *file, *block), *first, *last),
        Entry::L {
            who,
            file,
            block,
            first,
            last,
        } => {
            let place = head_at(places, number_key(who, *last));
            if !is_there(whole, place, Sought::Covered(entry)) {
                return Ok(false);
            }
            covers_anew(reach, own_key(who, *file, *block), *first, *last)
        }
        _ => Ok(true),
    }
}

/// How far each entry does so, one after another.
fn account_all(whole: &[Entry], places: &Heads, reach: &mut Reach) -> Result<usize, NoMemory>
    ensures { IfOk result (KeepsBelow Rule.Accounted whole.now) }
{
    for (place, entry) in whole.iter().enumerate() {
        if !accounts(whole, places, reach, entry)? {
            return Ok(place);
        }
    }
    Ok(whole.len())
}

/// A place below which each entry accounts for what it covers. Where the entries cover numbers between those that are covered, their
/// ranges are sorted; blocks are told by their marks.
pub(crate) fn accounted_front(
    alloc: Global,
    marks: &Heads,
    places: &Heads,
    whole: &[Entry],
) -> Result<usize, NoMemory>
    ensures { IfOk result (KeepsBelow Rule.Accounted whole.now) }
{
    let mut reach = Reach {
        highest: HashMap::new(alloc),
        lowest: HashMap::new(alloc),
    };
    let front = account_all(whole, places, &mut reach)?;
    if front >= whole.len() {
        return Ok(front);
    }
    let apart = apart_front(alloc, marks, places, whole)?;
    if front < apart {
        return Ok(apart);
    }
    Ok(front)
}
