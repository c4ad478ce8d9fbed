//! The judge.

ghost use Rattle.std.specs.Prelude.{◌≡◌, ◌+◌, ◌<◌, List, Some, length, reverse, take, drop};
ghost use Rattle.std.specs.List.{slice_get};
ghost use Rattle.nq_check.specs.Fronts.{AreFronts, KeepsBelow, keeps_at};
ghost use Rattle.nq_check.specs.Rules.{first_rule};
ghost use Rattle.nq_check.specs.Tables.{AreTables};
ghost use Rattle.nq_check.specs.Verdict.{IsVerdict, verdict};

use crate::endings::is_cut_off;
use crate::fates::Linked;
use crate::fronts::{Fronts, find_fronts};
use crate::legal::is_legal;
use crate::rules::{Judged, Rule};
use crate::tables::{LinkTables, make_tables};
use nq_base::{Entry, Journal, NoMemory};
use nq_rules::accounted::is_accounted_at;
use nq_rules::named::is_reported_at;
use nq_rules::ordered::is_in_order;
use nq_rules::synchronized::is_kept_at;
use std::alloc::Global;

/// The front of a rule. The first rule has none.
fn front_of(fronts: &Fronts, rule: Rule) -> usize
    ensures { (whole : List Entry) → AreFronts whole fronts.now → KeepsBelow rule whole result }
{
    match rule {
        Rule::Legal => 0,
        Rule::Ordered => fronts.ordered,
        Rule::Accounted => fronts.fates.accounted,
        Rule::Reported => fronts.reported,
        Rule::Synchronized => fronts.synchronized,
    }
}

/// Whether the entry at a place keeps a rule, which the entries before the front of the rule are known to keep.
fn keeps(
    tables: &LinkTables,
    fronts: &Fronts,
    whole: &[Entry],
    place: usize,
    entry: &Entry,
    rule: Rule,
) -> bool
    requires there { (place < length whole.now) × (slice_get whole.now place ≡ Some entry.now) }
    requires tables { AreTables whole.now tables.now }
    requires fronts { AreFronts whole.now fronts.now }
    ensures { result ≡ keeps_at rule whole.now place entry.now }
{
    if place < front_of(fronts, rule) {
        return true;
    }
    let before = &whole[..place];
    let after = &whole[place + 1..];
    match rule {
        Rule::Legal => {
            let linked = Linked {
                whole,
                tables,
                fates: &fronts.fates,
            };
            is_legal(&linked, place, entry)
        }
        Rule::Ordered => is_in_order(whole, before, entry, after),
        Rule::Accounted => is_accounted_at(whole, before, entry),
        Rule::Reported => {
            is_cut_off(tables, whole, place, entry) && is_reported_at(whole, place, entry)
        }
        Rule::Synchronized => is_kept_at(whole, before, entry),
    }
}

#[tactic(auto, unfolding(crate::specs::Rules::first_rule))]
/// The first rule under which the entry at a place is at fault.
fn first_rule(
    tables: &LinkTables,
    fronts: &Fronts,
    whole: &[Entry],
    place: usize,
    entry: &Entry,
) -> Option<Rule>
    requires there { (place < length whole.now) × (slice_get whole.now place ≡ Some entry.now) }
    requires tables { AreTables whole.now tables.now }
    requires fronts { AreFronts whole.now fronts.now }
    ensures { result ≡ first_rule (reverse whole.now) (drop (place + 1) whole.now) entry.now (reverse (take place whole.now)) }
{
    if !keeps(tables, fronts, whole, place, entry, Rule::Legal) {
        return Some(Rule::Legal);
    }
    if !keeps(tables, fronts, whole, place, entry, Rule::Ordered) {
        return Some(Rule::Ordered);
    }
    if !keeps(tables, fronts, whole, place, entry, Rule::Accounted) {
        return Some(Rule::Accounted);
    }
    if !keeps(tables, fronts, whole, place, entry, Rule::Reported) {
        return Some(Rule::Reported);
    }
    if !keeps(tables, fronts, whole, place, entry, Rule::Synchronized) {
        return Some(Rule::Synchronized);
    }
    None
}

/// Judges a journal, of either version: whether it is sound, and if not, which of its entries is the first at fault, and under which rule.
/// `docs/check.md` tells the rules.
pub fn check(alloc: Global, journal: &Journal) -> Judged
    ensures { IsVerdict result (verdict (reverse journal.now.entries)) }
{
    let whole = journal.entries();
    match make_tables(alloc, whole) {
        Ok(tables) => judge_linked(alloc, &tables, whole),
        Err(NoMemory) => Judged::Memory,
    }
}

/// Judges entries that are linked, the oldest first.
fn judge_linked(alloc: Global, tables: &LinkTables, whole: &[Entry]) -> Judged
    requires { AreTables whole.now tables.now }
    ensures { IsVerdict result (verdict (reverse whole.now)) }
{
    match find_fronts(alloc, tables, whole) {
        Ok(fronts) => judge(tables, &fronts, whole),
        Err(NoMemory) => Judged::Memory,
    }
}

/// Judges entries, the oldest first.
fn judge(tables: &LinkTables, fronts: &Fronts, whole: &[Entry]) -> Judged
    requires tables { AreTables whole.now tables.now }
    requires fronts { AreFronts whole.now fronts.now }
    ensures { IsVerdict result (verdict (reverse whole.now)) }
{
    for (place, entry) in whole.iter().enumerate() {
        if let Some(rule) = first_rule(tables, fronts, whole, place, entry) {
            return Judged::No { place, rule };
        }
    }
    Judged::Yes
}
