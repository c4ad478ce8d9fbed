//! A fast test of entries that stand in order: it is true only where they do.

ghost use Rattle.std.specs.Prelude.{◌≡◌, ◌+◌, ◌<◌, Some, IfOk, IsTrue, length, reverse, drop};
ghost use Rattle.std.specs.List.{slice_get};
ghost use Rattle.nq_check.specs.Fronts.{KeepsBelow};
ghost use Rattle.nq_rules.specs.InOrder.{IsNext, StandsInOrder, is_else};
ghost use Rattle.nq_rules.specs.Lines.{line_at, no_line};
ghost use Rattle.nq_check.specs.Tables.{AreTables};
ghost use Rattle.nq_model.specs.laws.OrderedTest.{is_busy_next};
ghost use Rattle.nq_check.specs.declared.rules.Rule.TheVariants.{Ordered};

use crate::legal::is_counted;
use crate::tables::LinkTables;
use nq_base::{Entry, NoMemory, Who};
use nq_rules::lines::{
    CallProgress, after_answer, after_call, after_read, after_resize, after_write,
};
use nq_rules::ordered::is_busy_next;
use std::alloc::Global;
use std::collections::HashMap;

/// The lines, each at its incarnation, the host first.
type Lines = HashMap<(u32, u32), CallProgress>;

/// The line of an incarnation that has told nothing.
fn no_line() -> CallProgress
    ensures { result ≡ no_line }
{
    CallProgress {
        highest: 0,
        last: 0,
        least: u64::MAX,
        current: None,
        busy: None,
    }
}

/// The line of an incarnation.
fn line_at(lines: &Lines, who: &Who) -> CallProgress
    ensures { result ≡ line_at lines.now.entries who.now }
{
    match lines.get(&(who.host.0, who.inc.0)) {
        Some(line) => *line,
        None => no_line(),
    }
}

/// Sets the next line of an incarnation. False where there is none.
fn set_next(lines: &mut Lines, who: &Who, next: Option<CallProgress>) -> Result<bool, NoMemory>
    ensures { IfOk result (λ yes. IsTrue yes → IsNext who.now next lines.old.entries lines.new.entries) }
{
    let Some(line) = next else {
        return Ok(false);
    };
    lines.insert((who.host.0, who.inc.0), line)?;
    Ok(true)
}

/// Whether an entry tells nothing of the order of calls.
fn is_else(entry: &Entry) -> bool
    ensures { result ≡ is_else entry.now }
{
    !matches!(
        entry,
        Entry::C { .. } | Entry::W { .. } | Entry::Z { .. } | Entry::R { .. } | Entry::A { .. }
    )
}

/// Whether the entry behind a place answers a call `busy`.
fn is_busy_behind(whole: &[Entry], place: usize, by: &Who, n: u64) -> bool
    requires { place < length whole.now }
    ensures { result ≡ is_busy_next by.now n (drop (place + 1) whole.now) }
{
    is_busy_next(&whole[place + 1..], by, n)
}

/// Whether the entry at a place has a next line where it needs one. Then that line is set.
fn stands(
    tables: &LinkTables,
    whole: &[Entry],
    lines: &mut Lines,
    place: usize,
    entry: &Entry,
) -> Result<bool, NoMemory>
    requires there { (place < length whole.now) × (slice_get whole.now place ≡ Some entry.now) }
    requires tables { AreTables whole.now tables.now }
    ensures { IfOk result (λ yes. IsTrue yes → StandsInOrder (reverse whole.now) (drop (place + 1) whole.now) entry.now lines.old.entries lines.new.entries) }
{
    match entry {
        Entry::C { who, q, told } => {
            let is_busy = is_busy_behind(whole, place, who, *q);
            let next = after_call(&line_at(lines, who), *q, told, is_busy);
            set_next(lines, who, next)
        }
        Entry::W {
            who,
            file,
            block,
            number,
            value,
            ..
        } => {
            let next = after_write(&line_at(lines, who), *file, *block, *number, *value);
            set_next(lines, who, next)
        }
        Entry::Z {
            who,
            q,
            file,
            to,
            ..
        } => {
            let next = after_resize(&line_at(lines, who), *q, *file, *to);
            set_next(lines, who, next)
        }
        Entry::R { who, q, .. } => {
            if !is_counted(tables, whole, place, entry) {
                return Ok(true);
            }
            let next = after_read(&line_at(lines, who), *q);
            set_next(lines, who, next)
        }
        Entry::A { who, q, .. } => {
            let next = after_answer(&line_at(lines, who), *q);
            set_next(lines, who, next)
        }
        other => Ok(is_else(other)),
    }
}

/// A place below which each entry stands in order.
pub(crate) fn ordered_front(
    alloc: Global,
    tables: &LinkTables,
    whole: &[Entry],
) -> Result<usize, NoMemory>
    requires { AreTables whole.now tables.now }
    ensures { IfOk result (λ front. KeepsBelow Ordered whole.now front) }
{
    let mut lines = HashMap::new(alloc);
    for (place, entry) in whole.iter().enumerate() {
        if !stands(tables, whole, &mut lines, place, entry)? {
            return Ok(place);
        }
    }
    Ok(whole.len())
}
