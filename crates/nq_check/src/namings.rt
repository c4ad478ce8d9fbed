//! A fast pass over the names of losses in the answers that tell of them.

ghost use Rattle.std.specs.Prelude.{◌≡◌, ◌+◌, ◌<◌, ◌≤◌, true, IsTrue, IfOk, length, reverse, take};
ghost use Rattle.nq_check.specs.Losses.{PassBetween, is_naming};
ghost use Rattle.nq_check.specs.Namings.{NamesAll, NamesAnew, NamesLost, NamesOn, is_lost_as, loss_spot};
ghost use Rattle.nq_check.specs.Tables.{AreTables};
ghost use Rattle.nq_model.specs.laws.JournalTest.{exists};

use crate::along::call_along;
use crate::links::{Heads, head_at, set_head};
use crate::tables::LinkTables;
use nq_base::{Entry, Loss, NoMemory, Number, Said, Span, Spans, Told, Who};
use nq_rules::calls::speaks_of;
use nq_rules::keys::EntryKey;
use nq_rules::named::{is_name_of, span_at};
use std::alloc::Global;
use std::collections::HashMap;

/// The losses of a journal, each at its incarnation and its numbers.
#[derive(Drop)]
pub(crate) struct Names {
    /// The place of its L, counted from 1.
    lost: Heads,
    /// The place of the A that names it, counted from 1.
    named: Heads,
}

/// Where losses are named, and a place below which each A `lost` names losses anew.
#[derive(Drop)]
pub(crate) struct Namings {
    pub(crate) named: Heads,
    pub(crate) front: usize,
}

/// An A `lost`: the call that it answers, and the spans that it names.
#[derive(Drop)]
struct LostAnswer<'a> {
    who: &'a Who,
    q: u64,
    spans: &'a Spans,
}

/// The key of a loss: its numbers, as an incarnation counts them.
pub(crate) fn loss_key(who: &Who, first: Number, last: Number) -> EntryKey
    ensures { result ≡ loss_spot who.now first last }
{
    ((who.host.0, who.inc.0), (first.0, last.0))
}

/// Whether an entry is an L that a span names.
fn is_lost_as(by: &Who, call: &Option<Told>, span: &Span, entry: &Entry) -> bool
    ensures { result ≡ is_lost_as by.now call.now span.now entry.now }
{
    match entry {
        Entry::L {
            who,
            file,
            block,
            first,
            last,
        } => {
            let loss = Loss {
                file: *file,
                block: *block,
                first: *first,
                last: *last,
            };
            *by == *who && speaks_of(*file, *call) && is_name_of(&loss, span)
        }
        _ => false,
    }
}

/// Whether the L at a place, counted from 1, is one that a span names, and stands before another place.
fn is_lost_before(
    whole: &[Entry],
    place: usize,
    at: usize,
    by: &Who,
    call: &Option<Told>,
    span: &Span,
) -> bool
    requires within { place ≤ length whole.now }
    ensures { IsTrue result → exists (is_lost_as by.now call.now span.now) (reverse (take place whole.now)) ≡ true }
{
    if at == 0 {
        return false;
    }
    at <= place && is_lost_as(by, call, span, &whole[at - 1])
}

/// Names what a span names. False where that is named already, or no L is known that it names.
fn name_anew(
    names: &mut Names,
    whole: &[Entry],
    place: usize,
    by: &Who,
    call: &Option<Told>,
    span: &Span,
) -> Result<bool, NoMemory>
    requires within { place < length whole.now }
    ensures { IfOk result (λ yes. IsTrue yes
        → NamesAnew (reverse (take place whole.now)) by.now call.now span.now (place + 1) names.old.named.entries names.new.named.entries) }
{
    let key = loss_key(by, span.first, span.last);
    let at = head_at(&names.lost, key);
    if head_at(&names.named, key) > 0 || !is_lost_before(whole, place, at, by, call, span) {
        return Ok(false);
    }
    set_head(&mut names.named, key, place + 1)?;
    Ok(true)
}

/// Names what the spans of the A at a place name, one after another.
fn name_all_anew(
    names: &mut Names,
    whole: &[Entry],
    place: usize,
    by: &Who,
    call: &Option<Told>,
    spans: &Spans,
) -> Result<bool, NoMemory>
    requires within { place < length whole.now }
    ensures { IfOk result (λ yes. IsTrue yes
        → NamesAll (reverse whole.now) (reverse (take place whole.now)) by.now call.now spans.now.items names.old.named.entries
        names.new.named.entries) }
{
    for index in 0..spans.len() {
        let span = span_at(spans, index);
        if !name_anew(names, whole, place, by, call, &span)? {
            return Ok(false);
        }
    }
    Ok(true)
}

/// Names what the A at a place names.
fn names_lost(
    names: &mut Names,
    tables: &LinkTables,
    whole: &[Entry],
    place: usize,
    answer: &LostAnswer,
) -> Result<bool, NoMemory>
    requires tables { AreTables whole.now tables.now }
    requires within { place < length whole.now }
    ensures { IfOk result (λ yes. IsTrue yes → NamesLost whole.now place answer.now.who.now answer.now.q answer.now.spans.now.items
        names.old.named.entries names.new.named.entries) }
{
    let call = call_along(&tables.calls, whole, answer.who, answer.q);
    name_all_anew(names, whole, place, answer.who, &call, answer.spans)
}

/// Takes in the entry at a place. False where it is an A `lost` of which it is not known that it names losses anew.
fn names_anew(
    names: &mut Names,
    tables: &LinkTables,
    whole: &[Entry],
    place: usize,
    entry: &Entry,
) -> Result<bool, NoMemory>
    requires tables { AreTables whole.now tables.now }
    requires within { place < length whole.now }
    ensures { IfOk result (λ yes. IsTrue yes → NamesOn whole.now place entry.now names.old.named.entries names.new.named.entries) }
{
    match entry {
        Entry::L {
            who,
            first,
            last,
            ..
        } => {
            set_head(&mut names.lost, loss_key(who, *first, *last), place + 1)?;
            Ok(true)
        }
        Entry::A {
            who,
            q,
            said: Said::Lost(spans),
        } => {
            let answer = LostAnswer { who, q: *q, spans };
            names_lost(names, tables, whole, place, &answer)
        }
        _ => Ok(true),
    }
}

/// How far the entries name losses anew, one after another.
fn name_all(names: &mut Names, tables: &LinkTables, whole: &[Entry]) -> Result<usize, NoMemory>
    requires { AreTables whole.now tables.now }
    ensures { IfOk result (λ front. PassBetween (is_naming whole.now) whole.now 0 front) }
{
    for (place, entry) in whole.iter().enumerate() {
        if !names_anew(names, tables, whole, place, entry)? {
            return Ok(place);
        }
    }
    Ok(whole.len())
}

/// The names of the losses of a journal, and a place below which each A `lost` names losses anew.
pub(crate) fn find_names(
    alloc: Global,
    tables: &LinkTables,
    whole: &[Entry],
) -> Result<Namings, NoMemory>
    requires { AreTables whole.now tables.now }
    ensures { IfOk result (λ namings. PassBetween (is_naming whole.now) whole.now 0 namings.front) }
{
    let mut names = Names {
        lost: HashMap::new(alloc),
        named: HashMap::new(alloc),
    };
    let front = name_all(&mut names, tables, whole)?;
    Ok(Namings {
        named: names.named,
        front,
    })
}
