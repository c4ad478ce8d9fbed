//! Which losses are reported, and which names are of losses.

ghost use Rattle.std.specs.Prelude.{◌≡◌, ◌+◌, ◌<◌, ◌≤◌, length, reverse, take, drop, Some, slice_get};
ghost use Rattle.nq_rules.specs.Named.{is_named_at_once, is_reported, is_reported_at};
ghost use Rattle.nq_model.specs.laws.JournalTest.{exists};
ghost use Rattle.nq_model.specs.laws.ReportedTest.{is_name_of, is_same_span, is_unnamed, must_report, name_losses, names};

use crate::calls::{call_of, is_answered, is_reporting, speaks_of};
use crate::entries::is_answer;
use crate::sought::{Sought, is_among};
use nq_base::{Entry, Loss, Said, Span, Spans, Told, Who};

/// Whether a span names a loss.
pub fn is_name_of(loss: &Loss, span: &Span) -> bool
    ensures { result ≡ is_name_of loss.now span.now }
{
    span.block == loss.block && span.first == loss.first && span.last == loss.last
}

#[tactic(auto, using(crate::proofs::Places::some_there))]
/// The span at a place.
pub fn span_at(spans: &Spans, place: usize) -> Span
    requires { place < length spans.now.items }
    ensures { slice_get spans.now.items place ≡ Some result }
{
    match spans.get(place) {
        Some(span) => span,
        None => unreachable!(),
    }
}

#[tactic(auto, using(crate::proofs::Backwards::last_first, crate::proofs::Places::drop_here))]
/// Whether one of the spans names a loss.
pub fn are_names_of(loss: &Loss, spans: &Spans) -> bool
    ensures { result ≡ exists (is_name_of loss.now) spans.now.items }
{
    for place in 0..spans.len() {
        let span = span_at(spans, place);
        if is_name_of(loss, &span) {
            return true;
        }
    }
    false
}

/// Whether an entry is an A `lost` of an incarnation on the file of a loss, and names the loss.
fn names(whole: &[Entry], by: &Who, loss: &Loss, entry: &Entry) -> bool
    ensures { result ≡ names (reverse whole.now) by.now loss.now entry.now }
{
    match entry {
        Entry::A {
            who,
            q,
            said: Said::Lost(spans),
        } => {
            *by == *who
                && are_names_of(loss, spans)
                && speaks_of(loss.file, call_of(whole, who, *q))
        }
        _ => false,
    }
}

#[tactic(auto, using(crate::proofs::Backwards::last_first))]
/// Whether an A that names a loss stands among the entries.
pub(crate) fn is_named(whole: &[Entry], entries: &[Entry], by: &Who, loss: &Loss) -> bool
    ensures { result ≡ exists (names (reverse whole.now) by.now loss.now) (reverse entries.now) }
{
    let mut found = false;
    for entry in entries {
        let here = names(whole, by, loss, entry);
        found = here || found;
    }
    found
}

/// Whether an entry is a C that has to report the losses of an incarnation on the file of a loss.
fn must_report(whole: &[Entry], by: &Who, loss: &Loss, entry: &Entry) -> bool
    ensures { result ≡ must_report (reverse whole.now) by.now loss.now.file entry.now }
{
    match entry {
        Entry::C { who, q, told } => {
            *by == *who
                && is_reporting(loss.file, told)
                && !is_among(whole, Sought::Busy { who, q: *q })
        }
        _ => false,
    }
}

/// Whether the next entry is the A of a C, is `lost` and names a loss.
fn is_named_at_once(
    whole: &[Entry],
    before: &[Entry],
    by: &Who,
    loss: &Loss,
    entry: &Entry,
    after: &[Entry],
) -> bool
    ensures { result ≡ is_named_at_once (reverse whole.now) (reverse before.now) by.now loss.now entry.now after.now }
{
    let [next, ..] = after else {
        return false;
    };
    match entry {
        Entry::C { who, q, .. } => {
            is_answer(next, who, *q)
                && names(whole, by, loss, next)
                && !is_answered(before, who, *q)
        }
        _ => false,
    }
}

#[tactic(auto, using(crate::proofs::Backwards::last_first, crate::proofs::Places::drop_here))]
/// Whether an L that stands before `from` is reported from there on.
fn is_reported(whole: &[Entry], from: usize, by: &Who, loss: &Loss) -> bool
    requires { from ≤ length whole.now }
    ensures { result ≡ is_reported (reverse whole.now) (reverse (take from whole.now)) by.now loss.now (drop from whole.now) }
{
    for place in from..whole.len() {
        let (before, rest) = whole.split_at(place);
        let [entry, after @ ..] = rest else {
            return true;
        };
        if must_report(whole, by, loss, entry) {
            return is_named_at_once(whole, before, by, loss, entry, after);
        }
        if names(whole, by, loss, entry) {
            return true;
        }
    }
    true
}

/// Whether an entry is an L that a span names, and no A before names.
fn is_unnamed(
    whole: &[Entry],
    before: &[Entry],
    by: &Who,
    call: &Option<Told>,
    span: &Span,
    entry: &Entry,
) -> bool
    ensures { result ≡ is_unnamed (reverse whole.now) (reverse before.now) by.now call.now span.now entry.now }
{
    match entry {
        Entry::L {
            who,
            file,
            block,
            first,
            last,
        } => {
            let loss = Loss {
                file: *file,
                block: *block,
                first: *first,
                last: *last,
            };
            *by == *who
                && speaks_of(*file, *call)
                && is_name_of(&loss, span)
                && !is_named(whole, before, by, &loss)
        }
        _ => false,
    }
}

#[tactic(auto, using(crate::proofs::Backwards::last_first))]
/// Whether such an L stands before.
fn has_unnamed(
    whole: &[Entry],
    before: &[Entry],
    by: &Who,
    call: &Option<Told>,
    span: &Span,
) -> bool
    ensures { result ≡ exists (is_unnamed (reverse whole.now) (reverse before.now) by.now call.now span.now) (reverse before.now) }
{
    let mut found = false;
    for entry in before {
        let here = is_unnamed(whole, before, by, call, span, entry);
        found = here || found;
    }
    found
}

/// Whether two spans are one.
fn is_same_span(a: &Span, b: &Span) -> bool
    ensures { result ≡ is_same_span a.now b.now }
{
    a.block == b.block && a.first == b.first && a.last == b.last
}

#[tactic(auto, using(crate::proofs::Backwards::last_first, crate::proofs::Places::drop_here))]
/// Whether a span stands again from a place on.
fn comes_again(span: &Span, spans: &Spans, from: usize) -> bool
    requires { from ≤ length spans.now.items }
    ensures { result ≡ exists (is_same_span span.now) (drop from spans.now.items) }
{
    for place in from..spans.len() {
        let other = span_at(spans, place);
        if is_same_span(span, &other) {
            return true;
        }
    }
    false
}

#[tactic(auto, using(crate::proofs::Backwards::last_first, crate::proofs::Places::drop_here))]
/// Whether each span names an earlier L for the first time.
fn name_losses(
    whole: &[Entry],
    before: &[Entry],
    by: &Who,
    call: &Option<Told>,
    spans: &Spans,
) -> bool
    ensures { result ≡ name_losses (reverse whole.now) (reverse before.now) by.now call.now spans.now.items }
{
    for place in 0..spans.len() {
        let span = span_at(spans, place);
        let is_first = has_unnamed(whole, before, by, call, &span);
        if !is_first {
            return false;
        }
        if comes_again(&span, spans, place + 1) {
            return false;
        }
    }
    true
}

#[tactic(auto, using(crate::proofs::Backwards::last_first, crate::proofs::Places::drop_here))]
/// Whether an L is reported, or an A `lost` names losses.
pub fn is_reported_at(whole: &[Entry], place: usize, entry: &Entry) -> bool
    requires { (place < length whole.now) × (slice_get whole.now place ≡ Some entry.now) }
    ensures { result ≡ is_reported_at (reverse whole.now) (drop (place + 1) whole.now) entry.now (reverse (take place whole.now)) }
{
    match entry {
        Entry::L {
            who,
            file,
            block,
            first,
            last,
        } => {
            let loss = Loss {
                file: *file,
                block: *block,
                first: *first,
                last: *last,
            };
            is_reported(whole, place + 1, who, &loss)
        }
        Entry::A {
            who,
            q,
            said: Said::Lost(spans),
        } => name_losses(whole, &whole[..place], who, &call_of(whole, who, *q), spans),
        _ => true,
    }
}
