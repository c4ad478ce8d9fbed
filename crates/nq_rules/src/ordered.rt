//! Which entries stand in the order of their client's calls.

ghost use Rattle.std.specs.Prelude.{◌≡◌, reverse};
ghost use Rattle.nq_model.specs.laws.JournalTest.{each, exists, is_call, throughout};
ghost use Rattle.nq_model.specs.laws.LegalTest.{is_counted_by};
ghost use Rattle.nq_model.specs.laws.OrderedTest.{is_before_call, is_busy_next, is_call_below, is_call_in_order, is_in_order, is_no_other, is_numbered};
ghost use Rattle.nq_model.specs.laws.OrderedTest.{is_read_in_order, is_resize_in_order, is_write_in_order};

use crate::calls::{
    call_of, has_open, is_answered, is_open, is_open_call, open_call, resizes, writes,
};
use crate::entries::{is_call, is_call_below, is_numbered};
use crate::legal::{is_counted, is_counted_by};
use crate::sought::{Sought, is_among};
use nq_base::{BlockNo, Entry, FileId, Number, Said, Who};

// ---- calls

#[tactic(auto, using(crate::proofs::Backwards::last_first))]
/// Whether the numbers of all calls of the incarnation are below one.
fn are_below(before: &[Entry], by: &Who, n: u64) -> bool
    ensures { result ≡ each (is_call_below by.now n) (reverse before.now) }
{
    let mut all = true;
    for entry in before {
        let here = is_call_below(entry, by, n);
        all = here && all;
    }
    all
}

/// Whether the next entry answers a call `busy`.
pub fn is_busy_next(after: &[Entry], by: &Who, n: u64) -> bool
    ensures { result ≡ is_busy_next by.now n after.now }
{
    match after {
        [
            Entry::A {
                who,
                q,
                said: Said::Busy,
            },
            ..
        ] => *by == *who && n == *q,
        _ => false,
    }
}

/// Whether a C stands in order.
fn is_call_in_order(before: &[Entry], after: &[Entry], by: &Who, n: u64) -> bool
    ensures { result ≡ is_call_in_order after.now (reverse before.now) by.now n }
{
    are_below(before, by, n)
        && (!has_open(before, by) || (is_answered(before, by, n) || is_busy_next(after, by, n)))
}

// ---- writes

/// Whether the entry at a place is no C of another open call of the incarnation.
fn is_no_other(before: &[Entry], place: usize, by: &Who, n: u64, entry: &Entry) -> bool
    ensures { result ≡ is_no_other (reverse before.now) by.now n entry.now }
{
    match entry {
        Entry::C { q, .. } => !is_open_call(before, place, by, entry) || *q == n,
        _ => true,
    }
}

#[tactic(auto, using(crate::proofs::Backwards::last_first))]
/// Whether no call of the incarnation but this one is open.
pub(crate) fn is_alone(before: &[Entry], by: &Who, n: u64) -> bool
    ensures { result ≡ each (is_no_other (reverse before.now) by.now n) (reverse before.now) }
{
    let mut all = true;
    for (place, entry) in before.iter().enumerate() {
        let here = is_no_other(before, place, by, n, entry);
        all = here && all;
    }
    all
}

/// Whether an entry is no write of the incarnation after the C of a call, where it is known whether that C is before it.
fn is_before_call(before: &[Entry], called: bool, by: &Who, n: u64, entry: &Entry) -> bool
    requires { called ≡ exists (is_call by.now n) (reverse before.now) }
    ensures { result ≡ is_before_call by.now n entry.now (reverse before.now) }
{
    match entry {
        Entry::W { who, .. } => *by != *who || !called,
        _ => true,
    }
}

#[tactic(auto, using(crate::proofs::Backwards::last_first))]
/// Whether all writes of the incarnation stand before the C of a call.
fn are_before_call(before: &[Entry], by: &Who, n: u64) -> bool
    ensures { result ≡ throughout (is_before_call by.now n) (reverse before.now) }
{
    let mut called = false;
    let mut all = true;
    for (place, entry) in before.iter().enumerate() {
        let here = is_before_call(&before[..place], called, by, n, entry);
        all = here && all;
        let calls = is_call(entry, by, n);
        called = calls || called;
    }
    all
}

#[tactic(auto, using(crate::proofs::Backwards::last_first))]
/// Whether a write of the incarnation with this number stands among the entries.
fn has_numbered(before: &[Entry], by: &Who, n: Number) -> bool
    ensures { result ≡ exists (is_numbered by.now n) (reverse before.now) }
{
    let mut found = false;
    for entry in before {
        let here = is_numbered(entry, by, n);
        found = here || found;
    }
    found
}

/// A write, as its W tells it.
#[derive(Drop)]
struct Writing<'a> {
    who: &'a Who,
    file: FileId,
    block: BlockNo,
    number: Number,
    value: u32,
}

/// Whether a W stands in order.
fn is_write_in_order(before: &[Entry], write: &Writing) -> bool
    ensures { result ≡ is_write_in_order (reverse before.now) write.now.who.now write.now.file write.now.block write.now.number write.now.value }
{
    let Some(q) = open_call(before, write.who) else {
        return false;
    };
    is_alone(before, write.who, q)
        && writes(
            write.file,
            write.block,
            write.value,
            call_of(before, write.who, q),
        )
        && are_before_call(before, write.who, q)
        && !has_numbered(before, write.who, write.number)
}

// ---- resizes, removals and reads

/// Whether a Z stands in order.
fn is_resize_in_order(before: &[Entry], by: &Who, n: u64, on: FileId, to: u32) -> bool
    ensures { result ≡ is_resize_in_order (reverse before.now) by.now n on to }
{
    is_open(before, 0, by, n)
        && resizes(on, to, call_of(before, by, n))
        && !is_among(before, Sought::Resize { who: by, q: n })
}

#[tactic(auto, using(crate::proofs::Backwards::last_first))]
/// Whether a counted read of a call stands among the entries.
fn has_counted(whole: &[Entry], before: &[Entry], by: &Who, n: u64) -> bool
    ensures { result ≡ exists (is_counted_by (reverse whole.now) by.now n) (reverse before.now) }
{
    let mut found = false;
    for entry in before {
        let here = is_counted_by(whole, by, n, entry);
        found = here || found;
    }
    found
}

/// Whether a counted read stands in order.
fn is_read_in_order(whole: &[Entry], before: &[Entry], by: &Who, n: u64) -> bool
    ensures { result ≡ is_read_in_order (reverse whole.now) (reverse before.now) by.now n }
{
    is_open(before, 0, by, n) && !has_counted(whole, before, by, n)
}

// ---- the law

/// Whether an entry stands in order at its place.
pub fn is_in_order(whole: &[Entry], before: &[Entry], entry: &Entry, after: &[Entry]) -> bool
    ensures { result ≡ is_in_order (reverse whole.now) after.now entry.now (reverse before.now) }
{
    match entry {
        Entry::C { who, q, .. } => is_call_in_order(before, after, who, *q),
        Entry::W {
            who,
            file,
            block,
            number,
            value,
            ..
        } => is_write_in_order(
            before,
            &Writing {
                who,
                file: *file,
                block: *block,
                number: *number,
                value: *value,
            },
        ),
        Entry::Z {
            who,
            q,
            file,
            to,
            ..
        } => is_resize_in_order(before, who, *q, *file, *to),
        Entry::R { who, q, .. } => {
            !is_counted(whole, entry) || is_read_in_order(whole, before, who, *q)
        }
        Entry::A { who, q, .. } => !is_answered(before, who, *q),
        _ => true,
    }
}
