//! Calls, and what they ask.

ghost use Rattle.std.specs.Prelude.{◌≡◌, reverse, Some, None};
ghost use Rattle.nq_model.specs.laws.Journal.{call_of, told_by};
ghost use Rattle.nq_model.specs.laws.JournalTest.{exists, is_answer, is_open, speaks_of};
ghost use Rattle.nq_model.specs.laws.LegalTest.{is_reading};
ghost use Rattle.nq_model.specs.laws.OrderedTest.{call_resizes, has_open, is_open_call, open_call, writes};
ghost use Rattle.nq_model.specs.laws.ReportedTest.{is_reporting};

use crate::entries::told_by;
use crate::sought::{Sought, is_among, is_near};
use nq_base::{BlockNo, Entry, FileId, KeptCall, Told, Who};

/// Whether an A of a call stands among the entries.
pub(crate) fn is_answered(entries: &[Entry], by: &Who, n: u64) -> bool
    ensures { result ≡ exists (is_answer by.now n) (reverse entries.now) }
{
    is_among(entries, Sought::Answer { who: by, q: n })
}

#[tactic(auto, using(crate::proofs::Backwards::last_first))]
/// What a call asks, as its first C tells it.
pub(crate) fn call_of(entries: &[Entry], by: &Who, n: u64) -> Option<Told>
    ensures { result ≡ call_of (reverse entries.now) by.now n }
{
    let mut call = None;
    for entry in entries {
        if call.is_none() {
            call = told_by(entry, by, n);
        }
    }
    call
}

/// Whether a call is open behind the entries. Those from a place on are looked at first.
pub(crate) fn is_open(before: &[Entry], near: usize, by: &Who, n: u64) -> bool
    ensures { result ≡ is_open (reverse before.now) by.now n }
{
    is_near(before, near, Sought::Call { who: by, q: n })
        && !is_near(before, near, Sought::Answer { who: by, q: n })
}

/// Whether the entry at a place is a C of the incarnation whose call is open behind the entries.
pub(crate) fn is_open_call(before: &[Entry], place: usize, by: &Who, entry: &Entry) -> bool
    ensures { result ≡ is_open_call (reverse before.now) by.now entry.now }
{
    match entry {
        Entry::C { who, q, .. } => *by == *who && is_open(before, place, by, *q),
        _ => false,
    }
}

#[tactic(auto, using(crate::proofs::Backwards::last_first))]
/// Whether some call of the incarnation is open behind the entries.
pub(crate) fn has_open(before: &[Entry], by: &Who) -> bool
    ensures { result ≡ has_open (reverse before.now) by.now }
{
    let mut found = false;
    for (place, entry) in before.iter().enumerate() {
        let here = is_open_call(before, place, by, entry);
        found = here || found;
    }
    found
}

#[tactic(auto, using(crate::proofs::Backwards::last_first))]
/// The latest call of the incarnation that is open behind the entries.
pub(crate) fn open_call(before: &[Entry], by: &Who) -> Option<u64>
    ensures { result ≡ open_call (reverse before.now) by.now (reverse before.now) }
{
    let mut found = None;
    for (place, entry) in before.iter().enumerate() {
        if let Entry::C { q, .. } = entry {
            if is_open_call(before, place, by, entry) {
                found = Some(*q);
            }
        }
    }
    found
}

/// Whether the call speaks of a file.
pub fn speaks_of(on: FileId, call: Option<Told>) -> bool
    ensures { result ≡ speaks_of on call }
{
    let Some(told) = call else {
        return false;
    };
    match told {
        Told::Attr { file } => file == on,
        Told::Read { file, .. } => file == on,
        Told::Fetch { file, .. } => file == on,
        Told::Write { file, .. } => file == on,
        Told::Put { file, .. } => file == on,
        Told::Sync { file } => file == on,
        Told::Resize { file, .. } => file == on,
        Told::Remove { file } => file == on,
        _ => false,
    }
}

/// Whether the call is a `read` or `fetch`.
pub fn is_reading(call: Option<Told>) -> bool
    ensures { result ≡ is_reading call }
{
    let Some(told) = call else {
        return false;
    };
    matches!(told, Told::Read { .. } | Told::Fetch { .. })
}

/// Whether the call is a `write` or `put` of a value to a block.
pub(crate) fn writes(on: FileId, at: BlockNo, v: u32, call: Option<Told>) -> bool
    ensures { result ≡ writes on at v call }
{
    let Some(told) = call else {
        return false;
    };
    match told {
        Told::Write { file, block, value } => file == on && block == at && value == v,
        Told::Put { file, block, value } => file == on && block == at && value == v,
        _ => false,
    }
}

/// Whether the call is a `resize` of a file to a length, or a `remove` of it and the length is 0.
pub(crate) fn resizes(on: FileId, to: u32, call: Option<Told>) -> bool
    ensures { result ≡ call_resizes on to call }
{
    let Some(told) = call else {
        return false;
    };
    match told {
        Told::Resize { file, blocks } => file == on && blocks == to,
        Told::Remove { file } => file == on && to == 0,
        _ => false,
    }
}

/// Whether the call is a `write`, `put`, `sync`, `resize` or `remove` of a file.
pub(crate) fn is_reporting(on: FileId, told: &KeptCall) -> bool
    ensures { result ≡ is_reporting on told.now }
{
    match told.told() {
        Told::Write { file, .. } => file == on,
        Told::Put { file, .. } => file == on,
        Told::Sync { file } => file == on,
        Told::Resize { file, .. } => file == on,
        Told::Remove { file } => file == on,
        _ => false,
    }
}
