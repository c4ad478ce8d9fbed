//! Which answers that say ok are kept.

ghost use Rattle.std.specs.Prelude.{◌≡◌, reverse};
ghost use Rattle.nq_rules.specs.Kept.{is_kept, is_kept_at, is_put_kept, is_write_of_call};
ghost use Rattle.nq_model.specs.laws.JournalTest.{exists, is_open, is_stored, somewhere};
ghost use Rattle.nq_model.specs.laws.SynchronizedTest.{are_stored_or_told, is_delayed_on, is_named_loss, is_settled_resize, is_stored_or_told};

use crate::calls::{call_of, writes};
use crate::entries::{is_answer, is_call, is_delayed_on, is_through, loss_covers};
use crate::named::is_named;
use crate::ordered::is_alone;
use crate::sought::{Sought, is_near};
use nq_base::{Entry, FileId, Loss, Said, Told, Who};

/// Whether an S among the entries covers a write. Those from a place on are looked at first: where the write stands there, its
/// S is most often one of them.
fn is_stored(entries: &[Entry], near: usize, write: &Entry) -> bool
    ensures { result ≡ is_stored (reverse entries.now) write.now }
{
    is_near(entries, near, Sought::Store(write))
}

// ---- a put

/// Whether an entry is the write of a call, where it is known whether that call is open.
fn is_write_of_call(before: &[Entry], opened: bool, by: &Who, n: u64, entry: &Entry) -> bool
    requires { opened ≡ is_open (reverse before.now) by.now n }
    ensures { result ≡ is_write_of_call by.now n entry.now (reverse before.now) }
{
    match entry {
        Entry::W {
            who,
            file,
            block,
            value,
            ..
        } => {
            *by == *who
                && opened
                && is_alone(before, by, n)
                && writes(*file, *block, *value, call_of(before, by, n))
        }
        _ => false,
    }
}

#[tactic(auto, using(crate::proofs::Backwards::last_first))]
/// Whether the write of an answered `put` stands among the entries and is through, or stored before the answer.
fn is_put_kept(before: &[Entry], by: &Who, n: u64) -> bool
    ensures { result ≡ somewhere (is_put_kept (reverse before.now) by.now n) (reverse before.now) }
{
    let mut called = false;
    let mut answered = false;
    let mut found = false;
    for (place, entry) in before.iter().enumerate() {
        let here = is_write_of_call(&before[..place], called && !answered, by, n, entry)
            && (is_through(entry) || is_stored(before, place, entry));
        found = here || found;
        let calls = is_call(entry, by, n);
        called = calls || called;
        let answers = is_answer(entry, by, n);
        answered = answers || answered;
    }
    found
}

// ---- a sync, a resize, a removal

/// Whether an entry is an L that covers a write, and an A before the answer names it.
fn is_named_loss(whole: &[Entry], answered: &[Entry], write: &Entry, entry: &Entry) -> bool
    ensures { result ≡ is_named_loss (reverse whole.now) (reverse answered.now) write.now entry.now }
{
    match entry {
        Entry::L {
            who,
            file,
            block,
            first,
            last,
        } => {
            let loss = Loss {
                file: *file,
                block: *block,
                first: *first,
                last: *last,
            };
            loss_covers(entry, write) && is_named(whole, answered, who, &loss)
        }
        _ => false,
    }
}

#[tactic(auto, using(crate::proofs::Backwards::last_first))]
/// Whether an L covers a write, and an A before the answer names it.
fn is_told(whole: &[Entry], answered: &[Entry], write: &Entry) -> bool
    ensures { result ≡ exists (is_named_loss (reverse whole.now) (reverse answered.now) write.now) (reverse whole.now) }
{
    let mut found = false;
    for entry in whole {
        let here = is_named_loss(whole, answered, write, entry);
        found = here || found;
    }
    found
}

/// Whether an S among the `stores` covers a write, or an L that is told. The S is looked for from the write's place on.
fn is_stored_or_told(
    whole: &[Entry],
    stores: &[Entry],
    answered: &[Entry],
    place: usize,
    write: &Entry,
) -> bool
    ensures { result ≡ is_stored_or_told (reverse whole.now) (reverse stores.now) (reverse answered.now) write.now }
{
    is_stored(stores, place, write) || is_told(whole, answered, write)
}

#[tactic(auto, using(crate::proofs::Backwards::last_first))]
/// Whether it is so with each delayed write of an incarnation on a file before the answer.
fn are_stored_or_told(
    whole: &[Entry],
    stores: &[Entry],
    answered: &[Entry],
    by: &Who,
    on: FileId,
) -> bool
    ensures { result ≡ are_stored_or_told (reverse whole.now) (reverse stores.now) (reverse answered.now) by.now on }
{
    let mut all = true;
    for (place, write) in answered.iter().enumerate() {
        let here = !is_delayed_on(write, by, on)
            || is_stored_or_told(whole, stores, answered, place, write);
        all = here && all;
    }
    all
}

/// A call that gives a file another length: whose, its number, and the file.
#[derive(Clone, Copy)]
struct Resizing<'a> {
    by: &'a Who,
    n: u64,
    on: FileId,
}

/// Whether an entry is the Z of a call, and each such write is settled before it.
fn is_settled_resize(
    whole: &[Entry],
    stores: &[Entry],
    answered: &[Entry],
    call: Resizing<'_>,
    entry: &Entry,
) -> bool
    ensures { result ≡ is_settled_resize (reverse whole.now) (reverse answered.now) call.entry.by.now call.entry.n call.entry.on entry.now (reverse stores.now) }
{
    match entry {
        Entry::Z { who, q, .. } => {
            *call.by == *who
                && call.n == *q
                && are_stored_or_told(whole, stores, answered, call.by, call.on)
        }
        _ => false,
    }
}

#[tactic(auto, using(crate::proofs::Backwards::last_first))]
/// Whether the Z of a call stands among the entries, with each such write settled before it.
fn is_resize_kept(whole: &[Entry], before: &[Entry], by: &Who, n: u64, on: FileId) -> bool
    ensures { result ≡ somewhere (is_settled_resize (reverse whole.now) (reverse before.now) by.now n on) (reverse before.now) }
{
    let mut found = false;
    for (place, entry) in before.iter().enumerate() {
        let call = Resizing { by, n, on };
        let here = is_settled_resize(whole, &before[..place], before, call, entry);
        found = here || found;
    }
    found
}

// ---- the law

/// Whether what an ok says is kept.
pub fn is_kept(whole: &[Entry], before: &[Entry], by: &Who, n: u64, call: &Option<Told>) -> bool
    ensures { result ≡ is_kept (reverse whole.now) (reverse before.now) by.now n call.now }
{
    let Some(told) = call else {
        return true;
    };
    match told {
        Told::Put { .. } => is_put_kept(before, by, n),
        Told::Sync { file } => are_stored_or_told(whole, whole, before, by, *file),
        Told::Resize { file, .. } => is_resize_kept(whole, before, by, n, *file),
        Told::Remove { file } => is_resize_kept(whole, before, by, n, *file),
        _ => true,
    }
}

/// Whether an A that says ok is kept.
pub fn is_kept_at(whole: &[Entry], before: &[Entry], entry: &Entry) -> bool
    ensures { result ≡ is_kept_at (reverse whole.now) entry.now (reverse before.now) }
{
    match entry {
        Entry::A {
            who,
            q,
            said: Said::Ok,
        } => is_kept(whole, before, who, *q, &call_of(whole, who, *q)),
        Entry::A {
            who,
            q,
            said: Said::OkValue(_),
        } => is_kept(whole, before, who, *q, &call_of(whole, who, *q)),
        Entry::A {
            who,
            q,
            said: Said::OkBy { .. },
        } => is_kept(whole, before, who, *q, &call_of(whole, who, *q)),
        _ => true,
    }
}
