//! Which entries account for the delayed writes that they cover.

ghost use Rattle.std.specs.Prelude.{◌≡◌, reverse};
ghost use Rattle.nq_model.specs.laws.FateTest.{is_accounted_at, is_first_to_cover};
ghost use Rattle.nq_model.specs.laws.JournalTest.{each};

use crate::entries::covers;
use crate::sought::{Sought, is_among};
use nq_base::Entry;

/// Whether an entry does not cover a write, or no entry before it does.
fn is_first_to_cover(before: &[Entry], entry: &Entry, write: &Entry) -> bool
    ensures { result ≡ is_first_to_cover (reverse before.now) entry.now write.now }
{
    !covers(entry, write) || !is_among(before, Sought::Cover(write))
}

#[tactic(auto, using(crate::proofs::Backwards::last_first))]
/// Whether no write that an entry covers is covered before it.
fn is_first_to_cover_all(whole: &[Entry], before: &[Entry], entry: &Entry) -> bool
    ensures { result ≡ each (is_first_to_cover (reverse before.now) entry.now) (reverse whole.now) }
{
    let mut all = true;
    for write in whole {
        let here = is_first_to_cover(before, entry, write);
        all = here && all;
    }
    all
}

/// Whether an entry at its place accounts for what it covers.
pub fn is_accounted_at(whole: &[Entry], before: &[Entry], entry: &Entry) -> bool
    ensures { result ≡ is_accounted_at (reverse whole.now) entry.now (reverse before.now) }
{
    match entry {
        Entry::S { .. } => is_first_to_cover_all(whole, before, entry),
        Entry::L { .. } => {
            is_first_to_cover_all(whole, before, entry) && is_among(whole, Sought::Covered(entry))
        }
        _ => true,
    }
}
