//! Which losses are excused: those of clients that were cut off beyond write slack.

ghost use Rattle.std.specs.Prelude.{◌≡◌, ◌+◌, reverse, nat_le, [], ◌∷◌};
ghost use Rattle.nq_rules.specs.Grants.{given};
ghost use Rattle.nq_model.specs.laws.CutOff.{last_grant};
ghost use Rattle.nq_model.specs.laws.CutOffTest.{ends, ends_first, has_passed, is_late_end, is_late_opening, is_long_wait, is_store_over};
ghost use Rattle.nq_model.specs.laws.JournalTest.{each, exists};

use crate::entries::loss_covers;
use nq_base::{Entry, FileId, Ticks, Who};

// Write slack, and skew with write slack, in ticks.
pub const WRITE_SLACK: u64 = 5;

const SKEW_AND_SLACK: u64 = 8;

/// When a grant was made, and its term in ticks.
#[derive(Clone, Copy)]
pub struct Granted {
    /// What the server's clock showed.
    pub time: Ticks,
    /// How long the lease runs, in ticks.
    pub term: u32,
}

/// Whether so many ticks have passed since a time.
pub fn has_passed(since: Ticks, wait: u64, now: Ticks) -> bool
    ensures { result ≡ nat_le (since + wait) now }
{
    since.0 <= now.0 && wait <= now.0 - since.0
}

#[tactic(auto, using(crate::proofs::Backwards::last_first))]
/// The last grant to an incarnation on a file.
fn last_grant(before: &[Entry], by: &Who, on: FileId) -> Option<Granted>
    ensures { given result ≡ last_grant (reverse before.now) by.now on }
{
    let mut last = None;
    for entry in before {
        if let Some(grant) = grant_by(entry, by, on) {
            last = Some(grant);
        }
    }
    last
}

/// What an entry tells of a grant to an incarnation on a file, if it is one.
pub fn grant_by(entry: &Entry, by: &Who, on: FileId) -> Option<Granted>
    ensures { given result ≡ last_grant (entry.now ∷ []) by.now on }
{
    match entry {
        Entry::G {
            who,
            file,
            term,
            now,
            ..
        } if *who == *by && *file == on => Some(Granted {
            time: *now,
            term: *term,
        }),
        _ => None,
    }
}

/// Whether an entry is no S of the incarnation on the file, or write slack has passed since.
fn is_store_over(entry: &Entry, by: &Who, on: FileId, at: Ticks) -> bool
    ensures { result ≡ is_store_over by.now on at entry.now }
{
    match entry {
        Entry::S { who, file, now, .. } => {
            *who != *by || (*file != on || has_passed(*now, WRITE_SLACK, at))
        }
        _ => true,
    }
}

#[tactic(auto, using(crate::proofs::Backwards::last_first))]
/// Whether write slack has passed since each S of the incarnation on the file.
fn are_stores_over(before: &[Entry], by: &Who, on: FileId, at: Ticks) -> bool
    ensures { result ≡ each (is_store_over by.now on at) (reverse before.now) }
{
    let mut all = true;
    for entry in before {
        let here = is_store_over(entry, by, on, at);
        all = here && all;
    }
    all
}

/// Whether skew and slack have passed since the end of a grant's term.
pub fn is_grant_over(grant: Option<Granted>, at: Ticks) -> bool
    ensures { result ≡ has_passed at (given grant) }
{
    match grant {
        Some(granted) => has_passed(granted.time, granted.term as u64 + SKEW_AND_SLACK, at),
        None => false,
    }
}

/// The end of a writing lease in silence, as its F tells it.
#[derive(Drop)]
struct Silence {
    until: Ticks,
    heard: Ticks,
    now: Ticks,
}

/// Whether the end of a lease comes late enough.
fn is_late_end(before: &[Entry], by: &Who, on: FileId, end: Silence) -> bool
    ensures { result ≡ is_late_end (reverse before.now) by.now on end.until end.heard end.now }
{
    has_passed(end.heard, WRITE_SLACK, end.now)
        && has_passed(end.until, WRITE_SLACK, end.now)
        && is_grant_over(last_grant(before, by, on), end.now)
        && are_stores_over(before, by, on, end.now)
}

/// Whether an entry is the X of a boot, tells no shorter longest term than a grant's, and that term, skew and slack have
/// passed since.
pub fn is_long_wait(entry: &Entry, on_boot: u32, at: Ticks, grant: &Option<Granted>) -> bool
    ensures { result ≡ is_long_wait on_boot at (given grant.now) entry.now }
{
    let Some(granted) = grant else {
        return false;
    };
    match entry {
        Entry::X { boot, now, longest } => {
            *boot == on_boot
                && granted.term <= *longest
                && has_passed(*now, *longest as u64 + SKEW_AND_SLACK, at)
        }
        _ => false,
    }
}

#[tactic(auto, using(crate::proofs::Backwards::last_first))]
/// Whether a boot has waited so long for a grant.
fn has_waited(before: &[Entry], boot: u32, at: Ticks, grant: &Option<Granted>) -> bool
    ensures { result ≡ exists (is_long_wait boot at (given grant.now)) (reverse before.now) }
{
    let mut found = false;
    for entry in before {
        let here = is_long_wait(entry, boot, at, grant);
        found = here || found;
    }
    found
}

/// Whether the end of a recovery comes late enough for an incarnation on a file.
fn is_late_opening(before: &[Entry], by: &Who, on: FileId, boot: u32, at: Ticks) -> bool
    ensures { result ≡ is_late_opening (reverse before.now) by.now on boot at }
{
    has_waited(before, boot, at, &last_grant(before, by, on)) && are_stores_over(before, by, on, at)
}

/// Whether an entry ends the writing lease of an incarnation on a file, late enough.
fn ends(before: &[Entry], by: &Who, on: FileId, entry: &Entry) -> bool
    ensures { result ≡ ends by.now on entry.now (reverse before.now) }
{
    match entry {
        Entry::F {
            who,
            file,
            until,
            heard,
            now,
        } => {
            *who == *by
                && *file == on
                && is_late_end(
                    before,
                    by,
                    on,
                    Silence {
                        until: *until,
                        heard: *heard,
                        now: *now,
                    },
                )
        }
        Entry::O { boot, now, .. } => is_late_opening(before, by, on, *boot, *now),
        _ => false,
    }
}

#[tactic(auto, using(crate::proofs::Backwards::last_first))]
/// Whether a lease ended before an L, and after each write that it covers. The latest entries are looked at first.
pub fn ends_first(before: &[Entry], loss: &Entry, by: &Who, on: FileId) -> bool
    ensures { result ≡ ends_first loss.now by.now on (reverse before.now) }
{
    let mut left = before.len();
    while left > 0 {
        let entry = &before[left - 1];
        if ends(&before[..left - 1], by, on, entry) {
            return true;
        }
        if loss_covers(loss, entry) {
            return false;
        }
        left -= 1;
    }
    false
}
