//! Entries that are looked for along links.

ghost use Rattle.std.specs.Prelude.{◌≡◌, ◌<◌, ◌≤◌, ◌+◌, IfSome, IsTrue, Some, drop, false, length, reverse, slice_get, take, true};
ghost use Rattle.nq_check.specs.Links.{IsFree, IsLinked};
ghost use Rattle.nq_check.specs.Tables.{HasBetween, NoneBetween};
ghost use Rattle.nq_model.specs.laws.Journal.{call_of};
ghost use Rattle.nq_model.specs.laws.JournalTest.{exists, loss_covers};
ghost use Rattle.nq_rules.specs.Sought.{kind_sought, passes};
ghost use Rattle.nq_rules.specs.declared.keys.KeyKind.TheVariants.{Calls, Own};

use crate::links::{Links, head_at};
use nq_base::{Entry, Told, Who};
use nq_rules::entries::told_by;
use nq_rules::keys::{EntryKey, KeyKind, call_key, key_of, same_key};
use nq_rules::sought::{Sought, key_sought, kind_sought, passes};

/// A place, counted from 1, back to which the links of a key lead to no entry before another place. The entries before a third
/// one are linked.
pub(crate) fn back_from(
    links: &Links,
    kind: KeyKind,
    key: EntryKey,
    whole: &[Entry],
    linked: usize,
    place: usize,
) -> usize
    requires linked { IsLinked kind whole.now linked links.now.heads.entries links.now.earlier.items }
    requires within { place ≤ linked }
    requires whole { linked ≤ length whole.now }
    ensures low { result ≤ place }
    ensures free { IsFree kind key whole.now result place }
{
    if place == linked {
        let head = head_at(&links.heads, key);
        if head <= place {
            return head;
        }
        return place;
    }
    let earlier = links.earlier[place];
    if earlier <= place && same_key(key_of(kind, &whole[place]), key) {
        return earlier;
    }
    place
}

/// Whether what is looked for stands from a place on and before another.
pub(crate) fn is_between(
    links: &Links,
    whole: &[Entry],
    from: usize,
    place: usize,
    sought: Sought,
) -> bool
    requires linked { IsLinked (kind_sought sought) whole.now (length whole.now) links.now.heads.entries links.now.earlier.items }
    requires within { place ≤ length whole.now }
    ensures yes { IsTrue result → HasBetween (passes sought.entry) whole.now from place }
    ensures no { result ≡ false → NoneBetween (passes sought.entry) whole.now from place }
{
    let key = key_sought(sought);
    let kind = kind_sought(sought);
    let mut at = back_from(links, kind, key, whole, whole.len(), place);
    while at > from {
        if passes(sought, &whole[at - 1]) {
            return true;
        }
        at = back_from(links, kind, key, whole, whole.len(), at - 1);
    }
    false
}

/// Whether what is looked for stands before a place.
pub(crate) fn is_before(links: &Links, whole: &[Entry], place: usize, sought: Sought) -> bool
    requires linked { IsLinked (kind_sought sought) whole.now (length whole.now) links.now.heads.entries links.now.earlier.items }
    requires within { place ≤ length whole.now }
    ensures { result ≡ exists (passes sought.entry) (reverse (take place whole.now)) }
{
    is_between(links, whole, 0, place, sought)
}

/// Whether what is looked for stands in the journal.
pub(crate) fn is_somewhere(links: &Links, whole: &[Entry], sought: Sought) -> bool
    requires linked { IsLinked (kind_sought sought) whole.now (length whole.now) links.now.heads.entries links.now.earlier.items }
    ensures { result ≡ exists (passes sought.entry) (reverse whole.now) }
{
    is_before(links, whole, whole.len(), sought)
}

/// Whether a write that an L covers stands behind the L's place.
pub(crate) fn covers_behind(links: &Links, whole: &[Entry], place: usize, loss: &Entry) -> bool
    requires linked { IsLinked Own whole.now (length whole.now) links.now.heads.entries links.now.earlier.items }
    requires within { place < length whole.now }
    ensures { result ≡ exists (loss_covers loss.now) (drop (place + 1) whole.now) }
{
    is_between(links, whole, place + 1, whole.len(), Sought::Lost(loss))
}

/// The entry at a place; None where the place is not below the length.
pub(crate) fn entry_at(whole: &[Entry], place: usize) -> Option<&Entry>
    ensures { IfSome result (λ entry. slice_get whole.now place ≡ Some entry.now) }
{
    whole.get(place)
}

/// Whether the entry at a place, if there is one, is what is looked for.
pub(crate) fn is_there(entries: &[Entry], at: usize, sought: Sought) -> bool
    ensures { IsTrue result → exists (passes sought.entry) (reverse entries.now) ≡ true }
{
    match entry_at(entries, at) {
        Some(entry) => passes(sought, entry),
        None => false,
    }
}

/// Whether what is looked for stands before a place. The entry that stands `near`, if it is before the place, is looked at first.
pub(crate) fn is_before_near(
    links: &Links,
    whole: &[Entry],
    place: usize,
    near: usize,
    sought: Sought,
) -> bool
    requires linked { IsLinked (kind_sought sought) whole.now (length whole.now) links.now.heads.entries links.now.earlier.items }
    requires within { place ≤ length whole.now }
    ensures { result ≡ exists (passes sought.entry) (reverse (take place whole.now)) }
{
    if is_there(&whole[..place], near, sought) {
        return true;
    }
    is_before(links, whole, place, sought)
}

/// Whether what is looked for stands in the journal. The entry that stands `near`, if there is one, is looked at first.
pub(crate) fn is_somewhere_near(links: &Links, whole: &[Entry], near: usize, sought: Sought) -> bool
    requires linked { IsLinked (kind_sought sought) whole.now (length whole.now) links.now.heads.entries links.now.earlier.items }
    ensures { result ≡ exists (passes sought.entry) (reverse whole.now) }
{
    if is_there(whole, near, sought) {
        return true;
    }
    is_somewhere(links, whole, sought)
}

/// What a call asks, as its first C before a place tells it.
fn call_before(links: &Links, whole: &[Entry], place: usize, by: &Who, n: u64) -> Option<Told>
    requires linked { IsLinked Calls whole.now (length whole.now) links.now.heads.entries links.now.earlier.items }
    requires within { place ≤ length whole.now }
    ensures { result ≡ call_of (reverse (take place whole.now)) by.now n }
{
    let key = call_key(by, n);
    let mut call = None;
    let mut at = back_from(links, KeyKind::Calls, key, whole, whole.len(), place);
    while at > 0 {
        call = told_by(&whole[at - 1], by, n).or(call);
        at = back_from(links, KeyKind::Calls, key, whole, whole.len(), at - 1);
    }
    call
}

/// What a call asks, as its first C tells it.
pub(crate) fn call_along(links: &Links, whole: &[Entry], by: &Who, n: u64) -> Option<Told>
    requires linked { IsLinked Calls whole.now (length whole.now) links.now.heads.entries links.now.earlier.items }
    ensures { result ≡ call_of (reverse whole.now) by.now n }
{
    call_before(links, whole, whole.len(), by, n)
}

/// What a call asks, as its first C tells it. The entries before a place are looked at first.
pub(crate) fn call_near(
    links: &Links,
    whole: &[Entry],
    place: usize,
    by: &Who,
    n: u64,
) -> Option<Told>
    requires linked { IsLinked Calls whole.now (length whole.now) links.now.heads.entries links.now.earlier.items }
    requires within { place ≤ length whole.now }
    ensures { result ≡ call_of (reverse whole.now) by.now n }
{
    let call = call_before(links, whole, place, by, n);
    if call.is_some() {
        return call;
    }
    call_along(links, whole, by, n)
}
