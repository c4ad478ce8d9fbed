//! The orders on which the lease table rests, for all values. What `cmp` answers, `<` and its like answer too.

ghost use Rattle.std.specs.Prelude.{◌≡◌, ◌<◌, ◌↔◌};
ghost use Rattle.std.specs.declared.cmp.Ordering.TheVariants.{Less, Equal, Greater};
ghost use Rattle.nq_base.specs.Order.{IsDrawnBefore, strength, StandsBefore};

use crate::kept::RowKey;
use crate::tags::{Mode, Tag};
use std::cmp::Ordering;

/// Tags stand in the order in which they are drawn: by boot, then by number.
pub fn order_of_tags(a: &Tag, b: &Tag) -> Ordering
    ensures less { (result ≡ Less) ↔ IsDrawnBefore a.now b.now }
    ensures equal { (result ≡ Equal) ↔ (a.now ≡ b.now) }
    ensures greater { (result ≡ Greater) ↔ IsDrawnBefore b.now a.now }
{
    a.cmp(b)
}

/// The kinds of lease stand in the order of what they allow.
pub fn order_of_modes(a: Mode, b: Mode) -> Ordering
    ensures less { (result ≡ Less) ↔ (strength a < strength b) }
    ensures equal { (result ≡ Equal) ↔ (a ≡ b) }
    ensures greater { (result ≡ Greater) ↔ (strength b < strength a) }
{
    a.cmp(&b)
}

/// The keys of rows stand by file, then by host.
pub fn order_of_keys(a: &RowKey, b: &RowKey) -> Ordering
    ensures less { (result ≡ Less) ↔ StandsBefore a.now b.now }
    ensures equal { (result ≡ Equal) ↔ (a.now ≡ b.now) }
    ensures greater { (result ≡ Greater) ↔ StandsBefore b.now a.now }
{
    a.cmp(b)
}
