//! Which reads count.

ghost use Rattle.std.specs.Prelude.{◌≡◌, reverse};
ghost use Rattle.nq_model.specs.laws.JournalTest.{is_counted};
ghost use Rattle.nq_model.specs.laws.LegalTest.{is_counted_by};

use crate::entries::is_read_by;
use crate::sought::{Sought, is_near};
use nq_base::{Entry, Who};

/// Whether an entry is a counted read.
pub(crate) fn is_counted(whole: &[Entry], entry: &Entry) -> bool
    ensures { result ≡ is_counted (reverse whole.now) entry.now }
{
    match entry {
        Entry::R { who, q, served, .. } => match served {
            None => true,
            Some(packet) => is_near(
                whole,
                0,
                Sought::AnswerBy {
                    who,
                    q: *q,
                    packet: *packet,
                },
            ),
        },
        _ => false,
    }
}

/// Whether an entry is a counted read by a call.
pub(crate) fn is_counted_by(whole: &[Entry], by: &Who, n: u64, entry: &Entry) -> bool
    ensures { result ≡ is_counted_by (reverse whole.now) by.now n entry.now }
{
    is_read_by(entry, by, n) && is_counted(whole, entry)
}
