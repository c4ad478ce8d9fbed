//! How far the times of the stores of a journal rise.

ghost use Rattle.std.specs.Prelude.{◌≡◌};
ghost use Rattle.nq_check.specs.Rising.{Rises, store_time};

use nq_base::Entry;

/// The time of an S; that which is given where an entry is none.
fn store_time(entry: &Entry, time: u64) -> u64
    ensures { result ≡ store_time entry.now time }
{
    match entry {
        Entry::S { now, .. } => now.0,
        _ => time,
    }
}

/// A place below which no S tells an earlier time than an S before it.
pub(crate) fn rising_front(whole: &[Entry]) -> usize
    ensures { Rises whole.now result }
{
    let mut time = 0;
    for (place, entry) in whole.iter().enumerate() {
        let next = store_time(entry, time);
        if next < time {
            return place;
        }
        time = next;
    }
    whole.len()
}
