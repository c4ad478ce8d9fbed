//! Parts of names as numbers.

ghost use Rattle.std.specs.Prelude.{◌≡◌, ◌≤◌, ◌↔◌, true, Some, if◌then◌else◌, drop, get_or, length, nat_lt, slice_get, IsTrue};
ghost use Rattle.std.specs.List.{prefix_len};
ghost use Rattle.std.specs.List.Sorted.{IsNonDecreasing};
ghost use Rattle.nq_directory.specs.Fronts.{front, number_of};

use nq_base::Name;

/// The byte at a place, and 0 behind the last one.
fn byte_at(bytes: &[u8], place: usize) -> u8
    ensures { result ≡ get_or bytes.now place 0 }
{
    match bytes.get(place) {
        Some(byte) => *byte,
        None => 0,
    }
}

/// The number that the first eight bytes spell, the highest digit first, with zeros behind fewer bytes.
fn number_of(bytes: &[u8]) -> u64
    ensures { result ≡ number_of bytes.now }
{
    u64::from_be_bytes([
        byte_at(bytes, 0),
        byte_at(bytes, 1),
        byte_at(bytes, 2),
        byte_at(bytes, 3),
        byte_at(bytes, 4),
        byte_at(bytes, 5),
        byte_at(bytes, 6),
        byte_at(bytes, 7),
    ])
}

/// What follows so many bytes.
fn behind(bytes: &[u8], skip: usize) -> &[u8]
    ensures { result.now ≡ drop skip bytes.now }
{
    &bytes[skip.min(bytes.len())..]
}

/// The front of a name: the number that its eight bytes behind so many others spell.
pub(crate) fn front_of(name: &Name, skip: usize) -> u64
    ensures { result ≡ front skip name.now }
{
    number_of(behind(name.as_bytes(), skip))
}

/// Whether numbers do not fall.
pub(crate) fn are_rising(numbers: &[u64]) -> bool
    ensures { result ≡ true → IsNonDecreasing numbers.now }
{
    numbers.is_sorted()
}

/// So many, or none.
fn if_on(count: usize, on: bool) -> usize
    ensures { result ≡ (if on then count else 0) }
{
    count * usize::from(on)
}

/// How many of these numbers, which do not fall, are less than one. A halving is a sum and no branch, since a processor cannot foretell
/// how it comes out.
pub(crate) fn count_less(numbers: &[u64], number: u64) -> usize
    requires { IsNonDecreasing numbers.now }
    ensures count { result ≡ prefix_len (λ k. nat_lt k number) numbers.now }
    ensures within { result ≤ length numbers.now }
{
    let mut size = numbers.len();
    if size == 0 {
        return 0;
    }
    let mut base = 0;
    while size > 1 {
        let half = size / 2;
        base += if_on(half, numbers[base + half] < number);
        size -= half;
    }
    base + if_on(1, numbers[base] < number)
}

/// Whether a number stands at a place.
pub(crate) fn is_at(numbers: &[u64], place: usize, number: u64) -> bool
    ensures { IsTrue result ↔ (slice_get numbers.now place ≡ Some number) }
{
    match numbers.get(place) {
        Some(other) => *other == number,
        None => false,
    }
}
