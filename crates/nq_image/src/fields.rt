//! Numbers and zeros in the bytes of an image.

ghost use Rattle.std.specs.Prelude.{◌≡◌, ◌≤◌, ◌+◌, length};
ghost use Rattle.nq_image.specs.Layout.{piece as piece_at, word_in as word_at, hyper_in as hyper_at, are_zeros as all_zeros};

use byteorder::{BigEndian, ByteOrder};

/// The number in the four bytes at a place.
#[tactic(auto, unfolding(crate::specs::Layout::word_in))]
pub(crate) fn word_in(bytes: &[u8], place: usize) -> u32
    requires { place + 4 ≤ length bytes.now }
    ensures { result ≡ word_at place bytes.now }
{
    let (_, rest) = bytes.split_at(place);
    BigEndian::read_u32(rest)
}

/// The number in the eight bytes at a place.
#[tactic(auto, unfolding(crate::specs::Layout::hyper_in))]
pub(crate) fn hyper_in(bytes: &[u8], place: usize) -> u64
    requires { place + 8 ≤ length bytes.now }
    ensures { result ≡ hyper_at place bytes.now }
{
    let (_, rest) = bytes.split_at(place);
    BigEndian::read_u64(rest)
}

/// Whether the bytes are all zeros.
pub(crate) fn are_zeros(bytes: &[u8]) -> bool
    ensures { result ≡ all_zeros bytes.now }
{
    bytes.iter().all(|byte| *byte == 0)
}

/// So many bytes from a place on.
#[tactic(auto, unfolding(crate::specs::Layout::piece))]
pub fn piece(bytes: &[u8], place: usize, size: usize) -> &[u8]
    requires { place + size ≤ length bytes.now }
    ensures bytes { result.now ≡ piece_at place size bytes.now }
    ensures size { length result.now ≡ size }
{
    &bytes[place..place + size]
}
