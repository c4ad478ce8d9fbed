//! The fields of a record, and the first of them that is wrong.

ghost use Rattle.std.specs.Prelude.{◌≡◌, ◌+◌, ◌≤◌, OnSome, length, max};
ghost use Rattle.nq_disk.specs.Record.{are_zeros, count_at, hyper_at, is_misplaced, ranges_in, ranges_of, unfit_field, word, wrong_field, wrong_range};
ghost use Rattle.nq_disk.specs.Whole.{IsArea};

use crate::redo::area::Area;
use crate::redo::steps::front_range;

/// Whether all of these are zeros.
fn are_zeros(bytes: &[u8]) -> bool
    ensures { result ≡ are_zeros bytes.now }
{
    bytes.iter().all(|byte| *byte == 0)
}

/// The number of the first four bytes.
#[tactic(auto, unfolding(crate::specs::Record::word))]
fn word(bytes: &[u8]) -> u32
    requires { 4 ≤ length bytes.now }
    ensures { result ≡ word bytes.now }
{
    u32::from_be_bytes([bytes[0], bytes[1], bytes[2], bytes[3]])
}

/// The number of the first eight bytes, where there are as many.
fn hyper_at(bytes: &[u8]) -> Option<u64>
    ensures number { result ≡ hyper_at bytes.now }
    ensures whole { OnSome result (8 ≤ length bytes.now) }
{
    let [a, b, c, d, e, f, g, h, ..] = bytes else {
        return None;
    };
    Some(u64::from_be_bytes([*a, *b, *c, *d, *e, *f, *g, *h]))
}

/// The number of the four bytes behind the first eight; 0 where there are fewer.
fn count_at(bytes: &[u8]) -> usize
    ensures { result ≡ count_at bytes.now }
{
    let [_a, _b, _c, _d, _e, _f, _g, _h, i, j, k, l, ..] = bytes else {
        return 0;
    };
    u32::from_be_bytes([*i, *j, *k, *l]) as usize
}

/// How many ranges a record has, and the bytes that spell them.
pub(crate) fn ranges_of(content: &[u8]) -> (u32, &[u8])
    requires { 16 ≤ length content.now }
    ensures { ranges_in result.0 result.1.now ≡ ranges_of content.now }
{
    (word(&content[8..]), &content[16..])
}

/// How long a disk of this length is once bytes stand up to a place.
fn longer(len: u64, end: u64) -> u64
    ensures { result ≡ max len end }
{
    if len < end { end } else { len }
}

impl Area {
    /// Whether a range of so many bytes lies where none may lie, on a disk of this length.
    #[tactic(auto, unfolding(crate::specs::Record::is_misplaced))]
    fn is_misplaced(self, len: u64, place: u64, count: usize) -> bool
        requires { IsArea self }
        ensures { result ≡ is_misplaced self.place self.size self.bound len place count }
    {
        let Some(end) = place.checked_add(count as u64) else {
            return true;
        };
        let behind = self.place + self.size as u64;
        (place < 7 && 0 < end)
            || (self.place < end && place < behind)
            || self.bound < end
            || len < place
    }

    /// The wrong field of a range that passes the end of the record: its place, where that does not fit or is wrong for so many bytes,
    /// else its length.
    fn unfit_field(self, len: u64, at: u64, bytes: &[u8]) -> u64
        requires area { IsArea self }
        requires within { at + length bytes.now ≤ self.place + self.size }
        ensures { result ≡ unfit_field self.place self.size self.bound len at (hyper_at bytes.now) (count_at bytes.now) }
    {
        match hyper_at(bytes) {
            None => at,
            Some(place) => {
                if self.is_misplaced(len, place, count_at(bytes)) {
                    at
                } else {
                    at + 8
                }
            }
        }
    }

    /// The place of the first wrong field among so many ranges, each of which may make the disk longer.
    fn wrong_range(self, len: u64, count: u32, bytes: &[u8]) -> Option<u64>
        requires area { IsArea self }
        requires short { length bytes.now + 16 ≤ self.size }
        ensures { result ≡ wrong_range self.place self.size self.bound count len (self.place + 16) bytes.now }
    {
        let (mut at, mut rest, mut end) = (self.place + 16, bytes, len);
        for _turn in 0..count {
            match front_range(rest) {
                None => return Some(self.unfit_field(end, at, rest)),
                Some((place, body, behind)) => {
                    if self.is_misplaced(end, place, body.len()) {
                        return Some(at);
                    }
                    end = longer(end, place + body.len() as u64);
                    at += 12 + body.len() as u64;
                    rest = behind;
                }
            }
        }
        None
    }

    /// The place of the first wrong field of a record, on a disk of this length.
    #[tactic(auto, unfolding(crate::specs::Record::wrong_field))]
    pub(crate) fn wrong_field(self, len: u64, content: &[u8]) -> Option<u64>
        requires area { IsArea self }
        requires whole { length content.now ≡ self.size }
        ensures { result ≡ wrong_field self.place self.size self.bound len content.now }
    {
        if !are_zeros(&content[1..8]) {
            return Some(self.place + 1);
        }
        let count = word(&content[8..]);
        if 8 < count {
            return Some(self.place + 8);
        }
        if !are_zeros(&content[12..16]) {
            return Some(self.place + 12);
        }
        self.wrong_range(len, count, &content[16..])
    }
}
