//! A word of four bytes that is repeated within a datagram.

ghost use Rattle.std.specs.Prelude.{◌≡◌, ℕ, ◌+◌, ◌-◌, ◌*◌, ◌^◌, ◌<◌, ◌≤◌, ◌++◌, ◌==◌, ◌&&◌, true, List, length, take, drop, get_or, vec_len, vec_capacity};
ghost use Rattle.nq_xdr.specs.Words.{repeats};
ghost use Rattle.nq_link.specs.Runs.{IsRepeated};

/// A place at which a word is repeated.
#[derive(Clone, Copy)]
pub(crate) struct Run {
    pub(crate) at: usize,
    pub(crate) times: u32,
    pub(crate) word: [u8; 4],
}

/// How many bytes a datagram has at least in which a repeated word is looked for.
const FEW: usize = 256;

/// How many bytes it has at most, so that a word is repeated fewer than 2^32 times.
const MOST: usize = 0xffff_ffff;

impl Run {
    /// No repetition.
    const NONE: Run = Run {
        at: 0,
        times: 0,
        word: [0; 4],
    };

    /// How the word in the middle of the bytes is repeated on both sides of it.
    pub(crate) fn in_bytes(bytes: &[u8]) -> Run
        ensures four { length result.word ≡ 4 }
        ensures within { result.at + 4 * result.times ≤ length bytes.now }
        ensures parts { bytes.now ≡ take result.at bytes.now ++ (repeats result.times result.word ++ drop (result.at + 4 * result.times) bytes.now) }
    {
        if bytes.len() < FEW || bytes.len() > MOST {
            return Run::NONE;
        }
        let middle = bytes.len() / 8 * 4;
        let at = first_before(bytes, middle);
        let end = last_behind(bytes, middle + 4);
        run_at(bytes, at, end)
    }
}

/// How far back from a place the bytes are the same as four bytes further on.
fn first_before(bytes: &[u8], place: usize) -> usize
    requires within { place + 4 ≤ length bytes.now }
    ensures before { result ≤ place }
    ensures same { IsRepeated bytes.now result (place - result) }
{
    let far = first_by(bytes, place, 256);
    let near = first_by(bytes, far, 32);
    first_by(bytes, near, 4)
}

/// How far back from a place the bytes are the same as four bytes further on, in steps of so many.
#[inline(always)]
fn first_by(bytes: &[u8], place: usize, step: usize) -> usize
    requires within { place + 4 ≤ length bytes.now }
    requires step { 1 ≤ step }
    ensures before { result ≤ place }
    ensures same { IsRepeated bytes.now result (place - result) }
{
    let mut at = place;
    while at >= step && goes_on(bytes, at - step, step) {
        at -= step;
    }
    at
}

/// How far on from a place the bytes are the same as four bytes before.
fn last_behind(bytes: &[u8], place: usize) -> usize
    requires before { 4 ≤ place }
    requires within { place ≤ length bytes.now }
    ensures behind { place ≤ result }
    ensures within { result ≤ length bytes.now }
    ensures same { IsRepeated bytes.now (place - 4) (result - place) }
{
    let far = last_by(bytes, place, 256);
    let near = last_by(bytes, far, 32);
    last_by(bytes, near, 4)
}

/// How far on from a place the bytes are the same as four bytes before, in steps of so many.
#[inline(always)]
fn last_by(bytes: &[u8], place: usize, step: usize) -> usize
    requires before { 4 ≤ place }
    requires within { place ≤ length bytes.now }
    requires step { 1 ≤ step }
    ensures behind { place ≤ result }
    ensures within { result ≤ length bytes.now }
    ensures same { IsRepeated bytes.now (place - 4) (result - place) }
{
    let mut end = place;
    while bytes.len() - end >= step && goes_on(bytes, end - 4, step) {
        end += step;
    }
    end
}

/// Whether so many bytes from a place on are the same as those four places further on.
#[inline(always)]
fn goes_on(bytes: &[u8], place: usize, count: usize) -> bool
    requires { place + count + 4 ≤ length bytes.now }
    ensures { result ≡ true → IsRepeated bytes.now place count }
{
    // It ends at no difference, so that the compiler compares many bytes at once.
    let mut same = true;
    for at in place..place + count {
        same = both(same, is_again(bytes, at));
    }
    same
}

/// Whether the byte at a place is the one four bytes behind it.
fn is_again(bytes: &[u8], at: usize) -> bool
    requires { at + 4 < length bytes.now }
    ensures { result ≡ (get_or bytes.now at 0 == get_or bytes.now (at + 4) 0) }
{
    bytes[at] == bytes[at + 4]
}

/// Whether both are so. It looks at both.
fn both(one: bool, other: bool) -> bool
    ensures { result ≡ (one && other) }
{
    one & other
}

/// The word at a place as a run, which goes on to the last whole word of it before an end.
fn run_at(bytes: &[u8], at: usize, end: usize) -> Run
    requires some { at + 4 ≤ end }
    requires within { end ≤ length bytes.now }
    requires short { length bytes.now < 2 ^ 32 }
    requires same { IsRepeated bytes.now at (end - 4 - at) }
    ensures four { length result.word ≡ 4 }
    ensures within { result.at + 4 * result.times ≤ length bytes.now }
    ensures parts { bytes.now ≡ take result.at bytes.now ++ (repeats result.times result.word ++ drop (result.at + 4 * result.times) bytes.now) }
{
    Run {
        at,
        times: ((end - at) / 4) as u32,
        word: [bytes[at], bytes[at + 1], bytes[at + 2], bytes[at + 3]],
    }
}
