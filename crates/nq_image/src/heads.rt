//! The first 64 bytes of an image.

ghost use Rattle.std.specs.Prelude.{◌≡◌, ◌≤◌, IfOk, length};
ghost use Rattle.nq_image.specs.Check.{tested};
ghost use Rattle.nq_image.specs.Heads.{boots_checks, boots_of, front_checks, front_of, is_next as is_next_of, is_term as is_term_of, version_of as version_at};

use crate::fault::WrongField;
use crate::fields::{are_zeros, word_in};
use crate::rows::Version;

/// The numbers of the server in an image of version 1.
#[derive(Clone, Copy)]
pub struct Boots {
    /// The number of the last boot, below 2^31.
    pub boot: u32,
    /// The last boot that served, not above it.
    pub opened: u32,
}

/// The numbers of the server in an image of version 2, and where its tables are.
#[derive(Clone, Copy)]
pub struct Front {
    /// The number of the last boot, below 2^31.
    pub boot: u32,
    /// The last boot that served, not above it.
    pub opened: u32,
    /// The longest term in ticks, 5 to 600.
    pub longest: u32,
    /// The id of the next file, 1 to 2^31.
    pub next: u32,
    /// The physical block at which the tables begin, at most 16384.
    pub tables: u32,
}

/// The version that the eighth byte of an image says; None where it says none.
#[tactic(auto, unfolding(crate::specs::Heads::version_of))]
pub fn version_of(byte: u8) -> Option<Version>
    ensures { result ≡ version_at byte }
{
    match byte {
        b'1' => Some(Version::One),
        b'2' => Some(Version::Two),
        _ => None,
    }
}

/// The numbers in the first 64 bytes of an image of version 1.
///
/// # Errors
///
/// The place of the first field that is wrong.
#[tactic(auto, unfolding(crate::specs::Heads::boots_of, crate::specs::Layout::piece))]
pub fn read_boots(front: &[u8]) -> Result<Boots, WrongField>
    requires { length front.now ≡ 64 }
    ensures { result ≡ tested (boots_checks front.now) (boots_of front.now) }
{
    let boot = word_in(front, 8);
    if boot >= 0x8000_0000 {
        return Err(WrongField(8));
    }
    let opened = word_in(front, 12);
    if opened > boot {
        return Err(WrongField(12));
    }
    if !are_zeros(&front[16..64]) {
        return Err(WrongField(16));
    }
    Ok(Boots { boot, opened })
}

/// Whether a term is from 5 to 600 ticks.
fn is_term(term: u32) -> bool
    ensures { result ≡ is_term_of term }
{
    (5..=600).contains(&term)
}

/// Whether an id is from 1 to 2^31.
fn is_next(next: u32) -> bool
    ensures { result ≡ is_next_of next }
{
    (1..=0x8000_0000).contains(&next)
}

/// The numbers in the first 64 bytes of an image of version 2.
///
/// # Errors
///
/// The place of the first field that is wrong.
#[tactic(auto, unfolding(crate::specs::Heads::front_of, crate::specs::Layout::piece))]
pub fn read_front(front: &[u8]) -> Result<Front, WrongField>
    requires { length front.now ≡ 64 }
    ensures told { result ≡ tested (front_checks front.now) (front_of front.now) }
    ensures near { IfOk result (λ front. front.tables ≤ 16384) }
{
    let boot = word_in(front, 8);
    if boot >= 0x8000_0000 {
        return Err(WrongField(8));
    }
    let opened = word_in(front, 12);
    if opened > boot {
        return Err(WrongField(12));
    }
    let longest = word_in(front, 16);
    if !is_term(longest) {
        return Err(WrongField(16));
    }
    let next = word_in(front, 20);
    if !is_next(next) {
        return Err(WrongField(20));
    }
    let tables = word_in(front, 24);
    if tables > 16384 {
        return Err(WrongField(24));
    }
    if !are_zeros(&front[28..64]) {
        return Err(WrongField(28));
    }
    Ok(Front {
        boot,
        opened,
        longest,
        next,
        tables,
    })
}
