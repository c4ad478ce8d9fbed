//! Reading the words of a line.

ghost use Rattle.std.specs.Prelude.{◌≡◌, ◌^◌, ◌<◌, ◌≤◌, [], ◌∷◌, ◌↔◌, IsTrue, IsNone, IfSome, option_map};
ghost use Rattle.std.specs.Fmt.{decimal};
ghost use Rattle.std.specs.Str.{bytes_eq};
ghost use Rattle.nq_base.specs.Name.{IsName};
ghost use Rattle.nq_script.specs.WordsReading.{cut, words_of, Takes, is_done, word_at, with_digit, digits_after, is_plain, u64_of, u32_of, number_of, name_of};
ghost use Rattle.nq_script.specs.WordsReading.{u64_at, u32_at, name_at, who_at, place_at, tag_at};
ghost use Rattle.nq_script.specs.Forms.{FitsWho};

use nq_base::{BlockNo, FileId, Host, Inc, Name, Tag, Who};
use std::marker::Model;

/// What stands before the first byte of this kind, and what stands behind it.
pub fn cut(bytes: &[u8], stop: u8) -> Option<(&[u8], &[u8])>
    ensures { option_map (λ parts. (parts.0.now, parts.1.now)) result ≡ cut stop bytes.now }
{
    for (place, byte) in bytes.iter().enumerate() {
        if *byte == stop {
            return Some((&bytes[..place], &bytes[place + 1..]));
        }
    }
    None
}

/// Whether a word is this one.
pub fn is(word: &[u8], text: &[u8]) -> bool
    ensures test { result ≡ bytes_eq word.now text.now }
    ensures same { IsTrue result ↔ (word.now ≡ text.now) }
{
    word == text
}

// The number that a digit more makes, where it is below 2^64.
#[tactic(auto, unfolding(crate::specs::WordsReading::with_digit))]
fn with_digit(number: u64, byte: u8) -> Option<u64>
    ensures { result ≡ with_digit number byte }
{
    if !byte.is_ascii_digit() {
        return None;
    }
    number.checked_mul(10)?.checked_add(u64::from(byte - b'0'))
}

// The number below 2^64 that digits spell.
fn digits(word: &[u8]) -> Option<u64>
    ensures { result ≡ digits_after 0 word.now }
{
    let mut number: u64 = 0;
    for byte in word {
        number = with_digit(number, *byte)?;
    }
    Some(number)
}

// Whether a word is not empty and has no needless zero in front.
fn is_plain(word: &[u8]) -> bool
    ensures { result ≡ is_plain word.now }
{
    !word.is_empty() && (word.len() == 1 || word[0] != b'0')
}

/// The number below 2^64 that a word spells.
#[tactic(auto, unfolding(crate::specs::WordsReading::u64_of))]
pub fn number64(word: &[u8]) -> Option<u64>
    ensures step { result ≡ u64_of word.now }
    ensures found { IfSome result (λ n. word.now ≡ decimal n) }
{
    if is_plain(word) { digits(word) } else { None }
}

/// The number below 2^32 that a word spells.
#[tactic(auto, unfolding(crate::specs::WordsReading::u32_of))]
pub fn number32(word: &[u8]) -> Option<u32>
    ensures step { result ≡ u32_of word.now }
    ensures found { IfSome result (λ n. word.now ≡ decimal n) }
{
    u32::try_from(number64(word)?).ok()
}

/// The number up to `most` that a word writes in decimal, without a sign or a needless zero; None for every other
/// word.
#[tactic(auto, unfolding(crate::specs::WordsReading::number_of))]
pub fn number(word: &[u8], most: u64) -> Option<u64>
    ensures value { result ≡ number_of most word.now }
    ensures bound { IfSome result (λ n. n ≤ most) }
{
    let value = number64(word)?;
    if value <= most { Some(value) } else { None }
}

/// The name that a word spells.
pub fn name(word: &[u8]) -> Option<Name>
    ensures step { result ≡ name_of word.now }
    ensures found { IfSome result (λ n. (word.now ≡ n) × IsName n) }
{
    Name::new(word)
}

/// The words of a line that are left, of which clauses see the list.
#[derive(Drop)]
pub struct WordCursor<'a> {
    rest: Option<&'a [u8]>,
}

impl<'a> Model for WordCursor<'a> {
    ghost use Rattle.std.specs.Prelude.{ℕ, List, option_map};
    ghost use Rattle.nq_script.specs.WordsReading.{words_left};

    ghost Value = { List (List ℕ) };

    ghost view = { λ w. words_left (option_map (λ line. line.now) w.rest) };
}

impl<'a> WordCursor<'a> {
    /// The words of a line.
    pub fn new(line: &'a [u8]) -> WordCursor<'a>
        ensures { result ≡ words_of line.now }
    {
        WordCursor { rest: Some(line) }
    }

    /// Takes the next word.
    pub fn next(&mut self) -> Option<&'a [u8]>
        ensures step { Takes (λ word. word.now) result self.new (word_at self.old) }
        ensures found { IfSome result (λ word. self.old ≡ word.now ∷ self.new) }
        ensures done { IsNone result → self.new ≡ [] }
    {
        let line = self.rest?;
        match cut(line, b' ') {
            Some((word, rest)) => {
                self.rest = Some(rest);
                Some(word)
            }
            None => {
                self.rest = None;
                Some(line)
            }
        }
    }

    /// Whether no word is left.
    pub fn is_empty(&self) -> bool
        ensures { result ≡ is_done self.now }
    {
        self.rest.is_none()
    }

    /// Takes a number below 2^64.
    #[tactic(auto, unfolding(crate::specs::WordsReading::u64_at))]
    pub fn u64(&mut self) -> Option<u64>
        ensures step { Takes (λ n. n) result self.new (u64_at self.old) }
        ensures found { IfSome result (λ n. self.old ≡ decimal n ∷ self.new) }
    {
        number64(self.next()?)
    }

    /// Takes a number below 2^32.
    #[tactic(auto, unfolding(crate::specs::WordsReading::u32_at))]
    pub fn u32(&mut self) -> Option<u32>
        ensures step { Takes (λ n. n) result self.new (u32_at self.old) }
        ensures found { IfSome result (λ n. self.old ≡ decimal n ∷ self.new) }
    {
        number32(self.next()?)
    }

    /// Takes a name.
    #[tactic(auto, unfolding(crate::specs::WordsReading::name_at))]
    pub fn name(&mut self) -> Option<Name>
        ensures step { Takes (λ n. n) result self.new (name_at self.old) }
        ensures found { IfSome result (λ n. (self.old ≡ n ∷ self.new) × IsName n) }
    {
        name(self.next()?)
    }

    /// Takes an incarnation.
    #[tactic(auto, unfolding(crate::specs::WordsReading::who_at))]
    pub fn who(&mut self) -> Option<Who>
        ensures step { Takes (λ who. who) result self.new (who_at self.old) }
        ensures found { IfSome result (λ who. (self.old ≡ decimal who.host ∷ decimal who.inc ∷ self.new) × FitsWho who) }
    {
        let host = Host(self.u32()?);
        let inc = Inc(self.u32()?);
        Some(Who { host, inc })
    }

    /// Takes a file and a block.
    #[tactic(auto, unfolding(crate::specs::WordsReading::place_at))]
    pub fn place(&mut self) -> Option<(FileId, BlockNo)>
        ensures step { Takes (λ place. place) result self.new (place_at self.old) }
        ensures found { IfSome result (λ place. (self.old ≡ decimal place.0 ∷ decimal place.1 ∷ self.new) × (place.0 < 2 ^ 32) × (place.1 < 2 ^ 32)) }
    {
        let file = FileId(self.u32()?);
        let block = BlockNo(self.u32()?);
        Some((file, block))
    }

    /// Takes a tag.
    #[tactic(auto, unfolding(crate::specs::WordsReading::tag_at))]
    pub fn tag(&mut self) -> Option<Tag>
        ensures step { Takes (λ tag. tag) result self.new (tag_at self.old) }
        ensures found { IfSome result (λ tag. (self.old ≡ decimal tag.boot ∷ decimal tag.number ∷ self.new) × (tag.boot < 2 ^ 32) × (tag.number < 2 ^ 64)) }
    {
        let boot = self.u32()?;
        let number = self.u64()?;
        Some(Tag { boot, number })
    }
}
