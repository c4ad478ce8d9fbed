//! What is printed, and what is read. Where memory is wanting, something is left out.

use std::alloc::Global;

/// How many bytes a block has.
const BLOCK: usize = 4096;

/// Adds a text.
pub(crate) fn say(page: &mut Vec<u8>, text: &str) {
    page.extend_from_slice(text.as_bytes()).ok();
}

/// Adds a name and a number.
pub(crate) fn field(page: &mut Vec<u8>, name: &str, number: u64) {
    say(page, name);
    say(page, " ");
    digits(page, number, 10);
}

/// Adds a number in hexadecimal.
pub(crate) fn hex(page: &mut Vec<u8>, number: u32) {
    digits(page, u64::from(number), 16);
}

/// Adds the digits of a number to this base, which is 10 or 16.
pub(crate) fn digits(page: &mut Vec<u8>, number: u64, base: u64) {
    let base = base.max(2);
    let mut unit: u64 = 1;
    for _ in 0..19 {
        if unit > 0 && number / unit >= base {
            unit = unit.wrapping_mul(base);
        }
    }
    for _ in 0..20 {
        if unit > 0 {
            page.push(digit(number / unit % base)).ok();
            unit /= base;
        }
    }
}

/// The digit of this value.
fn digit(value: u64) -> u8 {
    match b"0123456789abcdef".get(value as usize) {
        Some(digit) => *digit,
        None => b'?',
    }
}

/// Adds the words of bytes, where a block that repeats a word stands as that word behind a star.
pub(crate) fn tell_words(page: &mut Vec<u8>, bytes: &[u8]) {
    let mut rest = bytes;
    for _ in 0..bytes.len() / 4 {
        if let [a, b, c, d, ..] = rest {
            let repeats = repeats_a_word(rest);
            say(page, if repeats { " *" } else { " " });
            hex(page, u32::from_be_bytes([*a, *b, *c, *d]));
            rest = rest.get(if repeats { BLOCK } else { 4 }..).unwrap_or(&[]);
        }
    }
}

/// Whether the block at the front of bytes repeats its first word.
fn repeats_a_word(bytes: &[u8]) -> bool {
    match bytes.get(..BLOCK) {
        Some(block) => block.get(4..) == block.get(..BLOCK - 4),
        None => false,
    }
}

/// What stands before the first such mark, and behind it.
pub(crate) fn cut(text: &str, mark: char) -> (&str, &str) {
    text.split_once(mark).unwrap_or((text, ""))
}

/// The number that a word writes; 0 where it writes none.
pub(crate) fn number_of(word: &str) -> u32 {
    u32::from_str_radix(word, 10).unwrap_or(0)
}

/// The number that a word writes in hexadecimal; 0 where it writes none.
pub(crate) fn hex_of(word: &str) -> u32 {
    u32::from_str_radix(word, 16).unwrap_or(0)
}

/// The bytes of these words, the highest byte of each first.
pub(crate) fn bytes_of(alloc: Global, words: &str) -> Vec<u8> {
    let mut bytes = Vec::new(alloc);
    let mut rest = words;
    for _ in 0..words.len() {
        if !rest.is_empty() {
            let (word, behind) = cut(rest, ' ');
            if !word.is_empty() {
                push_word(&mut bytes, word);
            }
            rest = behind;
        }
    }
    bytes
}

/// Adds the bytes of a word.
fn push_word(bytes: &mut Vec<u8>, word: &str) {
    let (_, byte) = cut(word, '+');
    let (times, repeated) = cut(word, '*');
    if !byte.is_empty() {
        bytes
            .extend_from_slice(&hex_of(byte).to_be_bytes()[3..])
            .ok();
    } else if repeated.is_empty() {
        push_numbers(bytes, &[hex_of(word)]);
    } else {
        for _ in 0..number_of(times) {
            push_numbers(bytes, &[hex_of(repeated)]);
        }
    }
}

/// Adds the bytes of numbers, the highest byte of each first.
pub(crate) fn push_numbers(bytes: &mut Vec<u8>, numbers: &[u32]) {
    for number in numbers {
        bytes.extend_from_slice(&number.to_be_bytes()).ok();
    }
}

/// A copy of bytes.
pub(crate) fn copy_of(alloc: Global, bytes: &[u8]) -> Vec<u8> {
    let mut copy = Vec::new(alloc);
    copy.extend_from_slice(bytes).ok();
    copy
}

/// Writes bytes over others, and past their end.
pub(crate) fn write_over(into: &mut Vec<u8>, place: usize, bytes: &[u8]) {
    let end = place.saturating_add(bytes.len());
    if into.len() < end {
        into.resize(end, 0).ok();
    }
    if place <= end && end <= into.len() && end - place == bytes.len() {
        into[place..end].copy_from_slice(bytes);
    }
}
