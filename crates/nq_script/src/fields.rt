//! Words and numbers of a line.

ghost use Rattle.std.specs.Prelude.{◌≡◌};
ghost use Rattle.std.specs.Option.{option_map};
ghost use Rattle.nq_script.specs.Reading.{after, number_then, ranged_of};

use crate::words::{cut, number, number32};

/// What follows the prefix; None where the bytes do not begin with it.
pub(crate) fn rest_after<'a>(bytes: &'a [u8], prefix: &[u8]) -> Option<&'a [u8]>
    ensures { option_map (λ r. r.now) result ≡ after prefix.now bytes.now }
{
    bytes.strip_prefix(prefix)
}

/// The number below 2^32 that is written before the first blank, and what follows the blank.
#[tactic(auto, unfolding(crate::specs::Reading::number_then))]
pub(crate) fn number_then(text: &[u8]) -> Option<(u32, &[u8])>
    ensures { option_map (λ p. (p.0, p.1.now)) result ≡ number_then text.now }
{
    let (word, rest) = cut(text, b' ')?;
    let value = number32(word)?;
    Some((value, rest))
}

/// The number from `least` to `most` that is written behind the prefix.
#[tactic(auto, unfolding(crate::specs::Reading::ranged_of))]
pub(crate) fn ranged(line: &[u8], prefix: &[u8], least: u32, most: u32) -> Option<u32>
    ensures { result ≡ ranged_of prefix.now least most line.now }
{
    let word = rest_after(line, prefix)?;
    let value = number(word, u64::from(most))? as u32;
    if value < least { None } else { Some(value) }
}
