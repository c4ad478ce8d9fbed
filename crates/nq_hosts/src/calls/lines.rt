//! Lines of a text.

ghost use Rattle.std.specs.Prelude.{◌≡◌, ◌<◌, ◌^◌, true, false, length};
ghost use Rattle.std.specs.Option.{option_map};
ghost use Rattle.nq_base.specs.declared.Call.{Call};
ghost use Rattle.nq_hosts.specs.Lines.{StepsOver, Tells};
ghost use Rattle.nq_script.specs.Calls.{SpellsCall};
ghost use Rattle.nq_script.specs.WordsReading.{cut};

use nq_script::parse_call;
use nq_script::words::cut;
use std::alloc::Global;

/// The bytes before the first line feed, and those after it; None where there is none.
pub fn cut_line(text: &[u8]) -> Option<(&[u8], &[u8])>
    ensures { option_map (λ p. (p.0.now, p.1.now)) result ≡ cut 10 text.now }
{
    cut(text, b'\n')
}

/// The number, from 1, of the first line of a text that spells no call of version 1; None where each does. What follows the last
/// line feed, if anything does, is no line. The text is shorter than 2^31 bytes. Takes no memory.
pub fn find_fault(alloc: Global, text: &[u8]) -> Option<u32>
    requires { length text.now < 2 ^ 31 }
    ensures { Tells result text.now }
{
    let mut rest = text;
    let mut number = 1;
    while !rest.is_empty() {
        match after_call(alloc, rest) {
            Some(after) => rest = after,
            None => return Some(number),
        }
        number += 1;
    }
    None
}

/// What follows the first line of a text; None where that line spells no call, or is not there.
fn after_call(alloc: Global, text: &[u8]) -> Option<&[u8]>
    ensures { StepsOver text.now (option_map (λ after. after.now) result) }
{
    let Some((line, after)) = cut_line(text) else {
        return None;
    };
    if is_call(alloc, line) {
        Some(after)
    } else {
        None
    }
}

/// Whether a line spells a call.
fn is_call(alloc: Global, line: &[u8]) -> bool
    ensures yes { result ≡ true → (call : Call) × SpellsCall 1 call line.now }
    ensures no { result ≡ false → (call : Call) → SpellsCall 1 call line.now → ⊥ }
{
    parse_call(alloc, line, 1).is_ok()
}
