//! The number of a host's start, its incarnation. A file tells the last one: a number, and the end of a line. The next one is above it, and it is
//! not below the seconds since 2020, so it rises even where the file is gone.

ghost use Rattle.std.specs.Prelude.{◌≡◌, ◌-◌, ◌<◌, ◌≤◌, ℕ, Some, IfOk, IfSome};
ghost use Rattle.nq_command.specs.Starts.{first_day, last_start, next_start, risen, start_line};

use nq_base::NoMemory;
use nq_script::words::{cut, number, push_digits};
use std::alloc::Global;

/// The seconds from the start of 1970 to that of 2020 (UTC).
const FIRST_DAY: u64 = 1_577_836_800;

/// One less than the last start that a server attaches.
const LAST_BUT_ONE: u64 = 0x7fff_fffe;

/// A start that is at least this one, and not below the seconds since 2020, at so many seconds since 1970. From January 2088 on the seconds
/// count for nothing.
#[tactic(auto, unfolding(crate::specs::Starts::risen))]
pub fn risen(start: u32, seconds: u64) -> u32
    ensures is { result ≡ risen start seconds }
    ensures least { start ≤ result }
    ensures attaches { start < 2147483648 → result < 2147483648 }
    ensures late { seconds - first_day < 2147483648 → seconds - first_day ≤ result }
{
    let seconds = seconds.saturating_sub(FIRST_DAY);
    if u64::from(start) < seconds && seconds <= LAST_BUT_ONE + 1 {
        seconds as u32
    } else {
        start
    }
}

/// The start behind the one that a text tells, at so many seconds since 1970; None where the text tells none, or that was the last one.
pub fn next_start(text: &[u8], seconds: u64) -> Option<u32>
    ensures is { result ≡ next_start text.now seconds }
    ensures rises { (last : ℕ) → last_start text.now ≡ Some last → IfSome result (λ start. last < start) }
{
    let (digits, rest) = cut(text, b'\n')?;
    if !rest.is_empty() {
        return None;
    }
    let last = number(digits, LAST_BUT_ONE)?;
    Some(risen(1 + last as u32, seconds))
}

/// The text that tells a start.
///
/// # Errors
///
/// Only want of memory.
pub fn start_text(alloc: Global, start: u32) -> Result<Vec<u8>, NoMemory>
    ensures { IfOk result (λ text. text.items ≡ start_line start) }
{
    let mut text = Vec::new(alloc);
    push_digits(&mut text, u64::from(start))?;
    text.push(b'\n')?;
    Ok(text)
}
