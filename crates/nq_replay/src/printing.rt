//! The lines that tell faults.

ghost use Rattle.std.specs.Prelude.{◌≡◌, ◌<◌, IfOk, length, string_bytes, Ok};
ghost use Rattle.nq_replay.specs.Ending.{CountsSink, TellsOver};
ghost use Rattle.nq_replay.specs.Lines.{script_line, skew_line, limit_line, last_line};

use nq_base::ending::Ending;
use nq_base::{NoMemory, SkewBroken};
use nq_io::{Sink, put_line};
use std::alloc::{AllocError, Global};

/// What there is too much of.
#[derive(Clone, Copy, Debug, PartialEq, Eq)]
pub enum Bound {
    /// The input has more than 16,777,216 bytes.
    Bytes,
    /// There are more than 100,000 events.
    Events,
    /// More than 999,936 packets were sent before an event.
    Packets,
}

/// The line that tells the number of a faulty line.
///
/// # Errors
///
/// Only want of memory.
#[tactic(auto, unfolding(crate::specs::Lines::script_line))]
pub fn script_text(alloc: Global, number: usize) -> Result<String, NoMemory>
    ensures { IfOk result (λ line. string_bytes line ≡ script_line number) }
{
    match format!(in alloc; "script line {number}\n") {
        Ok(line) => Ok(line),
        Err(_) => Err(NoMemory::Memory),
    }
}

/// The line that tells which tick breaks the rule on skew.
#[tactic(auto, unfolding(crate::specs::Lines::skew_line))]
pub(crate) fn skew_text(alloc: Global, number: u32, broken: SkewBroken) -> Result<String, NoMemory>
    ensures { IfOk result (λ line. string_bytes line ≡ skew_line number broken) }
{
    let host = broken.host.0;
    let server = broken.server;
    let client = broken.client;
    match format!(in alloc; "skew line {number} host {host} server {server} client {client}\n") {
        Ok(line) => Ok(line),
        Err(_) => Err(NoMemory::Memory),
    }
}

/// The line that tells where there is too much of something.
#[tactic(auto, unfolding(crate::specs::Lines::limit_line))]
pub(crate) fn limit_text(alloc: Global, number: usize, bound: Bound) -> Result<String, NoMemory>
    ensures { IfOk result (λ line. string_bytes line ≡ limit_line number bound) }
{
    match bound {
        Bound::Bytes => line_text(format!(in alloc; "limit line {number} bytes\n")),
        Bound::Events => line_text(format!(in alloc; "limit line {number} events\n")),
        Bound::Packets => line_text(format!(in alloc; "limit line {number} packets\n")),
    }
}

/// Tells in which line the input passes the limit on bytes. The front has one byte more than the limit.
pub fn tell_over<K: Sink>(alloc: Global, front: &[u8], out: &mut K) -> Ending
    requires { 0 < length front.now }
    ensures tells { TellsOver result front.now (K.held out.old) (K.held out.new) (K.faults out.old) (K.faults out.new) }
    ensures sink { CountsSink result (K.faults out.old) (K.faults out.new) }
{
    match limit_text(alloc, line_of_last(front), Bound::Bytes) {
        Ok(line) => {
            put_line(out, line.as_bytes());
            Ending::Limit
        }
        Err(_) => Ending::Memory,
    }
}

/// A line that was made.
fn line_text(line: Result<String, AllocError>) -> Result<String, NoMemory>
    ensures { IfOk result (λ same. line ≡ Ok same) }
{
    match line {
        Ok(line) => Ok(line),
        Err(_) => Err(NoMemory::Memory),
    }
}

/// The number of the line in which the last of these bytes stands.
#[tactic(auto, unfolding(crate::specs::Lines::last_line))]
fn line_of_last(bytes: &[u8]) -> usize
    requires { 0 < length bytes.now }
    ensures { result ≡ last_line bytes.now }
{
    let before = &bytes[..bytes.len() - 1];
    before.iter().filter(|byte| **byte == b'\n').count() + 1
}
