//! The lines of events.

ghost use Rattle.std.specs.Prelude.{◌≡◌, ◌↔◌, ℕ, IfOk, IfSome, IsNone, IsTrue};
ghost use Rattle.nq_script.specs.Kept.{kept_line};
ghost use Rattle.nq_script.specs.Lines.{line_of};
ghost use Rattle.nq_script.specs.Reading.{told_line, call_line, deliver_line, clock_line, tick_line, server_ticks, client_ticks, round_line, restart_line};
ghost use Rattle.nq_script.specs.Reading.{crash_line, word_line, times_of};
ghost use Rattle.nq_script.specs.declared.lines.Line.{Line};

use crate::calls::call_of;
use crate::fields::{number_then, ranged, rest_after};
use crate::heads::Head;
use crate::words::{number, number32, read_told};
use nq_base::{Event, Host, KeptCall, NoMemory, Told};
use std::alloc::Global;

/// A line after the head.
#[derive(Drop)]
pub enum Line {
    /// An event, so many times over.
    Events { event: Event, times: u32 },
    /// So many rounds: the clock of each host ticks, then the server's.
    Round(u32),
    /// The least packet that was never delivered is delivered, again and again, until each packet was.
    Flow,
    /// The last line.
    End,
}

/// A line as it is read: a body is told by its value.
#[derive(Clone, Copy)]
pub(crate) enum ToldLine {
    Call { host: Host, told: Told },
    Deliver(u64),
    ServerTicks(u32),
    ClientTicks { host: Host, times: u32 },
    Restart(Host),
    Crash { longest: u32 },
    Round(u32),
    Flow,
    End,
}

/// A line as it is kept: in few bytes, since a schedule has many.
#[derive(Drop)]
pub(crate) enum KeptLine {
    Call { host: Host, call: KeptCall },
    Deliver(u64),
    ServerTicks(u32),
    ClientTicks { host: Host, times: u32 },
    Restart(Host),
    Crash { longest: u32 },
    Round(u32),
    Flow,
    End,
}

impl ToldLine {
    /// Whether this is the last line.
    pub(crate) fn is_end(&self) -> bool
        ensures { IsTrue result ↔ (self.now ≡ ToldLine.End) }
    {
        match self {
            ToldLine::End => true,
            _ => false,
        }
    }
}

impl KeptLine {
    /// The packet that this line delivers; None where it is another line.
    pub(crate) fn packet(&self) -> Option<u64>
        ensures some { IfSome result (λ packet. self.now ≡ KeptLine.Deliver packet) }
        ensures none { IsNone result → (packet : ℕ) → self.now ≡ KeptLine.Deliver packet → ⊥ }
    {
        match self {
            KeptLine::Deliver(packet) => Some(*packet),
            _ => None,
        }
    }
}

/// Keeps a line that was read.
pub(crate) fn keep_line(alloc: Global, line: ToldLine) -> Result<KeptLine, NoMemory>
    ensures { IfOk result (λ kept. kept_line kept ≡ line_of line) }
{
    Ok(match line {
        ToldLine::Call { host, told } => {
            let call = KeptCall::new(alloc, &told)?;
            KeptLine::Call { host, call }
        }
        ToldLine::Deliver(packet) => KeptLine::Deliver(packet),
        ToldLine::ServerTicks(times) => KeptLine::ServerTicks(times),
        ToldLine::ClientTicks { host, times } => KeptLine::ClientTicks { host, times },
        ToldLine::Restart(host) => KeptLine::Restart(host),
        ToldLine::Crash { longest } => KeptLine::Crash { longest },
        ToldLine::Round(times) => KeptLine::Round(times),
        ToldLine::Flow => KeptLine::Flow,
        ToldLine::End => KeptLine::End,
    })
}

/// The line that is kept, with its body.
pub(crate) fn kept_line(kept: &KeptLine) -> Line
    ensures { result ≡ kept_line kept.now }
{
    match kept {
        KeptLine::Call { host, call } => {
            let call = call_of(&call.told());
            once(Event::Call { host: *host, call })
        }
        KeptLine::Deliver(packet) => once(Event::Deliver(*packet)),
        KeptLine::ServerTicks(times) => Line::Events {
            event: Event::ServerTick,
            times: *times,
        },
        KeptLine::ClientTicks { host, times } => Line::Events {
            event: Event::ClientTick(*host),
            times: *times,
        },
        KeptLine::Restart(host) => once(Event::Restart(*host)),
        KeptLine::Crash { longest } => once(Event::Crash { longest: *longest }),
        KeptLine::Round(times) => Line::Round(*times),
        KeptLine::Flow => Line::Flow,
        KeptLine::End => Line::End,
    }
}

fn once(event: Event) -> Line
    ensures { result ≡ Line.Events event 1 }
{
    Line::Events { event, times: 1 }
}

/// The line that the text writes in a schedule with this head; None where it is outside the grammar.
#[tactic(auto, unfolding(crate::specs::Reading::told_line))]
pub(crate) fn read_line(line: &[u8], head: &Head) -> Option<ToldLine>
    ensures { result ≡ told_line head.now line.now }
{
    if let Some(rest) = rest_after(line, b"call ") {
        read_call(rest, head)
    } else if let Some(rest) = rest_after(line, b"deliver ") {
        read_deliver(rest)
    } else {
        read_clock(line, head)
    }
}

#[tactic(auto, unfolding(crate::specs::Reading::clock_line))]
fn read_clock(line: &[u8], head: &Head) -> Option<ToldLine>
    ensures { result ≡ clock_line head.now line.now }
{
    if let Some(rest) = rest_after(line, b"tick ") {
        read_tick(rest, head.hosts)
    } else if let Some(rest) = rest_after(line, b"round ") {
        read_round(rest)
    } else if let Some(rest) = rest_after(line, b"restart ") {
        read_restart(rest, head.hosts)
    } else if let Some(rest) = rest_after(line, b"crash ") {
        read_crash(rest, head)
    } else {
        read_word(line, head)
    }
}

#[tactic(auto, unfolding(crate::specs::Reading::call_line))]
fn read_call(text: &[u8], head: &Head) -> Option<ToldLine>
    ensures { result ≡ call_line head.now text.now }
{
    let (host, words) = number_then(text)?;
    let told = read_told(words, head.version)?;
    if host < head.hosts {
        Some(ToldLine::Call {
            host: Host(host),
            told,
        })
    } else {
        None
    }
}

#[tactic(auto, unfolding(crate::specs::Reading::deliver_line))]
fn read_deliver(text: &[u8]) -> Option<ToldLine>
    ensures { result ≡ deliver_line text.now }
{
    let packet = number(text, u64::MAX)?;
    Some(ToldLine::Deliver(packet))
}

/// How often a word says that something happens, 1 to 1000 times.
#[tactic(auto, unfolding(crate::specs::Reading::times_of))]
fn read_times(text: &[u8]) -> Option<u32>
    ensures { result ≡ times_of text.now }
{
    ranged(text, b"", 1, 1000)
}

#[tactic(auto, unfolding(crate::specs::Reading::tick_line))]
fn read_tick(text: &[u8], hosts: u32) -> Option<ToldLine>
    ensures { result ≡ tick_line hosts text.now }
{
    if let Some(rest) = rest_after(text, b"s ") {
        read_server_ticks(rest)
    } else {
        read_client_ticks(text, hosts)
    }
}

#[tactic(auto, unfolding(crate::specs::Reading::server_ticks))]
fn read_server_ticks(text: &[u8]) -> Option<ToldLine>
    ensures { result ≡ server_ticks text.now }
{
    let times = read_times(text)?;
    Some(ToldLine::ServerTicks(times))
}

#[tactic(auto, unfolding(crate::specs::Reading::client_ticks))]
fn read_client_ticks(text: &[u8], hosts: u32) -> Option<ToldLine>
    ensures { result ≡ client_ticks hosts text.now }
{
    let (host, word) = number_then(text)?;
    let times = read_times(word)?;
    if host < hosts {
        Some(ToldLine::ClientTicks {
            host: Host(host),
            times,
        })
    } else {
        None
    }
}

#[tactic(auto, unfolding(crate::specs::Reading::round_line))]
fn read_round(text: &[u8]) -> Option<ToldLine>
    ensures { result ≡ round_line text.now }
{
    let times = read_times(text)?;
    Some(ToldLine::Round(times))
}

#[tactic(auto, unfolding(crate::specs::Reading::restart_line))]
fn read_restart(text: &[u8], hosts: u32) -> Option<ToldLine>
    ensures { result ≡ restart_line hosts text.now }
{
    let host = number32(text)?;
    if host < hosts {
        Some(ToldLine::Restart(Host(host)))
    } else {
        None
    }
}

/// A crash with the longest term that version 2 tells.
#[tactic(auto, unfolding(crate::specs::Reading::crash_line))]
fn read_crash(text: &[u8], head: &Head) -> Option<ToldLine>
    ensures { result ≡ crash_line head.now text.now }
{
    let longest = number32(text)?;
    if head.version == 2 && 5 <= longest && longest <= head.longest {
        Some(ToldLine::Crash { longest })
    } else {
        None
    }
}

#[tactic(auto, unfolding(crate::specs::Reading::word_line))]
fn read_word(line: &[u8], head: &Head) -> Option<ToldLine>
    ensures { result ≡ word_line head.now line.now }
{
    if line == b"flow".as_slice() {
        Some(ToldLine::Flow)
    } else if line == b"end".as_slice() {
        Some(ToldLine::End)
    } else if line == b"crash".as_slice() && head.version == 1 && 60 <= head.longest {
        Some(ToldLine::Crash { longest: 60 })
    } else {
        None
    }
}
