//! The events of a schedule, one after another.

ghost use Rattle.std.specs.List.{AllByRecursion};
ghost use Rattle.std.specs.Prelude.{◌≡◌, IfSome};
ghost use Rattle.nq_observe.specs.Told.{TellsEvent};
ghost use Rattle.nq_replay.specs.Texts.{IsTellable};
ghost use Rattle.nq_script.specs.declared.heads.Head.{Head};

use nq_base::{Event, Host};
use nq_script::{Line, Lines};

/// A place in a schedule.
#[derive(Drop)]
pub struct Cursor {
    /// The place of the line.
    line: usize,
    /// Behind so many of its events.
    events: u64,
    /// Whether a flow ended just before the event that came last.
    pub is_behind_flow: bool,
}

impl Cursor {
    /// Before the first event.
    pub fn new() -> Cursor {
        Cursor {
            line: 0,
            events: 0,
            is_behind_flow: false,
        }
    }

    /// The next event among so many hosts, where this is the least packet that was never delivered.
    pub fn next(&mut self, lines: &Lines, hosts: u32, least: Option<usize>) -> Option<Event>
        ensures { (head : Head) → head.hosts ≡ hosts → AllByRecursion (TellsEvent head) lines.now → IfSome result (IsTellable head) }
    {
        self.is_behind_flow = false;
        for place in self.line..lines.len() {
            if let Some(event) = event_at(lines, place, self.events, hosts, least) {
                self.events = self.events.saturating_add(1);
                return Some(event);
            }
            self.is_behind_flow = self.is_behind_flow || is_flow(lines, place);
            self.line = place + 1;
            self.events = 0;
        }
        None
    }
}

/// Whether the line at a place is a flow.
fn is_flow(lines: &Lines, place: usize) -> bool {
    matches!(lines.get(place), Some(Line::Flow))
}

/// The event of the line at a place behind so many of its events.
#[tactic(auto, using(crate::proofs::Telling::each_at))]
fn event_at(
    lines: &Lines,
    place: usize,
    events: u64,
    hosts: u32,
    least: Option<usize>,
) -> Option<Event>
    ensures { (head : Head) → head.hosts ≡ hosts → AllByRecursion (TellsEvent head) lines.now → IfSome result (IsTellable head) }
{
    match lines.get(place) {
        Some(line) => event_of(line, events, hosts, least),
        None => None,
    }
}

/// The event of a line behind so many of its events. A flow goes on until each packet was delivered.
fn event_of(line: Line, events: u64, hosts: u32, least: Option<usize>) -> Option<Event>
    ensures { (head : Head) → head.hosts ≡ hosts → TellsEvent head line → IfSome result (IsTellable head) }
{
    match line {
        Line::Events { event, times } => {
            if events < times as u64 {
                Some(event)
            } else {
                None
            }
        }
        Line::Round(times) => tick_of(events, hosts, times),
        Line::Flow => match least {
            Some(packet) => Some(Event::Deliver(packet as u64)),
            None => None,
        },
        Line::End => None,
    }
}

/// The tick behind so many ticks of so many rounds: in a round the clock of each host ticks, then the server's.
fn tick_of(ticks: u64, hosts: u32, rounds: u32) -> Option<Event>
    ensures { (head : Head) → head.hosts ≡ hosts → IfSome result (IsTellable head) }
{
    let clocks = hosts as u64 + 1;
    if ticks / clocks >= rounds as u64 {
        return None;
    }
    let clock = ticks % clocks;
    if clock < hosts as u64 {
        Some(Event::ClientTick(Host(clock as u32)))
    } else {
        Some(Event::ServerTick)
    }
}
