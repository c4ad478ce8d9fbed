//! What is changed in a run, and what comes of it.

use nq_base::{Host, NoMemory};
use nq_observe::Unseen;
use nq_script::Schedule;

/// A change. Packets are meant by their numbers in the old run, events by their places in it, counted from 0; the place behind the
/// last event is their number.
#[derive(Drop)]
pub enum Bend {
    /// This packet never arrives.
    Lose(u64),
    /// This packet arrives once more behind its first arrival.
    Twice(u64),
    /// This packet arrives before this event, and not where it first arrived.
    Later { packet: u64, event: usize },
    /// What this line of a schedule tells happens before this event.
    Put { at: usize, line: Vec<u8> },
    /// From this event on no packet from or to this host arrives.
    Cut { host: Host, at: usize },
    /// From this event on packets from and to this host arrive again.
    Join { host: Host, at: usize },
}

/// What happens behind the last event.
#[derive(Clone, Copy, PartialEq, Eq)]
pub enum Then {
    /// All that is under way arrives, until nothing is. Before each tick of the old run what is late arrives, too: packets that had arrived
    /// there by then, and packets that it did not send, unless it lost the last one of that kind on that link.
    GoOn,
    /// Nothing.
    Stop,
}

/// Why an event of the old run is left out.
#[derive(Clone, Copy, PartialEq, Eq)]
pub enum Why {
    /// The packet is lost.
    Lost,
    /// The packet arrives at another moment.
    Later,
    /// The host that sent the packet, or for which it is, is cut off.
    CutOff,
    /// No packet of the new run is this one.
    NoMatch,
}

/// An event of the old run that is left out: the delivery of a packet.
#[derive(Clone, Copy)]
pub struct LeftOut {
    /// Its place in the old run.
    pub event: usize,
    /// The packet.
    pub packet: u64,
    /// Why it is left out.
    pub why: Why,
}

/// A run that was bent.
#[derive(Drop)]
pub struct Bent {
    /// The text of its schedule.
    pub text: Vec<u8>,
    /// The events of the old run.
    pub old: Schedule,
    /// Its events. A last one that breaks the rule on skew, or passes a limit, stands there too.
    pub ran: Schedule,
    /// For each of them its place in the old run; None for one that was not there.
    pub origins: Vec<Option<usize>>,
    /// Of each packet of the new run the one of the old that it is.
    pub matches: Vec<Option<u64>>,
    /// What of the old run is left out.
    pub left: Vec<LeftOut>,
    /// Whether the last event breaks the rule on skew, or passes a limit, so that what stands behind it in the old run did not happen.
    pub is_over: bool,
}

/// Why nothing is bent.
#[derive(Clone, Copy, PartialEq, Eq)]
pub enum BendFault {
    /// The change at this place of the list says nothing that can be done: there is no such packet, event or host, or the line is
    /// none of a call, tick, restart or crash.
    Bad(usize),
    /// Memory was wanting.
    Memory,
    /// No time was left.
    Time,
}

impl From<NoMemory> for BendFault {
    fn from(_: NoMemory) -> BendFault {
        BendFault::Memory
    }
}

impl From<Unseen> for BendFault {
    fn from(unseen: Unseen) -> BendFault {
        match unseen {
            Unseen::Memory => BendFault::Memory,
            Unseen::Time => BendFault::Time,
        }
    }
}
