//! What was seen.

use crate::chart::Sign;
use crate::spans::{Change, Span};
use nq_base::{Party, Ticks};

/// A run as it was seen. Events and entries are meant by their places, packets by their numbers; all are counted from 0.
#[derive(Drop)]
pub struct Record {
    /// How many hosts there are.
    pub hosts: u32,
    /// The events, in their order.
    pub moments: Vec<Moment>,
    /// The packets, in the order in which they were sent.
    pub packets: Vec<Sent>,
    /// The entries of the journal, in words.
    pub entries: Vec<Noted>,
    /// The leases, the rows of the server and its recoveries.
    pub spans: Vec<Span>,
    /// Which of these began or ended, in the order of the events.
    pub changes: Vec<Change>,
}

/// An event.
#[derive(Clone, Copy)]
pub struct Moment {
    /// Who acts.
    pub party: Party,
    /// What happens.
    pub act: Act,
    /// What the clock of that party shows then, in ticks.
    pub clock: Ticks,
    /// The number of the first packet that is sent.
    pub packets: u64,
    /// How many packets are sent.
    pub sent: u64,
    /// The place of the first entry that is made.
    pub entries: usize,
    /// How many entries are made.
    pub made: usize,
    /// The place of the first change.
    pub changes: usize,
    /// How many changes there are.
    pub changed: usize,
    /// How many rows the server then has.
    pub rows: usize,
    /// How many leases the hosts then hold.
    pub leases: usize,
    /// How many blocks with delayed writes the hosts then have.
    pub dirty: usize,
    /// How many of these the host has that acts, where that is another number than before.
    pub delays: Option<usize>,
}

/// What happens in an event.
#[derive(Clone, Copy)]
pub enum Act {
    /// A user calls.
    Call,
    /// This packet arrives.
    Arrival(u64),
    /// A clock ticks.
    Tick,
    /// A host starts again.
    Restart,
    /// The server stops and boots.
    Crash,
}

/// A packet.
#[derive(Drop)]
pub struct Sent {
    /// Who sends it.
    pub from: Party,
    /// For whom it is.
    pub to: Party,
    /// The place of the event that sends it.
    pub sent: usize,
    /// The places of the events in which it arrives.
    pub arrivals: Vec<usize>,
    /// What it says.
    pub words: String,
}

/// An entry of the journal.
#[derive(Drop)]
pub struct Noted {
    /// Of what it tells.
    pub sign: Sign,
    /// What it says.
    pub words: String,
}
