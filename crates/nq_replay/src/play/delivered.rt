//! Which packets were delivered.

ghost use Rattle.std.specs.Prelude.{◌≡◌, ◌≤◌, ◌<◌, ℕ, List, [], ◌∷◌, length, IfSome, OnOk, Some, true, false, slice_index_or};
ghost use Rattle.nq_base.specs.declared.Event.{Event};
ghost use Rattle.nq_replay.specs.Delivering.{Marks, least_undelivered};
ghost use Rattle.nq_replay.specs.Going.{HasFlag};
ghost use Rattle.nq_replay.specs.Rules.{packet_of};

use nq_base::{Event, NoMemory};
use std::alloc::Global;
use std::marker::Model;

/// Which packets of a run were ever delivered. Contracts see a flag for each packet.
#[derive(Drop)]
pub struct Delivered {
    flags: Vec<bool>,
    // Each packet below this one was delivered.
    least: usize,
}

impl Model for Delivered {
    ghost use Rattle.std.specs.Prelude.{Bool, List};
    ghost use Rattle.nq_replay.specs.Delivering.{AreFlagged};

    ghost Value = { List Bool };

    ghost view = { λ d. d.flags.items };

    ghost invariant = { λ d. AreFlagged d.flags.items d.least };
}

impl Delivered {
    /// No packet was delivered. It takes no memory.
    pub fn new(alloc: Global) -> Delivered
        ensures { Marks result [] }
    {
        Delivered {
            flags: Vec::new(alloc),
            least: 0,
        }
    }

    /// Makes flags for so many packets, which stay as they are.
    ///
    /// # Errors
    ///
    /// Only want of memory.
    pub fn reach(&mut self, packets: usize) -> Result<(), NoMemory>
        ensures same { (events : List Event) → Marks self.old events → Marks self.new events }
        ensures reached { OnOk result (packets ≤ length self.new) }
    {
        if self.flags.len() < packets {
            self.flags.resize(packets, false)?;
        }
        Ok(())
    }

    /// Notes that a packet was delivered, if it has a flag.
    pub fn mark(&mut self, packet: usize)
        ensures { packet < length self.old → (events : List Event) → Marks self.old events → Marks self.new (Event.Deliver packet ∷ events) }
    {
        if packet < self.flags.len() {
            self.flags[packet] = true;
        }
    }

    /// The least of so many packets that was never delivered. All calls together look at each packet once.
    pub fn next(&mut self, sent: usize) -> Option<usize>
        ensures same { self.new ≡ self.old }
        ensures below { IfSome result (λ packet. packet < sent) }
        ensures next { (events : List Event) → Marks self.old events → result ≡ least_undelivered 0 sent events }
    {
        self.least = first_unflagged(&self.flags, self.least);
        if self.least < sent {
            Some(self.least)
        } else {
            None
        }
    }
}

/// The first packet from this one on that has no flag that is set.
fn first_unflagged(flags: &[bool], from: usize) -> usize
    ensures from { from ≤ result }
    ensures flagged { (packet : ℕ) → from ≤ packet → packet < result → slice_index_or flags.now packet false ≡ true }
    ensures unflagged { slice_index_or flags.now result false ≡ false }
{
    let mut packet = from;
    while packet < flags.len() && flags[packet] {
        packet += 1;
    }
    packet
}

/// The packet that an event of a schedule delivers, if it is a delivery.
pub fn packet_in(event: &Event) -> Option<u64>
    ensures { result ≡ packet_of (Some event.now) }
{
    match event {
        Event::Deliver(packet) => Some(*packet),
        Event::Call { .. } => None,
        Event::ServerTick => None,
        Event::ClientTick(_) => None,
        Event::Restart(_) => None,
        Event::Crash { .. } => None,
    }
}

/// Notes an event that was taken, if it is the delivery of a packet with a flag.
pub fn note(delivered: &mut Delivered, event: &Event)
    ensures { HasFlag (length delivered.old) event.now → (events : List Event) → Marks delivered.old events → Marks delivered.new (event.now ∷ events) }
{
    match event {
        Event::Deliver(packet) => delivered.mark(*packet as usize),
        Event::Call { .. } => {}
        Event::ServerTick => {}
        Event::ClientTick(_) => {}
        Event::Restart(_) => {}
        Event::Crash { .. } => {}
    }
}
