//! What a loop keeps beside its world.

ghost use Rattle.std.specs.Prelude.{◌≡◌, ◌<◌, ◌≤◌, ◌+◌, ◌∷◌, [], ℕ, List, length, min, slice_index, slice_index_or, slice_set, true, IfOk, OnOk};
ghost use Rattle.nq_base.specs.declared.Event.{Event};
ghost use Rattle.nq_loop.specs.Counting.{Counts, HasCount};
ghost use Rattle.nq_replay.specs.Delivering.{Marks, was_delivered};
ghost use Rattle.nq_replay.specs.Going.{HasFlag};

use nq_base::{Event, Host, NoMemory};
use nq_script::Schedule;
use nq_world::World;
use std::alloc::Global;
use std::marker::Model;

/// How many calls each host makes.
pub(crate) const CALLS: u8 = 3;

/// What a loop keeps beside its world: which packets were delivered, and how many of its three calls each host began. Contracts see both.
#[derive(Drop)]
pub struct LoopState {
    flags: Vec<bool>,
    begun: Vec<u8>,
}

/// A world, what a loop keeps beside it, and the events that it took in, the oldest first. It ends with its world.
pub struct LoopWorld<K> {
    /// The world.
    pub world: World<K>,
    /// What the loop keeps beside it.
    pub state: LoopState,
    /// The events that were taken in.
    pub ran: Schedule,
}

impl Model for LoopState {
    ghost use Rattle.std.specs.Prelude.{◌<◌, ◌^◌, length};
    ghost use Rattle.nq_loop.specs.Counting.{LoopCounts};

    ghost Value = { LoopCounts };

    ghost view = { λ s. record { flags = s.flags.items; begun = s.begun.items } };

    ghost invariant = { λ s. length s.begun.items < 2 ^ 32 };
}

impl LoopState {
    /// Before the first turn of a loop among so many hosts: no packet was delivered, and no call began.
    ///
    /// # Errors
    ///
    /// Only want of memory.
    pub fn new(alloc: Global, hosts: u32) -> Result<LoopState, NoMemory>
        ensures marks { IfOk result (λ state. Marks state.flags []) }
        ensures counts { IfOk result (λ state. Counts state.begun []) }
        ensures hosts { IfOk result (λ state. length state.begun ≡ hosts) }
    {
        let mut begun = Vec::new(alloc);
        begun.resize(hosts as usize, 0)?;
        Ok(LoopState {
            flags: Vec::new(alloc),
            begun,
        })
    }

    /// How many hosts there are.
    pub fn hosts(&self) -> u32
        ensures { result ≡ length self.now.begun }
    {
        self.begun.len() as u32
    }

    /// How many of its three calls a host that is there began.
    pub fn begun(&self, host: Host) -> u8
        requires { host < length self.now.begun }
        ensures { result ≡ slice_index_or self.now.begun host 0 }
    {
        self.begun[host.0 as usize]
    }

    /// Whether a packet was ever delivered.
    pub fn has(&self, packet: usize) -> bool
        ensures { (events : List Event) → Marks self.now.flags events → result ≡ was_delivered packet events }
    {
        packet < self.flags.len() && self.flags[packet]
    }

    /// Makes flags for so many packets.
    pub(crate) fn reach(&mut self, packets: usize) -> Result<(), NoMemory>
        ensures same { (events : List Event) → Marks self.old.flags events → Marks self.new.flags events }
        ensures begun { self.new.begun ≡ self.old.begun }
        ensures reached { OnOk result (packets ≤ length self.new.flags) }
    {
        if self.flags.len() < packets {
            self.flags.resize(packets, false)?;
        }
        Ok(())
    }

    /// Notes an event that was taken in. A packet that is delivered has a flag.
    pub(crate) fn note(&mut self, event: &Event)
        requires { HasCount (length self.old.begun) event.now }
        ensures marks { HasFlag (length self.old.flags) event.now → (events : List Event) → Marks self.old.flags events
            → Marks self.new.flags (event.now ∷ events) }
        ensures counts { (events : List Event) → Counts self.old.begun events → Counts self.new.begun (event.now ∷ events) }
        ensures hosts { length self.new.begun ≡ length self.old.begun }
    {
        mark(&mut self.flags, event);
        count(&mut self.begun, event);
    }
}

/// Notes the packet that is delivered, if it has a flag.
fn mark(flags: &mut Vec<bool>, event: &Event)
    ensures { HasFlag (length flags.old.items) event.now → (events : List Event) → Marks flags.old.items events → Marks flags.new.items (event.now ∷ events) }
{
    match event {
        Event::Deliver(packet) => mark_one(flags, *packet as usize),
        Event::Call { .. } => {}
        Event::ServerTick => {}
        Event::ClientTick(_) => {}
        Event::Restart(_) => {}
        Event::Crash { .. } => {}
    }
}

/// Notes that a packet was delivered, if it has a flag.
fn mark_one(flags: &mut Vec<bool>, packet: usize)
    ensures { packet < length flags.old.items → flags.new.items ≡ slice_set flags.old.items packet true }
{
    if packet < flags.len() {
        flags[packet] = true;
    }
}

/// Counts a call that begins.
fn count(begun: &mut Vec<u8>, event: &Event)
    requires { HasCount (length begun.old.items) event.now }
    ensures counts { (events : List Event) → Counts begun.old.items events → Counts begun.new.items (event.now ∷ events) }
    ensures hosts { length begun.new.items ≡ length begun.old.items }
{
    match event {
        Event::Call { host, .. } => count_one(begun, host.0 as usize),
        Event::Deliver(_) => {}
        Event::ServerTick => {}
        Event::ClientTick(_) => {}
        Event::Restart(_) => {}
        Event::Crash { .. } => {}
    }
}

/// One call more of a host, up to all its calls.
fn count_one(begun: &mut Vec<u8>, host: usize)
    requires { host < length begun.old.items }
    ensures { begun.new.items ≡ slice_set begun.old.items host (min (slice_index begun.old.items host + 1) 3) }
{
    let calls = begun[host];
    begun[host] = if calls < CALLS { calls + 1 } else { CALLS };
}
