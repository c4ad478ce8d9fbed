//! A link in memory.

ghost use Rattle.std.specs.Prelude.{◌≡◌, [], ◌∷◌, ◌++◌, length, take, drop, min, Some, IfOk, OnOk, OnErr};
ghost use Rattle.nq_base.specs.declared.Party.{Party};
ghost use Rattle.nq_io.specs.Calls.{fresh};
ghost use Rattle.nq_io.specs.Faults.{count_up};
ghost use Rattle.nq_link.specs.Link.{Comes, CountsReceive, CountsSend, Sends};
ghost use Rattle.nq_link.specs.MemLink.{after_receive, after_send, answer_of, came_of, letters_sent};

use crate::net::Packets;
use crate::{Came, Link, NoMemory, Party, Sent};
use nq_io::Calls;
use std::alloc::Global;
use std::marker::Model;

/// A datagram that was brought.
#[derive(Drop)]
struct Letter {
    sender: Party,
    bytes: Vec<u8>,
}

impl Letter {
    /// Copies as many of its bytes as fit to the front of a buffer, and says how many.
    fn copy_to(&self, into: &mut [u8]) -> usize
        ensures count { result ≡ min (length self.now.bytes.items) (length into.old) }
        ensures copied { into.new ≡ take result self.now.bytes.items ++ drop result into.old }
    {
        let count = self.bytes.len().min(into.len());
        into[..count].copy_from_slice(&self.bytes[..count]);
        count
    }
}

/// A link in memory, which tells what was sent and what waits. It fails exactly the calls that it is told to fail and the
/// sends that do not fit in its room, and a call that fails does nothing else.
#[derive(Drop)]
pub struct MemLink {
    me: Party,
    sent: Packets,
    room: usize,
    room_bytes: usize,
    brought: Vec<Letter>,
    taken: usize,
    calls: Calls,
    receives: u64,
}

impl Model for MemLink {
    ghost use Rattle.std.specs.Prelude.{◌≤◌, drop, length, map};
    ghost use Rattle.nq_link.specs.MemLink.{StoredLink};

    ghost Value = { StoredLink };

    ghost view = { λ l. record {
      me = l.me;
      sent = l.sent.datagrams;
      room = l.room;
      room_bytes = l.room_bytes;
      waiting = map (λ letter. (letter.sender, letter.bytes.items)) (drop l.taken l.brought.items);
      calls = l.calls;
      receives = l.receives;
    } };

    ghost invariant = { λ l. (l.room ≤ l.sent.spare) × (l.room_bytes ≤ l.sent.spare_bytes) × (l.taken ≤ length l.brought.items) };
}

impl MemLink {
    /// A link of this party with room for so many datagrams and bytes to send, for which it takes the memory. Nothing
    /// waits. It fails the calls whose numbers are listed, counted from 0.
    pub fn new(
        alloc: Global,
        me: Party,
        packets: usize,
        bytes: usize,
        failing: Vec<u32>,
    ) -> Result<MemLink, NoMemory>
        ensures { IfOk result (λ l. l ≡ record {
          me = me;
          sent = [];
          room = packets;
          room_bytes = bytes;
          waiting = [];
          calls = fresh failing.items;
          receives = 0;
        }) }
    {
        let mut sent = Packets::new(alloc)?;
        sent.reserve(packets, bytes)?;
        Ok(MemLink {
            me,
            sent,
            room: packets,
            room_bytes: bytes,
            brought: Vec::new(alloc),
            taken: 0,
            calls: Calls::new(failing),
            receives: 0,
        })
    }

    /// Lets a datagram wait behind those that wait.
    pub fn bring(&mut self, alloc: Global, sender: Party, bytes: &[u8]) -> Result<(), NoMemory>
        ensures brought { OnOk result (self.new ≡ record self.old { waiting = self.old.waiting ++ (sender, bytes.now) ∷ [] }) }
        ensures refused { OnErr result (self.new ≡ self.old) }
    {
        let mut copy = Vec::with_capacity(alloc, bytes.len())?;
        copy.extend_from_slice(bytes)?;
        self.brought.push(Letter {
            sender,
            bytes: copy,
        })?;
        Ok(())
    }

    /// What was sent over it.
    pub fn sent(&self) -> &Packets
        ensures { result.now.datagrams ≡ self.now.sent }
    {
        &self.sent
    }
}

impl Link for MemLink {
    ghost sent = { λ link. Some (letters_sent link) };

    ghost waiting = { λ link. Some link.waiting };

    ghost faults = { λ link. link.calls.faults };

    ghost receives = { λ link. link.receives };

    fn send(&mut self, to: Party, bytes: &[u8]) -> Sent
        // As of any link.
        ensures sends { Sends result to bytes.now (Some (letters_sent self.old)) (Some (letters_sent self.new)) }
        ensures waiting { self.new.waiting ≡ self.old.waiting }
        ensures receives { self.new.receives ≡ self.old.receives }
        ensures cause { CountsSend result self.old.calls.faults self.new.calls.faults }

        // Of this one.
        ensures answer { result ≡ answer_of self.old bytes.now }
        ensures link { self.new ≡ after_send self.old to bytes.now result }
    {
        if self.calls.is_next_listed() || self.room < 1 || self.room_bytes < bytes.len() {
            self.calls.count_fault();
            return Sent::Failed;
        }
        self.calls.count_call();
        self.sent.push(self.me, to, bytes).unwrap();
        self.room -= 1;
        self.room_bytes -= bytes.len();
        Sent::All
    }

    fn receive(&mut self, into: &mut [u8]) -> Came
        // As of any link.
        ensures comes { Comes result (Some self.old.waiting) (Some self.new.waiting) into.old into.new }
        ensures sent { letters_sent self.new ≡ letters_sent self.old }
        ensures receives { self.new.receives ≡ count_up self.old.receives }
        ensures cause { CountsReceive result self.old.calls.faults self.new.calls.faults }

        // Of this one.
        ensures answer { result ≡ came_of self.old (length into.old) }
        ensures link { self.new ≡ after_receive self.old result }
    {
        self.receives = self.receives.saturating_add(1);
        if self.calls.is_next_listed() {
            self.calls.count_fault();
            return Came::Failed;
        }
        self.calls.count_call();
        match self.brought.get(self.taken) {
            None => Came::Nothing,
            Some(letter) => {
                let length = letter.copy_to(into);
                self.taken += 1;
                Came::Datagram {
                    length,
                    sender: letter.sender,
                }
            }
        }
    }
}
