//! What stands around an inner world, and how it goes out.

ghost use Rattle.std.specs.Prelude.{◌≡◌, ◌<◌, ◌≤◌, ◌+◌, ◌↔◌, [], List, Some, length, map, slice_get, IsTrue, IfOk, OnOk, OnErr};
ghost use Rattle.nq_base.specs.declared.Event.{Event};
ghost use Rattle.nq_model.specs.protocol.Client.{Client};
ghost use Rattle.nq_model.specs.protocol.World.{World};
ghost use Rattle.nq_name_server.specs.Around.{datagram, datagram_of, flushed_one, new_around, sent_one, shown};
ghost use Rattle.nq_name_server.specs.Outside.{found_by};
ghost use Rattle.nq_link.specs.Packets.{Datagram};

use crate::around::packets::{Travelling, inner_at, push};
use crate::server::NameServer;
use nq_base::{Host, Name, NoMemory, Party, Ticks};
use nq_directory::name_cache::{Found, NameCache};
use nq_link::net::Packets;
use nq_wire::Outbox;
use std::alloc::Global;
use std::marker::Model;

/// The leases on directories at the server of an inner world, the names that each host keeps, and the packets that travel. What an
/// event makes goes out before the next one, so that memory that is refused for it changes nothing.
#[derive(Drop)]
pub struct Around {
    pub(crate) alloc: Global,
    pub(crate) server: NameServer,
    /// The time of the server's clock.
    pub(crate) time: Ticks,
    pub(crate) sides: Vec<NameCache>,
    packets: Packets,
    /// Which packet of the inner world each packet is.
    inner: Vec<Option<u64>>,
    /// Who sends what is due.
    pub(crate) sender: Party,
    /// The datagrams that go out next.
    pub(crate) due: Outbox,
    /// How many of them have gone out.
    pub(crate) flushed: usize,
    /// How many packets of the inner world have gone out.
    gone: u64,
}

impl Model for Around {
    ghost use Rattle.std.specs.Prelude.{◌≡◌, ◌≤◌, drop, length};
    ghost use Rattle.nq_name_server.specs.Around.{AroundOver, travelling};

    ghost Value = { AroundOver };

    ghost view = { λ a. record {
      served = a.server;
      sides = a.sides.items;
      sent = travelling a.packets.datagrams a.inner.items;
      sender = a.sender;
      due = drop a.flushed a.due.datagrams;
      gone = a.gone;
    } };

    ghost invariant = { λ a. (length a.packets.datagrams ≡ length a.inner.items) × (a.flushed ≤ length a.due.datagrams) × (a.time ≡ a.server.time) };
}

impl Around {
    /// These names, and these leases at this time of the server's clock: nothing travels yet.
    ///
    /// # Errors
    ///
    /// Only want of memory.
    pub fn new(
        alloc: Global,
        server: NameServer,
        time: Ticks,
        sides: Vec<NameCache>,
    ) -> Result<Around, NoMemory>
        requires { server.time ≡ time }
        ensures { IfOk result (λ a. a ≡ new_around server sides.items) }
    {
        let packets = Packets::new(alloc)?;
        let due = Outbox::new(alloc, 0)?;
        Ok(Around {
            alloc,
            server,
            time,
            sides,
            packets,
            inner: Vec::new(alloc),
            sender: Party::Server,
            due,
            flushed: 0,
            gone: 0,
        })
    }

    /// How many packets have gone out.
    #[tactic(auto, using(crate::proofs::Together::length_travelling))]
    pub fn sent(&self) -> u64
        ensures { result ≡ length self.now.sent }
    {
        self.packets.len()
    }

    /// The packets that have gone out.
    #[tactic(auto, using(crate::proofs::Together::datagrams_travelling))]
    pub fn packets(&self) -> &Packets
        ensures { result.now.datagrams ≡ map datagram_of self.now.sent }
    {
        &self.packets
    }

    /// The packet of a number that travels.
    ///
    /// # Errors
    ///
    /// Only want of memory.
    #[tactic(auto, using(crate::proofs::Together::at_travelling))]
    pub fn read(&self, number: u64) -> Result<Travelling, NoMemory>
        requires { number < length self.now.sent }
        ensures { IfOk result (λ p. slice_get self.now.sent number ≡ Some p) }
    {
        let Some(inner) = inner_at(&self.inner, number) else {
            return Err(NoMemory::Memory);
        };
        let Some(packet) = self.packets.get(number) else {
            return Err(NoMemory::Memory);
        };
        let mut bytes = Vec::new(self.alloc);
        packet.bytes_into(&mut bytes)?;
        Ok(Travelling {
            sender: packet.sender(),
            to: packet.to(),
            bytes,
            inner: *inner,
        })
    }

    /// What a host knows of a name at this time of its clock. It takes no memory.
    pub fn find(&self, host: Host, name: &Name, now: Ticks) -> Found
        ensures { (c : Client) → c.now ≡ now → result ≡ found_by name.now (slice_get self.now.sides host) (Some c) }
    {
        match self.sides.get(host.0 as usize) {
            Some(side) => side.find(name, now),
            None => Found::Unknown,
        }
    }

    /// Sends what is due, and all that the inner world sent, whose packets these are.
    ///
    /// # Errors
    ///
    /// `NoMemory` where memory is wanting; what has not gone out yet does so at the next call.
    pub fn settle(&mut self, packets: &Packets) -> Result<(), NoMemory>
        ensures shows { (w : World) (ran : List Event) → packets.now.datagrams ≡ map datagram w.packets → shown w ran self.new ≡ shown w ran self.old }
        ensures none { OnOk result (self.new.due ≡ []) }
        ensures all { OnOk result (length packets.now.datagrams ≤ self.new.gone) }
        ensures gone { self.old.gone ≤ length packets.now.datagrams → self.new.gone ≤ length packets.now.datagrams }
    {
        self.flush()?;
        'packets: while self.gone < packets.len() {
            self.send_shown(packets)?;
        }
        Ok(())
    }

    /// Sends the next packet of the inner world, where nothing is due.
    fn send_shown(&mut self, packets: &Packets) -> Result<(), NoMemory>
        requires there { self.old.gone < length packets.now.datagrams }
        requires settled { self.old.due ≡ [] }
        ensures shows { (w : World) (ran : List Event) → packets.now.datagrams ≡ map datagram w.packets → shown w ran self.new ≡ shown w ran self.old }
        ensures none { self.new.due ≡ [] }
        ensures gone { OnOk result (self.new.gone ≡ self.old.gone + 1) }
        ensures refused { OnErr result (self.new ≡ self.old) }
    {
        self.send_next(packets)
    }

    /// Sends the next packet of the inner world.
    fn send_next(&mut self, packets: &Packets) -> Result<(), NoMemory>
        requires { self.old.gone < length packets.now.datagrams }
        ensures sent { (d : Datagram) → slice_get packets.now.datagrams self.old.gone ≡ Some d → OnOk result (self.new ≡ sent_one self.old d) }
        ensures refused { OnErr result (self.new ≡ self.old) }
    {
        let number = self.gone;
        let Some(packet) = packets.get(number) else {
            unreachable!()
        };
        let Some(gone) = number.checked_add(1) else {
            return Err(NoMemory::Memory);
        };
        let mut bytes = Vec::new(self.alloc);
        packet.bytes_into(&mut bytes)?;
        let sender = packet.sender();
        let to = packet.to();
        push(
            &mut self.packets,
            &mut self.inner,
            sender,
            to,
            &bytes,
            Some(number),
        )?;
        self.gone = gone;
        Ok(())
    }

    /// Sends what is due.
    fn flush(&mut self) -> Result<(), NoMemory>
        ensures shows { (w : World) (ran : List Event) → shown w ran self.new ≡ shown w ran self.old }
        ensures none { OnOk result (self.new.due ≡ []) }
        ensures gone { self.new.gone ≡ self.old.gone }
    {
        'due: while self.has_due() {
            self.flush_shown()?;
        }
        self.clear();
        Ok(())
    }

    /// Whether something is due.
    fn has_due(&self) -> bool
        ensures { IsTrue result ↔ (0 < length self.now.due) }
    {
        self.flushed < self.due.len()
    }

    /// Forgets what has gone out.
    fn clear(&mut self)
        requires { self.old.due ≡ [] }
        ensures { self.new ≡ self.old }
    {
        self.due.cut(0);
        self.flushed = 0;
    }

    /// Sends the next datagram that is due.
    fn flush_shown(&mut self) -> Result<(), NoMemory>
        requires { 0 < length self.old.due }
        ensures shows { (w : World) (ran : List Event) → shown w ran self.new ≡ shown w ran self.old }
        ensures fewer { OnOk result (length self.new.due + 1 ≡ length self.old.due) }
        ensures gone { self.new.gone ≡ self.old.gone }
        ensures refused { OnErr result (self.new ≡ self.old) }
    {
        self.flush_next()
    }

    /// Sends the next datagram that is due, if there is one.
    #[tactic(auto, using(crate::proofs::GoingOut::next_due))]
    fn flush_next(&mut self) -> Result<(), NoMemory>
        ensures sent { OnOk result (self.new ≡ flushed_one self.old) }
        ensures refused { OnErr result (self.new ≡ self.old) }
    {
        let sender = self.sender;
        let Some((to, bytes)) = self.due.get(self.flushed) else {
            return Ok(());
        };
        let Some(flushed) = self.flushed.checked_add(1) else {
            return Err(NoMemory::Memory);
        };
        push(&mut self.packets, &mut self.inner, sender, to, bytes, None)?;
        self.flushed = flushed;
        Ok(())
    }
}
