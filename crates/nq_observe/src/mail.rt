//! Packets that were sent.

use crate::decoding::{Read, read_packet};
use crate::memory::Memory;
use crate::seeing::KnownHost;
use nq_base::{Event, Party};
use nq_datagrams::Awaited;
use nq_link::net::Packets;
use nq_record::{Act, Moment, Sent};
use std::alloc::Global;

/// The packets that were sent, in their order.
#[derive(Drop)]
pub(crate) struct Mail {
    pub(crate) packets: Vec<Sent>,
    /// What each of them asks of the server, if it is a request.
    asks: Vec<Option<Awaited>>,
}

impl Mail {
    /// No packet was sent.
    pub(crate) fn new(alloc: Global) -> Mail {
        Mail {
            packets: Vec::new(alloc),
            asks: Vec::new(alloc),
        }
    }

    /// The packets.
    pub(crate) fn into_packets(self) -> Vec<Sent> {
        let Mail {
            packets,
            asks: _asks,
        } = self;
        packets
    }

    /// Who acts in an event: of a delivery it is the receiver.
    pub(crate) fn actor(&self, event: &Event) -> Party {
        match event {
            Event::Call { host, .. } => Party::Client(*host),
            Event::ClientTick(host) => Party::Client(*host),
            Event::Restart(host) => Party::Client(*host),
            Event::ServerTick => Party::Server,
            Event::Crash { .. } => Party::Server,
            Event::Deliver(number) => match self.packets.get(*number as usize) {
                Some(sent) => sent.to,
                None => Party::Server,
            },
        }
    }

    /// Notes that a packet arrives.
    pub(crate) fn arrive(&mut self, memory: &mut Memory, number: usize, place: usize) {
        match self.packets.get_mut(number) {
            Some(sent) => note_arrival(memory, sent, place),
            None => {}
        }
    }

    /// Notes the packets that a party sends in an event.
    pub(crate) fn see(
        &mut self,
        memory: &mut Memory,
        all: &Packets,
        event: &Event,
        from: &Party,
        place: usize,
    ) {
        let taken = self.taken(event);
        let first = self.packets.len() as u64;
        for number in first..all.len() {
            match read_packet(memory.alloc, all, number, taken) {
                Ok(read) => self.note(memory, read, from, place),
                Err(_) => memory.is_short = true,
            }
        }
    }

    /// The request that is delivered, if one is.
    fn taken(&self, event: &Event) -> Option<Awaited> {
        match event {
            Event::Deliver(number) => self.asked(*number),
            _ => None,
        }
    }

    /// What the packet of a number asks of the server, if it is a request.
    fn asked(&self, number: u64) -> Option<Awaited> {
        match self.asks.get(number as usize) {
            Some(asks) => *asks,
            None => None,
        }
    }

    /// Notes a packet that a party sends.
    fn note(&mut self, memory: &mut Memory, read: Read, from: &Party, place: usize) {
        let Read { to, asks, words } = read;
        let sent = Sent {
            from: *from,
            to,
            sent: place,
            arrivals: Vec::new(memory.alloc),
            words,
        };
        memory.push(&mut self.asks, asks);
        memory.push(&mut self.packets, sent);
    }

    /// The event that first sent the request to which a packet replies, since its sender started last.
    pub(crate) fn first_sending(
        &self,
        moments: &[Moment],
        known: &[KnownHost],
        reply: usize,
    ) -> Option<usize> {
        let answer = self.packets.get(reply)?;
        let served = moments.get(answer.sent)?;
        let Act::Arrival(number) = served.act else {
            return None;
        };
        let request = self.packets.get(number as usize)?;
        let asked = self.asked(number)?;
        let began = began(known, request.from);
        for (place, earlier) in self.packets.iter().enumerate() {
            if earlier.from == request.from
                && earlier.sent >= began
                && self.is_of(place as u64, asked.xid)
            {
                return Some(earlier.sent);
            }
        }
        None
    }

    /// Whether the packet of a number is a request that has this number at its sender.
    fn is_of(&self, number: u64, xid: u32) -> bool {
        match self.asked(number) {
            Some(asks) => asks.xid == xid,
            None => false,
        }
    }
}

/// Notes that a packet arrives.
fn note_arrival(memory: &mut Memory, sent: &mut Sent, place: usize) {
    memory.push(&mut sent.arrivals, place);
}

/// The event in which a host started last; 0 where there is none.
fn began(known: &[KnownHost], party: Party) -> usize {
    let Party::Client(host) = party else {
        return 0;
    };
    match known.get(host.0 as usize) {
        Some(known) => known.started,
        None => 0,
    }
}
