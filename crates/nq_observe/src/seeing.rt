//! What an event did.

ghost use Rattle.std.specs.Prelude.{◌≤◌, length};

use crate::mail::Mail;
use crate::memory::Memory;
use crate::spans::Spans;
use nq_base::{Event, Host, Journal, NoMemory, Party, Ticks};
use nq_keeper::Keeper;
use nq_record::{Act, Moment, Noted, Record, entry_words};
use nq_world::World;
use std::alloc::Global;

/// Writes down what each event did. Once memory was wanting, what was seen is lost.
#[derive(Drop)]
pub(crate) struct Seer {
    memory: Memory,
    hosts: u32,
    moments: Vec<Moment>,
    mail: Mail,
    entries: Vec<Noted>,
    spans: Spans,
    known: Vec<KnownHost>,
}

/// What is known of a host: in which event it started last, and how many blocks with delayed writes it has.
#[derive(Clone, Copy)]
pub(crate) struct KnownHost {
    pub(crate) started: usize,
    delayed: usize,
}

impl Seer {
    /// Nothing was seen.
    pub(crate) fn new(alloc: Global, hosts: u32) -> Result<Seer, NoMemory> {
        let nothing = KnownHost {
            started: 0,
            delayed: 0,
        };
        let known = vec![in alloc; nothing; hosts as usize]?;
        Ok(Seer {
            memory: Memory::new(alloc),
            hosts,
            moments: Vec::new(alloc),
            mail: Mail::new(alloc),
            entries: Vec::new(alloc),
            spans: Spans::new(alloc),
            known,
        })
    }

    /// What was seen.
    ///
    /// # Errors
    ///
    /// Only want of memory, while an event was seen.
    pub(crate) fn into_record(self) -> Result<Record, NoMemory> {
        if self.memory.is_short {
            return Err(NoMemory::Memory);
        }
        let Seer {
            memory: _memory,
            hosts,
            moments,
            mail,
            entries,
            spans,
            known: _known,
        } = self;
        let (spans, changes) = spans.into_parts();
        Ok(Record {
            hosts,
            moments,
            packets: mail.into_packets(),
            entries,
            spans,
            changes,
        })
    }

    /// Writes down what an event did that a world took in just now.
    pub(crate) fn see<K: Keeper>(&mut self, world: &World<K>, hosts: u32, event: &Event)
        requires { hosts ≤ length world.now.clients }
    {
        let place = self.moments.len();
        let older = self.spans.spans.len();
        let mut moment = self.begun(event);
        self.arrive(event, place);
        let party = &moment.party;
        self.mail
            .see(&mut self.memory, world.packets(), event, party, place);
        see_entries(&mut self.memory, &mut self.entries, world.journal());
        let rows = world.server().table().rows();
        self.spans
            .see_server(&mut self.memory, rows, !world.serving(), place);
        moment.rows = rows.len();
        moment.clock = world.server_time();
        for host in 0..hosts {
            let client = world.client(Host(host));
            self.spans
                .see_client(&mut self.memory, client, host, place, &mut moment);
        }
        self.spans.end(&mut self.memory, place);
        self.count(older, event, &mut moment);
        self.memory.push(&mut self.moments, moment);
    }

    /// Notes how much an event did of which all was seen. So many spans are older.
    fn count(&mut self, older: usize, event: &Event, moment: &mut Moment) {
        self.date_leases(older, event);
        moment.delays = self.new_delays(moment);
        moment.sent = (self.mail.packets.len() as u64).saturating_sub(moment.packets);
        moment.made = self.entries.len().saturating_sub(moment.entries);
        moment.changed = self.spans.changes.len().saturating_sub(moment.changes);
    }

    /// An event of which nothing was seen yet.
    fn begun(&self, event: &Event) -> Moment {
        Moment {
            party: self.mail.actor(event),
            act: act_of(event),
            clock: Ticks(0),
            packets: self.mail.packets.len() as u64,
            sent: 0,
            entries: self.entries.len(),
            made: 0,
            changes: self.spans.changes.len(),
            changed: 0,
            rows: 0,
            leases: 0,
            dirty: 0,
            delays: None,
        }
    }

    /// How many blocks with delayed writes the host has that acts, if that is another number than before.
    fn new_delays(&mut self, moment: &Moment) -> Option<usize> {
        let Party::Client(host) = moment.party else {
            return None;
        };
        let blocks = moment.delays?;
        match self.known.get_mut(host.0 as usize) {
            Some(before) => changed(before, blocks),
            None => None,
        }
    }

    /// Notes the arrival of a packet, or the start of a host.
    fn arrive(&mut self, event: &Event, place: usize) {
        match event {
            Event::Deliver(number) => {
                self.mail.arrive(&mut self.memory, *number as usize, place);
            }
            Event::Restart(host) => {
                if let Some(known) = self.known.get_mut(host.0 as usize) {
                    known.started = place;
                }
            }
            _ => {}
        }
    }

    /// Lets leases begin where they were first asked for. So many spans are older.
    fn date_leases(&mut self, older: usize, event: &Event) {
        if older < self.spans.spans.len() {
            let asked = self.asked(event, self.moments.len());
            self.spans.date_leases(older, asked);
        }
    }

    /// The event in which that was first asked which now is answered: the first sending of the request of a reply.
    fn asked(&self, event: &Event, place: usize) -> usize {
        let Event::Deliver(number) = event else {
            return place;
        };
        let reply = *number as usize;
        match self.mail.first_sending(&self.moments, &self.known, reply) {
            Some(first) => first,
            None => place,
        }
    }
}

/// Writes down the entries that were made.
fn see_entries(memory: &mut Memory, entries: &mut Vec<Noted>, journal: &Journal) {
    for place in entries.len()..journal.len() {
        if let Some(entry) = journal.entries().get(place) {
            let words = entry_words(memory.alloc, entry);
            memory.add(entries, words);
        }
    }
}

/// Notes how many blocks with delayed writes a host has; the number, if it is another than before.
fn changed(before: &mut KnownHost, blocks: usize) -> Option<usize> {
    if before.delayed == blocks {
        None
    } else {
        before.delayed = blocks;
        Some(blocks)
    }
}

/// What happens in an event.
fn act_of(event: &Event) -> Act {
    match event {
        Event::Call { .. } => Act::Call,
        Event::Deliver(number) => Act::Arrival(*number),
        Event::ServerTick => Act::Tick,
        Event::ClientTick(_) => Act::Tick,
        Event::Restart(_) => Act::Restart,
        Event::Crash { .. } => Act::Crash,
    }
}
