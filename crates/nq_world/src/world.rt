//! The world.

ghost use Rattle.std.specs.Prelude.{◌≡◌, ◌<◌, ℕ, List, length};
ghost use Rattle.nq_base.specs.declared.Event.{Event};
ghost use Rattle.nq_model.specs.protocol.Stepped.{most_events};
ghost use Rattle.nq_model.specs.protocol.World.{Head};
ghost use Rattle.nq_world.specs.Playing.{CanCome, CountsFaults, GoesOn, HasSettings, Plays, Steps, TakesIn};

use crate::stepped::Stepped;
use crate::testing::test;
use nq_base::{Event, Journal};
use nq_client::Client;
use nq_clock::Skew;
use nq_keeper::Keeper;
use nq_link::net::Packets;
use nq_server::Server;
use std::alloc::Global;
use std::marker::Model;

/// A world: one server over a keeper, the clients of its hosts, all packets that were ever sent, and the journal. Only the public
/// calls of the server and of the clients change these. Contracts see all of it, and the test of skew. It ends with
/// `into_keeper`.
pub struct World<K> {
    pub(crate) alloc: Global,
    pub(crate) server: Server<K>,
    pub(crate) clients: Vec<Client>,
    pub(crate) packets: Packets,
    pub(crate) journal: Journal,
    pub(crate) skew: Skew,
    pub(crate) events: u32,
    pub(crate) term: u32,
}

impl<K> Model for World<K> {
    ghost use Rattle.std.specs.Prelude.{◌≡◌, ◌≤◌, length};
    ghost use Rattle.nq_model.specs.protocol.Profile.{longest_term};
    ghost use Rattle.nq_model.specs.protocol.Stepped.{most_events};
    ghost use Rattle.nq_world.specs.Playing.{WorldOver};

    ghost Value = { WorldOver K };

    ghost view = { λ w. record {
      server = w.server;
      clients = w.clients.items;
      datagrams = w.packets.datagrams;
      entries = w.journal.entries;
      skew = w.skew;
      events = w.events;
      term = w.term;
    } };

    ghost invariant = { λ w. (length w.clients.items ≡ length w.skew.hosts) × (w.events ≤ most_events) × (w.skew.window ≤ longest_term) };
}

impl<K: Keeper> World<K> {
    /// Takes an event in: the server, or the client of one host, makes its step.
    ///
    /// # Errors
    ///
    /// After every answer but `Done` the world is as before, but for the keeper's count of faults. The tests come first, in this
    /// order: `Limit` of events, `NoPacket`, `SkewBroken`, `Limit` of packets. `Fault` exactly where the keeper counted a fault;
    /// `Memory` where memory was refused.
    pub fn step(&mut self, event: &Event) -> Stepped
        requires { CanCome (length self.old.clients) self.old.skew.window event.now }
        ensures steps { (head : Head) (events : List Event) → Plays head events self.old (K.content self.old.server.keeper)
            → Steps head events event.now result self.old self.new (K.content self.old.server.keeper) (K.content self.new.server.keeper) }
        ensures faults { CountsFaults result (K.faults self.old.server.keeper) (K.faults self.new.server.keeper) }
        ensures follows { K.follows self.old.server.keeper self.new.server.keeper }
        ensures settings { HasSettings (length self.old.clients) self.old.skew.window self.old.term self.new }
    {
        match test(self.events, self.packets.len(), &self.skew, event) {
            Stepped::Done => self.take_event(event),
            refused => refused,
        }
    }

    /// Takes in an event that passed the tests.
    fn take_event(&mut self, event: &Event) -> Stepped
        requires few { self.old.events < most_events }
        requires can { CanCome (length self.old.clients) self.old.skew.window event.now }
        ensures takes { TakesIn K.content event.now result self.old self.new }
        ensures goes { GoesOn K.faults K.follows result self.old self.new }
    {
        match event {
            Event::Call { host, call } => self.call(*host, call),
            Event::Deliver(number) => self.deliver(*number),
            Event::ServerTick => self.tick_server(),
            Event::ClientTick(host) => self.tick_client(*host),
            Event::Restart(host) => self.restart(*host),
            Event::Crash { longest } => self.crash(*longest),
        }
    }
}
