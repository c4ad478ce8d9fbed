//! Events at the server of a world, and deliveries.

ghost use Rattle.std.specs.Prelude.{◌≡◌, ◌≤◌, ◌<◌, List, Some, Ok, IfErr, OnErr, OnOk, length, slice_get};
ghost use Rattle.nq_base.specs.declared.Event.{Event};
ghost use Rattle.nq_base.specs.declared.Party.{Party};
ghost use Rattle.nq_clock.specs.Tracks.{Follows};
ghost use Rattle.nq_model.specs.protocol.Profile.{shortest_term};
ghost use Rattle.nq_model.specs.protocol.SkewBroken.{skew_broken};
ghost use Rattle.nq_model.specs.protocol.Stepped.{most_events};
ghost use Rattle.nq_model.specs.protocol.World.{sending_host};
ghost use Rattle.nq_world.specs.Moving.{Clocks, received};
ghost use Rattle.nq_world.specs.Playing.{GoesOn, TakesIn};

use crate::arriving::{Arrival, Missing, read_packet};
use crate::clocks::{shown, time_after};
use crate::ending::{finish, outbox};
use crate::stepped::{Limit, Stepped};
use crate::world::World;
use nq_base::ending::Fault;
use nq_base::{Host, Party, SkewBroken};
use nq_clock::Skew;
use nq_keeper::Keeper;
use nq_server::Received;

/// The host that sent a packet. The server sends none to itself: it counts as a host that there cannot be.
fn sending_host(sender: Party) -> Host
    ensures { result ≡ sending_host sender }
{
    match sender {
        Party::Server => Host(64),
        Party::Client(host) => host,
    }
}

/// How the server took an event in, for the event.
fn received(taken: Received) -> Result<(), Fault>
    ensures { result ≡ received taken }
{
    match taken {
        Received::Done | Received::Dropped(_) => Ok(()),
        Received::Fault => Err(Fault::Keep),
        Received::Memory => Err(Fault::Memory),
        Received::Spent => Err(Fault::Spent),
    }
}

/// The test of skew follows a tick of the server's clock, if it was made.
fn follow(made: &Result<(), Fault>, skew: &mut Skew) -> Result<(), SkewBroken>
    ensures clocks { OnOk result (Clocks made.now Event.ServerTick skew.old skew.new) }
    ensures hosts { length skew.new.hosts ≡ length skew.old.hosts }
    ensures window { skew.new.window ≡ skew.old.window }
    ensures made { OnErr result (made.now ≡ Ok tt) }
    ensures broken { IfErr result (λ broken. (events : List Event) → Follows skew.old events
        → skew_broken (length skew.old.hosts) skew.old.window events ≡ Some broken) }
{
    match made {
        Ok(()) => skew.server_tick(),
        Err(_) => Ok(()),
    }
}

impl<K: Keeper> World<K> {
    /// The receiver of a packet takes it in.
    pub(crate) fn deliver(&mut self, number: u64) -> Stepped
        requires { self.old.events < most_events }
        ensures takes { TakesIn K.content (Event.Deliver number) result self.old self.new }
        ensures goes { GoesOn K.faults K.follows result self.old self.new }
    {
        match read_packet(self.alloc, &self.packets, number) {
            Ok(
                Arrival {
                    sender,
                    to,
                    datagram,
                },
            ) => match to {
                Party::Server => self.deliver_to_server(number, sender, &datagram),
                Party::Client(host) => self.deliver_to_client(number, sender, host, &datagram),
            },
            Err(Missing::NoPacket) => Stepped::NoPacket,
            Err(Missing::Memory) => Stepped::Memory,
        }
    }

    /// The server takes in a datagram, which is the packet of this number.
    fn deliver_to_server(&mut self, number: u64, sender: Party, datagram: &[u8]) -> Stepped
        requires few { self.old.events < most_events }
        requires is { slice_get self.old.datagrams number ≡ Some (record { sender = sender; to = Party.Server; bytes = datagram.now }) }
        ensures takes { TakesIn K.content (Event.Deliver number) result self.old self.new }
        ensures goes { GoesOn K.faults K.follows result self.old self.new }
    {
        let alloc = self.alloc;
        let Ok(mut out) = outbox(alloc, &mut self.packets) else {
            return Stepped::Memory;
        };
        let taken = self.server.receive(
            alloc,
            sending_host(sender),
            datagram,
            &mut out,
            &mut self.journal,
        );
        finish(
            received(taken),
            &mut self.packets,
            &mut self.events,
            Party::Server,
            &out,
        )
    }

    /// The server's clock ticks.
    pub(crate) fn tick_server(&mut self) -> Stepped
        requires { self.old.events < most_events }
        ensures takes { TakesIn K.content Event.ServerTick result self.old self.new }
        ensures goes { GoesOn K.faults K.follows result self.old self.new }
    {
        let Ok(mut out) = outbox(self.alloc, &mut self.packets) else {
            return Stepped::Memory;
        };
        let Some(time) = time_after(self.server.time()) else {
            return Stepped::Limit(Limit::Events);
        };
        let taken = self.server.tick(time, &mut out, &mut self.journal);
        let ended = received(taken);
        match follow(&ended, &mut self.skew) {
            Ok(()) => finish(
                ended,
                &mut self.packets,
                &mut self.events,
                Party::Server,
                &out,
            ),
            Err(broken) => Stepped::SkewBroken(broken),
        }
    }

    /// The server stops and boots; its longest term is from then on this.
    pub(crate) fn crash(&mut self, longest: u32) -> Stepped
        requires few { self.old.events < most_events }
        requires long { shortest_term ≤ longest }
        requires short { longest ≤ self.old.skew.window }
        ensures takes { TakesIn K.content (Event.Crash longest) result self.old self.new }
        ensures goes { GoesOn K.faults K.follows result self.old self.new }
    {
        let alloc = self.alloc;
        let Ok(out) = outbox(alloc, &mut self.packets) else {
            return Stepped::Memory;
        };
        let Some(time) = shown(self.server.time()) else {
            return Stepped::Limit(Limit::Events);
        };
        let taken = self.server.reboot(alloc, longest, time, &mut self.journal);
        finish(
            received(taken),
            &mut self.packets,
            &mut self.events,
            Party::Server,
            &out,
        )
    }
}
