//! Lists that are asked for, and packets that are taken in.

ghost use Rattle.std.specs.Prelude.{◌≡◌, ◌<◌, ◌&&◌, not, [], List, Option, Some, length, reverse, slice_get, OnOk, OnErr};
ghost use Rattle.nq_base.specs.declared.Event.{Event};
ghost use Rattle.nq_client.specs.Counted.{Counted};
ghost use Rattle.nq_datagrams.specs.Incoming.{datagram_in};
ghost use Rattle.nq_model.specs.protocol.Kept.{Kept};
ghost use Rattle.nq_model.specs.protocol.World.{Head, World as Model, run};
ghost use Rattle.nq_names.specs.Playing.{IsLeft, IsReady, Leads, Reaches, stepped_outside};
ghost use Rattle.nq_names.specs.Taking.{IsOfLists, TakesIn, outside_of, stepped_of};
ghost use Rattle.nq_name_server.specs.Around.{once_sent, over};
ghost use Rattle.nq_name_server.specs.declared.run.event.NameEvent.{NameEvent};
ghost use Rattle.nq_name_server.specs.Outside.{changes_as, heard_by, is_change, is_changing, lists, passes, serves, takes, to_host, to_server};
ghost use Rattle.nq_directory.specs.Prefix.{IsPrefix};
ghost use Rattle.nq_world.specs.Moving.{clients_in};
ghost use Rattle.nq_world.specs.Playing.{GoesOn, Plays};

use crate::world::NameWorld;
use nq_base::{Call, Event, Host, NoMemory, Party, Ticks};
use nq_directory::Prefix;
use nq_keeper::{KeepFault, Keeper};
use nq_name_server::around::Travelling;
use nq_world::Stepped;

/// What a fault of the keeper means for an event.
fn stepped(taken: Result<(), KeepFault>) -> Stepped
    ensures { result ≡ stepped_of taken }
{
    match taken {
        Ok(()) => Stepped::Done,
        Err(KeepFault::Failed) => Stepped::Fault,
        Err(KeepFault::Memory) => Stepped::Memory,
    }
}

/// A prefix has at most 64 bytes. Nothing is done.
fn prefix_is_short(prefix: &Prefix)
    ensures { IsPrefix prefix.now }
{
    let _bytes = prefix.as_bytes();
}

/// Whether a call changes a directory.
fn is_change(call: &Call) -> bool
    ensures { result ≡ is_change call.now }
{
    matches!(call, Call::Create { .. } | Call::Remove { .. })
}

impl<K: Keeper> NameWorld<K> {
    /// A host asks for the list of a directory.
    pub(crate) fn list(&mut self, host: Host, prefix: &Prefix) -> Stepped
        requires settled { self.old.around.due ≡ [] }
        requires there { host < length self.old.inner.clients }
        ensures leads { (head : Head) (events : List NameEvent) (told : Option Kept) → IsReady self.old → Reaches head events self.old told
            → IsLeft (stepped_outside head events (NameEvent.List host prefix.now))
            → Leads head events (NameEvent.List host prefix.now) result told told (λ es kept. Reaches head es self.new kept) }
        ensures inner { self.new.inner ≡ self.old.inner }
        ensures count { self.new.events ≡ self.old.events }
        ensures fine { IsOfLists result }
    {
        prefix_is_short(prefix);
        match self.ask(host, prefix) {
            Ok(()) => Stepped::Done,
            Err(NoMemory::Memory) => Stepped::Memory,
        }
    }

    /// A host asks for the list of a directory, where it is attached and no call that changes a directory is under way.
    fn ask(&mut self, host: Host, prefix: &Prefix) -> Result<(), NoMemory>
        requires settled { self.old.around.due ≡ [] }
        requires there { host < length self.old.inner.clients }
        ensures asks { OnOk result ((w : Model) (ran : List Event) (c : Counted) → slice_get self.old.inner.clients host ≡ Some c
            → once_sent w ran self.new.around ≡ lists (over w ran self.old.around) host prefix.now (slice_get self.old.around.sides host) (Some c.client)) }
        ensures gone { self.new.around.gone ≡ self.old.around.gone }
        ensures refused { OnErr result (self.new.around ≡ self.old.around) }
        ensures inner { self.new.inner ≡ self.old.inner }
        ensures ran { self.new.ran ≡ self.old.ran }
        ensures count { self.new.events ≡ self.old.events }
    {
        if self.may_list(host) {
            let now = self.time_of(host);
            let term = self.term_of(host);
            self.around.ask_for(host, prefix, term, now)
        } else {
            Ok(())
        }
    }

    /// Whether a host may list a directory: it is attached, and no call that changes one is under way.
    fn may_list(&self, host: Host) -> bool
        requires { host < length self.now.inner.clients }
        ensures { (c : Counted) → slice_get self.now.inner.clients host ≡ Some c → result ≡ (c.client.attached && not (is_changing c.client.call)) }
    {
        self.world.attached(host) && !self.is_changing(host)
    }

    /// Whether a call that changes a directory is under way at a host.
    #[tactic(auto, using(crate::proofs::Hearing::changing_some, crate::proofs::Hearing::changing_none))]
    fn is_changing(&self, host: Host) -> bool
        requires { host < length self.now.inner.clients }
        ensures { (c : Counted) → slice_get self.now.inner.clients host ≡ Some c → result ≡ is_changing c.client.call }
    {
        match self.world.under_way(host) {
            Some(call) => is_change(call),
            None => false,
        }
    }

    /// The time of a host's clock.
    fn time_of(&self, host: Host) -> Ticks
        requires { host < length self.now.inner.clients }
        ensures { (c : Counted) → slice_get self.now.inner.clients host ≡ Some c → c.client.now ≡ result }
    {
        self.world.client(host).time()
    }

    /// The term that a host wants.
    fn term_of(&self, host: Host) -> u32
        requires { host < length self.now.inner.clients }
        ensures { (c : Counted) → slice_get self.now.inner.clients host ≡ Some c → c.client.term ≡ result }
    {
        self.world.client(host).term()
    }

    /// A packet is taken in by its receiver.
    pub(crate) fn deliver(&mut self, number: u64) -> Stepped
        requires { self.old.around.due ≡ [] }
        ensures leads { (head : Head) (events : List NameEvent) → IsReady self.old → Reaches head events self.old (K.content self.old.inner.server.keeper)
            → IsLeft (stepped_outside head events (NameEvent.Plain (Event.Deliver number)))
            → Leads head events (NameEvent.Plain (Event.Deliver number)) result (K.content self.old.inner.server.keeper)
            (K.content self.new.inner.server.keeper) (λ es kept. Reaches head es self.new kept) }
        ensures goes { GoesOn K.faults K.follows result self.old.inner self.new.inner }
        ensures count { self.new.events ≡ self.old.events }
    {
        if number >= self.around.sent() {
            return Stepped::NoPacket;
        }
        match self.around.read(number) {
            Ok(packet) => self.take_in(&packet),
            Err(NoMemory::Memory) => Stepped::Memory,
        }
    }

    /// A packet is taken in by its receiver.
    fn take_in(&mut self, packet: &Travelling) -> Stepped
        requires { self.old.around.due ≡ [] }
        ensures takes { (head : Head) → Plays head (reverse self.old.ran) self.old.inner (K.content self.old.inner.server.keeper)
            → TakesIn head packet.now.is result self.old self.new (K.content self.old.inner.server.keeper) (K.content self.new.inner.server.keeper)
            (takes (outside_of head self.old) packet.now packet.now.to) }
        ensures goes { GoesOn K.faults K.follows result self.old.inner self.new.inner }
        ensures count { self.new.events ≡ self.old.events }
    {
        match packet.to() {
            Party::Server => self.take_in_at_server(packet),
            Party::Client(host) => self.take_in_at(host, packet),
        }
    }

    /// A packet is taken in by the server, which sends none to itself.
    fn take_in_at_server(&mut self, packet: &Travelling) -> Stepped
        requires { self.old.around.due ≡ [] }
        ensures takes { (head : Head) → Plays head (reverse self.old.ran) self.old.inner (K.content self.old.inner.server.keeper)
            → TakesIn head packet.now.is result self.old self.new (K.content self.old.inner.server.keeper) (K.content self.new.inner.server.keeper)
            (to_server (outside_of head self.old) packet.now packet.now.sender) }
        ensures goes { GoesOn K.faults K.follows result self.old.inner self.new.inner }
        ensures count { self.new.events ≡ self.old.events }
    {
        match packet.sender() {
            Party::Server => Stepped::Done,
            Party::Client(host) => self.take_in_from(host, packet),
        }
    }

    /// A host's packet is taken in by the server.
    fn take_in_from(&mut self, host: Host, packet: &Travelling) -> Stepped
        requires { self.old.around.due ≡ [] }
        ensures takes { (head : Head) → Plays head (reverse self.old.ran) self.old.inner (K.content self.old.inner.server.keeper)
            → TakesIn head packet.now.is result self.old self.new (K.content self.old.inner.server.keeper) (K.content self.new.inner.server.keeper)
            (serves (outside_of head self.old) host packet.now packet.now.is) }
        ensures goes { GoesOn K.faults K.follows result self.old.inner self.new.inner }
        ensures count { self.new.events ≡ self.old.events }
    {
        match packet.inner() {
            Some(number) => self.pass(host, number, packet.bytes()),
            None => stepped(self.serve(host, packet.bytes())),
        }
    }

    /// A host's packet of the inner world goes to the server, or is held up.
    fn pass(&mut self, host: Host, number: u64, datagram: &[u8]) -> Stepped
        requires { self.old.around.due ≡ [] }
        ensures takes { (head : Head) → Plays head (reverse self.old.ran) self.old.inner (K.content self.old.inner.server.keeper)
            → TakesIn head (Some number) result self.old self.new (K.content self.old.inner.server.keeper) (K.content self.new.inner.server.keeper)
            (passes (outside_of head self.old) number (changes_as (run head (reverse self.old.ran)).server.kept host (datagram_in datagram.now))) }
        ensures goes { GoesOn K.faults K.follows result self.old.inner self.new.inner }
        ensures count { self.new.events ≡ self.old.events }
    {
        match self.hold_up(host, datagram) {
            Ok(true) => Stepped::Done,
            Ok(false) => self.run(&Event::Deliver(number)),
            Err(fault) => stepped(Err(fault)),
        }
    }

    /// A packet is taken in by a host.
    fn take_in_at(&mut self, host: Host, packet: &Travelling) -> Stepped
        requires { self.old.around.due ≡ [] }
        ensures takes { (head : Head) → Plays head (reverse self.old.ran) self.old.inner (K.content self.old.inner.server.keeper)
            → TakesIn head packet.now.is result self.old self.new (K.content self.old.inner.server.keeper) (K.content self.new.inner.server.keeper)
            (to_host (outside_of head self.old) host packet.now packet.now.is) }
        ensures goes { GoesOn K.faults K.follows result self.old.inner self.new.inner }
        ensures count { self.new.events ≡ self.old.events }
    {
        match packet.inner() {
            Some(number) => self.run(&Event::Deliver(number)),
            None => match self.hear(host, packet.bytes()) {
                Ok(()) => Stepped::Done,
                Err(NoMemory::Memory) => Stepped::Memory,
            },
        }
    }

    /// A host takes in a packet that is none of the inner world, where it is there.
    fn hear(&mut self, host: Host, datagram: &[u8]) -> Result<(), NoMemory>
        requires { self.old.around.due ≡ [] }
        ensures hears { OnOk result ((w : Model) (ran : List Event) → w.clients ≡ clients_in self.old.inner.clients
            → once_sent w ran self.new.around
            ≡ heard_by (over w ran self.old.around) host datagram.now (slice_get self.old.around.sides host) (slice_get w.clients host)) }
        ensures gone { self.new.around.gone ≡ self.old.around.gone }
        ensures refused { OnErr result (self.new.around ≡ self.old.around) }
        ensures inner { self.new.inner ≡ self.old.inner }
        ensures ran { self.new.ran ≡ self.old.ran }
        ensures count { self.new.events ≡ self.old.events }
    {
        if host.0 < self.hosts {
            self.hear_there(host, datagram)
        } else {
            Ok(())
        }
    }

    /// A host that is there takes in a packet that is none of the inner world.
    fn hear_there(&mut self, host: Host, datagram: &[u8]) -> Result<(), NoMemory>
        requires settled { self.old.around.due ≡ [] }
        requires there { host < length self.old.inner.clients }
        ensures hears { OnOk result ((w : Model) (ran : List Event) (c : Counted) → slice_get self.old.inner.clients host ≡ Some c
            → once_sent w ran self.new.around
            ≡ heard_by (over w ran self.old.around) host datagram.now (slice_get self.old.around.sides host) (Some c.client)) }
        ensures gone { self.new.around.gone ≡ self.old.around.gone }
        ensures refused { OnErr result (self.new.around ≡ self.old.around) }
        ensures inner { self.new.inner ≡ self.old.inner }
        ensures ran { self.new.ran ≡ self.old.ran }
        ensures count { self.new.events ≡ self.old.events }
    {
        let now = self.time_of(host);
        let term = self.term_of(host);
        self.around.hear(host, datagram, term, now)
    }
}
