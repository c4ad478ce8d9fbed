//! The world with leased directories.

ghost use Rattle.std.specs.Prelude.{◌≡◌, ◌≢◌, ◌<◌, [], List, Option, Some, length, map, reverse, IfErr, IfOk, IfSome, OnOk, slice_get};
ghost use Rattle.nq_base.specs.Plain.{plain};
ghost use Rattle.nq_model.specs.protocol.Kept.{Kept, find_name};
ghost use Rattle.nq_model.specs.protocol.World.{Head};
ghost use Rattle.nq_directory.specs.NameCacheNames.{new_names};
ghost use Rattle.nq_directory.specs.declared.name_cache.found.Found.{Found};
ghost use Rattle.nq_name_server.specs.Served.{new_served};
ghost use Rattle.nq_names.specs.Playing.{CanComeOutside, IsReady, PlaysOutside, StepsOutside};
ghost use Rattle.nq_name_server.specs.Around.{datagram_of, new_around};
ghost use Rattle.nq_name_server.specs.declared.run.event.NameEvent.{NameEvent};
ghost use Rattle.nq_name_server.specs.Outside.{found, outside_run};
ghost use Rattle.nq_name_server.specs.Theorem.{kept_as};
ghost use Rattle.nq_world.specs.Playing.{CountsFaults, HasSettings, Plays};
ghost use Rattle.nq_world.specs.declared.NewFault.{NewFault};

use nq_base::{Host, Journal, Name, NoMemory, Party};
use nq_directory::name_cache::{Found, NameCache};
use nq_keeper::Keeper;
use nq_link::net::Packets;
use nq_name_server::NameServer;
use nq_name_server::around::Around;
use nq_name_server::run::NameEvent;
use nq_script::Schedule;
use nq_world::{NewFault, Stepped, World};
use std::alloc::Global;
use std::marker::Model;

/// A world with leased directories: the inner world, the leases at its server, the names that each host keeps, and the packets that
/// travel. It ends with `into_keeper`.
pub struct NameWorld<K> {
    pub(crate) alloc: Global,
    pub(crate) world: World<K>,
    /// How many hosts it has.
    pub(crate) hosts: u32,
    pub(crate) around: Around,
    pub(crate) ran: Schedule,
    pub(crate) events: u32,
}

impl<K> Model for NameWorld<K> {
    ghost use Rattle.std.specs.Prelude.{◌≡◌, length};
    ghost use Rattle.nq_names.specs.Playing.{NamesOver};

    ghost Value = { NamesOver K };

    ghost view = { λ w. record { inner = w.world; around = w.around; ran = w.ran; events = w.events } };

    ghost invariant = { λ w. length w.world.clients ≡ w.hosts };
}

/// What a host of a world keeps of names at first: nothing.
fn side_of<K: Keeper>(alloc: Global, world: &World<K>, host: Host) -> NameCache
    requires { host < length world.now.clients }
    ensures { IfSome (slice_get world.now.clients host) (λ c. result ≡ new_names c.client.who) }
{
    NameCache::new(alloc, world.client(host).who())
}

/// What the hosts of a world, of which there are so many, keep of names at first: nothing.
#[tactic(auto, using(crate::proofs::Reaching::sides_more, crate::proofs::Reaching::sides_all))]
fn sides_of<K: Keeper>(
    alloc: Global,
    world: &World<K>,
    hosts: u32,
) -> Result<Vec<NameCache>, NoMemory>
    requires { length world.now.clients ≡ hosts }
    ensures { IfOk result (λ sides. sides.items ≡ map (λ c. new_names c.client.who) world.now.clients) }
{
    let mut sides = Vec::new(alloc);
    for host in 0..hosts {
        let side = side_of(alloc, world, Host(host));
        sides.push(side)?;
    }
    Ok(sides)
}

/// No events.
fn no_events(alloc: Global) -> Schedule
    ensures { result ≡ [] }
{
    Schedule::new(alloc).unwrap()
}

/// What stands around a world of so many hosts at first.
fn around<K: Keeper>(alloc: Global, world: &World<K>, hosts: u32) -> Result<Around, NoMemory>
    requires { length world.now.clients ≡ hosts }
    ensures { IfOk result (λ a. a ≡ new_around (new_served world.now.server.beside.table.boot world.now.server.beside.longest world.now.server.beside.time)
        (map (λ c. new_names c.client.who) world.now.clients)) }
{
    let sides = sides_of(alloc, world, hosts)?;
    let time = world.server_time();
    let server = NameServer::new(alloc, world.boot(), world.longest(), time)?;
    Around::new(alloc, server, time, sides)
}

impl<K: Keeper> NameWorld<K> {
    /// A world with leased directories around a world of so many hosts in which no step was made.
    ///
    /// # Errors
    ///
    /// Only want of memory; the keeper is handed back.
    pub fn new(alloc: Global, world: World<K>, hosts: u32) -> Result<NameWorld<K>, NewFault<K>>
        requires { length world.clients ≡ hosts }
        ensures plays { IfOk result (λ w. (head : Head) (told : Option Kept) → Plays head [] world told → PlaysOutside head [] w told) }
        ensures inner { IfOk result (λ w. w.inner ≡ world) }
        ensures refused { IfErr result (λ fault. fault ≡ NewFault.Memory world.server.keeper) }
    {
        match around(alloc, &world, hosts) {
            Ok(around) => Ok(NameWorld {
                alloc,
                world,
                hosts,
                around,
                ran: no_events(alloc),
                events: 0,
            }),
            Err(NoMemory::Memory) => Err(NewFault::Memory(world.into_keeper())),
        }
    }

    /// Takes an event in. The answers and their order are those of [`World::step`], over the packets that travel outside and the events
    /// of the schedule with lists. After `Done` each host that knows of a name knows what the server keeps under it: `specs/Playing.antt`
    /// says so of each world that plays a run with lists.
    ///
    /// # Errors
    ///
    /// After every answer but `Done` the world plays the run that it played before. `Fault` exactly where the keeper counted a fault,
    /// which it may also do where the server's side reads what is kept. `Memory` where memory was refused, and at a number that no run
    /// comes to: a time from 2^62 on, a boot or a lease behind the last number, a longest term beyond 5 to 600 ticks, a host from 64
    /// on, or more than 256 files behind an id.
    pub fn step(&mut self, event: &NameEvent) -> Stepped
        requires { CanComeOutside (length self.old.inner.clients) self.old.inner.skew.window event.now }
        ensures steps { (head : Head) (events : List NameEvent) → PlaysOutside head events self.old (K.content self.old.inner.server.keeper)
            → StepsOutside head events event.now result self.new (K.content self.old.inner.server.keeper) (K.content self.new.inner.server.keeper) }
        ensures faults { CountsFaults result (K.faults self.old.inner.server.keeper) (K.faults self.new.inner.server.keeper) }
        ensures follows { K.follows self.old.inner.server.keeper self.new.inner.server.keeper }
        ensures settings { HasSettings (length self.old.inner.clients) self.old.inner.skew.window self.old.inner.term self.new.inner }
    {
        match self.settle() {
            Ok(()) => self.step_settled(event),
            Err(NoMemory::Memory) => Stepped::Memory,
        }
    }

    /// What a host that is there knows of a name. Where it knows of the name, it knows what the server keeps under it now, whatever
    /// packets were lost, repeated or reordered, however the clocks are skewed, and whoever started again (Gray and Cheriton 1989;
    /// Macklem 1994).
    pub fn find(&self, host: Host, name: &Name) -> Found
        requires { host < length self.now.inner.clients }
        ensures found { (head : Head) (events : List NameEvent) (told : Option Kept) → PlaysOutside head events self.now told
            → result ≡ found (outside_run head events) host name.now }
        ensures kept { (head : Head) (events : List NameEvent) (kept : Kept) → PlaysOutside head events self.now (Some kept)
            → result ≢ Found.Unknown → result ≡ kept_as (find_name name.now kept.files) }
    {
        let now = self.world.time(Party::Client(host));
        self.around.find(host, name, now)
    }

    /// Sends what was made and has not gone out, and tells how many packets travel.
    ///
    /// # Errors
    ///
    /// `NoMemory` where memory is wanting; the world plays the same run then.
    pub fn sent(&mut self) -> Result<u64, NoMemory>
        ensures same { (head : Head) (events : List NameEvent) (told : Option Kept) → PlaysOutside head events self.old told
            → PlaysOutside head events self.new told }
        ensures packets { IfOk result (λ packets. (head : Head) (events : List NameEvent) (told : Option Kept) → PlaysOutside head events self.old told
            → packets ≡ length (outside_run head events).sent) }
        ensures ready { (head : Head) (events : List NameEvent) (told : Option Kept) → PlaysOutside head events self.old told → OnOk result (IsReady self.new) }
        ensures inner { self.new.inner ≡ self.old.inner }
    {
        self.settle()?;
        Ok(self.around.sent())
    }

    /// The packets that travel outside, in the order in which they were sent, where all that was made has gone out: so it is after
    /// `Ok` of [`NameWorld::sent`].
    pub fn packets(&self) -> &Packets
        ensures { (head : Head) (events : List NameEvent) (told : Option Kept) → IsReady self.now → PlaysOutside head events self.now told
            → result.now.datagrams ≡ map datagram_of (outside_run head events).sent }
    {
        self.around.packets()
    }

    /// The events of the inner world that were run, the oldest first.
    pub fn ran(&self) -> &Schedule
        ensures { (head : Head) (events : List NameEvent) (told : Option Kept) → PlaysOutside head events self.now told
            → reverse result.now ≡ (outside_run head events).ran }
    {
        &self.ran
    }

    /// The journal of the inner world.
    pub fn journal(&self) -> &Journal
        ensures { (head : Head) (events : List NameEvent) (told : Option Kept) → PlaysOutside head events self.now told
            → map plain result.now.entries ≡ reverse (outside_run head events).world.journal }
    {
        self.world.journal()
    }

    /// Ends the world.
    pub fn into_keeper(self) -> K
        ensures { result ≡ self.inner.server.keeper }
    {
        let NameWorld {
            alloc: _,
            world,
            hosts: _,
            around: _around,
            ran: _ran,
            events: _,
        } = self;
        world.into_keeper()
    }
}
