//! The staged world.

ghost use Rattle.std.specs.Prelude.{◌≡◌, ◌<◌, [], List, Option, None, length, map, reverse, slice_get, IfErr, IfOk, IfSome, OnOk};
ghost use Rattle.nq_base.specs.Plain.{plain};
ghost use Rattle.nq_staged.specs.Around.{counts_of, datagram_of, new_around};
ghost use Rattle.nq_staged.specs.Worlds.{CanComeOutside, IsReady, PlaysOutside, StepsOutside};
ghost use Rattle.nq_model.specs.protocol.Kept.{Kept};
ghost use Rattle.nq_model.specs.protocol.World.{Head};
ghost use Rattle.nq_stage.specs.declared.run.event.StagedEvent.{StagedEvent};
ghost use Rattle.nq_stage.specs.Outside.{outside_run};
ghost use Rattle.nq_stage.specs.Staged.{new_stager};
ghost use Rattle.nq_world.specs.Playing.{CountsFaults, HasSettings, Plays};
ghost use Rattle.nq_world.specs.declared.NewFault.{NewFault};

use crate::commit::around::{Around, HostSide};
use nq_base::{Host, Journal, NoMemory};
use nq_keeper::Keeper;
use nq_link::net::Packets;
use nq_script::Schedule;
use nq_stage::run::{StagedCounts, StagedEvent};
use nq_stage::stager::Stager;
use nq_world::{NewFault, Stepped, World};
use std::alloc::Global;
use std::marker::Model;

/// A world with staged writes: the inner world, the pool at its server, a side at each host, and the packets that travel. It ends with
/// `into_keeper`.
pub struct StagedWorld<K> {
    pub(crate) alloc: Global,
    pub(crate) world: World<K>,
    pub(crate) around: Around,
    pub(crate) ran: Schedule,
    pub(crate) events: u32,
}

impl<K> Model for StagedWorld<K> {
    ghost use Rattle.nq_staged.specs.Worlds.{StagedOver};

    ghost Value = { StagedOver K };

    ghost view = { λ w. record { inner = w.world; around = w.around; ran = w.ran; events = w.events } };
}

/// The side of a host of a world at first.
fn side_of<K: Keeper>(alloc: Global, world: &World<K>, host: Host) -> HostSide
    requires { host < length world.now.clients }
    ensures { IfSome (slice_get world.now.clients host) (λ c. result ≡ record { stager = new_stager c.client.who; last = None }) }
{
    HostSide {
        stager: Stager::new(alloc, world.client(host).who()),
        last: None,
    }
}

/// The sides of the hosts of a world, of which there are so many.
#[tactic(auto, using(crate::proofs::Reaching::sides_more, crate::proofs::Reaching::sides_all))]
fn sides_of<K: Keeper>(
    alloc: Global,
    world: &World<K>,
    hosts: u32,
) -> Result<Vec<HostSide>, NoMemory>
    requires { length world.now.clients ≡ hosts }
    ensures { IfOk result (λ sides. sides.items ≡ map (λ c. record { stager = new_stager c.client.who; last = None }) world.now.clients) }
{
    let mut sides = Vec::new(alloc);
    for host in 0..hosts {
        let side = side_of(alloc, world, Host(host));
        sides.push(side)?;
    }
    Ok(sides)
}

/// No events.
fn no_events(alloc: Global) -> Schedule
    ensures { result ≡ [] }
{
    Schedule::new(alloc).unwrap()
}

/// What stands around a world of so many hosts at first.
fn around<K: Keeper>(alloc: Global, world: &World<K>, hosts: u32) -> Result<Around, NoMemory>
    requires { length world.now.clients ≡ hosts }
    ensures { IfOk result (λ a. a ≡ new_around world.now.server.beside.table.boot
        (map (λ c. record { stager = new_stager c.client.who; last = None }) world.now.clients)) }
{
    let sides = sides_of(alloc, world, hosts)?;
    Around::new(alloc, world.boot(), sides)
}

impl<K: Keeper> StagedWorld<K> {
    /// A world with staged writes around a world of so many hosts in which no step was made.
    ///
    /// # Errors
    ///
    /// Only want of memory; the keeper is handed back.
    pub fn new(alloc: Global, world: World<K>, hosts: u32) -> Result<StagedWorld<K>, NewFault<K>>
        requires { length world.clients ≡ hosts }
        ensures plays { IfOk result (λ w. (head : Head) (told : Option Kept) → Plays head [] world told → PlaysOutside head [] w told) }
        ensures inner { IfOk result (λ w. w.inner ≡ world) }
        ensures refused { IfErr result (λ fault. fault ≡ NewFault.Memory world.server.keeper) }
    {
        match around(alloc, &world, hosts) {
            Ok(around) => Ok(StagedWorld {
                alloc,
                world,
                around,
                ran: no_events(alloc),
                events: 0,
            }),
            Err(NoMemory::Memory) => Err(NewFault::Memory(world.into_keeper())),
        }
    }

    /// Takes an event in. The answers and their order are those of [`World::step`], over the packets that travel outside and the events
    /// of the staged schedule. Each WRITE that the pool rebuilds is byte for byte the packet of the inner world for which its COMMIT
    /// stands, and the inner run is a lawful one: `specs/Worlds.antt` says so of each world that plays a staged run.
    ///
    /// # Errors
    ///
    /// After every answer but `Done` the world plays the run that it played before. `Fault` exactly where the keeper counted a fault;
    /// `Memory` where memory was refused.
    pub fn step(&mut self, event: &StagedEvent) -> Stepped
        requires { CanComeOutside (length self.old.inner.clients) self.old.inner.skew.window event.now }
        ensures steps { (head : Head) (events : List StagedEvent) → PlaysOutside head events self.old (K.content self.old.inner.server.keeper)
            → StepsOutside head events event.now result self.new (K.content self.old.inner.server.keeper) (K.content self.new.inner.server.keeper) }
        ensures faults { CountsFaults result (K.faults self.old.inner.server.keeper) (K.faults self.new.inner.server.keeper) }
        ensures follows { K.follows self.old.inner.server.keeper self.new.inner.server.keeper }
        ensures settings { HasSettings (length self.old.inner.clients) self.old.inner.skew.window self.old.inner.term self.new.inner }
    {
        match self.settle() {
            Ok(()) => self.step_settled(event),
            Err(NoMemory::Memory) => Stepped::Memory,
        }
    }

    /// Sends what was made and has not gone out, and tells how many packets travel.
    ///
    /// # Errors
    ///
    /// `NoMemory` where memory is wanting; the world plays the same run then.
    pub fn sent(&mut self) -> Result<u64, NoMemory>
        ensures same { (head : Head) (events : List StagedEvent) (told : Option Kept) → PlaysOutside head events self.old told
            → PlaysOutside head events self.new told }
        ensures packets { IfOk result (λ packets. (head : Head) (events : List StagedEvent) (told : Option Kept) → PlaysOutside head events self.old told
            → packets ≡ length (outside_run head events).sent) }
        ensures ready { (head : Head) (events : List StagedEvent) (told : Option Kept) → PlaysOutside head events self.old told
            → OnOk result (IsReady self.new) }
        ensures inner { self.new.inner ≡ self.old.inner }
    {
        self.settle()?;
        Ok(self.around.sent())
    }

    /// The packets that travel outside, in the order in which they were sent, where all that was made has gone out: so it is after
    /// `Ok` of [`StagedWorld::sent`].
    pub fn packets(&self) -> &Packets
        ensures { (head : Head) (events : List StagedEvent) (told : Option Kept) → IsReady self.now → PlaysOutside head events self.now told
            → result.now.datagrams ≡ map datagram_of (outside_run head events).sent }
    {
        self.around.packets()
    }

    /// What was counted.
    pub fn counts(&self) -> StagedCounts
        ensures { (head : Head) (events : List StagedEvent) (told : Option Kept) → PlaysOutside head events self.now told
            → counts_of result ≡ (outside_run head events).counts }
    {
        self.around.counts
    }

    /// The events of the inner world that were run, the oldest first.
    pub fn ran(&self) -> &Schedule
        ensures { (head : Head) (events : List StagedEvent) (told : Option Kept) → PlaysOutside head events self.now told
            → reverse result.now ≡ (outside_run head events).ran }
    {
        &self.ran
    }

    /// The journal of the inner world.
    pub fn journal(&self) -> &Journal
        ensures { (head : Head) (events : List StagedEvent) (told : Option Kept) → PlaysOutside head events self.now told
            → map plain result.now.entries ≡ reverse (outside_run head events).world.journal }
    {
        self.world.journal()
    }

    /// Ends the world.
    pub fn into_keeper(self) -> K
        ensures { result ≡ self.inner.server.keeper }
    {
        let StagedWorld {
            alloc: _,
            world,
            around: _around,
            ran: _ran,
            events: _,
        } = self;
        world.into_keeper()
    }
}
