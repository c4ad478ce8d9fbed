//! The run that is bent.

ghost use Rattle.std.specs.List.{AllByRecursion};
ghost use Rattle.std.specs.Prelude.{◌≡◌, [], IfOk, OnOk};
ghost use Rattle.nq_replay.specs.Schedules.{IsReady};
ghost use Rattle.nq_replay.specs.Texts.{IsTellable};
ghost use Rattle.nq_world.specs.Playing.{HasSettings};

use nq_base::{Event, NoMemory};
use nq_keeper::{Keeper, ListKeeper};
use nq_observe::{Cursor, Patience, Post, Unseen};
use nq_replay::play::{Delivered, note};
use nq_script::{Head, Schedule, Script};
use nq_world::{MOST_EVENTS, NewFault, Stepped, World, begin};
use std::alloc::Global;

/// The run that is bent.
#[derive(Drop)]
pub(crate) struct Old {
    /// Its events.
    pub(crate) events: Schedule,
    /// The places of the events before which a flow ended; the number of events where one ended behind the last.
    flows: Vec<usize>,
    /// Its packets.
    pub(crate) post: Post,
    /// Of each packet the place of the event in which it first arrives.
    arrivals: Vec<Option<usize>>,
    /// Each packet from this one on was sent behind all that arrive.
    newest: usize,
}

impl Old {
    /// No event.
    fn new(alloc: Global) -> Result<Old, NoMemory>
        ensures { IfOk result (λ old. old.events ≡ []) }
    {
        Ok(Old {
            events: Schedule::new(alloc)?,
            flows: Vec::new(alloc),
            post: Post::new(alloc),
            arrivals: Vec::new(alloc),
            newest: 0,
        })
    }

    /// How many packets there are.
    pub(crate) fn packets(&self) -> usize {
        self.arrivals.len()
    }

    /// Whether a flow ended before the event at a place.
    pub(crate) fn is_behind_flow(&self, place: usize) -> bool {
        self.flows.iter().any(|end: &usize| *end == place)
    }

    /// Whether a packet first arrives in the event at a place.
    pub(crate) fn arrives_first(&self, packet: u64, place: usize) -> bool {
        match self.arrivals.get(packet as usize) {
            Some(Some(first)) => *first == place,
            _ => false,
        }
    }

    /// The place of the event in which a packet first arrives.
    pub(crate) fn first_arrival(&self, packet: u64) -> Option<usize> {
        match self.arrivals.get(packet as usize) {
            Some(first) => *first,
            None => None,
        }
    }

    /// Whether a clock ticks in the event at a place.
    pub(crate) fn is_tick(&self, place: usize) -> bool {
        self.events.is_tick(place)
    }

    /// Whether a packet never arrives, though one that was sent later does.
    pub(crate) fn is_overtaken(&self, packet: u64) -> bool {
        match self.arrivals.get(packet as usize) {
            Some(None) => (packet as usize) < self.newest,
            _ => false,
        }
    }

    /// Notes that a flow ended before the next event, if one did.
    fn end_flow(&mut self, is_behind_flow: bool) -> Result<(), NoMemory>
        ensures { self.new.events ≡ self.old.events }
    {
        if is_behind_flow {
            let place = self.events.len();
            self.flows.push(place)?;
        }
        Ok(())
    }

    /// Notes an event that a world took in.
    fn see<K: Keeper>(&mut self, world: &World<K>, event: &Event) -> Result<(), NoMemory>
        ensures { self.new.events ≡ self.old.events }
    {
        let place = self.events.len();
        if let Event::Deliver(packet) = event {
            self.arrive(*packet as usize, place);
        }
        self.post.see(world.packets(), event)?;
        self.arrivals.resize(self.post.sent().len(), None)?;
        Ok(())
    }

    /// Notes that a packet arrives in the event at a place.
    fn arrive(&mut self, packet: usize, place: usize)
        ensures { self.new.events ≡ self.old.events }
    {
        if let Some(first) = self.arrivals.get_mut(packet) {
            if first.is_none() {
                *first = Some(place);
            }
        }
        self.newest = self.newest.max(packet);
    }
}

/// The run of a schedule, up to the first event that a world refuses.
pub(crate) fn run_of<P: Patience>(
    alloc: Global,
    script: &Script,
    patience: &mut P,
) -> Result<Old, Unseen>
    requires ready { IsReady script.now }
    ensures told { IfOk result (λ old. AllByRecursion (IsTellable script.now.head) old.events) }
{
    let keeper = ListKeeper::new(alloc, Vec::new(alloc))?;
    let mut world = match begin(alloc, &script.head, keeper) {
        Ok(world) => world,
        Err(NewFault::Memory(_keeper)) => return Err(Unseen::Memory),
        Err(NewFault::Failed(_keeper)) => return Err(Unseen::Memory),
    };
    let played = play(alloc, &mut world, script, patience);
    let _keeper = world.into_keeper();
    played
}

/// Plays a schedule over a world.
fn play<K: Keeper, P: Patience>(
    alloc: Global,
    world: &mut World<K>,
    script: &Script,
    patience: &mut P,
) -> Result<Old, Unseen>
    requires ready { IsReady script.now }
    requires settings { HasSettings script.now.head.hosts script.now.head.longest script.now.head.term world.old }
    ensures told { IfOk result (λ old. AllByRecursion (IsTellable script.now.head) old.events) }
{
    let mut run = Old::new(alloc)?;
    let mut delivered = Delivered::new(alloc);
    let mut cursor = Cursor::new();
    for turn in 0..MOST_EVENTS {
        if patience.is_over() {
            return Err(Unseen::Time);
        }
        let least = delivered.next(world.packets().len() as usize);
        let next = cursor.next(&script.lines, script.head.hosts, least);
        run.end_flow(cursor.is_behind_flow)?;
        let Some(event) = next else {
            break;
        };
        if !take_event(world, &mut run, &mut delivered, &script.head, event)? {
            break;
        }
    }
    Ok(run)
}

/// Gives an event to a world, and notes it if the world takes it in; whether it does.
#[tactic(auto, using(crate::proofs::Coming::can_come, crate::proofs::Coming::settings_on, crate::proofs::Events::all_last))]
fn take_event<K: Keeper>(
    world: &mut World<K>,
    run: &mut Old,
    delivered: &mut Delivered,
    head: &Head,
    event: Event,
) -> Result<bool, NoMemory>
    requires told { IsTellable head.now event }
    requires settings { HasSettings head.now.hosts head.now.longest head.now.term world.old }
    ensures settings { HasSettings head.now.hosts head.now.longest head.now.term world.new }
    ensures told { AllByRecursion (IsTellable head.now) run.old.events → OnOk result (AllByRecursion (IsTellable head.now) run.new.events) }
{
    delivered.reach(world.packets().len() as usize)?;
    match world.step(&event) {
        Stepped::Done => {
            note(delivered, &event);
            run.see(world, &event)?;
            run.events.push(event)?;
            Ok(true)
        }
        Stepped::Memory => Err(NoMemory::Memory),
        _ => Ok(false),
    }
}
