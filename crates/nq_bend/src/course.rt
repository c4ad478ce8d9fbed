//! The new run, as far as it has come.

ghost use Rattle.std.specs.Prelude.{◌≡◌, ◌+◌, ℕ, List, [], Option, Some, None, true, false, IfOk, IsTrue, OnOk, slice_get};
ghost use Rattle.nq_base.specs.declared.Event.{Event};
ghost use Rattle.nq_bend.specs.Bending.{IsSpared};
ghost use Rattle.nq_bend.specs.Course.{HasHead, IsClosed, IsCourse, IsEntered, IsOn, IsStill, IsWith, IsWithout, PlaysOn, StandsFor};
ghost use Rattle.nq_bend.specs.declared.bends.Bend.{Bend};
ghost use Rattle.nq_replay.specs.Texts.{IsTellable};
ghost use Rattle.nq_script.specs.Lines.{IsFilledEvent};
ghost use Rattle.nq_script.specs.declared.heads.Head.{Head};

use crate::bends::{BendFault, LeftOut, Why};
use crate::lanes::Lanes;
use crate::old::Old;
use crate::plan::BendPlan;
use nq_base::{Event, Host, NoMemory, Party};
use nq_keeper::Keeper;
use nq_observe::{Patience, Post};
use nq_record::Sent;
use nq_script::Schedule;
use nq_world::{MOST_EVENTS, Stepped, World};
use std::alloc::Global;

/// The new run, as far as it has come.
#[derive(Drop)]
pub(crate) struct Course {
    /// Its events.
    pub(crate) ran: Schedule,
    /// Of each of them the place in the old run.
    pub(crate) origins: Vec<Option<usize>>,
    /// What of the old run is left out.
    pub(crate) left: Vec<LeftOut>,
    /// Its packets.
    post: Post,
    /// The packets of both runs.
    pub(crate) lanes: Lanes,
    /// Of each packet whether it is under way.
    waiting: Vec<bool>,
    /// No packet before this one is under way.
    oldest: usize,
    /// Packets that may be late: all others of the old run never arrive there.
    hasty: Vec<u64>,
    /// Which hosts are cut off.
    cut: Vec<bool>,
    /// Whether the world refused the last event.
    pub(crate) is_over: bool,
}

impl Course {
    /// Nothing has happened.
    pub(crate) fn new(alloc: Global, hosts: u32, old: &Old) -> Result<Course, NoMemory>
        ensures goes { (head : Head) (bends : List Bend) → IfOk result (IsCourse head old.now.events bends 0) }
        ensures none { IfOk result (λ c. (c.ran ≡ []) × (c.is_over ≡ false)) }
    {
        Ok(Course {
            ran: Schedule::new(alloc)?,
            origins: Vec::new(alloc),
            left: Vec::new(alloc),
            post: Post::new(alloc),
            lanes: Lanes::new(alloc, old.post.sent())?,
            waiting: Vec::new(alloc),
            oldest: 0,
            hasty: Vec::new(alloc),
            cut: vec![in alloc; false; hosts as usize]?,
            is_over: false,
        })
    }

    /// Leaves the delivery of a packet out.
    pub(crate) fn leave(&mut self, event: usize, packet: u64, why: Why) -> Result<(), NoMemory>
        ensures goes { (head : Head) (old : List Event) (bends : List Bend) → slice_get old event ≡ Some (Event.Deliver packet)
            → IsCourse head old bends event self.old → OnOk result (IsCourse head old bends (event + 1) self.new) }
        ensures still { OnOk result (IsStill self.old self.new) }
    {
        self.leave_out(LeftOut { event, packet, why })?;
        Ok(())
    }

    /// Notes what is left out.
    fn leave_out(&mut self, out: LeftOut) -> Result<(), NoMemory>
        ensures { OnOk result (IsWithout out self.old self.new) }
    {
        self.left.push(out)?;
        Ok(())
    }

    /// The packet of the new run that arrives where one of the old arrived in the event at a place; else why none does.
    pub(crate) fn fate_of(&self, plan: &BendPlan<'_>, packet: u64, place: usize) -> Result<u64, Why>
        ensures { IfOk result (λ new. IsSpared plan.now.bends.now self.now.lanes.olds.items (Event.Deliver new)) }
    {
        if let Some(why) = plan.leaves(packet, place) {
            return Err(why);
        }
        match self.lanes.new_of(packet) {
            Some(new) if self.is_cut(new) => Err(Why::CutOff),
            Some(new) if self.spares_packet(plan, new) => Ok(new),
            Some(_) => Err(Why::Lost),
            None => Err(Why::NoMatch),
        }
    }

    /// Cuts a host off, or joins it again.
    pub(crate) fn set_cut(&mut self, host: Host, is_cut: bool)
        ensures goes { (head : Head) (old : List Event) (bends : List Bend) (count : ℕ) → IsCourse head old bends count self.old
            → IsCourse head old bends count self.new }
        ensures still { IsStill self.old self.new }
    {
        if let Some(cut) = self.cut.get_mut(host.0 as usize) {
            *cut = is_cut;
        }
    }

    /// Whether a packet is from or to a host that is cut off.
    pub(crate) fn is_cut(&self, packet: u64) -> bool {
        match self.post.sent().get(packet as usize) {
            Some(sent) => self.is_off(sent.from) || self.is_off(sent.to),
            None => false,
        }
    }

    /// Whether a party is a host that is cut off.
    fn is_off(&self, party: Party) -> bool {
        let Party::Client(host) = party else {
            return false;
        };
        match self.cut.get(host.0 as usize) {
            Some(cut) => *cut,
            None => false,
        }
    }

    /// The first packet under way that can arrive: any, or one that is late at a place of the old run.
    fn next_waiting(&self, plan: &BendPlan<'_>, late: Option<usize>) -> Option<u64> {
        match late {
            Some(place) => self.next_late(plan, place),
            None => self.next_of_all(),
        }
    }

    /// The first packet under way that can arrive.
    fn next_of_all(&self) -> Option<u64> {
        for number in self.oldest..self.waiting.len() {
            let packet = number as u64;
            if self.is_waiting(packet) && !self.is_cut(packet) {
                return Some(packet);
            }
        }
        None
    }

    /// The first packet under way that can arrive and was to arrive before this place of the old run.
    fn next_late(&self, plan: &BendPlan<'_>, place: usize) -> Option<u64> {
        for packet in &self.hasty {
            if !self.is_cut(*packet) && self.is_late(plan, *packet, place) {
                return Some(*packet);
            }
        }
        None
    }

    /// Whether a packet is none of the old run, or one that was to arrive before this place there.
    fn is_late(&self, plan: &BendPlan<'_>, packet: u64, place: usize) -> bool {
        match self.lanes.olds.get(packet as usize) {
            Some(Some(old)) => match plan.moment_of(*old) {
                Some(moment) => moment < place,
                None => false,
            },
            _ => true,
        }
    }

    /// Whether a packet is under way.
    fn is_waiting(&self, packet: u64) -> bool {
        match self.waiting.get(packet as usize) {
            Some(waits) => *waits,
            None => false,
        }
    }

    /// The first packet that is under way; the number of all where none is.
    fn first_waiting(&self) -> usize {
        for number in self.oldest..self.waiting.len() {
            if self.is_waiting(number as u64) {
                return number;
            }
        }
        self.waiting.len()
    }

    /// Whether an event is no delivery, or that of a packet that was sent and is not lost.
    fn spares(&self, plan: &BendPlan<'_>, event: &Event) -> bool
        ensures { IsTrue result → IsSpared plan.now.bends.now self.now.lanes.olds.items event.now }
    {
        match event {
            Event::Deliver(packet) => self.spares_packet(plan, *packet),
            Event::Call { .. } => true,
            Event::ServerTick => true,
            Event::ClientTick(_) => true,
            Event::Restart(_) => true,
            Event::Crash { .. } => true,
        }
    }

    /// Whether a packet of the new run was sent and is not lost.
    fn spares_packet(&self, plan: &BendPlan<'_>, packet: u64) -> bool
        ensures { IsTrue result → IsSpared plan.now.bends.now self.now.lanes.olds.items (Event.Deliver packet) }
    {
        match self.lanes.olds.get(packet as usize) {
            Some(Some(old)) => !plan.is_lost(*old),
            Some(None) => true,
            None => false,
        }
    }

    /// Keeps an event at the end of the new run, with its place in the old one, unless the run is over; whether it is kept.
    fn enter(&mut self, event: &Event, origin: Option<usize>) -> Result<bool, NoMemory>
        requires { IsFilledEvent event.now }
        ensures beside { (head : Head) (old : List Event) (bends : List Bend) (count : ℕ) → IsTellable head event.now
            → IsSpared bends self.old.lanes.olds.items event.now → origin ≡ None
            → IsCourse head old bends count self.old → OnOk result (IsCourse head old bends count self.new) }
        ensures along { (head : Head) (old : List Event) (bends : List Bend) (count : ℕ) (was : Event) → IsTellable head event.now
            → IsSpared bends self.old.lanes.olds.items event.now → origin ≡ Some count → slice_get old count ≡ Some was → StandsFor was event.now
            → IsCourse head old bends count self.old → OnOk result (IsCourse head old bends (count + 1) self.new) }
        ensures enters { IfOk result (λ is_in. IsEntered is_in event.now origin self.old self.new) }
    {
        if self.is_over {
            return Ok(false);
        }
        self.add(event, origin)?;
        Ok(true)
    }

    /// Keeps an event at the end of the new run, with its place in the old one.
    fn add(&mut self, event: &Event, origin: Option<usize>) -> Result<(), NoMemory>
        requires { IsFilledEvent event.now }
        ensures { OnOk result (IsWith event.now origin self.old self.new) }
    {
        self.ran.push_filled(event)?;
        self.origins.push(origin)?;
        Ok(())
    }

    /// Notes how a world answered to an event that was kept.
    fn close<K: Keeper>(
        &mut self,
        world: &World<K>,
        plan: &BendPlan<'_>,
        event: &Event,
        stepped: Stepped,
    ) -> Result<(), NoMemory>
        ensures goes { (count : ℕ) → IsOn plan.now count self.old → OnOk result (IsOn plan.now count self.new) }
        ensures closes { OnOk result (IsClosed stepped self.old self.new) }
    {
        match stepped {
            Stepped::Done => self.see(world, event, plan),
            Stepped::Memory | Stepped::Fault => Err(NoMemory::Memory),
            Stepped::NoPacket | Stepped::SkewBroken(_) | Stepped::Limit(_) => {
                self.end();
                Ok(())
            }
        }
    }

    /// The run is over.
    fn end(&mut self)
        ensures goes { (head : Head) (old : List Event) (bends : List Bend) (count : ℕ) → IsCourse head old bends count self.old
            → IsCourse head old bends count self.new }
        ensures ends { (self.new.ran ≡ self.old.ran) × (self.new.is_over ≡ true) }
    {
        self.is_over = true;
    }

    /// Notes what is sent in an event that a world took in. Packets that are barred do not get under way.
    fn see<K: Keeper>(
        &mut self,
        world: &World<K>,
        event: &Event,
        plan: &BendPlan<'_>,
    ) -> Result<(), NoMemory>
        ensures goes { (count : ℕ) → IsOn plan.now count self.old → OnOk result (IsOn plan.now count self.new) }
        ensures still { OnOk result (IsStill self.old self.new) }
    {
        self.take_in(world, event)?;
        for number in self.lanes.sent()..self.post.sent().len() {
            self.note_sent(plan, number)?;
        }
        Ok(())
    }

    /// Notes the packets behind an event that a world took in. One that arrives is not under way any more.
    fn take_in<K: Keeper>(&mut self, world: &World<K>, event: &Event) -> Result<(), NoMemory>
        ensures goes { (head : Head) (old : List Event) (bends : List Bend) (count : ℕ) → IsCourse head old bends count self.old
            → OnOk result (IsCourse head old bends count self.new) }
        ensures still { OnOk result (IsStill self.old self.new) }
    {
        self.post.see(world.packets(), event)?;
        let Event::Deliver(packet) = event else {
            return Ok(());
        };
        let arrived = *packet;
        clear(&mut self.waiting, arrived);
        self.hasty.retain(|other: &u64| *other != arrived);
        self.oldest = self.first_waiting();
        Ok(())
    }

    /// Notes a packet that was sent. It is under way, if it is not barred.
    fn note_sent(&mut self, plan: &BendPlan<'_>, number: usize) -> Result<(), NoMemory>
        ensures goes { (count : ℕ) → IsOn plan.now count self.old → OnOk result (IsOn plan.now count self.new) }
        ensures still { OnOk result (IsStill self.old self.new) }
    {
        let Some(sent) = self.post.sent().get(number) else {
            return Ok(());
        };
        let old = self.lanes.note(sent)?;
        let may_be_late = may_be_late(plan, &self.lanes, sent, old);
        self.set_out(plan.bars(old), may_be_late)
    }

    /// Notes that the next packet gets under way, if it is not barred, and whether it may be late.
    fn set_out(&mut self, is_barred: bool, may_be_late: bool) -> Result<(), NoMemory>
        ensures goes { (head : Head) (old : List Event) (bends : List Bend) (count : ℕ) → IsCourse head old bends count self.old
            → OnOk result (IsCourse head old bends count self.new) }
        ensures still { OnOk result (IsStill self.old self.new) }
    {
        let number = self.waiting.len() as u64;
        self.waiting.push(!is_barred)?;
        if is_barred || !may_be_late {
            return Ok(());
        }
        self.hasty.push(number)?;
        Ok(())
    }
}

/// Whether a packet that is sent may be late, where it is this one of the old run, if it is one.
fn may_be_late(plan: &BendPlan<'_>, lanes: &Lanes, sent: &Sent, old: Option<u64>) -> bool {
    match old {
        Some(old) => plan.moment_of(old).is_some(),
        None => lanes.was_heard(sent, plan.old),
    }
}

/// Notes that a packet is not under way.
fn clear(waiting: &mut Vec<bool>, packet: u64) {
    if let Some(waits) = waiting.get_mut(packet as usize) {
        *waits = false;
    }
}

/// Lets an event happen in the new run, with its place in the old one, unless the new run is over. It is over where the world refuses
/// the event, which then is its last.
#[tactic(auto, using(crate::proofs::Coming::can_come, crate::proofs::Coming::filled, crate::proofs::Coming::settings_on))]
pub(crate) fn happen<K: Keeper>(
    world: &mut World<K>,
    course: &mut Course,
    plan: &BendPlan<'_>,
    event: &Event,
    origin: Option<usize>,
) -> Result<(), NoMemory>
    requires settings { HasHead plan.now world.old }
    requires told { IsTellable plan.now.head.now event.now }
    requires spared { IsSpared plan.now.bends.now course.old.lanes.olds.items event.now }
    ensures settings { HasHead plan.now world.new }
    ensures beside { (count : ℕ) → origin ≡ None → IsOn plan.now count course.old
        → OnOk result (IsOn plan.now count course.new) }
    ensures along { (count : ℕ) (was : Event) → origin ≡ Some count → slice_get plan.now.old.now.events count ≡ Some was → StandsFor was event.now
        → IsOn plan.now count course.old
        → OnOk result (IsOn plan.now (count + 1) course.new) }
    ensures plays { OnOk result (PlaysOn K.content plan.now world.old world.new course.old course.new) }
{
    if !course.enter(event, origin)? {
        return Ok(());
    }
    let stepped = world.step(event);
    course.close(world, plan, event, stepped)
}

/// Lets an event happen that is not in the old run, unless it is the delivery of a packet that is lost.
pub(crate) fn come<K: Keeper>(
    world: &mut World<K>,
    course: &mut Course,
    plan: &BendPlan<'_>,
    event: &Event,
) -> Result<(), NoMemory>
    requires settings { HasHead plan.now world.old }
    requires told { IsTellable plan.now.head.now event.now }
    ensures settings { HasHead plan.now world.new }
    ensures goes { (count : ℕ) → IsOn plan.now count course.old → OnOk result (IsOn plan.now count course.new) }
    ensures plays { OnOk result (PlaysOn K.content plan.now world.old world.new course.old course.new) }
{
    if !course.spares(plan, event) {
        return Ok(());
    }
    happen(world, course, plan, event, None)
}

/// All that is under way arrives, or all that is late at a place of the old run, until nothing is.
pub(crate) fn drain<K: Keeper, P: Patience>(
    world: &mut World<K>,
    course: &mut Course,
    plan: &BendPlan<'_>,
    late: Option<usize>,
    patience: &mut P,
) -> Result<(), BendFault>
    requires settings { HasHead plan.now world.old }
    ensures settings { HasHead plan.now world.new }
    ensures goes { (count : ℕ) → IsOn plan.now count course.old
        → OnOk result (IsOn plan.now count course.new) }
    ensures plays { OnOk result (PlaysOn K.content plan.now world.old world.new course.old course.new) }
{
    for turn in 0..MOST_EVENTS {
        if course.is_over {
            return Ok(());
        }
        if patience.is_over() {
            return Err(BendFault::Time);
        }
        let Some(packet) = course.next_waiting(plan, late) else {
            return Ok(());
        };
        come(world, course, plan, &Event::Deliver(packet))?;
    }
    Ok(())
}
