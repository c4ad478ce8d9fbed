//! Bending a schedule.

ghost use Rattle.std.specs.List.{AllByRecursion};
ghost use Rattle.std.specs.Prelude.{◌≡◌, ◌≤◌, ◌<◌, ◌+◌, ℕ, List, [], IfOk, IfSome, None, OnOk, Option, Some, length, map, slice_get};
ghost use Rattle.nq_base.specs.declared.Event.{Event};
ghost use Rattle.nq_bend.specs.Bending.{EndsSo, Follows, IsSpared};
ghost use Rattle.nq_bend.specs.declared.bends.Bend.{Bend};
ghost use Rattle.nq_bend.specs.Course.{HasHead, IsCourse, IsOn, PlaysOn};
ghost use Rattle.nq_observe.specs.Told.{TellsEvent};
ghost use Rattle.nq_replay.specs.Schedules.{IsReady};
ghost use Rattle.nq_replay.specs.Texts.{IsTellable};
ghost use Rattle.nq_script.specs.Heads.{FitsHead};
ghost use Rattle.nq_script.specs.Lines.{once};
ghost use Rattle.nq_script.specs.Schedule.{SpellsSchedule};
ghost use Rattle.nq_world.specs.Beginning.{beginning};
ghost use Rattle.nq_world.specs.Playing.{Plays};

use crate::bends::{Bend, BendFault, Bent, Then};
use crate::course::{Course, come, drain, happen};
use crate::old::{Old, run_of};
use crate::plan::BendPlan;
use crate::puts::read_put;
use nq_base::{Event, NoMemory};
use nq_keeper::{Keeper, ListKeeper};
use nq_observe::Patience;
use nq_replay::schedule_text;
use nq_script::{Head, Line, Lines, Script};
use nq_world::{NewFault, World, begin};
use std::alloc::Global;

/// Bends a schedule: its run with these changes, as a schedule. Where the schedule has a fault, its run ends before it.
///
/// # Errors
///
/// - `Bad`: with the place of the first change that says nothing that can be done.
/// - `Memory`: memory was wanting.
/// - `Time`: no time was left before an event.
pub fn bend<P: Patience>(
    alloc: Global,
    script: &Script,
    bends: &[Bend],
    then: Then,
    patience: &mut P,
) -> Result<Bent, BendFault>
    requires { IsReady script.now }
    ensures spells { IfOk result (λ bent. SpellsSchedule script.now.head (map once bent.ran) bent.text.items) }
    ensures follows { IfOk result Follows }
    ensures ends { IfOk result (λ bent. EndsSo script.now.head bent.is_over bent.ran) }
    ensures spares { IfOk result (λ bent. AllByRecursion (IsSpared bends.now bent.matches.items) bent.ran) }
{
    let old = run_of(alloc, script, patience)?;
    let course = run_bent(alloc, &script.head, &old, bends, then, patience)?;
    let text = schedule_text(alloc, &script.head, &course.ran)?;
    Ok(whole(text, old, course))
}

/// A run that was bent, with the text of its schedule.
fn whole(text: Vec<u8>, old: Old, course: Course) -> Bent
    ensures { result ≡ record {
      text = text;
      old = old.events;
      ran = course.ran;
      origins = course.origins;
      matches = course.lanes.olds;
      left = course.left;
      is_over = course.is_over;
    } }
{
    let Old { events, .. } = old;
    let Course {
        ran,
        origins,
        left,
        lanes,
        is_over,
        ..
    } = course;
    Bent {
        text,
        old: events,
        ran,
        origins,
        matches: lanes.into_olds(),
        left,
        is_over,
    }
}

/// The run of a schedule with these changes.
fn run_bent<P: Patience>(
    alloc: Global,
    head: &Head,
    old: &Old,
    bends: &[Bend],
    then: Then,
    patience: &mut P,
) -> Result<Course, BendFault>
    requires fits { FitsHead head.now }
    requires told { AllByRecursion (IsTellable head.now) old.now.events }
    ensures goes { IfOk result (IsCourse head.now old.now.events bends.now (length old.now.events)) }
    ensures ends { IfOk result (λ c. EndsSo head.now c.is_over c.ran) }
{
    let plan = BendPlan {
        head,
        old,
        bends,
        then,
    };
    if let Some(place) = plan.first_bad() {
        return Err(BendFault::Bad(place));
    }
    let keeper = ListKeeper::new(alloc, Vec::new(alloc))?;
    let mut world = match begin(alloc, head, keeper) {
        Ok(world) => world,
        Err(NewFault::Memory(_keeper)) => return Err(BendFault::Memory),
        Err(NewFault::Failed(_keeper)) => return Err(BendFault::Memory),
    };
    let played = play(alloc, &mut world, &plan, patience);
    let _keeper = world.into_keeper();
    played
}

/// Plays the run of a schedule with these changes over a world.
fn play<K: Keeper, P: Patience>(
    alloc: Global,
    world: &mut World<K>,
    plan: &BendPlan<'_>,
    patience: &mut P,
) -> Result<Course, BendFault>
    requires fits { FitsHead plan.now.head.now }
    requires told { AllByRecursion (IsTellable plan.now.head.now) plan.now.old.now.events }
    requires settings { HasHead plan.now world.old }
    requires begins { Plays (beginning plan.now.head.now) [] world.old (K.content world.old.server.keeper) }
    ensures goes { IfOk result (IsOn plan.now (length plan.now.old.now.events)) }
    ensures ends { IfOk result (λ c. EndsSo plan.now.head.now c.is_over c.ran) }
{
    let mut course = Course::new(alloc, plan.head.hosts, plan.old)?;
    for place in 0..plan.old.events.len() {
        change(alloc, world, &mut course, plan, place, patience)?;
        keep(world, &mut course, plan, place)?;
    }
    finish(alloc, world, &mut course, plan, patience)?;
    Ok(course)
}

/// What happens behind the last event of the old run.
fn finish<K: Keeper, P: Patience>(
    alloc: Global,
    world: &mut World<K>,
    course: &mut Course,
    plan: &BendPlan<'_>,
    patience: &mut P,
) -> Result<(), BendFault>
    requires fits { FitsHead plan.now.head.now }
    requires settings { HasHead plan.now world.old }
    ensures goes { (count : ℕ) → IsOn plan.now count course.old → OnOk result (IsOn plan.now count course.new) }
    ensures plays { OnOk result (PlaysOn K.content plan.now world.old world.new course.old course.new) }
{
    let end = plan.old.events.len();
    change(alloc, world, course, plan, end, patience)?;
    match plan.then {
        Then::Stop => Ok(()),
        Then::GoOn => {
            drain(world, course, plan, None, patience)?;
            Ok(())
        }
    }
}

/// What happens before the event at a place of the old run: what is under way arrives, as far as it is to, and then the changes are
/// made.
fn change<K: Keeper, P: Patience>(
    alloc: Global,
    world: &mut World<K>,
    course: &mut Course,
    plan: &BendPlan<'_>,
    place: usize,
    patience: &mut P,
) -> Result<(), BendFault>
    requires fits { FitsHead plan.now.head.now }
    requires settings { HasHead plan.now world.old }
    ensures settings { HasHead plan.now world.new }
    ensures goes { (count : ℕ) → IsOn plan.now count course.old → OnOk result (IsOn plan.now count course.new) }
    ensures plays { OnOk result (PlaysOn K.content plan.now world.old world.new course.old course.new) }
{
    settle(world, course, plan, place, patience)?;
    for number in 0..plan.bends.len() {
        make(alloc, world, course, plan, place, number)?;
    }
    Ok(())
}

/// All that is under way arrives, if a flow ended before the event at a place of the old run, and what is late, if a clock ticks in it.
fn settle<K: Keeper, P: Patience>(
    world: &mut World<K>,
    course: &mut Course,
    plan: &BendPlan<'_>,
    place: usize,
    patience: &mut P,
) -> Result<(), BendFault>
    requires settings { HasHead plan.now world.old }
    ensures settings { HasHead plan.now world.new }
    ensures goes { (count : ℕ) → IsOn plan.now count course.old → OnOk result (IsOn plan.now count course.new) }
    ensures plays { OnOk result (PlaysOn K.content plan.now world.old world.new course.old course.new) }
{
    if plan.old.is_behind_flow(place) {
        return drain(world, course, plan, None, patience);
    }
    if plan.waits_at(place) {
        return drain(world, course, plan, Some(place), patience);
    }
    Ok(())
}

/// Makes the change of a number, if it is one before the event at a place.
fn make<K: Keeper>(
    alloc: Global,
    world: &mut World<K>,
    course: &mut Course,
    plan: &BendPlan<'_>,
    place: usize,
    number: usize,
) -> Result<(), BendFault>
    requires fits { FitsHead plan.now.head.now }
    requires settings { HasHead plan.now world.old }
    ensures settings { HasHead plan.now world.new }
    ensures goes { (count : ℕ) → IsOn plan.now count course.old → OnOk result (IsOn plan.now count course.new) }
    ensures plays { OnOk result (PlaysOn K.content plan.now world.old world.new course.old course.new) }
{
    let Some(bend) = plan.bends.get(number) else {
        return Ok(());
    };
    match bend {
        Bend::Put { at, line } if *at == place => {
            let Some(lines) = read_put(alloc, plan.head, line)? else {
                return Err(BendFault::Bad(number));
            };
            put_event(world, course, plan, &lines)?;
        }
        Bend::Later { packet, event } if *event == place => deliver(world, course, plan, *packet)?,
        Bend::Cut { host, at } if *at == place => course.set_cut(*host, true),
        Bend::Join { host, at } if *at == place => course.set_cut(*host, false),
        _ => {}
    }
    Ok(())
}

/// Lets happen what lines tell.
fn put_event<K: Keeper>(
    world: &mut World<K>,
    course: &mut Course,
    plan: &BendPlan<'_>,
    lines: &Lines,
) -> Result<(), NoMemory>
    requires told { AllByRecursion (TellsEvent plan.now.head.now) lines.now }
    requires settings { HasHead plan.now world.old }
    ensures settings { HasHead plan.now world.new }
    ensures goes { (count : ℕ) → IsOn plan.now count course.old → OnOk result (IsOn plan.now count course.new) }
    ensures plays { OnOk result (PlaysOn K.content plan.now world.old world.new course.old course.new) }
{
    for place in 0..lines.len() {
        put_line(world, course, plan, lines, place)?;
    }
    Ok(())
}

/// Lets happen what the line at a place tells.
#[tactic(auto, using(nq_observe::proofs::Telling::each_at))]
fn put_line<K: Keeper>(
    world: &mut World<K>,
    course: &mut Course,
    plan: &BendPlan<'_>,
    lines: &Lines,
    place: usize,
) -> Result<(), NoMemory>
    requires told { AllByRecursion (TellsEvent plan.now.head.now) lines.now }
    requires settings { HasHead plan.now world.old }
    ensures settings { HasHead plan.now world.new }
    ensures goes { (count : ℕ) → IsOn plan.now count course.old → OnOk result (IsOn plan.now count course.new) }
    ensures plays { OnOk result (PlaysOn K.content plan.now world.old world.new course.old course.new) }
{
    match lines.get(place) {
        Some(Line::Events { event, times }) => repeat(world, course, plan, &event, times),
        _ => Ok(()),
    }
}

/// Lets an event happen so many times that was not in the old run.
fn repeat<K: Keeper>(
    world: &mut World<K>,
    course: &mut Course,
    plan: &BendPlan<'_>,
    event: &Event,
    times: u32,
) -> Result<(), NoMemory>
    requires told { IsTellable plan.now.head.now event.now }
    requires settings { HasHead plan.now world.old }
    ensures settings { HasHead plan.now world.new }
    ensures goes { (count : ℕ) → IsOn plan.now count course.old → OnOk result (IsOn plan.now count course.new) }
    ensures plays { OnOk result (PlaysOn K.content plan.now world.old world.new course.old course.new) }
{
    for turn in 0..times {
        come(world, course, plan, event)?;
    }
    Ok(())
}

/// A packet of the old run arrives, if one of the new run is this one, and it is not cut off.
fn deliver<K: Keeper>(
    world: &mut World<K>,
    course: &mut Course,
    plan: &BendPlan<'_>,
    packet: u64,
) -> Result<(), NoMemory>
    requires settings { HasHead plan.now world.old }
    ensures settings { HasHead plan.now world.new }
    ensures goes { (count : ℕ) → IsOn plan.now count course.old → OnOk result (IsOn plan.now count course.new) }
    ensures plays { OnOk result (PlaysOn K.content plan.now world.old world.new course.old course.new) }
{
    let Some(new) = course.lanes.new_of(packet) else {
        return Ok(());
    };
    if course.is_cut(new) {
        return Ok(());
    }
    come(world, course, plan, &Event::Deliver(new))
}

/// Lets the event at a place of the old run happen, or leaves it out.
#[tactic(auto, using(nq_observe::proofs::Telling::each_at, crate::proofs::Coming::stands_self))]
fn keep<K: Keeper>(
    world: &mut World<K>,
    course: &mut Course,
    plan: &BendPlan<'_>,
    place: usize,
) -> Result<(), NoMemory>
    requires there { place < length plan.now.old.now.events }
    requires told { AllByRecursion (IsTellable plan.now.head.now) plan.now.old.now.events }
    requires settings { HasHead plan.now world.old }
    ensures settings { HasHead plan.now world.new }
    ensures goes { IsOn plan.now place course.old → OnOk result (IsOn plan.now (place + 1) course.new) }
    ensures plays { OnOk result (PlaysOn K.content plan.now world.old world.new course.old course.new) }
{
    let Some(event) = plan.old.events.get(place)? else {
        return Ok(());
    };
    match packet_of(&event) {
        Some(packet) => keep_delivery(world, course, plan, place, packet),
        None => happen(world, course, plan, &event, Some(place)),
    }
}

/// The packet that an event delivers; None where it is no delivery.
fn packet_of(event: &Event) -> Option<u64>
    ensures delivers { IfSome result (λ packet. event.now ≡ Event.Deliver packet) }
    ensures acts { result ≡ None → (bends : List Bend) (matches : List (Option ℕ)) → IsSpared bends matches event.now }
{
    match event {
        Event::Deliver(packet) => Some(*packet),
        Event::Call { .. } => None,
        Event::ServerTick => None,
        Event::ClientTick(_) => None,
        Event::Restart(_) => None,
        Event::Crash { .. } => None,
    }
}

/// Lets the delivery of a packet of the old run happen, or leaves it out.
fn keep_delivery<K: Keeper>(
    world: &mut World<K>,
    course: &mut Course,
    plan: &BendPlan<'_>,
    place: usize,
    packet: u64,
) -> Result<(), NoMemory>
    requires there { slice_get plan.now.old.now.events place ≡ Some (Event.Deliver packet) }
    requires settings { HasHead plan.now world.old }
    ensures settings { HasHead plan.now world.new }
    ensures goes { IsOn plan.now place course.old → OnOk result (IsOn plan.now (place + 1) course.new) }
    ensures plays { OnOk result (PlaysOn K.content plan.now world.old world.new course.old course.new) }
{
    match course.fate_of(plan, packet, place) {
        Ok(new) => {
            let event = Event::Deliver(new);
            happen(world, course, plan, &event, Some(place))?;
            double(world, course, plan, place, packet, &event)
        }
        Err(why) => course.leave(place, packet, why),
    }
}

/// Lets the delivery of a packet happen once more, if the packet arrives twice, and first arrived in the event at this place.
fn double<K: Keeper>(
    world: &mut World<K>,
    course: &mut Course,
    plan: &BendPlan<'_>,
    place: usize,
    packet: u64,
    event: &Event,
) -> Result<(), NoMemory>
    requires told { IsTellable plan.now.head.now event.now }
    requires settings { HasHead plan.now world.old }
    ensures settings { HasHead plan.now world.new }
    ensures goes { (count : ℕ) → IsOn plan.now count course.old → OnOk result (IsOn plan.now count course.new) }
    ensures plays { OnOk result (PlaysOn K.content plan.now world.old world.new course.old course.new) }
{
    if plan.is_doubled(packet) && plan.old.arrives_first(packet, place) {
        return come(world, course, plan, event);
    }
    Ok(())
}
