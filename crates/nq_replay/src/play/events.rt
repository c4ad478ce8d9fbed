//! Events, one after another.

ghost use Rattle.std.specs.Prelude.{◌≡◌, ◌≤◌, length};
ghost use Rattle.nq_base.specs.declared.Event.{Event};
ghost use Rattle.nq_model.specs.protocol.World.{Head};
ghost use Rattle.nq_replay.specs.AsidesGoing.{Goes};
ghost use Rattle.nq_replay.specs.AsidesPlaying.{repeated};
ghost use Rattle.nq_replay.specs.Delivering.{Marks};
ghost use Rattle.nq_replay.specs.Rules.{packet_of, play_event, play_flow, play_plainly, play_round, play_ticks};
ghost use Rattle.nq_replay.specs.RulesGoing.{IsAt, IsFlagged};
ghost use Rattle.nq_world.specs.Playing.{CanCome};

use crate::play::delivered::Delivered;
use crate::play::world::OuterWorld;
use nq_base::{Event, Host};
use nq_world::{Limit, Stepped};

/// Notes an event that was taken, if it is the delivery of a packet with a flag.
fn note_of<W: OuterWorld>(delivered: &mut Delivered, event: &W::Event)
    ensures { IsFlagged (length delivered.old) (packet_of (W.rules.in_schedule event.now))
        → (moment : W.Moment) → Marks delivered.old (W.rules.scheduled moment) → Marks delivered.new (W.rules.scheduled (W.rules.more moment event.now)) }
{
    match W::packet_of(event) {
        Some(packet) => delivered.mark(packet as usize),
        None => {}
    }
}

/// Gives an event to a world, and notes which packet was delivered.
pub(crate) fn take_event<W: OuterWorld>(
    world: &mut W,
    delivered: &mut Delivered,
    event: &W::Event,
) -> Stepped
    requires { W.can_come world.old event.now }
    ensures goes { (head : Head) (moment : W.Moment) → IsAt W.rules W.plays head moment world.old delivered.old
        → Goes result (play_event W.rules head event.now moment) (λ next. IsAt W.rules W.plays head next world.new delivered.new) }
    ensures keeps { W.goes_on result world.old world.new }
{
    let Ok(sent) = world.sent() else {
        return Stepped::Memory;
    };
    let Ok(()) = delivered.reach(sent as usize) else {
        return Stepped::Memory;
    };
    match world.step(event) {
        Stepped::Done => {
            note_of::<W>(delivered, event);
            Stepped::Done
        }
        other => other,
    }
}

/// Gives an event of a schedule to a world.
pub(crate) fn take_plainly<W: OuterWorld>(
    world: &mut W,
    delivered: &mut Delivered,
    event: Event,
) -> Stepped
    requires { CanCome (W.hosts world.old) (W.longest world.old) event }
    ensures goes { (head : Head) (moment : W.Moment) → IsAt W.rules W.plays head moment world.old delivered.old
        → Goes result (play_plainly W.rules head event moment) (λ next. IsAt W.rules W.plays head next world.new delivered.new) }
    ensures keeps { W.goes_on result world.old world.new }
{
    let event = W::of_schedule(event);
    take_event(world, delivered, &event)
}

/// Gives an event so many times.
pub(crate) fn take_times<W: OuterWorld>(
    world: &mut W,
    delivered: &mut Delivered,
    event: &W::Event,
    times: u32,
) -> Stepped
    requires { W.can_come world.old event.now }
    ensures goes { (head : Head) (moment : W.Moment) → IsAt W.rules W.plays head moment world.old delivered.old
        → Goes result (repeated times (play_event W.rules head event.now) moment) (λ next. IsAt W.rules W.plays head next world.new delivered.new) }
    ensures keeps { W.goes_on result world.old world.new }
{
    for turn in 0..times {
        match take_event(world, delivered, event) {
            Stepped::Done => {}
            other => return other,
        }
    }
    Stepped::Done
}

/// The clocks of so many hosts tick.
fn tick_hosts<W: OuterWorld>(world: &mut W, delivered: &mut Delivered, hosts: u32) -> Stepped
    requires { hosts ≤ W.hosts world.old }
    ensures goes { (head : Head) (moment : W.Moment) → IsAt W.rules W.plays head moment world.old delivered.old
        → Goes result (play_ticks W.rules head 0 hosts moment) (λ next. IsAt W.rules W.plays head next world.new delivered.new) }
    ensures keeps { W.goes_on result world.old world.new }
{
    for host in 0..hosts {
        match take_plainly(world, delivered, Event::ClientTick(Host(host))) {
            Stepped::Done => {}
            other => return other,
        }
    }
    Stepped::Done
}

/// The clock of each host ticks, then the server's.
fn round<W: OuterWorld>(world: &mut W, delivered: &mut Delivered, hosts: u32) -> Stepped
    requires { hosts ≤ W.hosts world.old }
    ensures goes { (head : Head) (moment : W.Moment) → head.hosts ≡ hosts → IsAt W.rules W.plays head moment world.old delivered.old
        → Goes result (play_round W.rules head moment) (λ next. IsAt W.rules W.plays head next world.new delivered.new) }
    ensures keeps { W.goes_on result world.old world.new }
{
    match tick_hosts(world, delivered, hosts) {
        Stepped::Done => take_plainly(world, delivered, Event::ServerTick),
        other => other,
    }
}

/// So many rounds.
pub(crate) fn rounds<W: OuterWorld>(
    world: &mut W,
    delivered: &mut Delivered,
    hosts: u32,
    times: u32,
) -> Stepped
    requires { hosts ≤ W.hosts world.old }
    ensures goes { (head : Head) (moment : W.Moment) → head.hosts ≡ hosts → IsAt W.rules W.plays head moment world.old delivered.old
        → Goes result (repeated times (play_round W.rules head) moment) (λ next. IsAt W.rules W.plays head next world.new delivered.new) }
    ensures keeps { W.goes_on result world.old world.new }
{
    for turn in 0..times {
        match round(world, delivered, hosts) {
            Stepped::Done => {}
            other => return other,
        }
    }
    Stepped::Done
}

/// The least packet that was never delivered is delivered, again and again, until each packet was; so many deliveries are too
/// many events.
pub(crate) fn flow<W: OuterWorld>(world: &mut W, delivered: &mut Delivered, most: u32) -> Stepped
    ensures goes { (head : Head) (moment : W.Moment) → IsAt W.rules W.plays head moment world.old delivered.old
        → Goes result (play_flow W.rules head most moment) (λ next. IsAt W.rules W.plays head next world.new delivered.new) }
    ensures keeps { W.goes_on result world.old world.new }
{
    for turn in 0..most {
        let Ok(sent) = world.sent() else {
            return Stepped::Memory;
        };
        match delivered.next(sent as usize) {
            None => return Stepped::Done,
            Some(packet) => match take_plainly(world, delivered, Event::Deliver(packet as u64)) {
                Stepped::Done => {}
                other => return other,
            },
        }
    }
    Stepped::Limit(Limit::Events)
}
