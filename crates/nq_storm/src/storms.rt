//! Storms over a world.

ghost use Rattle.std.specs.List.{AllByRecursion};
ghost use Rattle.std.specs.Prelude.{◌≡◌, ◌<◌, [], length, reverse};
ghost use Rattle.nq_model.specs.protocol.World.{Head};
ghost use Rattle.nq_storm.specs.Asking.{AsksOnce};
ghost use Rattle.nq_storm.specs.Ending.{CountsFaults, Storms};
ghost use Rattle.nq_storm.specs.Stormy.{IsStormy};
ghost use Rattle.nq_world.specs.Playing.{HasSettings, Plays};

use crate::fates::{Fate, RandomWords};
use crate::moments::pass_moment;
use crate::stormed::Stormed;
use nq_keeper::Keeper;
use nq_replay::play::Delivered;
use nq_script::Schedule;
use nq_world::World;
use std::alloc::Global;

/// Gives so many events to a world of four hosts with terms of at most 60 ticks, in which nothing was played before. The word of each
/// event follows from `start`, and is drawn before the fate is asked, which is asked once for each event. Nothing is assumed of its
/// answers. The events that the world took in stand in `ran`, whatever the answer is.
///
/// `Limit` comes exactly where 100,000 events or more than 999,936 packets came before the next event, and `Fault` exactly where the
/// keeper counted a fault.
pub(crate) fn storm<K: Keeper>(
    alloc: Global,
    world: &mut World<K>,
    fate: &mut dyn Fate,
    start: u64,
    events: u32,
    ran: &mut Schedule,
) -> Stormed
    requires settings { HasSettings 4 60 30 world.old }
    requires empty { ran.old ≡ [] }
    ensures storms { (head : Head) → Plays head [] world.old (K.content world.old.server.keeper)
        → Storms result head start events (told fate.old) (reverse ran.new) world.new (K.content world.new.server.keeper) }
    ensures asks { AsksOnce result (length ran.new) (asks fate.old) (asks fate.new) }
    ensures early { (result ≡ Stormed.Done → ⊥) → length ran.new < events }
    ensures whole { result ≡ Stormed.Done → length ran.new ≡ events }
    ensures stormy { AllByRecursion IsStormy ran.new }
    ensures faults { CountsFaults result (K.faults world.old.server.keeper) (K.faults world.new.server.keeper) }
    ensures follows { K.follows world.old.server.keeper world.new.server.keeper }
{
    let mut words = RandomWords::new(start);
    let mut delivered = Delivered::new(alloc);
    for earlier in 0..events {
        let word = words.draw();
        match pass_moment(world, &mut delivered, &mut *fate, earlier, word, ran) {
            Stormed::Done => {}
            ended => return ended,
        }
    }
    Stormed::Done
}
