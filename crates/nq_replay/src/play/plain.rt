//! The world of the protocol as one in which a schedule is played.

ghost use Rattle.std.specs.Prelude.{length, refl, List};
ghost use Rattle.nq_base.specs.declared.Event.{Event};
ghost use Rattle.nq_replay.specs.Playing.{plain_rules};
ghost use Rattle.nq_replay.specs.RulesLaws.{comes-later, goes-further, goes-nowhere, goes-still, keeps-hosts, took-same, was-sent};
ghost use Rattle.nq_world.specs.Playing.{CanCome, GoesOn, Plays};

use crate::play::delivered::packet_in;
use crate::play::world::OuterWorld;
use nq_base::{Event, NoMemory};
use nq_keeper::Keeper;
use nq_world::{Stepped, World};

impl<K: Keeper> OuterWorld for World<K> {
    type Event = Event;

    /// It has no asides: a line that said one would change nothing.
    type Aside = ();

    ghost Moment = { List Event };

    ghost rules = { plain_rules };

    ghost plays = { λ head events w. Plays head events w (K.content w.server.keeper) };

    ghost goes_on = { λ said old new. GoesOn K.faults K.follows said old new };

    ghost hosts = { λ w. length w.clients };

    ghost longest = { λ w. w.skew.window };

    ghost can_come = { λ w event. CanCome (length w.clients) w.skew.window event };

    ghost can_act = { λ w aside. Unit {0} };

    fn of_schedule(event: Event) -> Event {
        event
    }

    fn packet_of(event: &Event) -> Option<u64> {
        packet_in(event)
    }

    fn sent(&mut self) -> Result<u64, NoMemory> {
        Ok(self.packets().len())
    }

    fn step(&mut self, event: &Event) -> Stepped {
        self.step(event)
    }

    fn act(&mut self, _aside: ()) -> Stepped {
        Stepped::Done
    }

    ghost goes_nowhere = { λ w. goes-nowhere K.faults K.follows K.follows_itself w };

    ghost goes_further = { λ said first second last. goes-further K.faults K.follows K.follows_on said first second last };

    ghost goes_still = { λ said first last. goes-still K.faults K.follows said first last };

    ghost keeps_hosts = { λ first last. keeps-hosts K.faults K.follows first last };

    ghost comes_plainly = { λ w event can. can };

    ghost comes_later = { λ first last event. comes-later K.faults K.follows first last event };

    ghost acts_later = { λ first last aside goes can. can };

    ghost one_more = { λ events event. refl };

    ghost acts_beside = { λ head aside events next is. took-same events next is };

    ghost was_sent = { was-sent };
}
