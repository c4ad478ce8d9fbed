//! A staged world as one in which a schedule is played.

ghost use Rattle.std.specs.Prelude.{List, length, refl};
ghost use Rattle.nq_replay.specs.RulesLaws.{goes-nowhere, goes-further, goes-still, keeps-hosts};
ghost use Rattle.nq_staged.specs.Playing.{staged_rules};
ghost use Rattle.nq_staged.specs.PlayingLaws.{comes-later-outside, offers-beside, offers-later, was-sent};
ghost use Rattle.nq_staged.specs.Text.{IsOfHost};
ghost use Rattle.nq_staged.specs.Worlds.{CanComeOutside, PlaysOutside};
ghost use Rattle.nq_stage.specs.declared.run.event.StagedEvent.{StagedEvent};
ghost use Rattle.nq_world.specs.Playing.{GoesOn};

use crate::commit::StagedWorld;
use crate::offer::Offer;
use nq_base::{Event, NoMemory};
use nq_keeper::Keeper;
use nq_replay::play::{OuterWorld, packet_in};
use nq_stage::run::StagedEvent;
use nq_world::Stepped;

impl<K: Keeper> OuterWorld for StagedWorld<K> {
    type Event = StagedEvent;

    type Aside = Offer;

    ghost Moment = { List StagedEvent };

    ghost rules = { staged_rules };

    ghost plays = { λ head events w. PlaysOutside head events w (K.content w.inner.server.keeper) };

    ghost goes_on = { λ said old new. GoesOn K.faults K.follows said old.inner new.inner };

    ghost hosts = { λ w. length w.inner.clients };

    ghost longest = { λ w. w.inner.skew.window };

    ghost can_come = { λ w event. CanComeOutside (length w.inner.clients) w.inner.skew.window event };

    ghost can_act = { λ w offer. IsOfHost (length w.inner.clients) offer };

    fn of_schedule(event: Event) -> StagedEvent {
        StagedEvent::Plain(event)
    }

    fn packet_of(event: &StagedEvent) -> Option<u64> {
        match event {
            StagedEvent::Plain(event) => packet_in(event),
            StagedEvent::Stage(_) => None,
        }
    }

    fn sent(&mut self) -> Result<u64, NoMemory> {
        self.sent()
    }

    fn step(&mut self, event: &StagedEvent) -> Stepped {
        self.step(event)
    }

    fn act(&mut self, offer: Offer) -> Stepped {
        let event = StagedEvent::Stage(offer.host);
        self.step(&event)
    }

    ghost goes_nowhere = { λ w. goes-nowhere K.faults K.follows K.follows_itself w.inner };

    ghost goes_further = { λ said first second last. goes-further K.faults K.follows K.follows_on said first.inner second.inner last.inner };

    ghost goes_still = { λ said first last. goes-still K.faults K.follows said first.inner last.inner };

    ghost keeps_hosts = { λ first last. keeps-hosts K.faults K.follows first.inner last.inner };

    ghost comes_plainly = { λ w event can. can };

    ghost comes_later = { λ first last. comes-later-outside K.faults K.follows first.inner last.inner };

    ghost acts_later = { λ first last offer goes can. offers-later K.faults K.follows first.inner last.inner offer goes can };

    ghost one_more = { λ events event. refl };

    ghost acts_beside = { offers-beside };

    ghost was_sent = { was-sent };
}
