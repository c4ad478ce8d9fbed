//! A world with leased directories as one in which a schedule with lists is played.

ghost use Rattle.std.specs.Prelude.{◌≡◌, ◌<◌, length, refl, OnOk, Option};
ghost use Rattle.nq_model.specs.protocol.Kept.{Kept};
ghost use Rattle.nq_model.specs.protocol.World.{Head};
ghost use Rattle.nq_names.specs.Playing.{CanComeOutside};
ghost use Rattle.nq_naming.specs.Going.{IsAtMoment};
ghost use Rattle.nq_naming.specs.Playing.{Moment as Reached, names_rules, with_find};
ghost use Rattle.nq_naming.specs.PlayingLaws.{acts-beside, acts-later, comes-later-outside, was-sent};
ghost use Rattle.nq_naming.specs.Text.{IsOfHost};
ghost use Rattle.nq_replay.specs.RulesLaws.{goes-further, goes-nowhere, goes-still, keeps-hosts};
ghost use Rattle.nq_world.specs.Playing.{GoesOn};

use crate::printing::push_find;
use crate::script::Aside;
use nq_base::{Event, Host, Name, NoMemory};
use nq_keeper::Keeper;
use nq_name_server::run::NameEvent;
use nq_names::NameWorld;
use nq_replay::play::{OuterWorld, packet_in};
use nq_world::Stepped;

/// A world with leased directories, and the lines of what was found in it. It ends with its world.
pub(crate) struct FindingWorld<K> {
    pub(crate) names: NameWorld<K>,
    pub(crate) found: Vec<u8>,
}

/// A host looks a name up, and the line of what it knows is appended.
fn find<K: Keeper>(
    world: &NameWorld<K>,
    found: &mut Vec<u8>,
    host: Host,
    name: &Name,
) -> Result<(), NoMemory>
    requires { host < length world.now.inner.clients }
    ensures { OnOk result ((head : Head) (m : Reached) (told : Option Kept) → IsAtMoment head m world.now told found.old.items
        → IsAtMoment head (with_find m host name.now) world.now told found.new.items) }
{
    let known = world.find(host, name);
    let events = world.ran().len() as u64;
    push_find(found, host, name, events, known)
}

impl<K: Keeper> OuterWorld for FindingWorld<K> {
    type Event = NameEvent;

    type Aside = Aside;

    ghost Moment = { Reached };

    ghost rules = { names_rules };

    ghost plays = { λ head m w. IsAtMoment head m w.names (K.content w.names.inner.server.keeper) w.found.items };

    ghost goes_on = { λ said old new. GoesOn K.faults K.follows said old.names.inner new.names.inner };

    ghost hosts = { λ w. length w.names.inner.clients };

    ghost longest = { λ w. w.names.inner.skew.window };

    ghost can_come = { λ w event. CanComeOutside (length w.names.inner.clients) w.names.inner.skew.window event };

    ghost can_act = { λ w aside. IsOfHost (length w.names.inner.clients) aside };

    fn of_schedule(event: Event) -> NameEvent {
        NameEvent::Plain(event)
    }

    fn packet_of(event: &NameEvent) -> Option<u64> {
        match event {
            NameEvent::Plain(event) => packet_in(event),
            NameEvent::List(..) => None,
        }
    }

    fn sent(&mut self) -> Result<u64, NoMemory> {
        self.names.sent()
    }

    fn step(&mut self, event: &NameEvent) -> Stepped {
        self.names.step(event)
    }

    fn act(&mut self, aside: Aside) -> Stepped {
        match aside {
            Aside::List(host, prefix) => {
                let event = NameEvent::List(host, prefix);
                self.names.step(&event)
            }
            Aside::Find(host, name) => match find(&self.names, &mut self.found, host, &name) {
                Ok(()) => Stepped::Done,
                Err(NoMemory::Memory) => Stepped::Memory,
            },
        }
    }

    ghost goes_nowhere = { λ w. goes-nowhere K.faults K.follows K.follows_itself w.names.inner };

    ghost goes_further = { λ said first second last. goes-further K.faults K.follows K.follows_on said first.names.inner second.names.inner last.names.inner };

    ghost goes_still = { λ said first last. goes-still K.faults K.follows said first.names.inner last.names.inner };

    ghost keeps_hosts = { λ first last. keeps-hosts K.faults K.follows first.names.inner last.names.inner };

    ghost comes_plainly = { λ w event can. can };

    ghost comes_later = { λ first last. comes-later-outside K.faults K.follows first.names.inner last.names.inner };

    ghost acts_later = { λ first last. acts-later K.faults K.follows first.names.inner last.names.inner };

    ghost one_more = { λ m event. refl };

    ghost acts_beside = { acts-beside };

    ghost was_sent = { was-sent };
}
