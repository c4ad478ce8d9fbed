//! One moment of a storm.

ghost use Rattle.std.specs.List.{AllByRecursion};
ghost use Rattle.std.specs.Prelude.{◌≡◌, ◌<◌, ◌≤◌, ◌+◌, ◌^◌, ◌++◌, ◌∷◌, [], ℕ, List, Option, IfSome, IsNone, length, reverse};
ghost use Rattle.nq_base.specs.declared.Event.{Event};
ghost use Rattle.nq_io.specs.Faults.{count_up};
ghost use Rattle.nq_model.specs.protocol.Stepped.{most_events, most_sent};
ghost use Rattle.nq_model.specs.protocol.World.{Head};
ghost use Rattle.nq_replay.specs.Going.{IsAt};
ghost use Rattle.nq_replay.specs.Reaching.{IsReached};
ghost use Rattle.nq_storm.specs.Asking.{AsksForNext};
ghost use Rattle.nq_storm.specs.Ending.{Gives, Halts, IsInStorm, KeepsOn, Stands, ending_of};
ghost use Rattle.nq_storm.specs.Storming.{IsChosen, IsOffered, word_behind};
ghost use Rattle.nq_storm.specs.declared.stormed.Stormed.{Stormed};
ghost use Rattle.nq_storm.specs.Rules.{Rule};
ghost use Rattle.nq_storm.specs.Stormy.{IsStormy};
ghost use Rattle.nq_world.specs.Playing.{HasSettings};

use crate::fates::{Fate, Offer, choose_event};
use crate::stormed::Stormed;
use nq_base::Event;
use nq_keeper::Keeper;
use nq_replay::play::{Delivered, note};
use nq_script::Schedule;
use nq_world::{Limit, MOST_EVENTS, MOST_SENT, Stepped, World};

/// The limit that is reached after so many events and packets, if one is.
fn limit_at(events: u32, sent: u64) -> Option<Limit>
    ensures some { IfSome result (λ limit. IsReached limit events sent) }
    ensures none { IsNone result → (events < most_events) × (sent ≤ most_sent) }
{
    if events >= MOST_EVENTS {
        Some(Limit::Events)
    } else if sent > MOST_SENT {
        Some(Limit::Packets)
    } else {
        None
    }
}

/// How the menu of this moment is laid out, with the word that was drawn for it.
fn offer_of<K: Keeper>(world: &World<K>, delivered: &mut Delivered, word: u32) -> Offer
    requires { length world.now.datagrams ≤ most_sent }
    ensures same { delivered.new ≡ delivered.old }
    ensures offers { (head : Head) (events : List Event) → IsAt head events world.now (K.content world.now.server.keeper) delivered.old
        → IsOffered head events word result }
{
    let sent = world.packets().len() as usize;
    let fresh = delivered.next(sent).unwrap_or(sent);
    Offer::new(sent as u32, fresh as u32, world.lawful_server_tick(), word)
}

/// How a storm ends where the world did not take an event in.
fn ending_of(stepped: Stepped) -> Stormed
    ensures { result ≡ ending_of stepped }
{
    match stepped {
        Stepped::Limit(limit) => Stormed::Limit(limit),
        Stepped::Fault => Stormed::Fault,
        // An event of the menu is no packet that was not sent, and breaks no skew.
        Stepped::Done | Stepped::NoPacket | Stepped::SkewBroken(_) | Stepped::Memory => {
            Stormed::Memory
        }
    }
}

/// Keeps an event at the end of `ran`, and gives it to the world. Where the world does not take it in, it is dropped from `ran`.
fn give<K: Keeper>(
    world: &mut World<K>,
    delivered: &mut Delivered,
    ran: &mut Schedule,
    event: &Event,
) -> Stormed
    requires stormy { IsStormy event.now }
    requires settings { HasSettings 4 60 30 world.old }
    ensures gives { (head : Head) (events : List Event) → IsAt head events world.old (K.content world.old.server.keeper) delivered.old
        → length world.old.datagrams ≤ length delivered.old
        → Gives result head events event.now world.new (K.content world.new.server.keeper) delivered.new }
    ensures kept { result ≡ Stormed.Done → ran.new ≡ ran.old ++ event.now ∷ [] }
    ensures same { (result ≡ Stormed.Done → ⊥) → ran.new ≡ ran.old }
    ensures keeps { KeepsOn K.faults K.follows result world.old world.new }
{
    match ran.push_filled(event) {
        Ok(()) => match world.step(event) {
            Stepped::Done => {
                note(delivered, event);
                Stormed::Done
            }
            refused => {
                ran.drop_last();
                ending_of(refused)
            }
        },
        Err(_) => Stormed::Memory,
    }
}

/// Gives the event that a fate chooses to the world. It stands at the end of `ran` if the world took it in.
pub(crate) fn pass_moment<K: Keeper>(
    world: &mut World<K>,
    delivered: &mut Delivered,
    fate: &mut dyn Fate,
    earlier: u32,
    word: u32,
    ran: &mut Schedule,
) -> Stormed
    requires settings { HasSettings 4 60 30 world.old }
    requires many { length ran.old ≡ earlier }
    ensures passes { result ≡ Stormed.Done → (head : Head) (start : ℕ) (first : Option Rule) → word ≡ word_behind start earlier
        → IsInStorm head start first (reverse ran.old) (told fate.old) world.old (K.content world.old.server.keeper) delivered.old
        → IsInStorm head start first (reverse ran.new) (told fate.new) world.new (K.content world.new.server.keeper) delivered.new }
    ensures halts { (result ≡ Stormed.Done → ⊥) → (head : Head) (events : List Event) → length events ≡ earlier
        → IsAt head events world.old (K.content world.old.server.keeper) delivered.old
        → Halts result head events × Stands result head events world.new (K.content world.new.server.keeper) }
    ensures asked { result ≡ Stormed.Done → asks fate.new ≡ count_up (asks fate.old) }
    ensures asks { AsksForNext 0 (asks fate.old) (asks fate.new) }
    ensures more { result ≡ Stormed.Done → length ran.new ≡ earlier + 1 }
    ensures same { (result ≡ Stormed.Done → ⊥) → ran.new ≡ ran.old }
    ensures stormy { AllByRecursion IsStormy ran.old → AllByRecursion IsStormy ran.new }
    ensures keeps { KeepsOn K.faults K.follows result world.old world.new }
{
    let sent = world.packets().len();
    if let Some(limit) = limit_at(earlier, sent) {
        return Stormed::Limit(limit);
    }
    let Ok(()) = delivered.reach(sent as usize) else {
        return Stormed::Memory;
    };
    let offer = offer_of(world, delivered, word);
    let event = choose_event(fate, &offer, earlier + 1);
    give(world, delivered, ran, &event)
}
