//! Giving events to the world of a loop.

ghost use Rattle.std.specs.Prelude.{◌≡◌, ◌≤◌, ◌++◌, ◌∷◌, [], List, length, OnErr, OnOk};
ghost use Rattle.nq_base.specs.declared.Event.{Event};
ghost use Rattle.nq_loop.specs.Holding.{GivesTo, IsLooped, IsLooping, Keeps, loop_of};
ghost use Rattle.nq_loop.specs.Looping.{halt_of, moved};
ghost use Rattle.nq_model.specs.protocol.World.{Head};
ghost use Rattle.nq_replay.specs.Delivering.{Marks};
ghost use Rattle.nq_script.specs.Lines.{IsFilledEvent};

use crate::sending::send_from;
use crate::state::{LoopState, LoopWorld};
use crate::turns::Halt;
use nq_base::{Event, NoMemory};
use nq_keeper::Keeper;
use nq_link::Link;
use nq_script::Schedule;
use nq_world::{Stepped, World};
use std::alloc::Global;

/// Gives an event to the world, and sends what it sends. It is kept at the end of `ran`, and dropped where the world does not take it in.
/// It always moves something, if it does not stop.
pub(crate) fn give<K: Keeper, L: Link>(
    alloc: Global,
    looping: &mut LoopWorld<K>,
    links: &mut [L],
    event: &Event,
) -> Result<bool, Halt>
    requires hosts { length looping.old.world.clients ≡ length looping.old.state.begun }
    requires looped { IsLooped (length looping.old.state.begun) event.now }
    ensures gives { (head : Head) → head.hosts ≡ length looping.old.state.begun
        → IsLooping head (loop_of K.content L.sent L.waiting L.faults L.receives looping.old.world looping.old.state looping.old.ran links.old)
        → GivesTo head event.now result (loop_of K.content L.sent L.waiting L.faults L.receives looping.old.world looping.old.state looping.old.ran links.old)
        (loop_of K.content L.sent L.waiting L.faults L.receives looping.new.world looping.new.state looping.new.ran links.new) }
    ensures keeps { Keeps result (K.faults looping.old.world.server.keeper) (K.faults looping.new.world.server.keeper)
        (length looping.old.world.clients) (length looping.new.world.clients) (length looping.old.state.begun) (length looping.new.state.begun) }
    ensures follows { K.follows looping.old.world.server.keeper looping.new.world.server.keeper }
{
    let sent = looping.world.packets().len();
    match keep(&mut looping.state, &mut looping.ran, sent as usize, event) {
        Ok(()) => match looping.world.step(event) {
            Stepped::Done => {
                looping.state.note(event);
                moved(send_from(alloc, looping.world.packets(), links, sent))
            }
            refused => {
                looping.ran.drop_last();
                Err(halt_of(refused))
            }
        },
        Err(_) => Err(Halt::Memory),
    }
}

/// Makes room for so many packets that can be delivered, and keeps an event at the end of `ran`.
fn keep(
    state: &mut LoopState,
    ran: &mut Schedule,
    sent: usize,
    event: &Event,
) -> Result<(), NoMemory>
    requires { IsFilledEvent event.now }
    ensures kept { OnOk result (ran.new ≡ ran.old ++ event.now ∷ []) }
    ensures refused { OnErr result (ran.new ≡ ran.old) }
    ensures same { (events : List Event) → Marks state.old.flags events → Marks state.new.flags events }
    ensures begun { state.new.begun ≡ state.old.begun }
    ensures reached { OnOk result (sent ≤ length state.new.flags) }
{
    state.reach(sent)?;
    ran.push_filled(event)
}

/// What an event that was taken in answers, by how sending ended.
fn moved(sent: Result<(), Halt>) -> Result<bool, Halt>
    ensures { result ≡ moved sent }
{
    match sent {
        Ok(()) => Ok(true),
        Err(why) => Err(why),
    }
}

/// Why a loop stops where the world did not take an event in.
fn halt_of(stepped: Stepped) -> Halt
    ensures { result ≡ halt_of stepped }
{
    match stepped {
        Stepped::Limit(limit) => Halt::Limit(limit),
        Stepped::Fault => Halt::Keep,
        // An event of a loop delivers a packet that was sent, and breaks no skew.
        Stepped::Done | Stepped::NoPacket | Stepped::SkewBroken(_) | Stepped::Memory => {
            Halt::Memory
        }
    }
}
