//! Receiving over the links.

ghost use Rattle.std.specs.Prelude.{◌≡◌, ◌<◌, ◌∷◌, [], length, map};
ghost use Rattle.nq_loop.specs.Holding.{IsLooping, Keeps, Loops, TakesFrom, loop_of};
ghost use Rattle.nq_loop.specs.Looping.{Brings, Step};
ghost use Rattle.nq_loop.specs.Sending.{place_of, told_of};
ghost use Rattle.nq_model.specs.protocol.World.{Head};
ghost use Rattle.nq_link.specs.Links.{most_bytes};

use crate::giving::give;
use crate::matching::{Letter, packet_of};
use crate::sending::place_of;
use crate::state::LoopWorld;
use crate::turns::Halt;
use nq_base::{Event, Party};
use nq_keeper::Keeper;
use nq_link::{Came, Link, MOST_BYTES};
use std::alloc::Global;

/// Receives once on a party's link, and takes in the datagram that came; answers whether one came.
#[tactic(auto, unfolding(nq_link::specs::Links::most_bytes))]
pub(crate) fn receive<K: Keeper, L: Link>(
    alloc: Global,
    looping: &mut LoopWorld<K>,
    links: &mut [L],
    party: Party,
) -> Result<bool, Halt>
    requires hosts { length looping.old.world.clients ≡ length looping.old.state.begun }
    requires there { place_of party < length links.old }
    ensures loops { (head : Head) → head.hosts ≡ length looping.old.state.begun
        → IsLooping head (loop_of K.content L.sent L.waiting L.faults L.receives looping.old.world looping.old.state looping.old.ran links.old)
        → Loops head (Step.receive party ∷ []) result
        (loop_of K.content L.sent L.waiting L.faults L.receives looping.old.world looping.old.state looping.old.ran links.old)
        (loop_of K.content L.sent L.waiting L.faults L.receives looping.new.world looping.new.state looping.new.ran links.new) }
    ensures keeps { Keeps result (K.faults looping.old.world.server.keeper) (K.faults looping.new.world.server.keeper)
        (length looping.old.world.clients) (length looping.new.world.clients) (length looping.old.state.begun) (length looping.new.state.begun) }
    ensures follows { K.follows looping.old.world.server.keeper looping.new.world.server.keeper }
{
    let mut buffer = [0; MOST_BYTES];
    let place = place_of(&party);
    match bring(links, place, &mut buffer) {
        Came::Nothing => Ok(false),
        Came::Failed => Err(Halt::Link),
        Came::Datagram { length, sender } => {
            let letter = Letter {
                sender,
                to: party,
                bytes: &buffer[..length],
            };
            take_in(alloc, looping, links, &letter)
        }
    }
}

/// Receives once on the link at a place.
fn bring<L: Link>(links: &mut [L], place: usize, buffer: &mut [u8]) -> Came
    requires there { place < length links.old }
    requires buffer { length buffer.old ≡ most_bytes }
    ensures { Brings result place (map (told_of L.sent L.waiting L.faults L.receives) links.old)
        (map (told_of L.sent L.waiting L.faults L.receives) links.new) buffer.new }
{
    links[place].receive(buffer)
}

/// Takes a datagram in as the delivery of the packet that it counts as, if it is one.
fn take_in<K: Keeper, L: Link>(
    alloc: Global,
    looping: &mut LoopWorld<K>,
    links: &mut [L],
    letter: &Letter<'_>,
) -> Result<bool, Halt>
    requires hosts { length looping.old.world.clients ≡ length looping.old.state.begun }
    ensures takes { (head : Head) → head.hosts ≡ length looping.old.state.begun
        → IsLooping head (loop_of K.content L.sent L.waiting L.faults L.receives looping.old.world looping.old.state looping.old.ran links.old)
        → TakesFrom head (record { sender = letter.now.sender; to = letter.now.to; bytes = letter.now.bytes.now }) result
        (loop_of K.content L.sent L.waiting L.faults L.receives looping.old.world looping.old.state looping.old.ran links.old)
        (loop_of K.content L.sent L.waiting L.faults L.receives looping.new.world looping.new.state looping.new.ran links.new) }
    ensures keeps { Keeps result (K.faults looping.old.world.server.keeper) (K.faults looping.new.world.server.keeper)
        (length looping.old.world.clients) (length looping.new.world.clients) (length looping.old.state.begun) (length looping.new.state.begun) }
    ensures follows { K.follows looping.old.world.server.keeper looping.new.world.server.keeper }
{
    match packet_of(alloc, looping.world.packets(), &looping.state, letter) {
        Ok(Some(number)) => {
            let event = Event::Deliver(number);
            give(alloc, looping, links, &event)
        }
        Ok(None) => Ok(true),
        Err(_) => Err(Halt::Memory),
    }
}
