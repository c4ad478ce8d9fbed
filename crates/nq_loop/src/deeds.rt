//! The steps of a turn, one after another.

ghost use Rattle.std.specs.Prelude.{◌≡◌, ◌≤◌, ◌||◌, ◌∷◌, [], length};
ghost use Rattle.nq_loop.specs.Holding.{AreThere, IsLooping, Keeps, Loops, loop_of};
ghost use Rattle.nq_loop.specs.Looping.{IsAmong, step_of, turn_steps};
ghost use Rattle.nq_model.specs.protocol.World.{Head};

use crate::calling::begin_call;
use crate::giving::give;
use crate::places::{deed_at, step_count};
use crate::receiving::receive;
use crate::state::LoopWorld;
use crate::turns::{Deed, Halt};
use nq_base::{Event, Host};
use nq_keeper::Keeper;
use nq_link::Link;
use std::alloc::Global;

/// Makes the steps of a turn with so many rounds; answers whether one of them moved anything.
pub(crate) fn take_steps<K: Keeper, L: Link>(
    alloc: Global,
    looping: &mut LoopWorld<K>,
    links: &mut [L],
    rounds: u64,
) -> Result<bool, Halt>
    requires there { AreThere (length looping.old.world.clients) (length looping.old.state.begun) (length links.old) }
    requires rounds { rounds ≤ 60 }
    ensures loops { (head : Head) → head.hosts ≡ length looping.old.state.begun
        → IsLooping head (loop_of K.content L.sent L.waiting L.faults L.receives looping.old.world looping.old.state looping.old.ran links.old)
        → Loops head (turn_steps head.hosts rounds) result
        (loop_of K.content L.sent L.waiting L.faults L.receives looping.old.world looping.old.state looping.old.ran links.old)
        (loop_of K.content L.sent L.waiting L.faults L.receives looping.new.world looping.new.state looping.new.ran links.new) }
    ensures keeps { Keeps result (K.faults looping.old.world.server.keeper) (K.faults looping.new.world.server.keeper)
        (length looping.old.world.clients) (length looping.new.world.clients) (length looping.old.state.begun) (length looping.new.state.begun) }
    ensures follows { K.follows looping.old.world.server.keeper looping.new.world.server.keeper }
{
    let hosts = looping.state.hosts();
    let mut any = false;
    for place in 0..step_count(hosts, rounds) {
        let deed = deed_at(hosts, rounds, place);
        match take_step(alloc, looping, links, deed) {
            Ok(more) => any = either(any, more),
            Err(why) => return Err(why),
        }
    }
    Ok(any)
}

/// Whether one of the two is so.
fn either(one: bool, other: bool) -> bool
    ensures { result ≡ (one || other) }
{
    one || other
}

/// Makes a step of a turn; answers whether it moved anything.
fn take_step<K: Keeper, L: Link>(
    alloc: Global,
    looping: &mut LoopWorld<K>,
    links: &mut [L],
    deed: Deed,
) -> Result<bool, Halt>
    requires there { AreThere (length looping.old.world.clients) (length looping.old.state.begun) (length links.old) }
    requires among { IsAmong (length looping.old.state.begun) deed }
    ensures loops { (head : Head) → head.hosts ≡ length looping.old.state.begun
        → IsLooping head (loop_of K.content L.sent L.waiting L.faults L.receives looping.old.world looping.old.state looping.old.ran links.old)
        → Loops head (step_of deed ∷ []) result
        (loop_of K.content L.sent L.waiting L.faults L.receives looping.old.world looping.old.state looping.old.ran links.old)
        (loop_of K.content L.sent L.waiting L.faults L.receives looping.new.world looping.new.state looping.new.ran links.new) }
    ensures keeps { Keeps result (K.faults looping.old.world.server.keeper) (K.faults looping.new.world.server.keeper)
        (length looping.old.world.clients) (length looping.new.world.clients) (length looping.old.state.begun) (length looping.new.state.begun) }
    ensures follows { K.follows looping.old.world.server.keeper looping.new.world.server.keeper }
{
    match deed {
        Deed::Tick(host) => {
            let tick = Event::ClientTick(Host(host));
            give(alloc, looping, links, &tick)
        }
        Deed::ServerTick => {
            let tick = Event::ServerTick;
            give(alloc, looping, links, &tick)
        }
        Deed::Call(host) => begin_call(alloc, looping, links, host),
        Deed::Receive(party) => receive(alloc, looping, links, party),
    }
}
