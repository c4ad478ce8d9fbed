//! Turns of a loop, one after another.

ghost use Rattle.std.specs.Prelude.{◌≡◌, ◌<◌, ◌&&◌, ℕ, List, length, slice_get};
ghost use Rattle.nq_clock.specs.Clocks.{clock_told};
ghost use Rattle.nq_base.specs.declared.Event.{Event};
ghost use Rattle.nq_loop.specs.Counting.{Counts};
ghost use Rattle.nq_loop.specs.Holding.{AreThere, CountsKeep, IsLooping, Stands, loop_of, moment_of};
ghost use Rattle.nq_loop.specs.Turning.{TakesTurns, all_answered, is_over, is_through};
ghost use Rattle.nq_model.specs.protocol.World.{Head};
ghost use Rattle.nq_world.specs.Playing.{Plays};

use crate::calling::is_busy;
use crate::state::{LoopState, LoopWorld};
use crate::turning::loop_turn;
use crate::turns::Halt;
use nq_base::Host;
use nq_clock::Clock;
use nq_keeper::Keeper;
use nq_link::Link;
use nq_world::World;
use std::alloc::Global;

/// Takes turns of a loop until all calls were answered, or so many turns were taken, or one stops.
pub(crate) fn take_turns<P: Keeper, L: Link, C: Clock>(
    alloc: Global,
    looping: &mut LoopWorld<P>,
    links: &mut [L],
    clock: &mut C,
    turns: u32,
) -> Result<(), Halt>
    requires { AreThere (length looping.old.world.clients) (length looping.old.state.begun) (length links.old) }
    ensures turns { (head : Head) → head.hosts ≡ length looping.old.state.begun
        → IsLooping head (loop_of P.content L.sent L.waiting L.faults L.receives looping.old.world looping.old.state looping.old.ran links.old)
        → TakesTurns head turns result
        (record {
          moment = moment_of (loop_of P.content L.sent L.waiting L.faults L.receives looping.old.world looping.old.state looping.old.ran links.old);
          clock = clock_told C.floor C.readings C.reads clock.old;
        })
        (record {
          moment = moment_of (loop_of P.content L.sent L.waiting L.faults L.receives looping.new.world looping.new.state looping.new.ran links.new);
          clock = clock_told C.floor C.readings C.reads clock.new;
        })
        × Stands head result (loop_of P.content L.sent L.waiting L.faults L.receives looping.new.world looping.new.state looping.new.ran links.new) }
    ensures faults { CountsKeep result (P.faults looping.old.world.server.keeper) (P.faults looping.new.world.server.keeper) }
    ensures follows { P.follows looping.old.world.server.keeper looping.new.world.server.keeper }
{
    for turn in 0..turns {
        if all_answered(&looping.world, &looping.state) {
            return Ok(());
        }
        match loop_turn(alloc, looping, links, clock) {
            Ok(_moved) => {}
            Err(why) => return Err(why),
        }
    }
    Ok(())
}

/// Whether all calls of all hosts were answered.
fn all_answered<P: Keeper>(world: &World<P>, state: &LoopState) -> bool
    requires { length world.now.clients ≡ length state.now.begun }
    ensures { (head : Head) (events : List Event) → head.hosts ≡ length state.now.begun → Plays head events world.now (P.content world.now.server.keeper)
        → Counts state.now.begun events → result ≡ all_answered head events }
{
    let mut all = true;
    for host in 0..state.hosts() {
        let through = is_through(world, state, host);
        all = both(all, through);
    }
    all
}

/// Whether the two are so.
fn both(one: bool, other: bool) -> bool
    ensures { result ≡ (one && other) }
{
    one && other
}

/// Whether a host has begun its three calls, and none is under way.
fn is_through<P: Keeper>(world: &World<P>, state: &LoopState, host: u32) -> bool
    requires there { host < length world.now.clients }
    requires hosts { length world.now.clients ≡ length state.now.begun }
    ensures { (head : Head) (events : List Event) → Plays head events world.now (P.content world.now.server.keeper)
        → Counts state.now.begun events → result ≡ is_through head events host }
{
    let begun = state.begun(Host(host));
    let busy = is_busy(world, host);
    is_over(begun, busy)
}

/// Whether a host is through that began so many of its calls, and has one under way or not.
fn is_over(begun: u8, busy: bool) -> bool
    ensures { result ≡ is_over begun busy }
{
    begun >= 3 && !busy
}
