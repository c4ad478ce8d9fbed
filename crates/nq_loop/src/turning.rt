//! Turns of a loop.

ghost use Rattle.std.specs.Prelude.{◌≡◌, length};
ghost use Rattle.nq_clock.specs.Clocks.{clock_told};
ghost use Rattle.nq_loop.specs.Holding.{AreThere, IsLooping, Keeps, Turns, loop_of};
ghost use Rattle.nq_loop.specs.Looping.{rounds_due};
ghost use Rattle.nq_model.specs.protocol.World.{Head};

use crate::deeds::take_steps;
use crate::state::LoopWorld;
use crate::turns::Halt;
use nq_base::Ticks;
use nq_clock::Clock;
use nq_keeper::Keeper;
use nq_link::Link;
use std::alloc::Global;

/// The most rounds of a turn.
const MOST_ROUNDS: u64 = 60;

/// A turn of a loop. It reads the clock once. It gives as many rounds as the reading is above the server's time, but at most 60. Then it
/// begins, in order of the hosts, the next call of each host that has a call left and none under way. Then it receives once on the server's
/// link and once on each host's, in order of the hosts; a datagram counts as the delivery of the least packet that equals it in bytes,
/// sender and receiver and was never delivered, else of the least that equals it, and any other is dropped. Each packet that an event
/// sends is sent at once, in order, on its sender's link. The events that were taken in are added to `ran`. It answers whether a round was
/// given, a call began, or a datagram came.
///
/// # Errors
///
/// `Link` only where a link counted a fault, `Keep` only where the keeper did, `Memory` where memory was refused, and `Limit` where 100,000
/// events or more than 999,936 packets came before the next event. What was done before stays done, and `ran` shows it.
pub fn loop_turn<K: Keeper, L: Link, C: Clock>(
    alloc: Global,
    looping: &mut LoopWorld<K>,
    links: &mut [L],
    clock: &mut C,
) -> Result<bool, Halt>
    requires { AreThere (length looping.old.world.clients) (length looping.old.state.begun) (length links.old) }
    ensures turn { (head : Head) → head.hosts ≡ length looping.old.state.begun
        → IsLooping head (loop_of K.content L.sent L.waiting L.faults L.receives looping.old.world looping.old.state looping.old.ran links.old)
        → Turns head result (clock_told C.floor C.readings C.reads clock.old) (clock_told C.floor C.readings C.reads clock.new)
        (loop_of K.content L.sent L.waiting L.faults L.receives looping.old.world looping.old.state looping.old.ran links.old)
        (loop_of K.content L.sent L.waiting L.faults L.receives looping.new.world looping.new.state looping.new.ran links.new) }
    ensures keeps { Keeps result (K.faults looping.old.world.server.keeper) (K.faults looping.new.world.server.keeper)
        (length looping.old.world.clients) (length looping.new.world.clients) (length looping.old.state.begun) (length looping.new.state.begun) }
    ensures follows { K.follows looping.old.world.server.keeper looping.new.world.server.keeper }
{
    let reading = clock.now();
    let rounds = rounds_due(looping.world.server_time(), reading);
    take_steps(alloc, looping, links, rounds)
}

/// The rounds that are due where the server's clock shows this time.
fn rounds_due(time: Ticks, reading: Ticks) -> u64
    ensures { result ≡ rounds_due time reading }
{
    reading.0.saturating_sub(time.0).min(MOST_ROUNDS)
}
