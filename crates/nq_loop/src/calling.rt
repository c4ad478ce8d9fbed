//! The calls of the hosts.

ghost use Rattle.std.specs.Prelude.{◌≡◌, ◌<◌, ◌≤◌, ◌∷◌, [], ℕ, List, length, slice_get, IfSome};
ghost use Rattle.nq_base.specs.declared.Event.{Event};
ghost use Rattle.nq_loop.specs.Holding.{IsLoopCall, IsLooping, Keeps, Loops, loop_of};
ghost use Rattle.nq_loop.specs.Looping.{Step, call_behind, is_busy};
ghost use Rattle.nq_model.specs.protocol.World.{Head, run};
ghost use Rattle.nq_world.specs.Playing.{Plays};

use crate::giving::give;
use crate::state::LoopWorld;
use crate::turns::Halt;
use nq_base::{Block, BlockNo, Call, Event, FileId, Host};
use nq_keeper::Keeper;
use nq_link::Link;
use nq_world::World;
use std::alloc::Global;

/// Begins the next call of a host, if it has one left and none under way; answers whether it began.
pub(crate) fn begin_call<K: Keeper, L: Link>(
    alloc: Global,
    looping: &mut LoopWorld<K>,
    links: &mut [L],
    host: u32,
) -> Result<bool, Halt>
    requires hosts { length looping.old.world.clients ≡ length looping.old.state.begun }
    requires there { host < length looping.old.state.begun }
    requires few { length looping.old.state.begun ≤ 64 }
    ensures loops { (head : Head) → head.hosts ≡ length looping.old.state.begun
        → IsLooping head (loop_of K.content L.sent L.waiting L.faults L.receives looping.old.world looping.old.state looping.old.ran links.old)
        → Loops head (Step.call host ∷ []) result
        (loop_of K.content L.sent L.waiting L.faults L.receives looping.old.world looping.old.state looping.old.ran links.old)
        (loop_of K.content L.sent L.waiting L.faults L.receives looping.new.world looping.new.state looping.new.ran links.new) }
    ensures keeps { Keeps result (K.faults looping.old.world.server.keeper) (K.faults looping.new.world.server.keeper)
        (length looping.old.world.clients) (length looping.new.world.clients) (length looping.old.state.begun) (length looping.new.state.begun) }
    ensures follows { K.follows looping.old.world.server.keeper looping.new.world.server.keeper }
{
    if is_busy(&looping.world, host) {
        return Ok(false);
    }
    let hosts = looping.state.hosts();
    let begun = looping.state.begun(Host(host));
    match call_behind(hosts, host, begun) {
        Some(call) => {
            let event = Event::Call {
                host: Host(host),
                call,
            };
            give(alloc, looping, links, &event)
        }
        None => Ok(false),
    }
}

/// Whether a call is under way at a host that is there.
pub fn is_busy<K: Keeper>(world: &World<K>, host: u32) -> bool
    requires { host < length world.now.clients }
    ensures { (head : Head) (events : List Event) → Plays head events world.now (K.content world.now.server.keeper)
        → result ≡ is_busy (slice_get (run head events).clients host) }
{
    match world.under_way(Host(host)) {
        Some(_) => true,
        None => false,
    }
}

/// What a host calls behind so many of its calls.
#[tactic(auto, using(crate::proofs::Calls::none_left))]
fn call_behind(hosts: u32, host: u32, begun: u8) -> Option<Call>
    requires there { host < hosts }
    requires few { hosts ≤ 64 }
    ensures call { result ≡ call_behind hosts host begun }
    ensures writes { IfSome result IsLoopCall }
{
    let file = FileId(1);
    match begun {
        0 => Some(Call::Write {
            file,
            block: BlockNo(host),
            body: Block::fill(100 + host),
        }),
        1 => Some(Call::Sync { file }),
        2 => Some(Call::Read {
            file,
            block: BlockNo((host + 1) % hosts),
        }),
        _ => None,
    }
}
