//! Serving: a server boots, and takes turns.

ghost use Rattle.std.specs.Prelude.{◌≡◌, ◌<◌, ◌≤◌, ◌^◌, Err};
ghost use Rattle.nq_serving.specs.LeavingTurns.{LeavesRuns, LeavesServing};
ghost use Rattle.nq_serving.specs.Running.{HaltsBy, halt_of};
ghost use Rattle.nq_serving.specs.declared.turning.LinkPolicy.{LinkPolicy};
ghost use Rattle.nq_serving.specs.Extending.{extension_told};
ghost use Rattle.nq_serving.specs.Leaving.{IsSettled};
ghost use Rattle.nq_clock.specs.Clocks.{clock_told};
ghost use Rattle.nq_link.specs.Links.{link_told};
ghost use Rattle.nq_server.specs.Holding.{keeper_in};

use crate::extending::Extension;
use crate::node::Node;
use crate::turning::{LinkPolicy, Turns, take_turns};
use crate::watching::Watcher;
use nq_base::Ticks;
use nq_base::ending::{Ended, Fault};
use nq_clock::Clock;
use nq_keeper::Keeper;
use nq_link::Link;
use nq_server::{BootFault, Server};
use std::alloc::Global;

/// The most turns that are taken: more than a machine takes in a thousand years, and few enough that none is refused for its number.
pub const MOST_TURNS: u64 = (1 << 60) - 1;

/// Boots a server over a keeper at the time of one reading of the clock, and takes turns of it over a link, at most so many. The longest
/// term that the server grants is 5 to 600 ticks. Each turn has a journal of its own, which is dropped behind it. A turn that the link
/// stopped is borne, and the next one is taken: what that turn had yet to send is lost, or nothing came. The watcher is told of each turn, and
/// answers the datagrams that are its own. What a stop at any moment of the
/// call leaves is what was kept when the keeper was handed in, or what was kept after the boot and some of the ticks and datagrams of
/// the turns, one after the other; a step that failed may be among them.
///
/// # Errors
///
/// `Keep` only where the keeper counted a fault, `Memory` where memory was refused, and `Spent` exactly where no number is left for the
/// boot. No link ends it. The turns before the one that stopped stay done.
pub fn keep_serving<K: Keeper, L: Link, C: Clock, W: Watcher<L> + Extension>(
    alloc: Global,
    keeper: K,
    turns: u64,
    longest: u32,
    link: &mut L,
    clock: &mut C,
    watcher: &mut W,
) -> Ended<Result<(), Fault>, K>
    requires few { turns < 2 ^ 60 }
    requires long { 5 ≤ longest }
    requires short { longest ≤ 600 }
    ensures serves { LeavesServing K.content K.faults LinkPolicy.GoOn
        (extension_told W.owns W.replies) K.follows K.leaves longest turns keeper result.end result.left
        (clock_told C.floor C.readings C.reads clock.old) (clock_told C.floor C.readings C.reads clock.new)
        (link_told L.sent L.waiting L.faults L.receives link.old)
        (link_told L.sent L.waiting L.faults L.receives link.new) }
    ensures follows { K.follows keeper result.left }
    ensures cause { HaltsBy LinkPolicy.GoOn result.end (K.content keeper) (K.faults keeper) (K.faults result.left)
        (L.faults link.old) (L.faults link.new) }
{
    let now = clock.now();
    let boot = Boot {
        keeper,
        longest,
        now,
    };
    let to_take = Turns {
        most: turns,
        policy: LinkPolicy::GoOn,
    };
    boot_and_run(alloc, boot, to_take, link, clock, watcher)
}

/// What a server boots from.
#[derive(Drop)]
pub(crate) struct Boot<K> {
    pub(crate) keeper: K,
    /// The longest term that it grants: 5 to 600 ticks.
    pub(crate) longest: u32,
    pub(crate) now: Ticks,
}

/// Boots a server, and takes turns of it.
pub(crate) fn boot_and_run<K: Keeper, L: Link, C: Clock, W: Watcher<L> + Extension>(
    alloc: Global,
    boot: Boot<K>,
    turns: Turns,
    link: &mut L,
    clock: &mut C,
    watcher: &mut W,
) -> Ended<Result<(), Fault>, K>
    requires long { 5 ≤ boot.longest }
    requires short { boot.longest ≤ 600 }
    requires early { boot.now < 2 ^ 62 }
    ensures runs { LeavesRuns K.content K.faults turns.policy (extension_told W.owns W.replies) K.follows K.leaves boot.longest turns.most boot.now
        boot.keeper result.end result.left
        (clock_told C.floor C.readings C.reads clock.old) (clock_told C.floor C.readings C.reads clock.new)
        (link_told L.sent L.waiting L.faults L.receives link.old)
        (link_told L.sent L.waiting L.faults L.receives link.new) }
    ensures follows { K.follows boot.keeper result.left }
{
    match Server::boot(alloc, boot.keeper, boot.longest, boot.now) {
        Ok(server) => {
            let mut node = Node::new(alloc, server);
            let ended = take_turns(alloc, &mut node, link, clock, watcher, turns);
            Ended {
                end: ended,
                left: node.server.into_keeper(),
            }
        }
        Err(fault) => not_booted(fault),
    }
}

/// What serving comes to where no server booted: the keeper is left.
fn not_booted<K: Keeper>(fault: BootFault<K>) -> Ended<Result<(), Fault>, K>
    ensures why { result.end ≡ Err (halt_of fault) }
    ensures keeper { result.left ≡ keeper_in (Err fault) }
    ensures settled { IsSettled K.content K.leaves result.left }
{
    match fault {
        BootFault::Failed(keeper) => unserved(Fault::Keep, keeper),
        BootFault::Memory(keeper) => unserved(Fault::Memory, keeper),
        BootFault::Spent(keeper) => unserved(Fault::Spent, keeper),
    }
}

/// What serving comes to that ended before it began.
fn unserved<K: Keeper>(why: Fault, keeper: K) -> Ended<Result<(), Fault>, K>
    ensures why { result.end ≡ Err why }
    ensures keeper { result.left ≡ keeper }
    ensures settled { IsSettled K.content K.leaves result.left }
{
    keeper.pause();
    Ended {
        end: Err(why),
        left: keeper,
    }
}
