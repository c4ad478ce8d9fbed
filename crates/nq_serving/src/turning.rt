//! Turns of a server, one after another, each with a journal of its own, so that memory does not grow.

ghost use Rattle.std.specs.Prelude.{◌≡◌};
ghost use Rattle.nq_serving.specs.LeavingTurns.{LeavesTaking, LeavesTurns};
ghost use Rattle.nq_serving.specs.Extending.{extension_told};
ghost use Rattle.nq_serving.specs.Turning.{behind_link, behind_turn, standing};
ghost use Rattle.nq_server.specs.Stepping.{next_of};
ghost use Rattle.nq_clock.specs.Clocks.{clock_told};
ghost use Rattle.nq_link.specs.Links.{link_told};

use crate::extending::Extension;
use crate::node::{Node, serve_turn};
use crate::watching::Watcher;
use nq_base::ending::Fault;
use nq_clock::Clock;
use nq_keeper::Keeper;
use nq_link::Link;
use std::alloc::Global;

/// What a turn that the link stopped means for those behind it.
#[derive(Clone, Copy)]
pub enum LinkPolicy {
    /// It is the last one.
    Stop,
    /// The next one is taken. What it had yet to send is lost, as a datagram may be.
    GoOn,
}

/// Which turns are to be taken.
#[derive(Clone, Copy)]
pub(crate) struct Turns {
    /// So many at most.
    pub(crate) most: u64,
    pub(crate) policy: LinkPolicy,
}

/// Takes turns of a server, up to the first that ends them.
pub(crate) fn take_turns<K: Keeper, L: Link, C: Clock, W: Watcher<L> + Extension>(
    alloc: Global,
    node: &mut Node<K>,
    link: &mut L,
    clock: &mut C,
    watcher: &mut W,
    turns: Turns,
) -> Result<(), Fault>
    ensures turns { LeavesTurns K.content K.faults turns.policy (extension_told W.owns W.replies) K.follows K.leaves turns.most result
        (standing node.old.server (next_of node.old.out) (clock_told C.floor C.readings C.reads clock.old)
        (link_told L.sent L.waiting L.faults L.receives link.old))
        (standing node.new.server (next_of node.new.out) (clock_told C.floor C.readings C.reads clock.new)
        (link_told L.sent L.waiting L.faults L.receives link.new)) }
    ensures follows { K.follows node.old.server.keeper node.new.server.keeper }
{
    let Turns { most, policy } = turns;
    node.server.pause();
    for _turn in 0..most {
        match take_turn(alloc, node, link, clock, watcher, policy) {
            Ok(()) => {}
            Err(why) => return Err(why),
        }
    }
    Ok(())
}

/// Takes one turn of a server, with a journal of its own.
fn take_turn<K: Keeper, L: Link, C: Clock, W: Watcher<L> + Extension>(
    alloc: Global,
    node: &mut Node<K>,
    link: &mut L,
    clock: &mut C,
    watcher: &mut W,
    policy: LinkPolicy,
) -> Result<(), Fault>
    ensures turn { LeavesTaking K.content K.faults policy (extension_told W.owns W.replies) K.follows K.leaves result
        (standing node.old.server (next_of node.old.out) (clock_told C.floor C.readings C.reads clock.old)
        (link_told L.sent L.waiting L.faults L.receives link.old))
        (standing node.new.server (next_of node.new.out) (clock_told C.floor C.readings C.reads clock.new)
        (link_told L.sent L.waiting L.faults L.receives link.new)) }
    ensures follows { K.follows node.old.server.keeper node.new.server.keeper }
{
    node.begin(alloc);
    let turn = serve_turn(alloc, node, watcher, link, clock);
    node.server.pause();
    watcher.turned(
        link,
        node.server.time(),
        node.server.table().len(),
        &node.log,
    );
    behind_turn(policy, turn)
}

/// Whether turns go on behind one that ended so, or why not.
fn behind_turn(policy: LinkPolicy, turn: Result<bool, Fault>) -> Result<(), Fault>
    ensures { result ≡ behind_turn policy turn }
{
    match turn {
        Ok(_moved) => Ok(()),
        Err(Fault::Link) => behind_link(policy),
        Err(Fault::Keep) => Err(Fault::Keep),
        Err(Fault::Memory) => Err(Fault::Memory),
        Err(Fault::Spent) => Err(Fault::Spent),
        Err(Fault::NoAnswer) => Err(Fault::NoAnswer),
    }
}

/// Whether turns go on behind one that the link stopped.
fn behind_link(policy: LinkPolicy) -> Result<(), Fault>
    ensures { result ≡ behind_link policy }
{
    match policy {
        LinkPolicy::Stop => Err(Fault::Link),
        LinkPolicy::GoOn => Ok(()),
    }
}
