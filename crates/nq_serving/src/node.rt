//! The turns of a server: it reads its clock once, takes in what is due, receives once, and sends what came out. Contracts see that the clock is
//! read exactly once, and the link asked for exactly one receive.

ghost use Rattle.std.specs.Prelude.{◌≡◌, ◌<◌, ◌^◌, ◌||◌, [], length, nat_lt, Ok};
ghost use Rattle.nq_base.specs.declared.Party.{Party};
ghost use Rattle.nq_clock.specs.Clocks.{clock_told};
ghost use Rattle.nq_link.specs.Links.{link_told, most_bytes};
ghost use Rattle.nq_serving.specs.Leaving.{IsLeftAt, LeavesBehind, LeavesOnly, LeavesReceiving, LeavesStages};
ghost use Rattle.nq_serving.specs.Extending.{extension_told};
ghost use Rattle.nq_serving.specs.ServerTurn.{SendsOut, Takes, TakesLetter, TakesOf, answered, given_as, given_by, goes_on, taken, tick_due};
ghost use Rattle.nq_server.specs.Stepping.{next_of};

use crate::extending::Extension;
use crate::watching::Watcher;
use nq_base::ending::Fault;
use nq_base::{Host, Journal, Party, Ticks};
use nq_clock::Clock;
use nq_keeper::{KeepFault, Keeper};
use nq_link::{Came, Link, MOST_BYTES, Sent, send_all};
use nq_server::{Received, Server};
use nq_wire::Outbox;
use std::alloc::Global;

/// A server that takes turns, with what its turn has to send and what it has entered.
#[derive(Drop)]
pub(crate) struct Node<K> {
    pub(crate) server: Server<K>,
    pub(crate) out: Outbox,
    pub(crate) log: Journal,
}

impl<K: Keeper> Node<K> {
    /// A server that has taken no turn. Its first datagram gets the number 0.
    pub(crate) fn new(alloc: Global, server: Server<K>) -> Node<K>
        ensures server { result.server ≡ server }
        ensures next { next_of result.out ≡ 0 }
    {
        Node {
            server,
            out: empty_outbox(alloc, 0),
            log: empty_journal(alloc),
        }
    }

    /// Begins a turn: it has nothing to send yet, and has entered nothing. Its datagrams are numbered on, and the number stops at
    /// `u64::MAX`.
    pub(crate) fn begin(&mut self, alloc: Global)
        ensures server { self.new.server ≡ self.old.server }
        ensures first { self.new.out.first ≡ next_of self.old.out }
        ensures empty { self.new.out.datagrams ≡ [] }
        ensures silent { self.new.log.entries ≡ [] }
    {
        self.out = empty_outbox(alloc, self.out.next());
        self.log = empty_journal(alloc);
    }
}

/// An outbox that holds nothing, and whose first datagram gets this number.
fn empty_outbox(alloc: Global, next: u64) -> Outbox
    ensures first { result.first ≡ next }
    ensures empty { result.datagrams ≡ [] }
{
    Outbox::new(alloc, next).unwrap()
}

/// A journal that holds nothing.
fn empty_journal(alloc: Global) -> Journal
    ensures { result.entries ≡ [] }
{
    Journal::new(alloc).unwrap()
}

/// A turn of a server that has begun it. It reads the clock once. Where the reading is above the server's time, the server takes in
/// one tick to that time. It asks the link for one receive. The server takes in the datagram that came, cut to 4401 bytes, or the
/// watcher answers it where it is its own; one that no host sent is dropped. The watcher is told of what was entered. Then all that
/// came out is sent, in order. What a stop at any moment of the turn leaves is kept as before it, as after the tick, or as after the
/// datagram. It answers whether the clock rose or a datagram came.
///
/// # Errors
///
/// `Link` only where the link counted a fault, `Keep` only where the keeper did, `Memory` where memory was refused, and `Spent`
/// where the server was at the step that stopped the turn. What was done before stays done, the rest of the turn is left out,
/// and the datagram of the step that was refused is gone.
pub(crate) fn serve_turn<K: Keeper, L: Link, C: Clock, W: Watcher<L> + Extension>(
    alloc: Global,
    node: &mut Node<K>,
    watcher: &mut W,
    link: &mut L,
    clock: &mut C,
) -> Result<bool, Fault>
    ensures stages { LeavesStages K.content K.faults (extension_told W.owns W.replies) K.follows K.leaves result
        (clock_told C.floor C.readings C.reads clock.old) (clock_told C.floor C.readings C.reads clock.new)
        (link_told L.sent L.waiting L.faults L.receives link.old)
        (link_told L.sent L.waiting L.faults L.receives link.new) node.old node.new }
    ensures follows { K.follows node.old.server.keeper node.new.server.keeper }
{
    let reading = clock.now();
    let rises = is_below(&node.server, reading);
    match tick_to(node, reading) {
        Ok(()) => go_on(alloc, node, watcher, link, rises),
        Err(why) => Err(why),
    }
}

/// Whether a server's clock shows less than this time.
fn is_below<K: Keeper>(server: &Server<K>, time: Ticks) -> bool
    ensures { result ≡ nat_lt server.now.beside.time time }
{
    server.time() < time
}

/// What a turn does after its tick: it receives, takes in, tells, and sends.
fn go_on<K: Keeper, L: Link, W: Watcher<L> + Extension>(
    alloc: Global,
    node: &mut Node<K>,
    watcher: &mut W,
    link: &mut L,
    ticked: bool,
) -> Result<bool, Fault>
    ensures goes { LeavesBehind K.content K.faults (extension_told W.owns W.replies) K.follows K.leaves (Ok tt) result ticked
        (link_told L.sent L.waiting L.faults L.receives link.old)
        (link_told L.sent L.waiting L.faults L.receives link.new) node.old node.new }
    ensures follows { K.follows node.old.server.keeper node.new.server.keeper }
{
    let received = take_from(alloc, node, &*watcher, link);
    watcher.entered(&node.log);
    match received {
        Ok(came) => send_out(link, &node.out, either(ticked, came)),
        Err(why) => Err(why),
    }
}

/// Whether one of the two is so.
fn either(one: bool, other: bool) -> bool
    ensures { result ≡ (one || other) }
{
    one || other
}

/// Sends all that came out, and ends the turn with what moved it.
fn send_out<L: Link>(link: &mut L, out: &Outbox, moved: bool) -> Result<bool, Fault>
    ensures { SendsOut out.now.datagrams moved result
        (link_told L.sent L.waiting L.faults L.receives link.old)
        (link_told L.sent L.waiting L.faults L.receives link.new) }
{
    match send_all(link, out) {
        Sent::All => Ok(moved),
        Sent::Failed => Err(Fault::Link),
    }
}

/// Gives a server the tick to this time, where the time is above its own.
fn tick_to<K: Keeper>(node: &mut Node<K>, reading: Ticks) -> Result<(), Fault>
    requires { reading < 2 ^ 62 }
    ensures ticked { Takes K.content K.faults (tick_due node.old.server.beside.time reading) result node.old node.new }
    ensures leaves { LeavesOnly K.content K.follows K.leaves node.old.server.keeper node.new.server.keeper
        (IsLeftAt K.content (tick_due node.old.server.beside.time reading) node.old) }
    ensures follows { K.follows node.old.server.keeper node.new.server.keeper }
{
    if is_below(&node.server, reading) {
        received(node.server.tick(reading, &mut node.out, &mut node.log))
    } else {
        Ok(())
    }
}

/// Receives once, and gives a server the datagram that came; answers whether one came.
#[tactic(auto, unfolding(nq_link::specs::Links::most_bytes))]
fn take_from<K: Keeper, E: Extension, L: Link>(
    alloc: Global,
    node: &mut Node<K>,
    extension: &E,
    link: &mut L,
) -> Result<bool, Fault>
    ensures receives { LeavesReceiving K.content K.faults (extension_told E.owns E.replies) K.follows K.leaves result
        (link_told L.sent L.waiting L.faults L.receives link.old)
        (link_told L.sent L.waiting L.faults L.receives link.new) node.old node.new }
    ensures follows { K.follows node.old.server.keeper node.new.server.keeper }
{
    let mut buffer = [0; MOST_BYTES];
    take_through(alloc, node, extension, link, &mut buffer)
}

/// Receives once into a buffer, and gives a server the datagram that came; answers whether one came.
fn take_through<K: Keeper, E: Extension, L: Link>(
    alloc: Global,
    node: &mut Node<K>,
    extension: &E,
    link: &mut L,
    buffer: &mut [u8],
) -> Result<bool, Fault>
    requires { length buffer.old ≡ most_bytes }
    ensures receives { LeavesReceiving K.content K.faults (extension_told E.owns E.replies) K.follows K.leaves result
        (link_told L.sent L.waiting L.faults L.receives link.old)
        (link_told L.sent L.waiting L.faults L.receives link.new) node.old node.new }
    ensures follows { K.follows node.old.server.keeper node.new.server.keeper }
{
    match link.receive(buffer) {
        Came::Nothing => Ok(false),
        Came::Failed => Err(Fault::Link),
        Came::Datagram { length, sender } => {
            taken(take_in(alloc, node, extension, sender, &buffer[..length]))
        }
    }
}

/// What the stage that receives answers where a datagram came and was taken so.
fn taken(made: Result<(), Fault>) -> Result<bool, Fault>
    ensures { result ≡ taken made }
{
    match made {
        Ok(()) => Ok(true),
        Err(why) => Err(why),
    }
}

/// Gives a server and its extension a datagram, if a host sent it.
fn take_in<K: Keeper, E: Extension>(
    alloc: Global,
    node: &mut Node<K>,
    extension: &E,
    sender: Party,
    datagram: &[u8],
) -> Result<(), Fault>
    ensures takes { TakesLetter K.content K.faults (extension_told E.owns E.replies) (sender, datagram.now) result node.old node.new }
    ensures leaves { LeavesOnly K.content K.follows K.leaves node.old.server.keeper node.new.server.keeper
        (IsLeftAt K.content (given_by (extension_told E.owns E.replies) (sender, datagram.now)) node.old) }
    ensures follows { K.follows node.old.server.keeper node.new.server.keeper }
{
    match sender {
        Party::Server => Ok(()),
        Party::Client(host) => take_from_host(alloc, node, extension, host, datagram),
    }
}

/// Has the extension answer a host's datagram that is its own, and gives the server any other one.
fn take_from_host<K: Keeper, E: Extension>(
    alloc: Global,
    node: &mut Node<K>,
    extension: &E,
    host: Host,
    datagram: &[u8],
) -> Result<(), Fault>
    ensures takes { TakesOf K.content K.faults (extension_told E.owns E.replies) (E.owns datagram.now) host datagram.now result node.old node.new }
    ensures leaves { LeavesOnly K.content K.follows K.leaves node.old.server.keeper node.new.server.keeper
        (IsLeftAt K.content (given_as (E.owns datagram.now) host datagram.now) node.old) }
    ensures follows { K.follows node.old.server.keeper node.new.server.keeper }
{
    if extension.is_own(datagram) {
        answered(extension.answer(alloc, &mut node.server, host, datagram, &mut node.out))
    } else {
        received(
            node.server
                .receive(alloc, host, datagram, &mut node.out, &mut node.log),
        )
    }
}

/// Whether a turn goes on after an extension has answered so.
fn answered(how: Result<(), KeepFault>) -> Result<(), Fault>
    ensures { result ≡ answered how }
{
    match how {
        Ok(()) => Ok(()),
        Err(KeepFault::Failed) => Err(Fault::Keep),
        Err(KeepFault::Memory) => Err(Fault::Memory),
    }
}

/// Whether a turn goes on after a server has taken something so.
fn received(how: Received) -> Result<(), Fault>
    ensures { result ≡ goes_on how }
{
    match how {
        Received::Done | Received::Dropped(_) => Ok(()),
        Received::Fault => Err(Fault::Keep),
        Received::Memory => Err(Fault::Memory),
        Received::Spent => Err(Fault::Spent),
    }
}
