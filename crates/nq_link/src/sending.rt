//! Sending what an outbox holds over a link.

ghost use Rattle.std.specs.Prelude.{◌≡◌, ◌<◌, length, slice_get, IfSome};
ghost use Rattle.nq_link.specs.Link.{Sends, CountsSend};
ghost use Rattle.nq_link.specs.Links.{SendsAll};

use crate::link::{Link, Sent};
use nq_wire::Outbox;

/// The most bytes of a datagram that a party looks at: one more than the longest of the protocol has.
pub const MOST_BYTES: usize = 4401;

/// Sends the datagrams of an outbox in their order, up to the first that the link refuses. Nothing is received.
///
/// # Errors
///
/// `Failed` only where the link counted a fault. Those before the refused one are sent.
pub fn send_all<L: Link>(link: &mut L, out: &Outbox) -> Sent
    ensures sends { SendsAll result out.now.datagrams (L.sent link.old) (L.sent link.new) (L.faults link.old) (L.faults link.new) }
    ensures waiting { L.waiting link.new ≡ L.waiting link.old }
    ensures receives { L.receives link.new ≡ L.receives link.old }
{
    for place in 0..out.len() {
        match send_one(link, out, place) {
            Sent::All => {}
            Sent::Failed => return Sent::Failed,
        }
    }
    Sent::All
}

/// Sends the datagram at a place of an outbox.
fn send_one<L: Link>(link: &mut L, out: &Outbox, place: usize) -> Sent
    requires { place < length out.now.datagrams }
    ensures sends { IfSome (slice_get out.now.datagrams place) (λ d. Sends result d.0 d.1 (L.sent link.old) (L.sent link.new)) }
    ensures waiting { L.waiting link.new ≡ L.waiting link.old }
    ensures receives { L.receives link.new ≡ L.receives link.old }
    ensures cause { CountsSend result (L.faults link.old) (L.faults link.new) }
{
    match out.get(place) {
        Some((to, datagram)) => link.send(to, datagram),
        None => unreachable!(),
    }
}
