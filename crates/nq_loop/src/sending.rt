//! Sending packets of a world over links.

ghost use Rattle.std.specs.Prelude.{◌≡◌, ◌<◌, ◌≤◌, ◌∷◌, [], ℕ, drop, length, map, slice_get, IfOk, IfSome};
ghost use Rattle.nq_loop.specs.Sending.{SendsAll, place_of, told_of};
ghost use Rattle.nq_link.specs.Packets.{Datagram};

use crate::turns::Halt;
use nq_base::Party;
use nq_link::net::{Packet, Packets};
use nq_link::{Link, Sent};
use std::alloc::Global;

/// Sends the packets from this number on, in their order, each on its sender's link. The server's link is the first; those of the hosts
/// stand behind it.
pub(crate) fn send_from<L: Link>(
    alloc: Global,
    packets: &Packets,
    links: &mut [L],
    first: u64,
) -> Result<(), Halt>
    ensures { SendsAll result (drop first packets.now.datagrams)
        (map (told_of L.sent L.waiting L.faults L.receives) links.old) (map (told_of L.sent L.waiting L.faults L.receives) links.new) }
{
    let mut bytes = Vec::new(alloc);
    for number in first..packets.len() {
        match send_number(packets, links, number, &mut bytes) {
            Ok(()) => {}
            Err(why) => return Err(why),
        }
    }
    Ok(())
}

/// Sends the packet of a number.
fn send_number<L: Link>(
    packets: &Packets,
    links: &mut [L],
    number: u64,
    bytes: &mut Vec<u8>,
) -> Result<(), Halt>
    requires { number < length packets.now.datagrams }
    ensures { IfSome (slice_get packets.now.datagrams number) (λ d. SendsAll result (d ∷ [])
        (map (told_of L.sent L.waiting L.faults L.receives) links.old) (map (told_of L.sent L.waiting L.faults L.receives) links.new)) }
{
    match packets.get(number) {
        Some(packet) => send_packet(&packet, links, bytes),
        None => unreachable!(),
    }
}

/// Sends a packet on its sender's link, if there is one.
fn send_packet<L: Link>(
    packet: &Packet<'_>,
    links: &mut [L],
    bytes: &mut Vec<u8>,
) -> Result<(), Halt>
    ensures { SendsAll result (packet.now ∷ [])
        (map (told_of L.sent L.waiting L.faults L.receives) links.old) (map (told_of L.sent L.waiting L.faults L.receives) links.new) }
{
    bytes.clear();
    packet.bytes_into(bytes)?;
    let sender = packet.sender();
    let place = place_of(&sender);
    if place >= links.len() {
        return Ok(());
    }
    match links[place].send(packet.to(), bytes) {
        Sent::All => Ok(()),
        Sent::Failed => Err(Halt::Link),
    }
}

/// The place of a party's link.
pub(crate) fn place_of(party: &Party) -> usize
    ensures { result ≡ place_of party.now }
{
    match party {
        Party::Server => 0,
        Party::Client(host) => host.0 as usize + 1,
    }
}
