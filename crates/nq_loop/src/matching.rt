//! Which packet a datagram is.

ghost use Rattle.std.specs.Prelude.{◌≡◌, ◌↔◌, ◌<◌, ℕ, List, Some, length, slice_get, IfOk, IsTrue};
ghost use Rattle.nq_base.specs.declared.Event.{Event};
ghost use Rattle.nq_loop.specs.Matching.{CountsAs, Equals, is_fresh, least_with};
ghost use Rattle.nq_link.specs.Packets.{Datagram};
ghost use Rattle.nq_replay.specs.Delivering.{Marks};

use crate::state::LoopState;
use nq_base::{NoMemory, Party};
use nq_link::net::{Packet, Packets};
use std::alloc::Global;

/// A datagram that came to a party.
#[derive(Drop)]
pub(crate) struct Letter<'a> {
    pub(crate) sender: Party,
    pub(crate) to: Party,
    pub(crate) bytes: &'a [u8],
}

/// The packet that a datagram counts as: the least that equals it in bytes, sender and receiver and was never delivered, else the least
/// that equals it.
pub(crate) fn packet_of(
    alloc: Global,
    packets: &Packets,
    state: &LoopState,
    letter: &Letter<'_>,
) -> Result<Option<u64>, NoMemory>
    ensures { IfOk result (λ number. (events : List Event) → Marks state.now.flags events
        → CountsAs packets.now.datagrams events (record { sender = letter.now.sender; to = letter.now.to; bytes = letter.now.bytes.now }) number) }
{
    let mut bytes = Vec::new(alloc);
    let mut least = None;
    for number in 0..packets.len() {
        let same = equals(packets, number, letter, &mut bytes)?;
        let delivered = state.has(number as usize);
        if is_fresh(same, delivered) {
            return Ok(Some(number));
        }
        least = least_with(same, least, number);
    }
    Ok(least)
}

/// Whether a packet equals a datagram, and was never delivered.
fn is_fresh(same: bool, delivered: bool) -> bool
    ensures { result ≡ is_fresh same delivered }
{
    same && !delivered
}

/// The number that was found first, where the packet of this one equals a datagram or not.
fn least_with(same: bool, found: Option<u64>, number: u64) -> Option<u64>
    ensures { result ≡ least_with same found number }
{
    match found {
        Some(first) => Some(first),
        None if same => Some(number),
        None => None,
    }
}

/// Whether the packet of a number equals a datagram.
fn equals(
    packets: &Packets,
    number: u64,
    letter: &Letter<'_>,
    bytes: &mut Vec<u8>,
) -> Result<bool, NoMemory>
    requires { number < length packets.now.datagrams }
    ensures { IfOk result (λ same. IsTrue same ↔ Equals packets.now.datagrams
        (record { sender = letter.now.sender; to = letter.now.to; bytes = letter.now.bytes.now }) number) }
{
    match packets.get(number) {
        Some(packet) => is_letter(&packet, letter, bytes),
        None => unreachable!(),
    }
}

/// Whether a packet equals a datagram.
fn is_letter(
    packet: &Packet<'_>,
    letter: &Letter<'_>,
    bytes: &mut Vec<u8>,
) -> Result<bool, NoMemory>
    ensures { IfOk result (λ same. IsTrue same ↔ (packet.now ≡ record { sender = letter.now.sender; to = letter.now.to; bytes = letter.now.bytes.now })) }
{
    if packet.sender() != letter.sender || packet.to() != letter.to {
        return Ok(false);
    }
    bytes.clear();
    packet.bytes_into(bytes)?;
    Ok(bytes.as_slice() == letter.bytes)
}
