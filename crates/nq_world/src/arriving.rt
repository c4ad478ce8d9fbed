//! Packets as they arrive.

ghost use Rattle.std.specs.Prelude.{◌≡◌, ◌≤◌, Some, Err, length, slice_get, IfOk};
ghost use Rattle.nq_world.specs.declared.arriving.Missing.{Missing};

use nq_base::{NoMemory, Party};
use nq_link::net::Packets;
use std::alloc::Global;

/// A packet as it arrives.
#[derive(Drop)]
pub(crate) struct Arrival {
    /// Who sent it.
    pub(crate) sender: Party,
    /// Whom it is for.
    pub(crate) to: Party,
    /// Its bytes.
    pub(crate) datagram: Vec<u8>,
}

/// Why no packet arrives.
#[derive(Clone, Copy)]
pub(crate) enum Missing {
    /// It was not sent.
    NoPacket,
    /// Memory was wanting.
    Memory,
}

/// The packet of this number, as it arrives.
pub(crate) fn read_packet(alloc: Global, packets: &Packets, number: u64) -> Result<Arrival, Missing>
    ensures is { IfOk result (λ a. slice_get packets.now.datagrams number ≡ Some (record { sender = a.sender; to = a.to; bytes = a.datagram.items })) }
    ensures missing { result ≡ Err Missing.NoPacket → length packets.now.datagrams ≤ number }
{
    let Some(packet) = packets.get(number) else {
        return Err(Missing::NoPacket);
    };
    let mut datagram = Vec::new(alloc);
    match packet.bytes_into(&mut datagram) {
        Ok(()) => Ok(Arrival {
            sender: packet.sender(),
            to: packet.to(),
            datagram,
        }),
        Err(NoMemory::Memory) => Err(Missing::Memory),
    }
}
