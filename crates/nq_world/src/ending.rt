//! How an event ends: what it sent is added to the packets, and it is counted.

ghost use Rattle.std.specs.Prelude.{◌≡◌, ◌<◌, ◌≤◌, ◌+◌, [], length, IfOk, OnOk, OnErr};
ghost use Rattle.nq_model.specs.protocol.Stepped.{most_events};
ghost use Rattle.nq_world.specs.Moving.{Ends, HasRoom};

use crate::sending::send;
use crate::stepped::{Limit, Stepped};
use nq_base::ending::Fault;
use nq_base::{NoMemory, Party};
use nq_link::net::Packets;
use nq_wire::Outbox;
use std::alloc::Global;

/// The most datagrams that an event sends.
const MOST_SENDS: usize = 64;

/// The most bytes of a datagram that is sent.
const LONGEST_SENT: usize = 4196;

/// An empty outbox for an event, whose first datagram is the next packet. Before, room is made among the packets for all that
/// an event sends.
pub(crate) fn outbox(alloc: Global, packets: &mut Packets) -> Result<Outbox, NoMemory>
    ensures datagrams { packets.new.datagrams ≡ packets.old.datagrams }
    ensures room { OnOk result (HasRoom packets.new) }
    ensures first { IfOk result (λ out. out.first ≡ length packets.old.datagrams) }
    ensures empty { IfOk result (λ out. out.datagrams ≡ []) }
{
    packets.reserve(MOST_SENDS, MOST_SENDS * LONGEST_SENT)?;
    Outbox::new(alloc, packets.len())
}

/// Ends an event: where it was made, its datagrams are sent, as by this party, and it is counted.
pub(crate) fn finish(
    made: Result<(), Fault>,
    packets: &mut Packets,
    events: &mut u32,
    sender: Party,
    out: &Outbox,
) -> Stepped
    requires { events.old < most_events }
    ensures ends { Ends made result sender out.now.datagrams packets.old packets.new events.old events.new }
    ensures few { events.new ≤ most_events }
{
    match made {
        Ok(()) => {
            *events += 1;
            match send(packets, sender, out) {
                Ok(()) => Stepped::Done,
                Err(NoMemory::Memory) => Stepped::Memory,
            }
        }
        Err(Fault::Memory) => Stepped::Memory,
        Err(Fault::Spent) => Stepped::Limit(Limit::Events),
        Err(Fault::Keep | Fault::Link | Fault::NoAnswer) => Stepped::Fault,
    }
}
