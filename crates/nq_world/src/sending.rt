//! Sending what an outbox holds.

ghost use Rattle.std.specs.Prelude.{◌≡◌, ◌+◌, ◌≤◌, ◌<◌, ◌^◌, ◌∷◌, ◌++◌, [], ℕ, List, Some, length, map, slice_get, IfSome, IsNone, IsOk, OnOk, OnErr};
ghost use Rattle.nq_base.specs.declared.Party.{Party};
ghost use Rattle.nq_world.specs.Sending.{bytes_together};
ghost use Rattle.nq_world.specs.Shown.{sent_from};

use nq_base::{NoMemory, Party};
use nq_link::net::Packets;
use nq_wire::Outbox;

/// How many bytes the datagrams of an outbox have together; None where they are too many to be counted.
fn bytes_together(out: &Outbox) -> Option<usize>
    ensures some { IfSome result (λ bytes. bytes ≡ bytes_together out.now.datagrams) }
    ensures none { IsNone result → 2 ^ 64 ≤ bytes_together out.now.datagrams }
{
    let mut bytes: usize = 0;
    for place in 0..out.len() {
        let more = length_at(out, place);
        bytes = bytes.checked_add(more)?;
    }
    Some(bytes)
}

/// How many bytes the datagram at a place has.
fn length_at(out: &Outbox, place: usize) -> usize
    requires { place < length out.now.datagrams }
    ensures { (d : Party × List ℕ) → slice_get out.now.datagrams place ≡ Some d → result ≡ length d.1 }
{
    match out.get(place) {
        Some((_, datagram)) => datagram.len(),
        None => unreachable!(),
    }
}

/// Adds what an outbox holds to the packets, as sent by this party. After a refusal the packets are as before.
pub(crate) fn send(packets: &mut Packets, sender: Party, out: &Outbox) -> Result<(), NoMemory>
    ensures sent { OnOk result (packets.new.datagrams ≡ packets.old.datagrams ++ map (sent_from sender) out.now.datagrams) }
    ensures refused { OnErr result (packets.new.datagrams ≡ packets.old.datagrams) }
    ensures succeeds { bytes_together out.now.datagrams < 2 ^ 64 → length out.now.datagrams ≤ packets.old.spare
        → bytes_together out.now.datagrams ≤ packets.old.spare_bytes → IsOk result }
{
    let Some(bytes) = bytes_together(out) else {
        return Err(NoMemory::Memory);
    };
    packets.reserve(out.len(), bytes)?;
    send_all(packets, sender, out);
    Ok(())
}

/// Adds what an outbox holds to packets that have room for it.
fn send_all(packets: &mut Packets, sender: Party, out: &Outbox)
    requires room { length out.now.datagrams ≤ packets.old.spare }
    requires room_bytes { bytes_together out.now.datagrams ≤ packets.old.spare_bytes }
    ensures { packets.new.datagrams ≡ packets.old.datagrams ++ map (sent_from sender) out.now.datagrams }
{
    for place in 0..out.len() {
        send_one(packets, &sender, out, place);
    }
}

/// Adds the datagram at a place to packets that have room for it.
fn send_one(packets: &mut Packets, sender: &Party, out: &Outbox, place: usize)
    requires below { place < length out.now.datagrams }
    requires room { 1 ≤ packets.old.spare }
    requires room_bytes { IfSome (slice_get out.now.datagrams place) (λ d. length d.1 ≤ packets.old.spare_bytes) }
    ensures sent { IfSome (slice_get out.now.datagrams place) (λ d. packets.new.datagrams ≡ packets.old.datagrams ++ sent_from sender.now d ∷ []) }
    ensures spare { packets.old.spare ≤ packets.new.spare + 1 }
    ensures spare_bytes { IfSome (slice_get out.now.datagrams place) (λ d. packets.old.spare_bytes ≤ packets.new.spare_bytes + length d.1) }
{
    match out.get(place) {
        Some((to, datagram)) => packets.push(*sender, to, datagram).unwrap(),
        None => unreachable!(),
    }
}
