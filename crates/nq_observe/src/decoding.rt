//! Packets in words.

ghost use Rattle.std.specs.Prelude.{◌≡◌, true};

use nq_base::{NoMemory, Party, Spare};
use nq_datagrams::{Awaited, Heard, Incoming, read_heard, read_incoming};
use nq_link::net::Packets;
use nq_record::{reply_words, request_words};
use nq_wire::Procedure;
use std::alloc::Global;

/// A packet as it is read: whom it is for, what it asks of the server, if it is a request, and its words.
#[derive(Drop)]
pub(crate) struct Read {
    pub(crate) to: Party,
    pub(crate) asks: Option<Awaited>,
    pub(crate) words: String,
}

/// The packet of a number. A reply is read as one to the request that its sender took in just before.
pub(crate) fn read_packet(
    alloc: Global,
    packets: &Packets,
    number: u64,
    taken: Option<Awaited>,
) -> Result<Read, NoMemory> {
    let Some(packet) = packets.get(number) else {
        return unread(alloc, Party::Server);
    };
    let mut bytes = Vec::new(alloc);
    packet.bytes_into(&mut bytes)?;
    let mut room = Spare::none();
    room.reserve(alloc)?;
    match packet.to() {
        Party::Server => read_by_server(alloc, &bytes, &mut room),
        to => read_by_client(alloc, to, taken, &bytes, &mut room),
    }
}

/// A packet for the server.
fn read_by_server(alloc: Global, bytes: &[u8], room: &mut Spare) -> Result<Read, NoMemory>
    requires { room.old ≡ true }
{
    match read_incoming(bytes, room) {
        Incoming::Request { xid, request } => {
            let procedure = Procedure::of(&request);
            Ok(Read {
                to: Party::Server,
                asks: Some(Awaited { xid, procedure }),
                words: request_words(alloc, &request)?,
            })
        }
        _ => unread(alloc, Party::Server),
    }
}

/// A packet for a client. A reply is read as one to this request.
fn read_by_client(
    alloc: Global,
    to: Party,
    taken: Option<Awaited>,
    bytes: &[u8],
    room: &mut Spare,
) -> Result<Read, NoMemory>
    requires { room.old ≡ true }
{
    let words = match read_heard(taken, bytes, room) {
        Some(Heard::Notice { request, .. }) => request_words(alloc, &request),
        Some(Heard::Reply { reply, .. }) => reply_words(alloc, &reply),
        None => return unread(alloc, to),
    };
    Ok(Read {
        to,
        asks: None,
        words: words?,
    })
}

/// A packet that brings no message.
fn unread(alloc: Global, to: Party) -> Result<Read, NoMemory> {
    Ok(Read {
        to,
        asks: None,
        words: String::from_str(alloc, "datagram")?,
    })
}
