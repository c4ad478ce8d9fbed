//! Datagrams of a LOOKUP, of its reply and of the reply to a READ, written and read.

use nq_base::{Block, FileId, Host, Inc, Name, Reply, Request, Rev, Spare, Who};
use nq_datagrams::{Awaited, Heard, Incoming, call_bytes, read_heard, read_incoming, reply_bytes};
use nq_wire::Procedure;
use std::alloc::Global;

/// What is written or read again and again.
#[derive(Clone, Copy)]
enum DatagramKind {
    Lookup,
    LookupReply,
    ReadReply,
}

/// Writes or reads a datagram so many times. Gives a number that stands on all that came out; None where there is no such
/// way, or memory is wanting.
pub(crate) fn often(alloc: Global, what: &str, way: &str, times: u32) -> Option<u64> {
    let kind = match what {
        "lookup" => DatagramKind::Lookup,
        "lookup-reply" => DatagramKind::LookupReply,
        "read-reply" => DatagramKind::ReadReply,
        _ => return None,
    };
    let encodes = match way {
        "encode" => true,
        "decode" => false,
        _ => return None,
    };
    let first = written(alloc, kind, 1)?;
    let mut room = Spare::none();
    let mut sum: u64 = 0;
    for number in 0..times {
        sum = sum.wrapping_add(if encodes {
            ends(&written(alloc, kind, number)?)
        } else {
            read(alloc, kind, &first, &mut room)?
        });
    }
    Some(sum)
}

/// The datagram of this number.
fn written(alloc: Global, kind: DatagramKind, xid: u32) -> Option<Vec<u8>> {
    let reply = match kind {
        DatagramKind::Lookup => {
            let who = Who {
                host: Host(1),
                inc: Inc(1),
            };
            let name = Name::new(b"a")?;
            return call_bytes(alloc, xid, &Request::Lookup { who, name }).ok();
        }
        DatagramKind::LookupReply => Reply::Lookup {
            inc: Inc(1),
            file: FileId(1),
            blocks: 64,
        },
        DatagramKind::ReadReply => Reply::Read {
            inc: Inc(1),
            rev: Rev(7),
            body: Block::fill(0x0102_0304),
            grant: None,
        },
    };
    reply_bytes(alloc, xid, &reply).ok()
}

/// A number that stands on both ends of the bytes.
fn ends(bytes: &[u8]) -> u64 {
    match bytes {
        [_, _, _, first, .., last] => u64::from(*first) + u64::from(*last),
        _ => 0,
    }
}

/// A number that stands on what the datagram asks or answers.
fn read(alloc: Global, kind: DatagramKind, bytes: &[u8], room: &mut Spare) -> Option<u64> {
    room.reserve(alloc).ok()?;
    let procedure = match kind {
        DatagramKind::Lookup => return asked(&read_incoming(bytes, room)),
        DatagramKind::LookupReply => Procedure::Lookup,
        DatagramKind::ReadReply => Procedure::Read,
    };
    let awaited = Awaited { xid: 1, procedure };
    match &read_heard(Some(awaited), bytes, room) {
        Some(Heard::Reply { xid, reply }) => Some(u64::from(*xid) + u64::from(brought(reply))),
        _ => None,
    }
}

/// A number that stands on what a LOOKUP asks.
fn asked(incoming: &Incoming) -> Option<u64> {
    match incoming {
        Incoming::Request {
            xid,
            request: Request::Lookup { who, .. },
        } => Some(u64::from(*xid) + u64::from(who.host.0)),
        _ => None,
    }
}

/// A number that stands on the reply.
fn brought(reply: &Reply) -> u32 {
    match reply {
        Reply::Lookup { blocks, .. } => *blocks,
        Reply::Read { body, .. } => body.value(),
        _ => 0,
    }
}
