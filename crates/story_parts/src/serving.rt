//! What comes to a disk: a store opens it, a server boots over it, and takes in what comes.

use crate::noting_disk::NotingDisk;
use crate::page::{bytes_of, copy_of, field, hex, hex_of, number_of, say, tell_words};
use nq_base::{Host, Journal, Party, Ticks};
use nq_disk::{Disk, FileDisk, MemDisk, Room};
use nq_keeper::Keeper;
use nq_server::{Received, Server};
use nq_store::{OpenFault, Store};
use nq_wire::Outbox;
use std::alloc::Global;
use std::fs;

/// The longest term that a server grants.
const LONGEST: u32 = 60;

/// The file that is a disk.
const PATH: &str = "stopped.img";

/// How much a disk takes: the image of a file of 1,024 blocks, and more.
const ROOM: Room = Room {
    size: 6_000_000,
    calls: 10_000,
    written: 16_000_000,
};

/// What comes to a disk: first a server that boots over it, and then what comes to the server.
#[derive(Drop)]
pub(crate) enum Event {
    Boot,
    Datagram(u32, Vec<u8>),
    Tick(u32),
    Crash(u32),
}

/// What comes to a server by a line: a tick or a crash with its time, or a datagram from a host.
pub(crate) fn event_of(alloc: Global, verb: &str, rest: &str) -> Event {
    match verb {
        "tick" => Event::Tick(number_of(rest)),
        "crash" => Event::Crash(number_of(rest)),
        host => Event::Datagram(hex_of(host), bytes_of(alloc, rest)),
    }
}

/// A disk in memory of these bytes, behind what comes to it. The answer to the last event is told, or where the first wrong field is.
pub(crate) fn in_memory(
    alloc: Global,
    bytes: &[u8],
    events: &[Event],
    answer: &mut Vec<u8>,
) -> Option<NotingDisk> {
    let bytes = copy_of(alloc, bytes);
    if bytes.len() > 4_000_000 {
        return None;
    }
    let disk = MemDisk::new(alloc, bytes, ROOM, Vec::new(alloc), None).ok()?;
    run(alloc, NotingDisk::new(alloc, disk), events, answer)
}

/// What a file of these bytes has behind what comes to it, once it is closed.
pub(crate) fn in_file(rt: &HostRuntime, bytes: &[u8], events: &[Event]) -> Vec<u8> {
    let alloc = rt.alloc();
    fs::write(rt, PATH, bytes).ok();
    if let Ok(files) = rt.clone()
        && let Ok(disk) = FileDisk::new(alloc, files, PATH)
    {
        drop(run(alloc, disk, events, &mut Vec::new(alloc)));
    }
    let left = fs::read(rt, PATH).unwrap_or(Vec::new(alloc));
    fs::remove_file(rt, PATH).ok();
    left
}

/// The disk behind what comes to it.
fn run<D: Disk + Drop>(
    alloc: Global,
    disk: D,
    events: &[Event],
    answer: &mut Vec<u8>,
) -> Option<D> {
    match Store::open(alloc, disk) {
        Ok(store) if events.is_empty() => Some(store.into_disk()),
        Ok(store) => match Server::boot(alloc, store, LONGEST, Ticks(0)) {
            Ok(server) => Some(served(alloc, server, events, answer).into_disk()),
            Err(_) => None,
        },
        Err(fault) => {
            tell_place(fault, answer);
            None
        }
    }
}

/// Tells where the first wrong field is.
fn tell_place<D: Drop>(fault: OpenFault<D>, answer: &mut Vec<u8>) {
    let place = match fault {
        OpenFault::NotAnImage(_) => 0,
        OpenFault::BadField(_, place) => place,
        _ => u64::MAX,
    };
    field(answer, "image byte", place);
}

/// What a server keeps behind events. The answer to the last one is told.
fn served<K: Keeper>(
    alloc: Global,
    server: Server<K>,
    events: &[Event],
    answer: &mut Vec<u8>,
) -> K {
    let mut server = server;
    let mut out = Outbox::new(alloc, 0).unwrap();
    let mut log = Journal::new(alloc).unwrap();
    let mut received = Received::Done;
    for event in events {
        out.cut(0);
        received = take_in(alloc, &mut server, event, &mut out, &mut log);
    }
    tell(received, &out, answer);
    server.into_keeper()
}

/// Takes in an event. A time that goes back is not taken in.
fn take_in<K: Keeper>(
    alloc: Global,
    server: &mut Server<K>,
    event: &Event,
    out: &mut Outbox,
    log: &mut Journal,
) -> Received {
    let time = server.time();
    match event {
        Event::Boot => Received::Done,
        Event::Datagram(host, bytes) => server.receive(alloc, Host(*host), bytes, out, log),
        Event::Tick(now) if time.0 <= u64::from(*now) => {
            server.tick(Ticks(u64::from(*now)), out, log)
        }
        Event::Crash(now) if time.0 <= u64::from(*now) => {
            server.reboot(alloc, LONGEST, Ticks(u64::from(*now)), log)
        }
        _ => Received::Spent,
    }
}

/// Tells each datagram that was sent, or how an event was taken in.
fn tell(received: Received, out: &Outbox, answer: &mut Vec<u8>) {
    if out.len() == 0 || received != Received::Done {
        say(answer, word_of(received));
    }
    for place in 0..out.len() {
        if let Some((to, bytes)) = out.get(place) {
            say(answer, if place > 0 { " | " } else { "" });
            hex(answer, host_of(to));
            tell_words(answer, bytes);
        }
    }
}

/// The number of a host, and one that no host has for the server.
fn host_of(party: Party) -> u32 {
    match party {
        Party::Client(host) => host.0,
        Party::Server => u32::MAX,
    }
}

/// The word for how an event was taken in.
fn word_of(received: Received) -> &'static str {
    match received {
        Received::Done => "done",
        Received::Dropped(_) => "dropped",
        _ => "wanting",
    }
}
