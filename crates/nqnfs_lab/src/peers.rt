//! Whoever is connected.

use crate::desk::Desk;
use http_server::{Config, Connection, serve};
use std::hash::RandomState;
use std::io::ErrorKind;
use std::net::{TcpListener, TcpStream};
use std::time::Duration;
use std::{io, thread};

/// The most peers at a time.
const MOST_PEERS: usize = 64;

/// After so many turns in which nothing came a peer is let go.
const MOST_QUIET: u32 = 10_000;

/// A peer.
#[derive(Drop)]
struct Peer {
    stream: TcpStream,
    connection: Connection,
    quiet: u32,
    is_over: bool,
}

/// Serves whoever connects. Nobody waits for a peer that sends nothing, or takes nothing.
///
/// # Errors
///
/// Where the listener fails.
pub(crate) fn serve_all(
    rt: &HostRuntime,
    listener: &TcpListener,
    desk: &mut Desk<'_>,
) -> io::Result<()> {
    listener.set_nonblocking(true)?;
    let mut peers = Vec::new(rt.alloc());
    for _ in 0..u64::MAX {
        let has_come = take_in(rt, listener, &mut peers)?;
        let has_moved = take_turns(&mut peers, desk);
        if !has_come && !has_moved {
            thread::sleep(rt, Duration::from_millis(1));
        }
    }
    Ok(())
}

/// Takes in the next peer, if one waits and there is a place; whether it did.
fn take_in(rt: &HostRuntime, listener: &TcpListener, peers: &mut Vec<Peer>) -> io::Result<bool> {
    match listener.accept() {
        Ok((stream, _address)) => {
            if peers.len() >= MOST_PEERS || stream.set_nonblocking(true).is_err() {
                return Ok(false);
            }
            let connection = Connection::new(rt.alloc(), RandomState::new(rt)?, Config::default());
            Ok(add(peers, stream, connection))
        }
        Err(error) if error.kind() == ErrorKind::OutOfMemory => Err(error),
        Err(_) => Ok(false),
    }
}

/// Adds a peer; whether there was memory for it.
fn add(peers: &mut Vec<Peer>, stream: TcpStream, connection: Connection) -> bool {
    let peer = Peer {
        stream,
        connection,
        quiet: 0,
        is_over: false,
    };
    peers.push(peer).is_ok()
}

/// Serves each peer once, and lets those go that are over; whether something moved.
fn take_turns(peers: &mut Vec<Peer>, desk: &mut Desk<'_>) -> bool {
    let mut has_moved = false;
    for peer in peers.iter_mut() {
        let here = take_turn(peer, desk);
        has_moved = here || has_moved;
    }
    peers.retain(|peer: &Peer| !peer.is_over);
    has_moved
}

/// Reads from a peer, answers and writes, once each; whether something moved.
fn take_turn(peer: &mut Peer, desk: &mut Desk<'_>) -> bool {
    let read = if peer.connection.wants_read() {
        what_moved(peer.connection.read_from(&mut peer.stream))
    } else {
        Moved::Nothing
    };
    peer.connection.advance(desk);
    let written = if peer.connection.wants_write() {
        what_moved(peer.connection.write_to(&mut peer.stream))
    } else {
        Moved::Nothing
    };
    peer.connection.advance(desk);
    note(peer, read, written)
}

/// What a call on a stream did.
#[derive(Clone, Copy, PartialEq, Eq)]
enum Moved {
    /// Bytes moved, or the end was seen.
    Bytes,
    /// Nothing can move now.
    Nothing,
    /// The stream failed.
    Failed,
}

/// What a call on a stream did.
fn what_moved(call: io::Result<usize>) -> Moved {
    match call {
        Ok(_) => Moved::Bytes,
        Err(error) => match error.kind() {
            ErrorKind::WouldBlock | ErrorKind::Interrupted => Moved::Nothing,
            _ => Moved::Failed,
        },
    }
}

/// Notes what moved, and whether the peer is over; whether something moved.
fn note(peer: &mut Peer, read: Moved, written: Moved) -> bool {
    let is_quiet = read != Moved::Bytes && written != Moved::Bytes;
    if is_quiet {
        peer.quiet = peer.quiet.saturating_add(1);
    } else {
        peer.quiet = 0;
    }
    peer.is_over = peer.connection.is_done()
        || read == Moved::Failed
        || written == Moved::Failed
        || peer.quiet > MOST_QUIET;
    !is_quiet
}

/// Answers the requests on the standard input, on the standard output, until one asks to close or the input ends.
///
/// # Errors
///
/// Where a stream fails.
pub(crate) fn serve_once(rt: &HostRuntime, desk: &mut Desk<'_>) -> io::Result<()> {
    let mut connection = Connection::new(rt.alloc(), RandomState::new(rt)?, Config::default());
    let mut input = rt.reader();
    let mut output = io::writer(rt);
    serve(&mut connection, desk, &mut input, &mut output)
}
