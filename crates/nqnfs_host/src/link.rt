//! The socket of a host, for one wait with other sockets.

ghost use Rattle.std.specs.Prelude.{◌≡◌, None};
ghost use Rattle.nq_io.specs.Faults.{Rose, count_up};
ghost use Rattle.nq_link.specs.Link.{Comes, CountsReceive, CountsSend, Sends};

use mio::net::UdpSocket;
use nq_link::{Came, Link, Party, Sent};
use nq_living::Line;
use std::alloc::Global;
use std::io::{self, ErrorKind};
use std::marker::Model;
use std::net::SocketAddr;

/// A host's UDP socket, whose receives do not wait. A datagram that another party than the server sent is taken and counts as
/// nothing, and so does a page of a list, which is set aside. Each error of the socket is a fault. Contracts see its counts.
#[derive(Drop)]
pub(crate) struct HostLink {
    alloc: Global,
    /// The socket.
    pub(crate) socket: UdpSocket,
    server: SocketAddr,
    is_dry: bool,
    listed: Option<Vec<u8>>,
    /// What waits to be sent, where it is held back.
    held: Vec<Vec<u8>>,
    holds: bool,
    faults: u64,
    receives: u64,
}

impl Model for HostLink {
    ghost use Rattle.std.specs.Prelude.{ℕ};

    ghost Value = { ℕ × ℕ };

    ghost view = { λ l. (l.faults, l.receives) };
}

/// The second word of a reply.
const REPLY: [u8; 4] = [0, 0, 0, 1];

/// Whether an error says only that nothing is there.
fn is_silence(error: &io::Error) -> bool {
    matches!(error.kind(), ErrorKind::WouldBlock | ErrorKind::Interrupted)
}

/// Whether a datagram is a page of a list, as far as its first words tell: a reply with a number that no request of a client has.
fn is_page(datagram: &[u8]) -> bool {
    match (datagram.first(), datagram.get(4..8)) {
        (Some(first), Some(second)) => *first >= 128 && second == REPLY.as_slice(),
        _ => false,
    }
}

impl HostLink {
    /// The link of a host between these two addresses, if its own can be bound. Where it `holds`, what is sent waits until it is let go.
    pub(crate) fn bind(
        rt: &HostRuntime,
        home: SocketAddr,
        server: SocketAddr,
        holds: bool,
    ) -> io::Result<HostLink> {
        Ok(HostLink {
            alloc: rt.alloc(),
            socket: UdpSocket::bind(rt, home)?,
            server,
            is_dry: true,
            listed: None,
            held: Vec::new(rt.alloc()),
            holds,
            faults: 0,
            receives: 0,
        })
    }

    /// Sends a datagram to the server, or holds it back. How many bytes of it went.
    fn post(&mut self, bytes: &[u8]) -> io::Result<usize>
        ensures { self.new ≡ self.old }
    {
        if !self.holds {
            return self.socket.send_to(bytes, self.server);
        }
        self.held.push(bytes.to_vec(self.alloc)?)?;
        Ok(bytes.len())
    }

    /// Sets a page of a list aside. Where memory is wanting it is lost, as a datagram may be.
    fn set_aside(&mut self, datagram: &[u8])
        ensures { self.new ≡ self.old }
    {
        if let Ok(bytes) = datagram.to_vec(self.alloc) {
            self.listed = Some(bytes);
        }
    }

    /// Counts a fault.
    fn count_fault(&mut self)
        ensures counted { self.new ≡ (count_up self.old.0, self.old.1) }
        ensures rose { Rose self.old.0 self.new.0 }
    {
        self.faults = self.faults.saturating_add(1);
    }

    /// Counts a receive.
    fn count_receive(&mut self)
        ensures { self.new ≡ (self.old.0, count_up self.old.1) }
    {
        self.receives = self.receives.saturating_add(1);
    }
}

impl Link for HostLink {
    ghost sent = { λ _. None };

    ghost waiting = { λ _. None };

    ghost faults = { λ link. link.0 };

    ghost receives = { λ link. link.1 };

    fn send(&mut self, to: Party, bytes: &[u8]) -> Sent {
        let sent = match to {
            Party::Server => self.post(bytes),
            Party::Client(_) => Err(io::Error::from(ErrorKind::InvalidInput)),
        };
        match sent {
            Ok(count) if count == bytes.len() => Sent::All,
            _ => {
                self.count_fault();
                Sent::Failed
            }
        }
    }

    fn receive(&mut self, into: &mut [u8]) -> Came {
        self.count_receive();
        self.is_dry = false;
        match self.socket.recv_from(into) {
            Ok((length, address)) if address == self.server => {
                let datagram = &into[..length];
                if is_page(datagram) {
                    self.set_aside(datagram);
                    return Came::Nothing;
                }
                Came::Datagram {
                    length,
                    sender: Party::Server,
                }
            }
            Ok(_) => Came::Nothing,
            Err(error) if is_silence(&error) => {
                self.is_dry = true;
                Came::Nothing
            }
            Err(_) => {
                self.count_fault();
                Came::Failed
            }
        }
    }
}

impl Line for HostLink {
    /// Sends what was held back. What the machine refuses is lost, as a datagram may be.
    fn let_go(&mut self) {
        for datagram in self.held.iter() {
            let _sent = self.socket.send_to(datagram, self.server);
        }
        self.held.clear();
    }

    fn is_dry(&self) -> bool {
        self.is_dry
    }

    fn take_page(&mut self) -> Option<Vec<u8>> {
        self.listed.take()
    }
}
