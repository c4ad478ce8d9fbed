//! A UDP socket that looks again for a moment before it waits.

ghost use Rattle.std.specs.Prelude.{◌≡◌, ◌≤◌, length, None, Some, IfOk, OnErr};

use std::io;
use std::io::ErrorKind;
use std::net::{Net, SocketAddr, UdpSocket};
use std::time::Duration;

/// How often a receive looks whether a datagram is there, behind one that brought one, before it waits. A look takes a quarter of a
/// microsecond, and to fall asleep and be woken takes as long as some thirty.
const LOOKS: u32 = 64;

/// How many receives at most wait at once behind looks that were in vain.
const MOST_REST: u32 = 63;

/// A UDP socket that waits for a datagram, or not at all. Behind a datagram the next one mostly follows soon, so then it looks some
/// times before it waits. Where that was in vain, as it is where callers are slow or share its processor, the next receives wait at
/// once: one, then 3, 7 and at last 63 of them, until looks find something again.
#[derive(Drop)]
pub(crate) struct PatientSocket {
    socket: UdpSocket,
    /// The address at which it was bound.
    home: SocketAddr,
    /// Whether a receive may wait.
    waits: bool,
    /// Whether the machine waits in the calls of the socket.
    is_blocking: bool,
    /// Whether the last receive brought a datagram, and the next one may wait.
    is_busy: bool,
    /// How many of the next receives wait at once.
    rest: u32,
    /// How many did so behind the last looks in vain.
    last_rest: u32,
    /// Where the last datagram was sent to.
    receiver: Option<SocketAddr>,
    /// Where the datagram came from that the last receive brought, if it brought one.
    sender: Option<SocketAddr>,
}

/// Whether an error says only that nothing came in time.
pub(crate) fn is_silence(error: &io::Error) -> bool {
    matches!(
        error.kind(),
        ErrorKind::WouldBlock | ErrorKind::TimedOut | ErrorKind::Interrupted
    )
}

impl PatientSocket {
    /// A socket at this address, which waits for so long in each receive, or not at all.
    pub(crate) fn bind<R: Net>(
        net: &R,
        address: SocketAddr,
        wait: Option<Duration>,
    ) -> io::Result<PatientSocket>
        ensures home { IfOk result (λ socket. socket.home ≡ address) }
        ensures receiver { IfOk result (λ socket. socket.receiver ≡ None) }
        ensures sender { IfOk result (λ socket. socket.sender ≡ None) }
    {
        let socket = UdpSocket::bind(net, address)?;
        match wait {
            Some(wait) => socket.set_read_timeout(Some(wait))?,
            None => socket.set_nonblocking(true)?,
        }
        let waits = wait.is_some();
        Ok(PatientSocket {
            socket,
            home: address,
            waits,
            is_blocking: waits,
            is_busy: false,
            rest: 0,
            last_rest: 0,
            receiver: None,
            sender: None,
        })
    }

    /// Sends a datagram, and says how many of its bytes were sent.
    pub(crate) fn send(&mut self, to: SocketAddr, bytes: &[u8]) -> io::Result<usize>
        ensures goes { self.new.receiver ≡ Some to }
        ensures sender { self.new.sender ≡ self.old.sender }
        ensures home { self.new.home ≡ self.old.home }
    {
        self.receiver = Some(to);
        self.socket.send_to(bytes, to)
    }

    /// Receives a datagram, and says how many bytes it has and where it came from.
    pub(crate) fn receive(&mut self, into: &mut [u8]) -> io::Result<(usize, SocketAddr)>
        ensures within { IfOk result (λ r. r.0 ≤ length into.old) }
        ensures came { IfOk result (λ r. self.new.sender ≡ Some r.1) }
        ensures nothing { OnErr result (self.new.sender ≡ None) }
        ensures receiver { self.new.receiver ≡ self.old.receiver }
        ensures home { self.new.home ≡ self.old.home }
    {
        let came = if self.looks_first() {
            self.look_and_wait(into)
        } else {
            self.wait(into)
        };
        self.is_busy = self.waits && came.is_ok();
        self.sender = match &came {
            Ok((_, sender)) => Some(*sender),
            Err(_) => None,
        };
        came
    }

    /// Whether the next receive looks some times before it waits.
    fn looks_first(&mut self) -> bool
        ensures receiver { self.new.receiver ≡ self.old.receiver }
        ensures home { self.new.home ≡ self.old.home }
    {
        if !self.is_busy || self.rest == 0 {
            return self.is_busy;
        }
        self.rest -= 1;
        false
    }

    /// Looks some times whether a datagram is there, and then waits for one.
    fn look_and_wait(&mut self, into: &mut [u8]) -> io::Result<(usize, SocketAddr)>
        ensures within { IfOk result (λ r. r.0 ≤ length into.old) }
        ensures receiver { self.new.receiver ≡ self.old.receiver }
        ensures home { self.new.home ≡ self.old.home }
    {
        self.set_blocking(false)?;
        for _look in 0..LOOKS {
            match self.socket.recv_from(into) {
                Ok(came) => {
                    self.last_rest = 0;
                    return Ok(came);
                }
                Err(error) if is_silence(&error) => {}
                Err(error) => return Err(error),
            }
        }
        self.last_rest = (2 * self.last_rest.min(MOST_REST) + 1).min(MOST_REST);
        self.rest = self.last_rest;
        self.wait(into)
    }

    /// Waits for a datagram, where a receive may wait.
    fn wait(&mut self, into: &mut [u8]) -> io::Result<(usize, SocketAddr)>
        ensures within { IfOk result (λ r. r.0 ≤ length into.old) }
        ensures receiver { self.new.receiver ≡ self.old.receiver }
        ensures home { self.new.home ≡ self.old.home }
    {
        self.set_blocking(self.waits)?;
        self.socket.recv_from(into)
    }

    /// Sees to it that the machine waits in the calls of the socket, or does not.
    fn set_blocking(&mut self, is_blocking: bool) -> io::Result<()>
        ensures receiver { self.new.receiver ≡ self.old.receiver }
        ensures home { self.new.home ≡ self.old.home }
    {
        if self.is_blocking != is_blocking {
            self.socket.set_nonblocking(!is_blocking)?;
            self.is_blocking = is_blocking;
        }
        Ok(())
    }
}
