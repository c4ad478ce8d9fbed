//! A link over UDP.

ghost use Rattle.std.specs.Prelude.{◌≡◌, ◌≤◌, ◌≢◌, None, Some, IfOk, IfSome, OnErr, OnOk, is_some, length, true};
ghost use Rattle.nq_io.specs.Faults.{Rose, count_up};
ghost use Rattle.nq_link.specs.Link.{Comes, CountsReceive, CountsSend, Sends};
ghost use Rattle.nq_udp.specs.Book.{HasAddressIn};
ghost use Rattle.nq_udp.specs.UdpLink.{CameFrom, ComesFrom, HasPort, IsBoundBy, IsFromParty, IsHeardAt, IsOf, IsSentAt, ListensAt, unused};
ghost use Rattle.nq_link.specs.declared.link.Sent.{Sent};

use crate::book::Book;
use crate::socket::{PatientSocket, is_silence};
use nq_link::{Came, Link, Party, Sent};
use std::io;
use std::io::ErrorKind;
use std::marker::Model;
use std::net::{Net, SocketAddr};
use std::time::Duration;

/// For how many milliseconds a receive asks the machine to wait.
const WAIT: u64 = 5;

/// A party's UDP socket at its address by a [`Book`], or at another one where it is told to listen. It is bound at the first use, or
/// before it by [`open`](UdpLink::open). Where nothing has come, a receive asks the machine to wait for 5 milliseconds; a machine
/// counts them in ticks of its own, and one that ticks 250 times a second waits for up to 12. Behind a receive that brought a
/// datagram it looks for another one for some microseconds before it waits. A datagram from an
/// address that is not in the book is taken and counts as nothing. Each error of the socket is a fault. Contracts see whose link it is, its book, its counts,
/// which stand still at `u64::MAX`, and to and from which address the last datagrams went.
#[derive(Drop)]
pub struct UdpLink<R> {
    net: R,
    me: Party,
    book: Book,
    home: Option<SocketAddr>,
    wait: Option<Duration>,
    socket: Option<PatientSocket>,
    is_taken: bool,
    faults: u64,
    receives: u64,
}

impl<R> Model for UdpLink<R> {
    ghost use Rattle.std.specs.Prelude.{option_and_then, option_map};
    ghost use Rattle.nq_udp.specs.UdpLink.{CountedSocket};

    ghost Value = { CountedSocket };

    ghost view = { λ l. record {
      me = l.me;
      book = l.book;
      home = l.home;
      bound = option_map (λ s. s.home) l.socket;
      faults = l.faults;
      receives = l.receives;
      receiver = option_and_then (λ s. s.receiver) l.socket;
      sender = option_and_then (λ s. s.sender) l.socket;
    } };
}

/// A socket that is bound at this address and no other, if there is one, and waits for so long in each receive, or not at all.
fn bound<R: Net>(
    net: &R,
    home: Option<SocketAddr>,
    wait: Option<Duration>,
) -> io::Result<PatientSocket>
    ensures home { IfOk result (λ socket. home ≡ Some socket.home) }
    ensures receiver { IfOk result (λ socket. socket.receiver ≡ None) }
    ensures sender { IfOk result (λ socket. socket.sender ≡ None) }
{
    match home {
        Some(address) => PatientSocket::bind(net, address, wait),
        None => Err(io::Error::from(ErrorKind::InvalidInput)),
    }
}

impl<R: Net> UdpLink<R> {
    /// A link of this party over the book of one machine. It takes no memory.
    pub fn new(net: R, me: Party) -> UdpLink<R>
        ensures { result ≡ unused me None None }
    {
        UdpLink::with_book(net, me, Book::local(), None)
    }

    /// A link of this party over a book, which listens at this address, or where none is told at the party's own by the book. It takes no
    /// memory.
    pub fn with_book(net: R, me: Party, book: Book, home: Option<SocketAddr>) -> UdpLink<R>
        ensures { result ≡ unused me book home }
    {
        UdpLink {
            net,
            me,
            book,
            home,
            wait: Some(Duration::from_millis(WAIT)),
            socket: None,
            is_taken: false,
            faults: 0,
            receives: 0,
        }
    }

    /// A link of this party over the book of one machine whose receives do not wait, for somebody who looks after many links in turn. It
    /// takes no memory.
    pub fn without_wait(net: R, me: Party) -> UdpLink<R>
        ensures { result ≡ unused me None None }
    {
        UdpLink {
            net,
            me,
            book: Book::local(),
            home: None,
            wait: None,
            socket: None,
            is_taken: false,
            faults: 0,
            receives: 0,
        }
    }

    /// The address at which it listens; None where the book has none for its party and it was told none.
    fn listens_at(&self) -> Option<SocketAddr>
        ensures { IfSome result (λ address. ListensAt self.now address) }
    {
        match self.home {
            Some(address) => Some(address),
            None => self.book.address(self.me),
        }
    }

    /// The port at which it listens, where another socket had it when this link tried to bind its own.
    pub fn taken_port(&self) -> Option<u16>
        ensures { IfSome result (λ port. HasPort self.now port) }
    {
        if !self.is_taken {
            return None;
        }
        match self.listens_at() {
            Some(address) => Some(address.port()),
            None => None,
        }
    }

    /// Counts a fault.
    fn count_fault(&mut self)
        ensures counted { self.new ≡ record self.old { faults = count_up self.old.faults } }
        ensures rose { Rose self.old.faults self.new.faults }
    {
        self.faults = self.faults.saturating_add(1);
    }

    /// Counts a receive.
    fn count_receive(&mut self)
        ensures { self.new ≡ record self.old { receives = count_up self.old.receives } }
    {
        self.receives = self.receives.saturating_add(1);
    }
}

impl<R: Net> UdpLink<R> {
    /// Binds the socket now, so that it keeps what comes before the first use. Where the machine refuses, nothing is counted: the
    /// first use tries again, and counts its fault.
    pub fn open(&mut self)
        ensures same { self.new ≡ record self.old { bound = self.new.bound } }
        ensures bound { IsBoundBy self.old self.new.bound }
    {
        let _tried = self.bind();
    }

    /// Binds the socket, if that was not done yet.
    fn bind(&mut self) -> io::Result<()>
        ensures same { self.new ≡ record self.old { bound = self.new.bound } }
        ensures bound { IsBoundBy self.old self.new.bound }
        ensures nothing { OnErr result (self.new.sender ≡ None) }
    {
        if self.socket.is_some() {
            return Ok(());
        }
        match bound(&self.net, self.listens_at(), self.wait) {
            Ok(socket) => {
                self.socket = Some(socket);
                Ok(())
            }
            Err(error) => {
                self.is_taken = error.kind() == ErrorKind::AddrInUse;
                Err(error)
            }
        }
    }

    /// Sends a datagram, and says how many of its bytes were sent. A party without an address is an error.
    fn send_to(&mut self, to: Party, bytes: &[u8]) -> io::Result<usize>
        ensures same { self.new ≡ record self.old { bound = self.new.bound; receiver = self.new.receiver } }
        ensures bound { IsBoundBy self.old self.new.bound }
        ensures from { IfOk result (λ _. is_some self.new.bound ≡ true) }
        ensures goes { OnOk result (IsOf self.old.book to self.new.receiver) }
        ensures nowhere { IfOk result (λ _. ¬ (HasAddressIn self.old.book to None)) }
    {
        let Some(address) = self.book.address(to) else {
            return Err(io::Error::from(ErrorKind::InvalidInput));
        };
        self.bind()?;
        match &mut self.socket {
            Some(socket) => socket.send(address, bytes),
            None => Err(io::Error::from(ErrorKind::NotConnected)),
        }
    }

    /// Receives a datagram, and says how many bytes it has and where it came from.
    fn receive_from(&mut self, into: &mut [u8]) -> io::Result<(usize, SocketAddr)>
        ensures same { self.new ≡ record self.old { bound = self.new.bound; sender = self.new.sender } }
        ensures bound { IsBoundBy self.old self.new.bound }
        ensures at { IfOk result (λ _. is_some self.new.bound ≡ true) }
        ensures within { IfOk result (λ r. r.0 ≤ length into.old) }
        ensures came { IfOk result (λ r. self.new.sender ≡ Some r.1) }
        ensures nothing { OnErr result (self.new.sender ≡ None) }
    {
        self.bind()?;
        match &mut self.socket {
            Some(socket) => socket.receive(into),
            None => Err(io::Error::from(ErrorKind::NotConnected)),
        }
    }
}

/// What a datagram of so many bytes from an address is to a link.
fn came_from(book: &Book, length: usize, address: SocketAddr) -> Came
    ensures { ComesFrom book.now address length result }
{
    match book.party(&address) {
        Some(sender) => Came::Datagram { length, sender },
        None => Came::Nothing,
    }
}

impl<R: Net> Link for UdpLink<R> {
    ghost sent = { λ _. None };

    ghost waiting = { λ _. None };

    ghost faults = { λ link. link.faults };

    ghost receives = { λ link. link.receives };

    fn send(&mut self, to: Party, bytes: &[u8]) -> Sent
        // As of any link.
        ensures sends { Sends result to bytes.now None None }
        ensures receives { self.new.receives ≡ self.old.receives }
        ensures cause { CountsSend result self.old.faults self.new.faults }

        // Of this one.
        ensures goes { result ≡ Sent.All → IsOf self.old.book to self.new.receiver }
        ensures nowhere { HasAddressIn self.old.book to None → result ≡ Sent.Failed }
        ensures bound { IsBoundBy self.old self.new.bound }
        ensures from { IsSentAt result self.new.bound }
    {
        match self.send_to(to, bytes) {
            Ok(count) if count == bytes.len() => Sent::All,
            _ => {
                self.count_fault();
                Sent::Failed
            }
        }
    }

    fn receive(&mut self, into: &mut [u8]) -> Came
        // As of any link.
        ensures comes { Comes result None None into.old into.new }
        ensures receives { self.new.receives ≡ count_up self.old.receives }
        ensures cause { CountsReceive result self.old.faults self.new.faults }

        // Of this one.
        ensures came { CameFrom self.old.book result self.new.sender }
        ensures known { IsFromParty self.old.book result }
        ensures bound { IsBoundBy self.old self.new.bound }
        ensures at { IsHeardAt result self.new.bound }
    {
        self.count_receive();
        match self.receive_from(into) {
            Ok((length, address)) => came_from(&self.book, length, address),
            Err(error) if is_silence(&error) => Came::Nothing,
            Err(_) => {
                self.count_fault();
                Came::Failed
            }
        }
    }
}
