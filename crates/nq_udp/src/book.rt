//! An address book.

ghost use Rattle.std.specs.Prelude.{◌≡◌, ◌<◌, ◌↔◌, IfSome, IsTrue, None, Some, length};
ghost use Rattle.nq_udp.specs.Book.{HasAddressIn, IsAtIn, IsPlaceOf, Lists, empty_book, entry_at, place_of};

use crate::local::{address_of, party_at};
use nq_base::{Host, Party};
use std::marker::Model;
use std::net::SocketAddr;

/// How many places a book has: one for the server, and behind it one for each host.
const PLACES: usize = 65;

/// Why an address is not listed for a party.
#[derive(Clone, Copy, PartialEq, Eq)]
pub enum Clash {
    /// There is no such host: hosts are 0 to 63.
    Host,
    /// The party has an address.
    Party,
    /// A party has this address.
    Address,
}

/// An address book: which party has which address. That of one machine gives the server port 20560 of 127.0.0.1, and host h port
/// 20561 + h. Any other one lists an address for each of the parties that it knows. Contracts see what it lists.
#[derive(Drop)]
pub struct Book {
    listed: Option<[Option<SocketAddr>; PLACES]>,
}

impl Model for Book {
    ghost use Rattle.nq_udp.specs.Book.{Listed};

    ghost Value = { Listed };

    ghost view = { λ b. b.listed };
}

/// The place of a party.
fn place_of(party: &Party) -> usize
    ensures { result ≡ place_of party.now }
{
    match party {
        Party::Server => 0,
        Party::Client(host) => host.0 as usize + 1,
    }
}

/// The party of a place.
fn party_of(place: usize) -> Party
    requires { place < 65 }
    ensures { place_of result ≡ place }
{
    if place == 0 {
        Party::Server
    } else {
        Party::Client(Host((place - 1) as u32))
    }
}

impl Book {
    /// The book of one machine.
    pub const fn local() -> Book
        ensures { result ≡ None }
    {
        Book { listed: None }
    }

    /// A book that lists nobody yet.
    pub const fn empty() -> Book
        ensures { result ≡ empty_book }
    {
        Book {
            listed: Some([None; PLACES]),
        }
    }

    /// The address of a party, if it has one.
    pub fn address(&self, party: Party) -> Option<SocketAddr>
        ensures { HasAddressIn self.now party result }
    {
        match &self.listed {
            Some(places) => entry_of(places, party),
            None => address_of(party),
        }
    }

    /// The party that has an address, if one has it.
    pub fn party(&self, address: &SocketAddr) -> Option<Party>
        ensures { IsAtIn self.now address.now result }
    {
        match &self.listed {
            Some(places) => party_among(places, address),
            None => party_at(*address),
        }
    }

    /// Lists an address for a party.
    ///
    /// # Errors
    ///
    /// `Host` where there is no such host, `Party` where the party has an address, and `Address` where a party has this one, as each
    /// party in the book of one machine has. The book is as before then.
    #[tactic(auto, using(crate::proofs::Places::known, crate::proofs::Places::fresh))]
    pub fn list(&mut self, party: Party, address: SocketAddr) -> Result<(), Clash>
        ensures { Lists result party address self.old self.new }
    {
        let place = place_of(&party);
        if place >= PLACES {
            return Err(Clash::Host);
        }
        if let Some(_known) = self.address(party) {
            return Err(Clash::Party);
        }
        if let Some(_other) = self.party(&address) {
            return Err(Clash::Address);
        }
        if let Some(places) = &mut self.listed {
            places[place] = Some(address);
        }
        Ok(())
    }
}

/// What a book lists for a party.
fn entry_of(places: &[Option<SocketAddr>], party: Party) -> Option<SocketAddr>
    ensures { result ≡ entry_at places.now (place_of party) }
{
    match places.get(place_of(&party)) {
        Some(entry) => *entry,
        None => None,
    }
}

/// Whether an entry is this address.
fn is_entry(entry: &Option<SocketAddr>, address: &SocketAddr) -> bool
    ensures { IsTrue result ↔ (entry.now ≡ Some address.now) }
{
    match entry {
        Some(known) => *known == *address,
        None => false,
    }
}

/// The place at which an address stands, if it stands there.
fn place_with(places: &[Option<SocketAddr>], address: &SocketAddr) -> Option<usize>
    ensures found { IsPlaceOf places.now address.now result }
    ensures within { IfSome result (λ place. place < length places.now) }
{
    for (place, entry) in places.iter().enumerate() {
        if is_entry(entry, address) {
            return Some(place);
        }
    }
    None
}

/// The party for which a book lists an address, if there is one.
#[tactic(auto, using(crate::proofs::Places::nobody))]
fn party_among(places: &[Option<SocketAddr>; PLACES], address: &SocketAddr) -> Option<Party>
    ensures { IsAtIn (Some places.now) address.now result }
{
    match place_with(places, address) {
        Some(place) => Some(party_of(place)),
        None => None,
    }
}
