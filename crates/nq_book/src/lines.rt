//! The lines of an address book.

ghost use Rattle.nq_book.specs.Lines.{TakesLine, is_blank, party_named};
ghost use Rattle.std.specs.Prelude.{◌≡◌};

use nq_base::{Host, Party};
use nq_script::words::{cut, is, number};
use nq_udp::{Book, Clash};
use std::net::SocketAddr;

/// The greatest number of a host.
const LAST_HOST: u64 = 63;

/// What is wrong with a line.
#[derive(Clone, Copy)]
pub enum Why {
    /// No blank stands between a party and its address.
    Words,
    /// The first word is neither `server` nor the number of a host, 0 to 63.
    Party,
    /// What stands behind the first blank is no address with a port.
    Address,
    /// The book does not list it, for this reason.
    Clash(Clash),
}

impl Why {
    /// What is wrong, in words.
    pub fn words(&self) -> &'static str {
        match self {
            Why::Words =>
                "a party and its address, with one blank between them, have to stand there",
            Why::Party => "the first word is neither server nor a host, 0 to 63",
            Why::Address =>
                "behind the blank stands no address with a port, as 10.0.0.1:20560 or [fd00::1]:20560",
            Why::Clash(Clash::Host) => "there is no such host: 0 to 63",
            Why::Clash(Clash::Party) => "this party has an address already",
            Why::Clash(Clash::Address) => "another party has this address",
        }
    }
}

/// Whether a line says nothing.
fn is_blank(line: &[u8]) -> bool
    ensures { result ≡ is_blank line.now }
{
    match line {
        [] => true,
        [first, ..] => *first == b'#',
    }
}

/// The party that a word names.
fn party_named(word: &[u8]) -> Option<Party>
    ensures { result ≡ party_named word.now }
{
    if is(word, b"server") {
        return Some(Party::Server);
    }
    match number(word, LAST_HOST) {
        Some(host) => Some(Party::Client(Host(host as u32))),
        None => None,
    }
}

/// Takes a line of a book in.
///
/// # Errors
///
/// What is wrong with it. The book is as before then.
pub(crate) fn take_line(book: &mut Book, line: &[u8]) -> Result<(), Why>
    ensures { TakesLine result line.now book.old book.new }
{
    if is_blank(line) {
        return Ok(());
    }
    let Some((word, text)) = cut(line, b' ') else {
        return Err(Why::Words);
    };
    let Some(party) = party_named(word) else {
        return Err(Why::Party);
    };
    let Ok(address) = SocketAddr::parse_ascii(text) else {
        return Err(Why::Address);
    };
    match book.list(party, address) {
        Ok(()) => Ok(()),
        Err(clash) => Err(Why::Clash(clash)),
    }
}
