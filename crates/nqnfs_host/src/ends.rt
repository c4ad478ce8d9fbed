//! Between which addresses a host's datagrams go.

ghost use Rattle.std.specs.Prelude.{Some, IfSome};
ghost use Rattle.nq_base.specs.declared.Party.{Party};
ghost use Rattle.nq_udp.specs.Book.{HasAddressIn};

use nq_base::{Host, Party};
use nq_udp::Book;
use std::net::SocketAddr;

/// The addresses of a host and of the server in a book, if it lists both.
pub(crate) fn ends_in(book: &Book, number: u32) -> Option<(SocketAddr, SocketAddr)>
    ensures home { IfSome result (λ ends. HasAddressIn book.now (Party.Client number) (Some ends.0)) }
    ensures server { IfSome result (λ ends. HasAddressIn book.now Party.Server (Some ends.1)) }
{
    let home = book.address(Party::Client(Host(number)))?;
    let server = book.address(Party::Server)?;
    Some((home, server))
}
