//! The addresses of the parties on one machine: 127.0.0.1, with a port for each.

ghost use Rattle.std.specs.Prelude.{◌≡◌, ◌↔◌, ◌<◌, nat_lt, None, Some, IsTrue, if◌then◌else◌};
ghost use Rattle.nq_base.specs.declared.Party.{Party};
ghost use Rattle.nq_udp.specs.Local.{HasAddress, IsAt, IsAtPort, IsLocal, port_of};

use nq_base::{Host, Party};
use std::net::{IpAddr, Ipv4Addr, SocketAddr};

/// The port of the server.
const SERVER_PORT: u16 = 20560;

/// The port of host 0; host h has the port that is h further on.
const FIRST_HOST_PORT: u16 = 20561;

/// How many hosts there may be.
const MOST_HOSTS: u16 = 64;

/// The address of a party; None for a host that there cannot be.
pub(crate) fn address_of(party: Party) -> Option<SocketAddr>
    ensures { HasAddress party result }
{
    match port_of(party) {
        Some(port) => Some(SocketAddr::new(IpAddr::V4(Ipv4Addr::new(127, 0, 0, 1)), port)),
        None => None,
    }
}

/// The port of a party; None for a host that there cannot be.
fn port_of(party: Party) -> Option<u16>
    ensures { result ≡ port_of party }
{
    match party {
        Party::Server => Some(SERVER_PORT),
        Party::Client(host) => match number_of(host) {
            Some(number) => Some(FIRST_HOST_PORT + number),
            None => None,
        },
    }
}

/// The number of a host that there can be.
fn number_of(host: Host) -> Option<u16>
    ensures { result ≡ (if nat_lt host 64 then Some host else None) }
{
    match u16::try_from(host.0) {
        Ok(number) if number < MOST_HOSTS => Some(number),
        _ => None,
    }
}

/// The party at an address; None where it is nobody's.
pub(crate) fn party_at(address: SocketAddr) -> Option<Party>
    ensures { IsAt address result }
{
    if is_local(address.ip()) {
        party_of(address.port())
    } else {
        None
    }
}

/// Whether an address is 127.0.0.1.
fn is_local(address: IpAddr) -> bool
    ensures { IsTrue result ↔ IsLocal address }
{
    match address {
        IpAddr::V4(v4) => v4.octets() == [127, 0, 0, 1],
        IpAddr::V6(_) => false,
    }
}

/// The party that has a port; None where it is nobody's.
fn party_of(port: u16) -> Option<Party>
    ensures { IsAtPort port result }
{
    if port == SERVER_PORT {
        return Some(Party::Server);
    }
    match port.checked_sub(FIRST_HOST_PORT) {
        Some(number) if number < MOST_HOSTS => Some(Party::Client(Host(u32::from(number)))),
        _ => None,
    }
}
