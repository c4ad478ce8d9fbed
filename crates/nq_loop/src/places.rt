//! The steps of a turn by their places: the rounds, then the calls and the server's receive, and then the receives of the hosts. A row of
//! them has a place for each host, and behind these one for the server; the last row has none for the server.

ghost use Rattle.std.specs.Prelude.{◌≡◌, ◌≤◌};
ghost use Rattle.nq_loop.specs.Looping.{deed_at, deed_in, step_count};

use crate::turns::Deed;
use nq_base::{Host, Party};

/// How many steps a turn has.
pub(crate) fn step_count(hosts: u32, rounds: u64) -> u64
    requires few { hosts ≤ 64 }
    requires rounds { rounds ≤ 60 }
    ensures { result ≡ step_count hosts rounds }
{
    let hosts = hosts as u64;
    let behind = 2 * hosts + 1;
    rounds * (hosts + 1) + behind
}

/// The step at a place of a turn.
pub(crate) fn deed_at(hosts: u32, rounds: u64, place: u64) -> Deed
    ensures { result ≡ deed_at hosts rounds place }
{
    let row = hosts as u64 + 1;
    deed_in(hosts, rounds, place / row, (place % row) as u32)
}

/// The step at a place of a row.
fn deed_in(hosts: u32, rounds: u64, row: u64, host: u32) -> Deed
    ensures { result ≡ deed_in hosts rounds row host }
{
    if row < rounds {
        if host < hosts {
            Deed::Tick(host)
        } else {
            Deed::ServerTick
        }
    } else if row == rounds {
        if host < hosts {
            Deed::Call(host)
        } else {
            Deed::Receive(Party::Server)
        }
    } else {
        Deed::Receive(Party::Client(Host(host)))
    }
}
