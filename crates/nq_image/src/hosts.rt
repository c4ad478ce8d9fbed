//! The rows of the hosts.

ghost use Rattle.std.specs.Prelude.{◌≡◌, ◌<◌, ◌+◌, ◌^◌, ◌*◌, length};
ghost use Rattle.nq_image.specs.Check.{tested};
ghost use Rattle.nq_image.specs.Hosts.{verdict_of as verdict_at, host_checks, host_of, hosts_checks, hosts_of};
ghost use Rattle.nq_image.specs.Reading.{Reads};

use crate::fault::{ImageFault, WrongField};
use crate::fields::{are_zeros, hyper_in, word_in};
use nq_base::{HostRow, Inc, Seq, Verdict};
use std::alloc::Global;

#[tactic(auto, unfolding(crate::specs::Hosts::verdict_of))]
fn verdict_of(number: u32) -> Option<Verdict>
    ensures { result ≡ verdict_at number }
{
    match number {
        0 => Some(Verdict::Done),
        1 => Some(Verdict::Fenced),
        2 => Some(Verdict::Exist),
        3 => Some(Verdict::NoSpace),
        4 => Some(Verdict::Invalid),
        5 => Some(Verdict::Stale),
        6 => Some(Verdict::TryLater),
        _ => None,
    }
}

/// The host row in these 32 bytes, which stand at `place` of an image.
///
/// # Errors
///
/// The place of the first field that is wrong.
#[tactic(auto, unfolding(crate::specs::Hosts::host_of, crate::specs::Layout::piece))]
pub fn read_host(row: &[u8], place: u64) -> Result<HostRow, WrongField>
    requires size { length row.now ≡ 32 }
    requires room { place + 32 < 2 ^ 64 }
    ensures { result ≡ tested (host_checks place row.now) (host_of row.now) }
{
    let inc = word_in(row, 0);
    if inc >= 0x8000_0000 {
        return Err(WrongField(place));
    }
    let Some(verdict) = verdict_of(word_in(row, 4)) else {
        return Err(WrongField(place + 4));
    };
    let seq = hyper_in(row, 8);
    if seq >= 0x2000_0000_0000_0000 {
        return Err(WrongField(place + 8));
    }
    if !are_zeros(&row[24..32]) {
        return Err(WrongField(place + 24));
    }
    Ok(HostRow {
        inc: Inc(inc),
        seq: Seq(seq),
        verdict,
        value: hyper_in(row, 16),
    })
}

/// So many host rows, of which the first stands at `place` of an image.
///
/// # Errors
///
/// `BadField` at the first field that is wrong; `Memory`.
pub fn read_hosts(
    alloc: Global,
    rows: &[u8],
    count: usize,
    place: u64,
) -> Result<Vec<HostRow>, ImageFault>
    requires size { length rows.now ≡ 32 * count }
    requires room { place + 32 * count < 2 ^ 64 }
    ensures { Reads (λ hosts. hosts.items) result (tested (hosts_checks count place rows.now) (hosts_of count rows.now)) }
{
    let mut hosts = Vec::new(alloc);
    let mut rest = rows;
    let mut at = place;
    for _ in 0..count {
        let (row, behind) = rest.split_at(32);
        let host = read_host(row, at)?;
        hosts.push(host)?;
        rest = behind;
        at += 32;
    }
    Ok(hosts)
}
