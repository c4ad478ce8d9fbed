//! The steps of a change: each is a few calls of the disk.

ghost use Rattle.std.specs.Prelude.{◌≡◌, ◌+◌, ℕ, List, Option, Some, length, OnOk};
ghost use Rattle.std.specs.Option.{option_map};
ghost use Rattle.std.specs.Option.{ForSome};
ghost use Rattle.nq_disk.specs.Calling.{Counts, LeavesTorn, Writes, IsAllThatIsLeft};
ghost use Rattle.nq_disk.specs.Ranges.{applied, Settling};
ghost use Rattle.nq_disk.specs.Record.{front_of, front_range, ranges_in};
ghost use Rattle.nq_disk.specs.Saying.{Each, Only, TellsOn};

use crate::{Disk, DiskFault};

/// Writes bytes, and syncs.
pub(crate) fn write_synced<D: Disk>(disk: &mut D, place: u64, bytes: &[u8]) -> Result<(), DiskFault>
    ensures writes { Writes result place bytes.now (D.told disk.old) (D.told disk.new) }
    ensures settles { OnOk result (IsAllThatIsLeft (D.told disk.new) (D.may_leave disk.new)) }
    ensures cause { Counts result (D.faults disk.old) (D.faults disk.new) }
    ensures follows { D.follows disk.old disk.new }
    ensures leaves { LeavesTorn place (length bytes.now) (D.may_leave disk.old) (D.leaves disk.old disk.new) }
{
    disk.write_at(place, bytes)?;
    disk.sync()
}

/// The range at the front of these bytes, as its place and its bytes, and the bytes behind it; None where it does not fit.
pub(crate) fn front_range(bytes: &[u8]) -> Option<(u64, &[u8], &[u8])>
    ensures { option_map (λ x. front_of x.0 x.1.now x.2.now) result ≡ front_range bytes.now }
{
    let [a, b, c, d, e, f, g, h, i, j, k, l, rest @ ..] = bytes else {
        return None;
    };
    let place = u64::from_be_bytes([*a, *b, *c, *d, *e, *f, *g, *h]);
    let count = u32::from_be_bytes([*i, *j, *k, *l]) as usize;
    if rest.len() < count {
        return None;
    }
    let (body, behind) = rest.split_at(count);
    Some((place, body, behind))
}

/// Writes so many ranges, which stand at the front of these bytes.
pub(crate) fn put_ranges<D: Disk>(disk: &mut D, count: u32, bytes: &[u8]) -> Result<(), DiskFault>
    ensures written { OnOk result (ForSome (D.told disk.old) (λ old. D.told disk.new ≡ Some (applied (ranges_in count bytes.now) old))) }
    ensures tells { TellsOn (D.told disk.old) (D.told disk.new) }
    ensures cause { Counts result (D.faults disk.old) (D.faults disk.new) }
    ensures follows { D.follows disk.old disk.new }
    ensures leaves { ForSome (D.told disk.old) (λ old. Only old (D.may_leave disk.old)
        → Each (D.leaves disk.old disk.new) (Settling (ranges_in count bytes.now) old)) }
{
    let mut rest = bytes;
    for _turn in 0..count {
        match front_range(rest) {
            None => break,
            Some((place, body, behind)) => {
                disk.write_at(place, body)?;
                rest = behind;
            }
        }
    }
    Ok(())
}
