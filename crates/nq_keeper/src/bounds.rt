//! The ends of the numbers that can be kept.

ghost use Rattle.std.specs.Prelude.{◌≡◌, ◌+◌, nat_lt};
ghost use Rattle.nq_model.specs.protocol.Kept.{can_be_kept as row_can_be_kept};
ghost use Rattle.nq_model.specs.protocol.Profile.{rev_end};

use nq_base::{FileRow, HostRow};

/// The incarnations that can be kept are below this.
const INC_END: u32 = 0x8000_0000;

/// The sequences that can be kept are below this.
const SEQ_END: u64 = 0x2000_0000_0000_0000;

/// The revisions that can be kept are below this.
const REV_END: u64 = 0x2000_0000_0000_0000;

/// Whether a row of a host can be kept: its numbers are below their ends. Its value is a revision or an id.
pub fn can_be_kept(row: &HostRow) -> bool
    ensures { result ≡ row_can_be_kept row.now }
{
    row.inc.0 < INC_END && row.seq.0 < SEQ_END && row.value < REV_END
}

/// Whether the revision of a file can rise once more.
pub fn can_rise(row: &FileRow) -> bool
    ensures { result ≡ nat_lt (row.now.rev + 1) rev_end }
{
    row.rev.0 < REV_END - 1
}
