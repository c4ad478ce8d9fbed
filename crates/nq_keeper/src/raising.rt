//! Revisions that rise.

ghost use Rattle.std.specs.Prelude.{◌≡◌};
ghost use Rattle.nq_keeper.specs.Capped.{capped_row};
ghost use Rattle.nq_model.specs.protocol.Change.{raised_row};

use nq_base::{FileRow, Rev};

/// The row of a file whose revision rises, with so many blocks. A revision at the end of its type stays.
#[tactic(auto, unfolding(nq_model::specs::protocol::Change::raised_row, crate::specs::Capped::capped_row))]
pub fn raised(row: &FileRow, blocks: u32) -> FileRow
    ensures { result ≡ capped_row (raised_row row.now blocks) }
{
    FileRow {
        id: row.id,
        name: row.name,
        blocks,
        rev: Rev(row.rev.0.saturating_add(1)),
    }
}
