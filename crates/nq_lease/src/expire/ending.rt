//! The end of a writing lease in silence: the file is fenced first, so that no older write is stored any more, and only then
//! the row goes.

ghost use Rattle.std.specs.Prelude.{◌≡◌, Some, IfOk, IfSome, OnErr, find};
ghost use Rattle.std.specs.Option.{option_map, ForSome};
ghost use Rattle.nq_lease.specs.Ending.{Fences, LeavesFenced, IsDueBy, fence_of, fencing_as, has_ended, table_after};
ghost use Rattle.nq_keeper.specs.Capped.{capped_row};
ghost use Rattle.nq_keeper.specs.Keeping.{Commits, LeavesTwo};
ghost use Rattle.nq_lease.specs.Rows.{key_of};
ghost use Rattle.nq_model.specs.protocol.Change.{Fits, FitsFile, raised_row};
ghost use Rattle.nq_model.specs.protocol.ServerStep.{is_due};

use crate::Table;
use nq_base::{Change, FileId, FileRow, Row, RowKey, Ticks, Who};
use nq_keeper::{KeepFault, Keeper, can_rise, raised};

/// A writing lease that ended in silence.
#[derive(Clone, Copy)]
pub struct Fence {
    /// Its holder.
    pub who: Who,
    /// The file.
    pub file: FileId,
    /// When it was over by the server's clock.
    pub until: Ticks,
    /// When a write of the holder was last heard.
    pub heard: Ticks,
    /// When it ended.
    pub now: Ticks,
}

/// The change by which a file is fenced.
fn fencing(row: &FileRow) -> Change
    ensures { result ≡ fencing_as row.now }
{
    Change {
        file: Some(raised(row, row.blocks)),
        block: None,
        host: None,
        heads: None,
        removed: None,
    }
}

/// Fences a file, where it is kept, and says whether that was done: it is not where its revision can not rise.
fn fence_file<K: Keeper>(keeper: &mut K, file: FileId) -> Result<bool, KeepFault>
    ensures fences { Fences file result (K.content keeper.old) (K.content keeper.new) (K.faults keeper.old) (K.faults keeper.new) }
    ensures follows { K.follows keeper.old keeper.new }
    ensures leaves { LeavesFenced file (K.content keeper.old) (K.leaves keeper.old keeper.new) }
{
    let Some(row) = keeper.file(file)? else {
        return Ok(true);
    };
    if !can_rise(&row) {
        return Ok(false);
    }
    let change = fencing(&row);
    keeper.commit(change)?;
    Ok(true)
}

/// What is told of a lease that ended at this time.
fn told_of(row: &Row, now: Ticks) -> Fence
    ensures { result ≡ fence_of row.now now }
{
    Fence {
        who: row.who,
        file: row.file,
        until: row.until,
        heard: row.heard,
        now,
    }
}

/// Ends the writing lease that is due by this key: the revision of its file rises in one change, and only then the row
/// goes. None where the revision is the last that can be kept: then nothing changes, and the row stays. After a fault neither
/// happened.
pub fn end_writing<K: Keeper>(
    table: &mut Table,
    keeper: &mut K,
    key: RowKey,
    now: Ticks,
) -> Result<Option<Fence>, KeepFault>
    requires { IsDueBy key now table.old.rows }
    ensures fence { IfSome (find (is_due now) table.old.rows) (λ row. IfOk result (λ ended. IfSome ended (λ f. f ≡ fence_of row now))) }
    ensures drops { IfOk result (λ ended. table.new ≡ table_after key ended table.old) }
    ensures stays { OnErr result (table.new ≡ table.old) }
    ensures fences { Fences key.file (has_ended result) (K.content keeper.old) (K.content keeper.new) (K.faults keeper.old) (K.faults keeper.new) }
    ensures follows { K.follows keeper.old keeper.new }
    ensures leaves { LeavesFenced key.file (K.content keeper.old) (K.leaves keeper.old keeper.new) }
{
    let RowKey { file, host } = key;
    let Some(row) = table.row(RowKey { file, host }) else {
        unreachable!()
    };
    if !fence_file(keeper, file)? {
        return Ok(None);
    }
    table.drop_row(RowKey { file, host });
    Ok(Some(told_of(&row, now)))
}
