//! What is asked about files and changes nothing.

ghost use Rattle.std.specs.Prelude.{◌≡◌, ◌<◌, ℕ, IfOk, Some};
ghost use Rattle.std.specs.Option.{ForSome};
ghost use Rattle.nq_keeper.specs.Keeping.{Reads, LeavesOne};
ghost use Rattle.nq_model.specs.protocol.Change.{row_of_found};
ghost use Rattle.nq_model.specs.protocol.Kept.{find_file, find_name};
ghost use Rattle.nq_keeper.specs.Reading.{read_out};

use crate::{KeepFault, Keeper};
use nq_base::{Block, BlockNo, FileId, FileRow, Name};

/// What was read of a block.
#[derive(Drop)]
pub enum ReadOut {
    /// The block was read, of a file of this row.
    Got { row: FileRow, body: Block },
    /// The file is not kept (RFC 1813, NFS3ERR_STALE).
    Stale,
    /// The block is not below the file's length (RFC 1813, NFS3ERR_INVAL).
    Invalid,
}

/// The row of the file of this name; None where no file has it.
pub fn lookup<K: Keeper>(keeper: &mut K, name: &Name) -> Result<Option<FileRow>, KeepFault>
    ensures told { ForSome (K.content keeper.old) (λ kept. IfOk result (λ row. row ≡ row_of_found (find_name name.now kept.files))) }
    ensures reads { Reads result (K.content keeper.old) (K.content keeper.new) (K.faults keeper.old) (K.faults keeper.new) }
    ensures follows { K.follows keeper.old keeper.new }
    ensures leaves { LeavesOne (K.content keeper.old) (K.leaves keeper.old keeper.new) }
{
    keeper.by_name(name)
}

/// The row of a file; None where it is not kept.
pub fn getattr<K: Keeper>(keeper: &mut K, file: FileId) -> Result<Option<FileRow>, KeepFault>
    ensures told { ForSome (K.content keeper.old) (λ kept. IfOk result (λ row. row ≡ row_of_found (find_file file kept.files))) }
    ensures reads { Reads result (K.content keeper.old) (K.content keeper.new) (K.faults keeper.old) (K.faults keeper.new) }
    ensures follows { K.follows keeper.old keeper.new }
    ensures leaves { LeavesOne (K.content keeper.old) (K.leaves keeper.old keeper.new) }
{
    keeper.file(file)
}

/// Reads a block of a file.
pub fn read_block<K: Keeper>(
    keeper: &mut K,
    file: FileId,
    block: BlockNo,
) -> Result<ReadOut, KeepFault>
    ensures told { ForSome (K.content keeper.old) (λ kept. IfOk result (λ out. out ≡ read_out block (find_file file kept.files))) }
    ensures reads { Reads result (K.content keeper.old) (K.content keeper.new) (K.faults keeper.old) (K.faults keeper.new) }
    ensures follows { K.follows keeper.old keeper.new }
    ensures leaves { LeavesOne (K.content keeper.old) (K.leaves keeper.old keeper.new) }
{
    let Some(row) = keeper.file(file)? else {
        return Ok(ReadOut::Stale);
    };
    if block.0 >= row.blocks {
        return Ok(ReadOut::Invalid);
    }
    let body = keeper.block(file, block)?;
    Ok(ReadOut::Got { row, body })
}
