//! What the tables say.

ghost use Rattle.std.specs.Prelude.{◌≡◌, ◌+◌, ◌*◌, ◌<◌, ◌≤◌, ◌&&◌, IfSome, None, count_by, is_some, length, nat_lt, position, slice_get, slice_index_or};
ghost use Rattle.std.specs.Prelude.{sum_by};
ghost use Rattle.nq_model.specs.protocol.Kept.{fresh_row};
ghost use Rattle.nq_image.specs.Standing.{row_blocks, row_id};
ghost use Rattle.nq_plan.specs.Finding.{
  blocks_of as blocks_at_id,
  has_id as is_of_id,
  has_name as is_of_name,
  nearer as nearer_of,
  nearest,
  row_behind as row_at_behind,
  row_if as row_of_file,
  row_named as row_at_name,
  row_of as row_at_id,
  slot_of as slot_at_id,
};

use crate::stored_file::StoredFile;
use crate::tables::Tables;
use nq_base::{BlockNo, FileId, FileRow, Heads, Host, HostRow, Inc, Name, Seq, Space, Verdict};

/// The row of a host of which nothing was heard.
const FRESH_ROW: HostRow = HostRow {
    inc: Inc(0),
    seq: Seq(0),
    verdict: Verdict::Done,
    value: 0,
};

fn has_id(row: &Option<StoredFile>, id: FileId) -> bool
    ensures { result ≡ is_of_id id row.now }
{
    match row {
        Some(file) => file.id() == id,
        None => false,
    }
}

/// Which row of the image has the file of an id; None where it is not kept.
pub(crate) fn slot_of(rows: &[Option<StoredFile>], id: FileId) -> Option<usize>
    ensures slot { result ≡ slot_at_id id rows.now }
    ensures within { IfSome result (λ slot. slot < length rows.now) }
{
    rows.iter().position(|row| has_id(row, id))
}

fn has_name(row: &Option<StoredFile>, name: &Name) -> bool
    ensures { result ≡ is_of_name name.now row.now }
{
    match row {
        Some(file) => file.name().as_bytes() == name.as_bytes(),
        None => false,
    }
}

fn slot_named(rows: &[Option<StoredFile>], name: &Name) -> Option<usize>
    ensures place { result ≡ position (is_of_name name.now) rows.now }
    ensures within { IfSome result (λ place. place < length rows.now) }
{
    rows.iter().position(|row| has_name(row, name))
}

/// The row of a file; None where there is none.
fn row_of(row: &Option<StoredFile>) -> Option<FileRow>
    ensures { result ≡ row_of_file row.now }
{
    match row {
        Some(file) => Some(file.row()),
        None => None,
    }
}

/// The row of the file in a row of the image.
fn row_at(rows: &[Option<StoredFile>], slot: usize) -> Option<FileRow>
    requires { slot < length rows.now }
    ensures { result ≡ row_of_file (slice_index_or rows.now slot None) }
{
    row_of(&rows[slot])
}

/// The id that stands for a row: 0 where it is unused.
fn id_of(row: &Option<StoredFile>) -> u32
    ensures { result ≡ row_id row.now }
{
    match row {
        Some(file) => file.id().0,
        None => 0,
    }
}

/// The lesser of two ids that are above another.
fn nearer(after: u32, id: u32, best: Option<u32>) -> Option<u32>
    ensures { result ≡ nearer_of after id best }
{
    match best {
        None => { if after < id { Some(id) } else { None } }
        Some(best) => {
            if after < id && id < best {
                Some(id)
            } else {
                Some(best)
            }
        }
    }
}

/// The least id in these rows that is above another.
fn id_behind(rows: &[Option<StoredFile>], after: u32) -> Option<u32>
    ensures { result ≡ nearest after None rows.now }
{
    let mut best = None;
    for row in rows {
        best = nearer(after, id_of(row), best);
    }
    best
}

/// The physical blocks of the file in a row; none where it is unused.
pub(crate) fn blocks_in(row: &Option<StoredFile>) -> &[u32]
    ensures blocks { result.now ≡ row_blocks row.now }
    ensures short { length result.now ≤ 1024 }
{
    match row {
        Some(file) => file.blocks().as_slice(),
        None => &[],
    }
}

/// How many rows are used.
fn used(rows: &[Option<StoredFile>]) -> u32
    requires { length rows.now ≤ 256 }
    ensures { result ≡ count_by (λ row. is_some row) rows.now }
{
    rows.iter().filter(|row| row.is_some()).count() as u32
}

/// How many blocks the files of these rows have together.
fn blocks_together(rows: &[Option<StoredFile>]) -> u32
    requires { length rows.now ≤ 256 }
    ensures { result ≡ sum_by (λ row. length (row_blocks row)) rows.now }
{
    let mut blocks = 0;
    for row in rows {
        blocks += blocks_in(row).len() as u32;
    }
    blocks
}

impl Tables {
    /// The numbers of the server.
    pub fn heads(&self) -> Heads
        ensures { result ≡ self.now.standing.heads }
    {
        self.heads
    }

    /// The row of a host; that of one of which nothing was heard where there is no such host.
    pub fn host(&self, host: Host) -> HostRow
        ensures { result ≡ slice_index_or self.now.standing.hosts host fresh_row }
    {
        match self.hosts.get(host.0 as usize) {
            Some(row) => *row,
            None => FRESH_ROW,
        }
    }

    /// The row of a file; None where it is not kept.
    pub fn row(&self, id: FileId) -> Option<FileRow>
        ensures { result ≡ row_at_id self.now.standing id }
    {
        let slot = slot_of(&self.rows, id)?;
        row_at(&self.rows, slot)
    }

    /// The row of the file of this name; None where no file has it.
    pub fn row_named(&self, name: &Name) -> Option<FileRow>
        ensures { result ≡ row_at_name self.now.standing name.now }
    {
        let slot = slot_named(&self.rows, name)?;
        row_at(&self.rows, slot)
    }

    /// The row of the file with the least id above this one; None where there is none.
    pub fn row_behind(&self, after: FileId) -> Option<FileRow>
        ensures { result ≡ row_at_behind self.now.standing after }
    {
        let id = id_behind(&self.rows, after.0)?;
        self.row(FileId(id))
    }

    /// How many files and blocks there are.
    pub fn space(&self) -> Space
        ensures files { result.files ≡ count_by (λ row. is_some row) self.now.standing.rows }
        ensures blocks { result.blocks ≡ sum_by (λ row. length (row_blocks row)) self.now.standing.rows }
    {
        Space {
            files: used(&self.rows),
            blocks: blocks_together(&self.rows),
        }
    }

    /// The physical blocks of a file; none where it is not kept.
    pub(crate) fn blocks_of(&self, id: FileId) -> &[u32]
        ensures blocks { result.now ≡ blocks_at_id self.now.standing id }
        ensures short { length result.now ≤ 1024 }
    {
        match slot_of(&self.rows, id) {
            Some(slot) => blocks_in(&self.rows[slot]),
            None => &[],
        }
    }

    /// The physical block of a block of a file; None where the file has not as many.
    pub fn physical(&self, id: FileId, block: BlockNo) -> Option<u32>
        ensures { result ≡ slice_get (blocks_at_id self.now.standing id) block }
    {
        self.blocks_of(id).get(block.0 as usize).copied()
    }
}
