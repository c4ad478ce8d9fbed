//! A file as a store has it in memory.

ghost use Rattle.std.specs.Prelude.{◌≡◌, IsTrue, ◌↔◌};
ghost use Rattle.nq_image.specs.Standing.{row_for};

use crate::block_table::BlockTable;
use nq_base::{FileId, FileRow, Name, Rev};
use std::marker::Model;

/// A file and where it stands: the number of its row in the image, and its physical blocks.
#[derive(Drop)]
pub struct StoredFile {
    pub(crate) id: FileId,
    pub(crate) name: Name,
    pub(crate) rev: Rev,
    pub(crate) slot: u32,
    pub(crate) blocks: BlockTable,
}

impl Model for StoredFile {
    ghost use Rattle.nq_image.specs.Standing.{PlacedFile};

    ghost Value = { PlacedFile };

    ghost view = { λ f. record { id = f.id; name = f.name; rev = f.rev; slot = f.slot; blocks = f.blocks } };
}

impl StoredFile {
    /// Its id.
    pub(crate) fn id(&self) -> FileId
        ensures { result ≡ self.now.id }
    {
        self.id
    }

    /// Gets another id.
    pub(crate) fn set_id(&mut self, id: FileId)
        ensures { self.new ≡ record self.old { id = id } }
    {
        self.id = id;
    }

    /// Its name.
    pub(crate) fn name(&self) -> &Name
        ensures { result.now ≡ self.now.name }
    {
        &self.name
    }

    /// The number of its row in the image.
    pub(crate) fn slot(&self) -> u32
        ensures { result ≡ self.now.slot }
    {
        self.slot
    }

    /// Its blocks.
    pub(crate) fn blocks(&self) -> &BlockTable
        ensures { result.now ≡ self.now.blocks }
    {
        &self.blocks
    }

    /// Its row.
    pub(crate) fn row(&self) -> FileRow
        ensures { result ≡ row_for self.now }
    {
        FileRow {
            id: self.id,
            name: self.name,
            blocks: self.blocks.len(),
            rev: self.rev,
        }
    }
}
