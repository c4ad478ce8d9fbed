//! What a store has in memory of its image.

ghost use Rattle.std.specs.Prelude.{◌≡◌};

use crate::stored_file::StoredFile;
use nq_base::{Heads, HostRow};
use std::marker::Model;

/// What a store has in memory of its image: all but the redo record and the bodies. Contracts see where everything stands, and
/// a mark for each physical block.
#[derive(Drop)]
pub struct Tables {
    pub(crate) heads: Heads,
    pub(crate) tables: u32,
    pub(crate) hosts: Vec<HostRow>,
    pub(crate) rows: Vec<Option<StoredFile>>,
    pub(crate) marks: Vec<bool>,
}

impl Model for Tables {
    ghost use Rattle.nq_plan.specs.Held.{AreSized, HeldTables};
    ghost use Rattle.nq_image.specs.Standing.{Standing};

    ghost Value = { HeldTables };

    ghost view = { λ t. record {
      standing = record { heads = t.heads; tables = t.tables; hosts = t.hosts.items; rows = t.rows.items };
      marks = t.marks.items;
    } };

    ghost invariant = { λ t. AreSized (record { heads = t.heads; tables = t.tables; hosts = t.hosts.items; rows = t.rows.items }) t.marks.items };
}
