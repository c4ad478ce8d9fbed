//! What fast passes over a journal have found, and how far they have seen that its entries keep the rules.

ghost use Rattle.std.specs.Prelude.{IfOk};
ghost use Rattle.nq_check.specs.Fronts.{AreFronts};
ghost use Rattle.nq_check.specs.Tables.{AreTables};

use crate::fates::{Fates, find_fates};
use crate::kept_front::kept_front;
use crate::namings::find_names;
use crate::ordering::ordered_front;
use crate::reported_front::reported_front;
use crate::tables::LinkTables;
use nq_base::{Entry, NoMemory};
use std::alloc::Global;

/// What became of delayed writes, and a place for each rule but the first: the entries before it keep that rule. That of the third rule
/// stands beside what became of writes.
#[derive(Drop)]
pub(crate) struct Fronts {
    pub(crate) fates: Fates,
    pub(crate) ordered: usize,
    pub(crate) reported: usize,
    pub(crate) synchronized: usize,
}

/// The fronts of a journal.
pub(crate) fn find_fronts(
    alloc: Global,
    tables: &LinkTables,
    whole: &[Entry],
) -> Result<Fronts, NoMemory>
    requires { AreTables whole.now tables.now }
    ensures { IfOk result (AreFronts whole.now) }
{
    let ordered = ordered_front(alloc, tables, whole)?;
    let names = find_names(alloc, tables, whole)?;
    let reported = reported_front(alloc, tables, &names, whole, ordered)?;
    let fates = find_fates(alloc, tables, names.named, whole)?;
    let synchronized = kept_front(alloc, tables, &fates, whole, ordered)?;
    Ok(Fronts {
        fates,
        ordered,
        reported,
        synchronized,
    })
}
