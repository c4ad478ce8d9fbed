//! A fast pass over the losses that are excused and reported, and over their names.

ghost use Rattle.std.specs.Prelude.{◌≤◌, IfOk};
ghost use Rattle.nq_check.specs.Fronts.{KeepsBelow};
ghost use Rattle.nq_check.specs.Losses.{PassBetween, is_naming};
ghost use Rattle.nq_check.specs.Tables.{AreTables};
ghost use Rattle.nq_check.specs.declared.rules.Rule.{Rule};

use crate::endings::endings_front;
use crate::namings::Namings;
use crate::reports::{Found, reports_front};
use crate::tables::LinkTables;
use nq_base::{Entry, NoMemory};
use std::alloc::Global;

/// The lower of two places.
fn lower(a: usize, b: usize) -> usize
    ensures { (result ≤ a) × (result ≤ b) }
{
    if a < b { a } else { b }
}

/// A place below which each L is excused and reported, and each A `lost` names losses anew.
pub(crate) fn reported_front(
    alloc: Global,
    tables: &LinkTables,
    names: &Namings,
    whole: &[Entry],
    ordered: usize,
) -> Result<usize, NoMemory>
    requires tables { AreTables whole.now tables.now }
    requires names { PassBetween (is_naming whole.now) whole.now 0 names.now.front }
    requires ordered { KeepsBelow Rule.Ordered whole.now ordered }
    ensures { IfOk result (KeepsBelow Rule.Reported whole.now) }
{
    let found = Found {
        tables,
        named: &names.named,
        ordered,
    };
    let reported = reports_front(alloc, &found, whole)?;
    let ended = endings_front(alloc, tables, whole)?;
    Ok(lower(names.front, lower(reported, ended)))
}
