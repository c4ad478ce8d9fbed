//! The server's answer to a client that gives its lease up.

ghost use Rattle.std.specs.Prelude.{◌≡◌, ◌↔◌, IsTrue, IsSomeAnd};
ghost use Rattle.nq_model.specs.protocol.ServerStep.{vacated_rows};
ghost use Rattle.nq_model.specs.protocol.Table.{find_row, with_rows, same_tag};

use crate::Table;
use nq_base::{FileId, RowKey, Tag, Who};

/// Whether two tags are one.
fn is_same(tag: Tag, other: Tag) -> bool
    ensures { result ≡ same_tag tag other }
{
    tag.boot == other.boot && tag.number == other.number
}

/// Drops the row of a file and a holder where the holder is this incarnation and the tag is the row's latest, and says
/// whether it did. A message that comes late, after a newer grant, drops nothing.
#[tactic(auto, unfolding(nq_model::specs::protocol::Table::with_rows))]
pub fn vacated(table: &mut Table, who: Who, file: FileId, tag: Tag) -> bool
    ensures table { table.new ≡ with_rows table.old (vacated_rows who file tag table.old.rows (find_row file who.host table.old.rows)) }
    ensures gone { IsTrue result ↔ IsSomeAnd (find_row file who.host table.old.rows) (λ row. (row.who.inc ≡ who.inc) × (row.tag ≡ tag)) }
{
    let host = who.host;
    match table.row(RowKey { file, host }) {
        Some(row) => {
            let holds = row.who.inc == who.inc && is_same(row.tag, tag);
            if holds {
                table.drop_row(RowKey { file, host });
            }
            holds
        }
        None => false,
    }
}
