//! Which rows end at a time. Where none does, that costs one look at the table.

ghost use Rattle.std.specs.Prelude.{◌≡◌, ◌<◌, IsTrue, IfSome, None, find};
ghost use Rattle.std.specs.Option.{option_map};
ghost use Rattle.nq_model.specs.protocol.ServerStep.{is_due as is_row_due, end_reading as without_ended};
ghost use Rattle.nq_model.specs.protocol.Table.{find_row, with_rows};
ghost use Rattle.nq_lease.specs.Rows.{key_of as key_of_row};

use crate::Table;
use nq_base::{Mode, Row, RowKey, Ticks};

/// How long a writing row goes on after its lease is over and its last write was heard, in ticks (Macklem 1994).
const WRITE_SLACK: u64 = 5;

/// Whether a row is a writing one whose write slack has passed since its lease was over and since a write was heard.
fn is_due(row: &Row, now: Ticks) -> bool
    ensures { result ≡ is_row_due now row.now }
{
    let last = row.until.0.max(row.heard.0);
    matches!(row.mode, Mode::Writing) && now.0 >= WRITE_SLACK && last <= now.0 - WRITE_SLACK
}

/// The first of these rows that is due.
fn first_due(rows: &[Row], now: Ticks) -> Option<Row>
    ensures { result ≡ find (is_row_due now) rows.now }
{
    rows.iter().copied().find(|row| is_due(row, now))
}

/// Whether no row ends at this time.
fn is_quiet(table: &Table, now: Ticks) -> bool
    ensures due { IsTrue result → find (is_row_due now) table.now.rows ≡ None }
    ensures over { IsTrue result → without_ended now table.now.rows ≡ table.now.rows }
{
    match table.earliest() {
        None => true,
        Some(end) => now.0 < end.0,
    }
}

/// What a row is looked up by.
fn key_of(row: Row) -> RowKey
    ensures { result ≡ key_of_row row }
{
    RowKey {
        file: row.file,
        host: row.who.host,
    }
}

/// The first writing row, by file, then host, that is due: 5 ticks have passed since its lease was over and since a
/// write of its holder was last heard.
pub fn due(table: &Table, now: Ticks) -> Option<RowKey>
    ensures first { result ≡ option_map key_of_row (find (is_row_due now) table.now.rows) }
    ensures there { IfSome result (λ key. find_row key.file key.host table.now.rows ≡ find (is_row_due now) table.now.rows) }
{
    if is_quiet(table, now) {
        return None;
    }
    first_due(table.rows(), now).map(key_of)
}

/// Drops the reading and non-caching rows whose lease is over.
#[tactic(auto, unfolding(nq_model::specs::protocol::Table::with_rows))]
pub fn end_reading(table: &mut Table, now: Ticks)
    ensures { table.new ≡ with_rows table.old (without_ended now table.old.rows) }
{
    if is_quiet(table, now) {
        return;
    }
    table.drop_over(now);
}
