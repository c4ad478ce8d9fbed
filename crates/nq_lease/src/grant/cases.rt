//! The cases of a question, of which the first that fits decides.

ghost use Rattle.std.specs.Prelude.{◌≡◌, ◌+◌, ◌^◌, ◌<◌, ◌≤◌, Some, None, IsSome, length, false};
ghost use Rattle.std.specs.Option.{ForSome};
ghost use Rattle.nq_model.specs.protocol.Ask.{ask as asked_of, ask_freely as asked_freely, ask_for, put_off as told_to_wait, with_waiting, begin as begun};
ghost use Rattle.nq_model.specs.protocol.Ask.{share_again as shares_again, granted as grants};
ghost use Rattle.nq_base.specs.declared.Asked.{Asked};
ghost use Rattle.nq_model.specs.protocol.Profile.{most_rows};
ghost use Rattle.nq_model.specs.protocol.Table.{after_draw, put_row, find_row, caches};

use crate::Table;
use crate::changes::MOST_ROWS;
use crate::grant::{rows, scan};
use nq_base::{Asked, Clash, Question, Row, RowKey, Want};

/// Clocks show times below this, in ticks.
const END_OF_CLOCKS: u64 = 1 << 62;

/// Draws the tag that a row has, and puts the row in.
#[tactic(auto, unfolding(nq_model::specs::protocol::Table::after_draw, nq_model::specs::protocol::Table::with_rows))]
fn enter(table: &mut Table, row: &Row)
    requires drawn { table.old.drawn < 2 ^ 63 }
    requires room { length table.old.rows ≡ most_rows → IsSome (find_row row.now.file row.now.who.host table.old.rows) }
    ensures { table.new ≡ after_draw table.old (put_row row.now table.old.rows) }
{
    table.next_tag();
    table.put_row(*row).unwrap();
}

/// Puts a waiting row in, where a lease is wanted, the asker has no row, and there is room for one.
fn wait(table: &mut Table, question: &Question, own: &Option<Row>)
    requires drawn { table.old.drawn < 2 ^ 63 }
    requires early { question.now.time < 2 ^ 62 }
    ensures { table.new ≡ with_waiting table.old question.now question.now.want own.now }
{
    if let (Some(want), None) = (question.want, own)
        && table.len() < MOST_ROWS
    {
        let row = rows::sharing(table, question, rows::granted_term(question, &want));
        enter(table, &row);
    }
}

/// Case 1: a row of another host is in the way. Such rows are to be given up, and the asker is put off.
#[tactic(auto, unfolding(nq_model::specs::protocol::Ask::put_off, nq_model::specs::protocol::Table::with_rows))]
fn put_off(table: &mut Table, question: &Question, row: Row, own: &Option<Row>) -> Asked
    requires drawn { table.old.drawn < 2 ^ 63 }
    requires early { question.now.time < 2 ^ 62 }
    ensures table { table.new ≡ (told_to_wait table.old question.now row own.now).table }
    ensures asked { result ≡ (told_to_wait table.old question.now row own.now).asked }
{
    table.mark_evicting(question.file, question.who.host, question.access);
    wait(table, question, own);
    Asked::TryLater(Clash { row, own: false })
}

/// A row is put in with its fresh tag, and granted.
#[tactic(auto, unfolding(nq_model::specs::protocol::Ask::granted))]
fn granted(table: &mut Table, question: &Question, row: &Row, term: u32) -> Asked
    requires drawn { table.old.drawn < 2 ^ 63 }
    requires room { length table.old.rows ≡ most_rows → IsSome (find_row row.now.file row.now.who.host table.old.rows) }
    ensures table { table.new ≡ (grants table.old question.now row.now term).table }
    ensures asked { result ≡ (grants table.old question.now row.now term).asked }
{
    enter(table, row);
    Asked::Granted(rows::grant(question, row, term))
}

/// Case 4: the asker's own row is non-caching. Its lease runs on until the row's end.
#[tactic(auto, unfolding(nq_model::specs::protocol::Ask::shared_again))]
fn share_again(table: &mut Table, question: &Question, own: &Row) -> Asked
    requires drawn { table.old.drawn < 2 ^ 63 }
    requires there { find_row own.now.file own.now.who.host table.old.rows ≡ Some own.now }
    requires later { question.now.time < own.now.until }
    requires near { own.now.until < question.now.time + 2 ^ 32 }
    ensures table { table.new ≡ (shares_again table.old question.now own.now).table }
    ensures asked { result ≡ (shares_again table.old question.now own.now).asked }
{
    let row = rows::sharing_again(table, own);
    let until = own.until.0;
    let time = question.time.0;
    granted(table, question, &row, (until - time) as u32)
}

/// Cases 5 and 6: the asker has no row. It gets a non-caching one where the file is shared, else one of the wanted kind, and
/// none where the table is full.
#[tactic(auto, unfolding(nq_model::specs::protocol::Ask::no_lease))]
fn begin(table: &mut Table, question: &Question, want: &Want) -> Asked
    requires drawn { table.old.drawn < 2 ^ 63 }
    requires early { question.now.time < 2 ^ 62 }
    ensures table { table.new ≡ (begun table.old question.now want.now).table }
    ensures asked { result ≡ (begun table.old question.now want.now).asked }
{
    if table.len() >= MOST_ROWS {
        return Asked::NoLease;
    }
    let term = rows::granted_term(question, want);
    if scan::is_file_shared(table, question.file, question.who.host) {
        let row = rows::sharing(table, question, term);
        return granted(table, question, &row, term);
    }
    let row = rows::caching(table, question, want.mode, term);
    granted(table, question, &row, term)
}

/// Cases 3, 4 and 7: the asker has a row of its own, which is to be given up, is non-caching, or is renewed.
#[tactic(auto, unfolding(nq_model::specs::protocol::Ask::put_off_by_own, nq_model::specs::protocol::Ask::renewed_row))]
fn go_on(table: &mut Table, question: &Question, want: &Want, own: &Row) -> Asked
    requires drawn { table.old.drawn < 2 ^ 63 }
    requires early { question.now.time < 2 ^ 62 }
    requires there { find_row own.now.file own.now.who.host table.old.rows ≡ Some own.now }
    requires later { caches own.now.mode ≡ false → question.now.time < own.now.until }
    requires near { caches own.now.mode ≡ false → own.now.until < question.now.time + 2 ^ 32 }
    ensures table { table.new ≡ (ask_for table.old question.now want.now (Some own.now)).table }
    ensures asked { result ≡ (ask_for table.old question.now want.now (Some own.now)).asked }
{
    if own.evicting {
        return Asked::TryLater(Clash {
            row: *own,
            own: true,
        });
    }
    if scan::may_cache(own.mode) {
        let term = rows::granted_term(question, want);
        let row = rows::renewed(table, question, own, want.mode, term);
        return granted(table, question, &row, term);
    }
    share_again(table, question, own)
}

/// Cases 2 to 7: no row of another host is in the way.
#[tactic(auto, unfolding(nq_model::specs::protocol::Ask::free))]
fn ask_freely(table: &mut Table, question: &Question, own: &Option<Row>) -> Asked
    requires drawn { table.old.drawn < 2 ^ 63 }
    requires early { question.now.time < 2 ^ 62 }
    requires there { own.now ≡ find_row question.now.file question.now.who.host table.old.rows }
    requires shared { ForSome own.now (λ row. caches row.mode ≡ false → (question.now.time < row.until) × (row.until < question.now.time + 2 ^ 32)) }
    ensures table { table.new ≡ (asked_freely table.old question.now question.now.want own.now).table }
    ensures asked { result ≡ (asked_freely table.old question.now question.now.want own.now).asked }
{
    match (question.want, own) {
        (None, _) => Asked::Free,
        (Some(want), None) => begin(table, question, &want),
        (Some(want), Some(own)) => go_on(table, question, &want, own),
    }
}

/// Asks the table for a host that is about to read or change a file, and that may want a lease on it (Gray and Cheriton
/// 1989, Macklem 1994). Where a row of another host is in the way, such rows are marked as evicting and the asker is put
/// off, with a waiting row if it wants a lease. It takes no memory.
///
/// Fewer than 2^63 tags were drawn, and an own non-caching row ends after the time, by less than 2^32 ticks. Clocks show
/// times below 2^62; at a later one no lease is given, and the table stays as it is.
pub fn ask(table: &mut Table, question: &Question) -> Asked
    requires drawn { table.old.drawn < 2 ^ 63 }
    requires shared { ForSome (find_row question.now.file question.now.who.host table.old.rows) (λ row. caches row.mode ≡ false
        → (question.now.time < row.until) × (row.until < question.now.time + 2 ^ 32)) }
    ensures table { question.now.time < 2 ^ 62 → table.new ≡ (asked_of table.old question.now).table }
    ensures asked { question.now.time < 2 ^ 62 → result ≡ (asked_of table.old question.now).asked }
    ensures late { 2 ^ 62 ≤ question.now.time → (table.new ≡ table.old) × (result ≡ Asked.NoLease) }
{
    if question.time.0 >= END_OF_CLOCKS {
        return Asked::NoLease;
    }
    let own = table.row(RowKey {
        file: question.file,
        host: question.who.host,
    });
    match scan::first_in_the_way(table, question.file, question.who.host, question.access) {
        Some(row) => put_off(table, question, row, &own),
        None => ask_freely(table, question, &own),
    }
}
