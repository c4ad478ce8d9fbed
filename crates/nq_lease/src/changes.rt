//! Changes of rows together with the times at which they end. None takes memory.

ghost use Rattle.std.specs.Prelude.{◌≡◌, ◌<◌, ◌≤◌, ◌↔◌, length, slice_set, insert, vec_len, vec_capacity, None, OnOk, OnErr, IsErr};
ghost use Rattle.nq_model.specs.protocol.Ask.{marked};
ghost use Rattle.nq_model.specs.protocol.Profile.{most_rows};
ghost use Rattle.nq_model.specs.protocol.Table.{find_row, put_row, drop_row, drop_host, drop_rows_of};
ghost use Rattle.nq_model.specs.protocol.ServerStep.{end_reading, is_over as is_row_over};
ghost use Rattle.nq_lease.specs.Rows.{AreInOrder};
ghost use Rattle.nq_lease.specs.Kept.{IsKept};

use crate::ends::End;
use crate::{ends, rows};
use nq_base::{Access, FileId, Host, Mode, Row, Ticks};

/// The most rows.
pub(crate) const MOST_ROWS: usize = 2048;

/// The table has the most rows that it can have.
#[derive(Clone, Copy)]
pub struct Full;

/// Writes a row at a place.
fn write(rows: &mut Vec<Row>, place: usize, row: &Row)
    requires { place < vec_len rows.old }
    ensures items { rows.new.items ≡ slice_set rows.old.items place row.now }
    ensures capacity { vec_capacity rows.old ≤ vec_capacity rows.new }
{
    rows[place] = *row;
}

/// Puts a row in at a place.
fn add(rows: &mut Vec<Row>, place: usize, row: &Row)
    requires place { place ≤ vec_len rows.old }
    requires room { vec_len rows.old < vec_capacity rows.old }
    ensures items { rows.new.items ≡ insert rows.old.items place row.now }
    ensures capacity { vec_capacity rows.old ≤ vec_capacity rows.new }
{
    rows.insert(place, *row).unwrap();
}

/// Puts a row in, in place of the one of its file and host.
pub(crate) fn put_row(rows: &mut Vec<Row>, ends: &mut Vec<End>, row: &Row) -> Result<(), Full>
    requires { IsKept rows.old.items (vec_capacity rows.old) ends.old.items (vec_capacity ends.old) }
    ensures ok { OnOk result (rows.new.items ≡ put_row row.now rows.old.items) }
    ensures err { OnErr result (rows.new.items ≡ rows.old.items) }
    ensures full { IsErr result ↔ ((find_row row.now.file row.now.who.host rows.old.items ≡ None) × (most_rows ≤ length rows.old.items)) }
    ensures kept { IsKept rows.new.items (vec_capacity rows.new) ends.new.items (vec_capacity ends.new) }
{
    let place = rows::place_of(rows.as_slice(), row.file, row.who.host);
    match rows::at_place(rows.as_slice(), place, row.file, row.who.host) {
        Some(old) => {
            ends::take_end(ends, ends::end_of(&old));
            ends::add(ends, ends::end_of(row));
            write(rows, place, row);
            Ok(())
        }
        None => {
            if rows.len() >= MOST_ROWS {
                return Err(Full);
            }
            ends::add(ends, ends::end_of(row));
            add(rows, place, row);
            Ok(())
        }
    }
}

/// Takes the row of a file and a host out, if there is one.
pub(crate) fn take_row(rows: &mut Vec<Row>, ends: &mut Vec<End>, file: FileId, host: Host)
    requires { IsKept rows.old.items (vec_capacity rows.old) ends.old.items (vec_capacity ends.old) }
    ensures rows { rows.new.items ≡ drop_row file host rows.old.items }
    ensures kept { IsKept rows.new.items (vec_capacity rows.new) ends.new.items (vec_capacity ends.new) }
{
    let place = rows::place_of(rows.as_slice(), file, host);
    match rows::at_place(rows.as_slice(), place, file, host) {
        Some(old) => {
            ends::take_end(ends, ends::end_of(&old));
            rows.remove(place);
        }
        None => {}
    }
}

/// Takes out the rows of a host.
pub(crate) fn take_of_host(rows: &mut Vec<Row>, ends: &mut Vec<End>, host: Host)
    requires { IsKept rows.old.items (vec_capacity rows.old) ends.old.items (vec_capacity ends.old) }
    ensures rows { rows.new.items ≡ drop_host host rows.old.items }
    ensures kept { IsKept rows.new.items (vec_capacity rows.new) ends.new.items (vec_capacity ends.new) }
{
    rows.retain(|row| row.who.host != host);
    ends::fill(ends, rows.as_slice());
}

/// Takes out the rows of a file.
pub(crate) fn take_of_file(rows: &mut Vec<Row>, ends: &mut Vec<End>, file: FileId)
    requires { IsKept rows.old.items (vec_capacity rows.old) ends.old.items (vec_capacity ends.old) }
    ensures rows { rows.new.items ≡ drop_rows_of file rows.old.items }
    ensures kept { IsKept rows.new.items (vec_capacity rows.new) ends.new.items (vec_capacity ends.new) }
{
    rows.retain(|row| row.file != file);
    ends::fill(ends, rows.as_slice());
}

/// Whether a row is no writing one and its lease is over.
fn is_over(row: &Row, now: Ticks) -> bool
    ensures { result ≡ is_row_over now row.now }
{
    !matches!(row.mode, Mode::Writing) && row.until <= now
}

/// Takes out the rows that are no writing ones and whose lease is over.
pub(crate) fn take_over(rows: &mut Vec<Row>, ends: &mut Vec<End>, now: Ticks)
    requires { IsKept rows.old.items (vec_capacity rows.old) ends.old.items (vec_capacity ends.old) }
    ensures rows { rows.new.items ≡ end_reading now rows.old.items }
    ensures kept { IsKept rows.new.items (vec_capacity rows.new) ends.new.items (vec_capacity ends.new) }
{
    rows.retain(|row| !is_over(row, now));
    ends::fill(ends, rows.as_slice());
}

/// Marks the rows of a file that are in the way of a host as evicting.
pub(crate) fn mark(rows: &mut Vec<Row>, file: FileId, host: Host, access: Access)
    requires { AreInOrder rows.old.items }
    ensures rows { rows.new.items ≡ marked file host access rows.old.items }
    ensures capacity { vec_capacity rows.old ≤ vec_capacity rows.new }
{
    let (first, end) = rows::span_of(rows.as_slice(), file);
    for place in first..end {
        let row = rows[place];
        if rows::is_in_the_way(&row, file, host, access) {
            write(
                rows,
                place,
                &Row {
                    evicting: true,
                    ..row
                },
            );
        }
    }
}
