//! Rows in order of files, then hosts.

ghost use Rattle.std.specs.Prelude.{◌≡◌, ◌≤◌, length, slice_get};
ghost use Rattle.std.specs.List.{prefix_len};
ghost use Rattle.nq_model.specs.protocol.Ask.{conflicts, mode_conflicts};
ghost use Rattle.nq_model.specs.protocol.Table.{find_row, is_row_of};
ghost use Rattle.nq_lease.specs.Rows.{AreInOrder, is_before, is_below, is_upto, rows_of};

use nq_base::{Access, FileId, Host, Mode, Row};

/// Whether a row is of this file and host.
fn is_of(row: &Row, file: FileId, host: Host) -> bool
    ensures { result ≡ is_row_of file host row.now }
{
    row.file == file && row.who.host == host
}

/// Whether a row stands before the place of a file and a host.
fn stands_before(row: &Row, file: FileId, host: Host) -> bool
    ensures { result ≡ is_before file host row.now }
{
    row.file < file || (row.file == file && row.who.host < host)
}

/// Whether a lease conflicts with what another host is about to do with the file: one who reads it is hindered by a
/// writing lease alone, one who changes it by each lease that lets its holder cache (Macklem 1994).
fn hinders(mode: Mode, access: Access) -> bool
    ensures { result ≡ mode_conflicts access mode }
{
    match access {
        Access::Read => matches!(mode, Mode::Writing),
        Access::Write => !matches!(mode, Mode::NonCaching),
    }
}

/// Whether a row is one of the file, of another host, and conflicts with what this host is about to do with it.
pub fn is_in_the_way(row: &Row, file: FileId, host: Host, access: Access) -> bool
    ensures { result ≡ conflicts file host access row.now }
{
    row.file == file && row.who.host != host && hinders(row.mode, access)
}

/// The place of a file and a host: of its row, or where it would stand.
pub(crate) fn place_of(rows: &[Row], file: FileId, host: Host) -> usize
    requires { AreInOrder rows.now }
    ensures { result ≡ prefix_len (is_before file host) rows.now }
{
    rows.partition_point(|row| stands_before(row, file, host))
}

/// The place of the first row of a file, or where it would stand.
fn first_of(rows: &[Row], file: FileId) -> usize
    requires { AreInOrder rows.now }
    ensures { result ≡ prefix_len (is_below file) rows.now }
{
    rows.partition_point(|row| row.file < file)
}

/// The place behind the last row of a file.
fn end_of(rows: &[Row], file: FileId) -> usize
    requires { AreInOrder rows.now }
    ensures { result ≡ prefix_len (is_upto file) rows.now }
{
    rows.partition_point(|row| row.file <= file)
}

/// From where to where the rows of a file stand.
pub(crate) fn span_of(rows: &[Row], file: FileId) -> (usize, usize)
    requires { AreInOrder rows.now }
    ensures ordered { result.0 ≤ result.1 }
    ensures within { result.1 ≤ length rows.now }
    ensures first { result.0 ≡ prefix_len (is_below file) rows.now }
    ensures end { result.1 ≡ prefix_len (is_upto file) rows.now }
{
    (first_of(rows, file), end_of(rows, file))
}

/// The rows of a file.
pub(crate) fn of_file(rows: &[Row], file: FileId) -> &[Row]
    requires { AreInOrder rows.now }
    ensures { result.now ≡ rows_of file rows.now }
{
    let (first, end) = span_of(rows, file);
    &rows[first..end]
}

/// The row at a place; None where the place is not below the number of rows.
pub(crate) fn nth(rows: &[Row], place: usize) -> Option<Row>
    ensures { result ≡ slice_get rows.now place }
{
    rows.get(place).copied()
}

/// The row of a file and a host, where their place is known.
pub(crate) fn at_place(rows: &[Row], place: usize, file: FileId, host: Host) -> Option<Row>
    requires ordered { AreInOrder rows.now }
    requires place { place ≡ prefix_len (is_before file host) rows.now }
    ensures { result ≡ find_row file host rows.now }
{
    let row = nth(rows, place)?;
    is_of(&row, file, host).then_some(row)
}

/// The row of a file and a host.
pub(crate) fn find(rows: &[Row], file: FileId, host: Host) -> Option<Row>
    requires { AreInOrder rows.now }
    ensures { result ≡ find_row file host rows.now }
{
    at_place(rows, place_of(rows, file, host), file, host)
}
