//! The rows of a file that matter to a host that asks.

ghost use Rattle.std.specs.Prelude.{◌≡◌, find, is_some};
ghost use Rattle.std.specs.List.{list_any};
ghost use Rattle.nq_model.specs.protocol.Ask.{conflicts, shares};
ghost use Rattle.nq_model.specs.protocol.Table.{caches};

use crate::{Table, is_in_the_way};
use nq_base::{Access, FileId, Host, Mode, Row};

/// Whether a lease of this kind lets its holder cache.
pub(crate) fn may_cache(mode: Mode) -> bool
    ensures { result ≡ caches mode }
{
    !matches!(mode, Mode::NonCaching)
}

/// Whether a row is of the file and another host, and non-caching or evicting.
fn is_shared(row: &Row, file: FileId, host: Host) -> bool
    ensures { result ≡ shares file host row.now }
{
    row.file == file && row.who.host != host && (!may_cache(row.mode) || row.evicting)
}

/// Whether one of these rows is of the file and another host, and non-caching or evicting.
fn any_shared(rows: &[Row], file: FileId, host: Host) -> bool
    ensures { result ≡ list_any (shares file host) rows.now }
{
    rows.iter().any(|row| is_shared(row, file, host))
}

/// The first of these rows that is in the way of what a host is about to do with the file.
fn first_of(rows: &[Row], file: FileId, host: Host, access: Access) -> Option<Row>
    ensures { result ≡ find (conflicts file host access) rows.now }
{
    rows.iter()
        .copied()
        .find(|row| is_in_the_way(row, file, host, access))
}

/// Whether another host shares the file, or is to give its lease on it up.
pub(crate) fn is_file_shared(table: &Table, file: FileId, host: Host) -> bool
    ensures { result ≡ list_any (shares file host) table.now.rows }
{
    any_shared(table.rows_of(file), file, host)
}

/// The row of the least host that is in the way of what this host is about to do with the file.
pub(crate) fn first_in_the_way(
    table: &Table,
    file: FileId,
    host: Host,
    access: Access,
) -> Option<Row>
    ensures { result ≡ find (conflicts file host access) table.now.rows }
{
    first_of(table.rows_of(file), file, host, access)
}

/// Whether a row of another host is in the way of what this host is about to do with the file.
pub fn conflict(table: &Table, host: Host, file: FileId, access: Access) -> bool
    ensures { result ≡ is_some (find (conflicts file host access) table.now.rows) }
{
    first_in_the_way(table, file, host, access).is_some()
}
