//! What a server knows when an incarnation is about to change a file.

ghost use Rattle.std.specs.Prelude.{◌≡◌};
ghost use Rattle.nq_model.specs.protocol.Change.{heads_of};
ghost use Rattle.nq_model.specs.protocol.Decided.{file_to_change as changed_file, gate_in, is_held_writing};
ghost use Rattle.nq_model.specs.protocol.Kept.{Kept};
ghost use Rattle.nq_server.specs.Deciding.{file_to_tell as told_file};
ghost use Rattle.nq_server.specs.State.{beside_of, phase_of, server_of};

use crate::state::{Phase, State};
use nq_base::{Access, FileId, Gate, Heads, Mode, Request, Row, RowKey, Who};
use nq_lease::grant::conflict;

/// The file that a request is about to change.
pub(crate) fn file_to_change(request: &Request) -> Option<FileId>
    ensures { result ≡ changed_file request.now }
{
    match request {
        Request::Write { file, .. } => Some(*file),
        Request::Resize { file, .. } => Some(*file),
        Request::Remove { file, .. } => Some(*file),
        _ => None,
    }
}

/// The file whose kept length a journal tells of.
pub(crate) fn file_to_tell(request: &Request) -> Option<FileId>
    ensures { result ≡ told_file request.now }
{
    match request {
        Request::Resize { file, .. } => Some(*file),
        Request::Remove { file, .. } => Some(*file),
        _ => None,
    }
}

/// Whether a row is a writing lease of this incarnation.
fn is_held(who: &Who, row: &Option<Row>) -> bool
    ensures { result ≡ is_held_writing who.now row.now }
{
    match row {
        Some(row) => matches!(row.mode, Mode::Writing) && row.who.inc == who.inc,
        None => false,
    }
}

/// What the server knows beside what is kept, when an incarnation is about to change a file.
pub(crate) fn gate(state: &State, heads: &Heads, who: &Who, file: Option<FileId>) -> Gate
    ensures { (kept : Kept) → heads.now ≡ heads_of kept → result ≡ gate_in (server_of (beside_of state.now) kept) (phase_of state.now.phase) who.now file }
{
    match (&state.phase, file) {
        (Phase::Recovering { .. }, _) => Gate::Recovering {
            opened: heads.opened,
        },
        (Phase::Serving(_), None) => Gate::Serving {
            boot: heads.boot,
            conflict: false,
            writing_row: false,
        },
        (Phase::Serving(_), Some(file)) => {
            let host = who.host;
            Gate::Serving {
                boot: heads.boot,
                conflict: conflict(&state.table, host, file, Access::Write),
                writing_row: is_held(who, &state.table.row(RowKey { file, host })),
            }
        }
    }
}
