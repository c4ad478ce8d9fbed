//! What a client looks up in a call, or in the request under way.

ghost use Rattle.std.specs.Prelude.{◌≡◌, true};
ghost use Rattle.nq_model.specs.protocol.ClientStep.{changed_file};
ghost use Rattle.nq_model.specs.protocol.Hear.{waits_for};
ghost use Rattle.nq_client_parts.specs.Calls.{body_of_call, file_at_stake};

use nq_base::{Block, Call, FileId, Request, Spare};

/// The file whose losses a call is told, if it changes or syncs one.
pub fn changed_file(call: &Call) -> Option<FileId>
    ensures { result ≡ changed_file call.now }
{
    match call {
        Call::Write { file, .. }
        | Call::Put { file, .. }
        | Call::Sync { file }
        | Call::Resize { file, .. }
        | Call::Remove { file } => Some(*file),
        Call::Create { .. }
        | Call::Lookup { .. }
        | Call::Attr { .. }
        | Call::Read { .. }
        | Call::Fetch { .. } => None,
    }
}

/// Whether a call waits until a file is clean; of a put, whether its write was delayed.
pub fn waits_for(call: &Call, written: bool, file: FileId) -> bool
    ensures { result ≡ waits_for file written call.now }
{
    match call {
        Call::Sync { file: synced } => *synced == file,
        Call::Resize { file: resized, .. } => *resized == file,
        Call::Remove { file: removed } => *removed == file,
        Call::Put { file: put, .. } => *put == file && written,
        Call::Create { .. }
        | Call::Lookup { .. }
        | Call::Attr { .. }
        | Call::Read { .. }
        | Call::Fetch { .. }
        | Call::Write { .. } => false,
    }
}

/// A copy of the block that a call writes, in room that is there; zeros where it writes none.
pub fn body_of_call(call: &Call, room: &mut Spare) -> Block
    requires { room.old ≡ true }
    ensures { result ≡ body_of_call call.now }
{
    match call {
        Call::Write { body, .. } | Call::Put { body, .. } => body.copied_in(room),
        Call::Create { .. }
        | Call::Lookup { .. }
        | Call::Attr { .. }
        | Call::Read { .. }
        | Call::Fetch { .. }
        | Call::Sync { .. }
        | Call::Resize { .. }
        | Call::Remove { .. } => Block::fill(0),
    }
}

/// The file whose delayed writes the reply to a request may lose, or 0.
pub fn file_at_stake(request: &Request) -> FileId
    ensures { result ≡ file_at_stake request.now }
{
    match request {
        Request::Read { file, .. } | Request::Write { file, .. } | Request::GetLease { file, .. } =>
            *file,
        Request::Null
        | Request::Attach { .. }
        | Request::Lookup { .. }
        | Request::Create { .. }
        | Request::GetAttr { .. }
        | Request::Vacated { .. }
        | Request::Evicted { .. }
        | Request::Resize { .. }
        | Request::Remove { .. } => FileId(0),
    }
}
