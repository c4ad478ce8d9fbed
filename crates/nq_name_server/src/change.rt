//! Which directory a request changes.

ghost use Rattle.std.specs.Prelude.{◌≡◌, ◌-◌, IfOk, ◌==◌, if◌then◌else◌};
ghost use Rattle.nq_datagrams.specs.Incoming.{datagram_in};
ghost use Rattle.nq_model.specs.protocol.Change.{IsWithinBounds};
ghost use Rattle.nq_model.specs.protocol.Kept.{Kept, find_file};
ghost use Rattle.nq_name_server.specs.Outside.{changes_as, changes_by, changes_of, own_changes};
ghost use Rattle.nq_directory.specs.Files.{IsNext};
ghost use Rattle.nq_name_server.specs.Changing.{changed_by};
ghost use Rattle.nq_name_server.specs.declared.change.MayChange.{MayChange};

use nq_base::{FileId, FileRow, Host, NoMemory, Request, Spare, Who};
use nq_datagrams::{Incoming, read_incoming};
use nq_directory::{Prefix, directory_of};
use std::alloc::Global;
use std::marker::Model;

/// Whose request changes a directory, and which. Clauses see it as the definitions do.
#[derive(Drop)]
pub struct DirChange {
    pub(crate) who: Who,
    pub(crate) prefix: Prefix,
}

impl Model for DirChange {
    ghost use Rattle.nq_name_server.specs.Outside.{Changes};

    ghost Value = { Changes };

    ghost view = { λ c. record { who = c.who; prefix = c.prefix } };
}

/// What a request changes, before what is kept is read.
#[derive(Drop)]
pub enum MayChange {
    /// No directory.
    Nothing,
    /// This directory.
    Directory(DirChange),
    /// The directory of this file, if it is kept.
    OfFile { who: Who, file: FileId },
}

/// What a host's datagram may change: it is a CREATE of its own, or a REMOVE of its own.
///
/// # Errors
///
/// Only want of memory.
pub fn may_change(alloc: Global, host: Host, datagram: &[u8]) -> Result<MayChange, NoMemory>
    ensures { IfOk result (λ m. (kept : Kept) → IsWithinBounds kept → changed_by kept m ≡ changes_as kept host (datagram_in datagram.now)) }
{
    let mut room = Spare::none();
    room.reserve(alloc)?;
    Ok(match read_incoming(datagram, &mut room) {
        Incoming::Request { request, .. } => requested(host, &request),
        _ => MayChange::Nothing,
    })
}

/// The id below that of a file.
pub fn below(file: FileId) -> FileId
    ensures { result ≡ file - 1 }
{
    FileId(file.0.saturating_sub(1))
}

/// What the removal of a file changes, where this is the first one that is kept from its id on.
pub fn removed(who: Who, file: FileId, found: Option<FileRow>) -> Option<DirChange>
    ensures { (kept : Kept) → IsWithinBounds kept → IsNext kept (file - 1) found → result ≡ changes_of who (find_file file kept.files) }
{
    let Some(row) = found else {
        return None;
    };
    if row.id == file {
        Some(DirChange {
            who,
            prefix: directory_of(&row.name),
        })
    } else {
        None
    }
}

/// What a host's request may change.
fn requested(host: Host, request: &Request) -> MayChange
    ensures { (kept : Kept) → IsWithinBounds kept → changed_by kept result ≡ own_changes host (changes_by kept request.now) }
{
    match request {
        Request::Create { who, name, .. } => own(
            host,
            who,
            MayChange::Directory(DirChange {
                who: *who,
                prefix: directory_of(name),
            }),
        ),
        Request::Remove { who, file, .. } => own(host, who, removal(*who, *file)),
        _ => MayChange::Nothing,
    }
}

/// What a removal may change: no file has the id 0.
fn removal(who: Who, file: FileId) -> MayChange
    ensures { (kept : Kept) → IsWithinBounds kept → changed_by kept result ≡ changes_of who (find_file file kept.files) }
{
    if file.0 == 0 {
        MayChange::Nothing
    } else {
        MayChange::OfFile { who, file }
    }
}

/// A change counts where the host is the own one of the incarnation that asks.
fn own(host: Host, who: &Who, change: MayChange) -> MayChange
    ensures { result ≡ (if who.now.host == host then change else MayChange.Nothing) }
{
    if who.host == host {
        change
    } else {
        MayChange::Nothing
    }
}
