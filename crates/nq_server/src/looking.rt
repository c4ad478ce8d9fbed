//! LOOKUP and GETATTR while serving.

ghost use Rattle.std.specs.Prelude.{◌≡◌};
ghost use Rattle.nq_base.specs.Entries.{EntryList};
ghost use Rattle.nq_keeper.specs.Keeping.{LeavesOne};
ghost use Rattle.nq_model.specs.protocol.Kept.{find_file, find_name};
ghost use Rattle.nq_model.specs.protocol.ServerStep.{get_attr as gets_attributes, look_up as looks_up};
ghost use Rattle.nq_server.specs.Answering.{attributes as attributes_as, looked_up as looked_up_as};
ghost use Rattle.nq_server.specs.State.{Beside, server_of};
ghost use Rattle.nq_server.specs.Stepping.{Takes};

use crate::received::EventTaken;
use crate::replying::answer;
use nq_base::{FileId, FileRow, Name, Refusal, Reply, Who};
use nq_keeper::{KeepFault, Keeper};
use nq_wire::Outbox;
use std::alloc::Global;

/// The reply to LOOKUP.
fn looked_up(who: &Who, found: Option<FileRow>) -> Reply
    ensures { result ≡ looked_up_as who.now found }
{
    match found {
        None => Reply::Refused {
            inc: who.inc,
            status: Refusal::NoEnt,
        },
        Some(row) => Reply::Lookup {
            inc: who.inc,
            file: row.id,
            blocks: row.blocks,
        },
    }
}

/// The reply to GETATTR.
fn attributes(who: &Who, found: Option<FileRow>) -> Reply
    ensures { result ≡ attributes_as who.now found }
{
    match found {
        None => Reply::Refused {
            inc: who.inc,
            status: Refusal::Stale,
        },
        Some(row) => Reply::GetAttr {
            inc: who.inc,
            blocks: row.blocks,
            rev: row.rev,
        },
    }
}

/// Answers LOOKUP.
pub(crate) fn look_up<K: Keeper>(
    alloc: Global,
    keeper: &mut K,
    who: Who,
    xid: u32,
    name: &Name,
    out: &mut Outbox,
) -> Result<EventTaken, KeepFault>
    ensures takes { (held : Beside) (log : EntryList)
        → Takes (λ kept. looks_up (server_of held kept) who xid (find_name name.now kept.files)) result (K.content keeper.old) (K.content keeper.new)
        (K.faults keeper.old) (K.faults keeper.new) held held out.old out.new log log }
    ensures follows { K.follows keeper.old keeper.new }
    ensures leaves { LeavesOne (K.content keeper.old) (K.leaves keeper.old keeper.new) }
{
    let found = keeper.by_name(name)?;
    let said = looked_up(&who, found);
    answer(alloc, who.host, xid, &said, out)
}

/// Answers GETATTR.
pub(crate) fn get_attr<K: Keeper>(
    alloc: Global,
    keeper: &mut K,
    who: Who,
    xid: u32,
    file: FileId,
    out: &mut Outbox,
) -> Result<EventTaken, KeepFault>
    ensures takes { (held : Beside) (log : EntryList)
        → Takes (λ kept. gets_attributes (server_of held kept) who xid (find_file file kept.files)) result (K.content keeper.old) (K.content keeper.new)
        (K.faults keeper.old) (K.faults keeper.new) held held out.old out.new log log }
    ensures follows { K.follows keeper.old keeper.new }
    ensures leaves { LeavesOne (K.content keeper.old) (K.leaves keeper.old keeper.new) }
{
    let found = keeper.file(file)?;
    let said = attributes(&who, found);
    answer(alloc, who.host, xid, &said, out)
}
