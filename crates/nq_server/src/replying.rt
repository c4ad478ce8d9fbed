//! Replies to hosts.

ghost use Rattle.std.specs.Prelude.{◌≡◌, ◌≤◌, ◌+◌, ◌%◌, [], ◌∷◌, ◌++◌, length, IfOk, OnOk, OnErr};
ghost use Rattle.nq_base.specs.declared.Refusal.{Refusal as Status};
ghost use Rattle.nq_base.specs.declared.Reply.{Reply as Answer};
ghost use Rattle.nq_datagrams.specs.Messages.{FitsMessage, bytes_of};
ghost use Rattle.nq_datagrams.specs.Told.{told_error};
ghost use Rattle.nq_lease.specs.Telling.{told_rows};
ghost use Rattle.nq_model.specs.protocol.Message.{Message, error as error_to, reply as reply_to};
ghost use Rattle.nq_model.specs.protocol.Profile.{xid_end};
ghost use Rattle.nq_model.specs.protocol.Server.{notices as notices_of, to_host};
ghost use Rattle.nq_server.specs.Answering.{IsSilent};
ghost use Rattle.nq_server.specs.Stepping.{Says, Sends};
ghost use Rattle.nq_wire.specs.Reply.{results_len};

use crate::received::EventTaken;
use nq_base::{FileId, Host, NoMemory, Party, Refusal, Reply, Who};
use nq_datagrams::{BegunReply, ErrorReply, error_bytes, reply_bytes};
use nq_keeper::KeepFault;
use nq_lease::Table;
use nq_lease::evict::{NoticeTo, notices};
use nq_wire::Outbox;
use std::alloc::Global;

/// Who asks, and the number of his call.
#[derive(Clone, Copy)]
pub(crate) struct Caller {
    /// The incarnation.
    pub(crate) who: Who,
    /// The number, which the reply repeats.
    pub(crate) xid: u32,
}

/// Adds a datagram to a host, if memory was there for it. Where memory is wanting the datagrams are as before.
fn push(host: Host, made: Result<Vec<u8>, NoMemory>, out: &mut Outbox) -> Result<(), NoMemory>
    ensures sends { (message : Message) → IfOk made (λ bytes. bytes.items ≡ bytes_of message) → OnOk made (FitsMessage message)
        → OnOk result (Sends (to_host host message ∷ []) out.old out.new) }
    ensures refused { OnErr result (IsSilent out.old out.new) }
{
    match made {
        Ok(bytes) => out.push(Party::Client(host), bytes),
        Err(fault) => Err(fault),
    }
}

/// Answers a request with a reply, and does nothing else.
pub(crate) fn answer(
    alloc: Global,
    host: Host,
    xid: u32,
    said: &Reply,
    out: &mut Outbox,
) -> Result<EventTaken, KeepFault>
    ensures { Says (to_host host (reply_to xid said.now)) result out.old out.new }
{
    match push(host, reply_bytes(alloc, xid, said), out) {
        Ok(()) => Ok(EventTaken::Done),
        Err(NoMemory::Memory) => Err(KeepFault::Memory),
    }
}

/// Refuses a request, and does nothing else.
pub(crate) fn refuse(
    alloc: Global,
    who: Who,
    xid: u32,
    status: Refusal,
    out: &mut Outbox,
) -> Result<EventTaken, KeepFault>
    ensures { Says (to_host who.host (reply_to xid (Answer.Refused who.inc status))) result out.old out.new }
{
    let said = Reply::Refused {
        inc: who.inc,
        status,
    };
    answer(alloc, who.host, xid, &said, out)
}

/// Answers a call that is no request with a reply that brings no result. Where memory is wanting the datagrams are as before.
pub(crate) fn say_error(
    alloc: Global,
    host: Host,
    xid: u32,
    said: ErrorReply,
    out: &mut Outbox,
) -> Result<EventTaken, KeepFault>
    ensures { Says (to_host host (error_to xid (told_error said))) result out.old out.new }
{
    match push(host, error_bytes(alloc, xid, said), out) {
        Ok(()) => Ok(EventTaken::Done),
        Err(NoMemory::Memory) => Err(KeepFault::Memory),
    }
}

/// Ends a reply to a host, for which there is room. It takes no memory.
pub(crate) fn end_reply(host: Host, begun: BegunReply, said: &Reply, out: &mut Outbox)
    requires room { results_len said.now ≤ begun.room }
    requires datagram { 1 ≤ out.old.spare }
    ensures { Sends (to_host host (reply_to begun.xid said.now) ∷ []) out.old out.new }
{
    let bytes = begun.end(said);
    out.push(Party::Client(host), bytes).unwrap();
}

/// Adds the refusal of a request that is put off. Where memory is wanting the datagrams are as before.
fn reply_later(alloc: Global, who: Who, xid: u32, out: &mut Outbox) -> Result<(), NoMemory>
    ensures sends { OnOk result (Sends (to_host who.host (reply_to xid (Answer.Refused who.inc Status.TryLater)) ∷ []) out.old out.new) }
    ensures refused { OnErr result (IsSilent out.old out.new) }
{
    let said = Reply::Refused {
        inc: who.inc,
        status: Refusal::TryLater,
    };
    push(who.host, reply_bytes(alloc, xid, &said), out)
}

/// Puts a request about a file off: notices to the holders of its rows, with numbers from `notice` on, and then the
/// refusal. Where memory is wanting the datagrams are as before.
pub(crate) fn put_off(
    alloc: Global,
    table: &Table,
    file: FileId,
    to: NoticeTo,
    caller: Caller,
    notice: &mut u32,
    out: &mut Outbox,
) -> Result<(), NoMemory>
    ensures sends { OnOk result (Sends (notices_of notice.old (told_rows file to table.now.rows)
        ++ to_host caller.who.host (reply_to caller.xid (Answer.Refused caller.who.inc Status.TryLater)) ∷ []) out.old out.new) }
    ensures counted { OnOk result (notice.new ≡ (notice.old + length (told_rows file to table.now.rows)) % xid_end) }
    ensures silent { OnErr result (IsSilent out.old out.new) }
{
    let len = out.len();
    notices(alloc, table, file, to, notice, out)?;
    match reply_later(alloc, caller.who, caller.xid, out) {
        Ok(()) => Ok(()),
        Err(fault) => {
            out.cut(len);
            Err(fault)
        }
    }
}
