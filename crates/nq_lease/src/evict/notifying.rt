//! The server's notices.

ghost use Rattle.std.specs.Prelude.{◌≡◌, ◌+◌, ◌%◌, [], ◌∷◌, ◌++◌, All, length, map, OnOk, OnErr};
ghost use Rattle.nq_base.specs.declared.Request.{Request as Asks};
ghost use Rattle.nq_datagrams.specs.Messages.{FitsMessage};
ghost use Rattle.nq_datagrams.specs.Sent.{FitsPacket, sent};
ghost use Rattle.nq_lease.specs.Telling.{Tells, own_rows, told_among, told_rows};
ghost use Rattle.nq_model.specs.protocol.Message.{call};
ghost use Rattle.nq_model.specs.protocol.Profile.{xid_end};
ghost use Rattle.nq_model.specs.protocol.Server.{notices as notices_of, to_host};

use crate::{Table, is_in_the_way};
use nq_base::{Access, FileId, Host, NoMemory, Party, Request, Row, RowKey};
use nq_datagrams::call_bytes;
use nq_wire::Outbox;
use std::alloc::Global;

/// Whose holders are asked to give their leases on a file up.
#[derive(Clone, Copy)]
pub enum NoticeTo {
    /// Those whose rows are in the way of what this host is about to do with the file.
    Others {
        /// The host.
        host: Host,
        /// What it is about to do.
        access: Access,
    },
    /// This host itself.
    Own(Host),
}

/// Adds the notice to the holder of a row, with this number.
fn tell(alloc: Global, row: &Row, xid: u32, out: &mut Outbox) -> Result<(), NoMemory>
    ensures first { out.new.first ≡ out.old.first }
    ensures told { OnOk result (out.new.datagrams ≡ out.old.datagrams
        ++ sent (to_host row.now.who.host (call xid (Asks.Evicted row.now.who row.now.file row.now.tag))) ∷ []) }
    ensures fits { OnOk result (FitsMessage (call xid (Asks.Evicted row.now.who row.now.file row.now.tag))) }
    ensures refused { OnErr result (out.new.datagrams ≡ out.old.datagrams) }
{
    let request = Request::Evicted {
        who: row.who,
        file: row.file,
        tag: row.tag,
    };
    let bytes = call_bytes(alloc, xid, &request)?;
    out.push(Party::Client(row.who.host), bytes)
}

/// Adds the notices to the holders of those of a file's rows that are in the way of what a host is about to do, with
/// numbers from this one on. Where memory is wanting some of them may be there.
fn tell_among(
    alloc: Global,
    rows: &[Row],
    file: FileId,
    host: Host,
    access: Access,
    xid: &mut u32,
    out: &mut Outbox,
) -> Result<(), NoMemory>
    ensures { Tells (told_among file host access rows.now) result xid.old xid.new out.old out.new }
{
    let mut number = *xid;
    for row in rows {
        if is_in_the_way(row, file, host, access) {
            tell(alloc, row, number, out)?;
            number = number.wrapping_add(1);
        }
    }
    *xid = number;
    Ok(())
}

/// Adds the notice to the holder of a row, if there is one.
fn tell_own(
    alloc: Global,
    own: Option<Row>,
    xid: &mut u32,
    out: &mut Outbox,
) -> Result<(), NoMemory>
    ensures { Tells (own_rows own) result xid.old xid.new out.old out.new }
{
    let number = *xid;
    if let Some(row) = own {
        tell(alloc, &row, number, out)?;
        *xid = number.wrapping_add(1);
    }
    Ok(())
}

/// Adds the notices about a file. Where memory is wanting some of them may be there.
fn tell_all(
    alloc: Global,
    table: &Table,
    file: FileId,
    to: NoticeTo,
    xid: &mut u32,
    out: &mut Outbox,
) -> Result<(), NoMemory>
    ensures { Tells (told_rows file to table.now.rows) result xid.old xid.new out.old out.new }
{
    match to {
        NoticeTo::Others { host, access } => {
            tell_among(alloc, table.rows_of(file), file, host, access, xid, out)
        }
        NoticeTo::Own(host) => tell_own(alloc, table.row(RowKey { file, host }), xid, out),
    }
}

/// Asks holders to give their leases on a file up: an EVICTED with the latest tag to each whose row is in the way of what
/// a host is about to do, in order of hosts, whether it was asked before or not; or to the host itself, where it has a
/// row. They take the numbers from `xid` on, which wrap at 2^32.
///
/// A step sends its notices before it commits, and before it marks a row: where its commit then fails,
/// [`Outbox::cut`] takes them back without memory.
///
/// # Errors
///
/// Only want of memory. Then the datagrams and the number are as before.
pub fn notices(
    alloc: Global,
    table: &Table,
    file: FileId,
    to: NoticeTo,
    xid: &mut u32,
    out: &mut Outbox,
) -> Result<(), NoMemory>
    ensures first { out.new.first ≡ out.old.first }
    ensures told { OnOk result (out.new.datagrams ≡ out.old.datagrams ++ map sent (notices_of xid.old (told_rows file to table.now.rows))) }
    ensures fit { OnOk result (All FitsPacket (notices_of xid.old (told_rows file to table.now.rows))) }
    ensures counted { OnOk result (xid.new ≡ (xid.old + length (told_rows file to table.now.rows)) % xid_end) }
    ensures refused { OnErr result ((out.new.datagrams ≡ out.old.datagrams) × (xid.new ≡ xid.old)) }
{
    let len = out.len();
    match tell_all(alloc, table, file, to, xid, out) {
        Ok(()) => Ok(()),
        Err(fault) => {
            out.cut(len);
            Err(fault)
        }
    }
}
