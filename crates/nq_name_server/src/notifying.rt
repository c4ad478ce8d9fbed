//! Requests that change a directory, and notices to those who read it.

ghost use Rattle.std.specs.Prelude.{◌≡◌, ◌<◌, ◌^◌, [], ◌∷◌, ◌++◌, Some, find, is_some, length, IfOk, OnErr, OnOk};
ghost use Rattle.nq_lease.specs.Telling.{Grows};
ghost use Rattle.nq_directory.specs.Messages.{dir_evicted_bytes};
ghost use Rattle.nq_base.specs.declared.Access.{Access};
ghost use Rattle.nq_model.specs.protocol.Ask.{ask, conflicts};
ghost use Rattle.nq_name_server.specs.Sending.{IsHeld, IsUntouched, all_sent, sent};
ghost use Rattle.nq_name_server.specs.Served.{number_of};
ghost use Rattle.nq_name_server.specs.Serving.{changes_for, holds_up, notice_after, notice_to, notices, readers};

use crate::server::NameServer;
use nq_base::{Access, FileId, Host, NoMemory, Party, Question, Rev, Row, Who};
use nq_directory::Prefix;
use nq_directory::listing::{DirTag, dir_evicted_bytes};
use nq_lease::grant::conflict;
use nq_lease::is_in_the_way;
use nq_wire::Outbox;
use std::alloc::Global;

/// The DIREVICTED to the holder of a row, with this number.
pub(crate) fn notice_bytes(
    alloc: Global,
    prefix: &Prefix,
    xid: u32,
    row: &Row,
) -> Result<Vec<u8>, NoMemory>
    ensures { IfOk result (λ v. v.items ≡ dir_evicted_bytes (record { xid = xid; who = row.now.who; prefix = prefix.now; tag = row.now.tag })) }
{
    dir_evicted_bytes(
        alloc,
        &DirTag {
            xid,
            who: row.who,
            prefix: *prefix,
            tag: row.tag,
        },
    )
}

impl NameServer {
    /// A request of this incarnation is about to create or remove a file of a directory. Where another host has a reading lease on
    /// the directory, the request is held up: such rows are marked, and a DIREVICTED goes to each holder in order of hosts. Says
    /// whether it is held up.
    ///
    /// # Errors
    ///
    /// `NoMemory` where memory is wanting; then nothing is changed.
    pub(crate) fn hold_up(
        &mut self,
        alloc: Global,
        who: Who,
        prefix: &Prefix,
        out: &mut Outbox,
    ) -> Result<bool, NoMemory>
        requires { self.old.table.drawn < 2 ^ 62 }
        ensures held { IfOk result (λ held. IsHeld held (holds_up self.old who prefix.now) self.old self.new out.old out.new) }
        ensures drawn { self.new.table.drawn ≡ self.old.table.drawn }
        ensures first { out.new.first ≡ out.old.first }
        ensures refused { OnErr result (IsUntouched self.old self.new out.old out.new) }
    {
        match self.number_of(prefix) {
            Some(number) => self.hold_up_numbered(alloc, who, prefix, number, out),
            None => Ok(false),
        }
    }

    /// The same for a directory that has this number.
    fn hold_up_numbered(
        &mut self,
        alloc: Global,
        who: Who,
        prefix: &Prefix,
        number: FileId,
        out: &mut Outbox,
    ) -> Result<bool, NoMemory>
        requires drawn { self.old.table.drawn < 2 ^ 62 }
        requires number { number_of prefix.now self.old.directories ≡ Some number }
        ensures held { IfOk result (λ held. IsHeld held (holds_up self.old who prefix.now) self.old self.new out.old out.new) }
        ensures drawn { self.new.table.drawn ≡ self.old.table.drawn }
        ensures first { out.new.first ≡ out.old.first }
        ensures refused { OnErr result (IsUntouched self.old self.new out.old out.new) }
    {
        if self.is_read(who.host, number) {
            let notice = self.tell_readers(alloc, who.host, prefix, number, out)?;
            self.mark_readers(who, number, notice);
            Ok(true)
        } else {
            Ok(false)
        }
    }

    /// Whether another host reads a directory.
    fn is_read(&self, host: Host, number: FileId) -> bool
        ensures { result ≡ is_some (find (conflicts number host Access.Write) self.now.table.rows) }
    {
        conflict(&self.table, host, number, Access::Write)
    }

    /// Marks the rows of those who read a directory; the next notice has this number.
    fn mark_readers(&mut self, who: Who, number: FileId, notice: u32)
        requires { self.old.table.drawn < 2 ^ 62 }
        ensures marked { self.new ≡ record self.old { table = (ask self.old.table (changes_for self.old who number)).table; notice = notice } }
        ensures drawn { self.new.table.drawn ≡ self.old.table.drawn }
    {
        let question = Question {
            who,
            file: number,
            access: Access::Write,
            want: None,
            longest: self.longest,
            time: self.time,
            rev: Rev(0),
            blocks: 0,
        };
        self.ask_table(&question);
        self.notice = notice;
    }

    /// Tells those who read a directory, and gives the number of the next notice.
    ///
    /// # Errors
    ///
    /// `NoMemory` where memory is wanting; then nobody is told.
    fn tell_readers(
        &self,
        alloc: Global,
        host: Host,
        prefix: &Prefix,
        number: FileId,
        out: &mut Outbox,
    ) -> Result<u32, NoMemory>
        ensures first { out.new.first ≡ out.old.first }
        ensures told { OnOk result (out.new.datagrams ≡ out.old.datagrams
            ++ all_sent (notices prefix.now self.now.notice (readers number host self.now.table.rows))) }
        ensures counted { IfOk result (λ n. n ≡ notice_after self.now.notice (length (readers number host self.now.table.rows))) }
        ensures refused { OnErr result (out.new.datagrams ≡ out.old.datagrams) }
    {
        let len = out.len();
        match self.tell_all(alloc, host, prefix, number, out) {
            Ok(notice) => Ok(notice),
            Err(fault) => {
                out.cut(len);
                Err(fault)
            }
        }
    }

    /// Tells those who read a directory, and gives the number of the next notice. Where memory is wanting some of them may be told.
    fn tell_all(
        &self,
        alloc: Global,
        host: Host,
        prefix: &Prefix,
        number: FileId,
        out: &mut Outbox,
    ) -> Result<u32, NoMemory>
        ensures first { out.new.first ≡ out.old.first }
        ensures grows { Grows out.old.datagrams out.new.datagrams }
        ensures told { OnOk result (out.new.datagrams ≡ out.old.datagrams
            ++ all_sent (notices prefix.now self.now.notice (readers number host self.now.table.rows))) }
        ensures counted { IfOk result (λ n. n ≡ notice_after self.now.notice (length (readers number host self.now.table.rows))) }
    {
        let rows = self.table.rows_of(number);
        tell_among(alloc, rows, number, host, prefix, self.notice, out)
    }
}

/// Adds the notice to the holder of a row, with this number.
fn tell(
    alloc: Global,
    prefix: &Prefix,
    xid: u32,
    row: &Row,
    out: &mut Outbox,
) -> Result<(), NoMemory>
    ensures first { out.new.first ≡ out.old.first }
    ensures told { OnOk result (out.new.datagrams ≡ out.old.datagrams ++ sent (notice_to prefix.now xid row.now) ∷ []) }
    ensures refused { OnErr result (out.new.datagrams ≡ out.old.datagrams) }
{
    let bytes = notice_bytes(alloc, prefix, xid, row)?;
    out.push(Party::Client(row.who.host), bytes)
}

/// Adds a notice to the holder of each of these rows that is in the way of a change of their directory, with numbers from this one
/// on, and gives the number behind them. Where memory is wanting some of them may be there.
fn tell_among(
    alloc: Global,
    rows: &[Row],
    number: FileId,
    host: Host,
    prefix: &Prefix,
    xid: u32,
    out: &mut Outbox,
) -> Result<u32, NoMemory>
    ensures first { out.new.first ≡ out.old.first }
    ensures grows { Grows out.old.datagrams out.new.datagrams }
    ensures told { OnOk result (out.new.datagrams ≡ out.old.datagrams ++ all_sent (notices prefix.now xid (readers number host rows.now))) }
    ensures counted { IfOk result (λ n. n ≡ notice_after xid (length (readers number host rows.now))) }
{
    let mut next = xid;
    for row in rows {
        if is_in_the_way(row, number, host, Access::Write) {
            tell(alloc, prefix, next, row, out)?;
            next = next.wrapping_add(1);
        }
    }
    Ok(next)
}
