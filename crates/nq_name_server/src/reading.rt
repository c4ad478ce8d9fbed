//! READDIRLOOK while the server serves.

ghost use Rattle.std.specs.Prelude.{◌≡◌, ◌<◌, ◌≤◌, ◌+◌, ◌^◌, List, ℕ, [], ◌∷◌, ◌++◌, Some, length, option_map, if◌then◌else◌, IfOk, IfSome, OnErr, OnOk};
ghost use Rattle.nq_base.specs.declared.Party.{Party};
ghost use Rattle.nq_directory.specs.Messages.{most_names};
ghost use Rattle.nq_name_server.specs.Sending.{IsServed, IsUntouched, all_sent};
ghost use Rattle.nq_model.specs.protocol.Ask.{ask};
ghost use Rattle.nq_model.specs.protocol.Table.{drop_row, find_row};
ghost use Rattle.nq_wire.specs.Parts.{grant_bytes, optional};
ghost use Rattle.nq_name_server.specs.Served.{Leaf, most_directories};
ghost use Rattle.nq_name_server.specs.Serving.{AreReady, entered, for_asker, lists_for, notice_after, notices, number_for, own_again, own_told, reads_dir};
ghost use Rattle.nq_name_server.specs.Serving.{replied, warnings};
ghost use Rattle.nq_lease.specs.Telling.{own_rows};

use crate::notifying::notice_bytes;
use crate::server::{MOST_DIRECTORIES, NameServer};
use nq_base::{
    Access, Asked, FileId, Grant, Mode, NoMemory, Party, Question, Rev, Row, RowKey, Want,
};
use nq_directory::FileName;
use nq_directory::listing::{BegunPage, ReadDir, later_bytes};
use nq_wire::Outbox;
use std::alloc::Global;

/// The replies that a READDIRLOOK may get, for which all memory is taken.
#[derive(Drop)]
struct Replies {
    page: BegunPage,
    later: Vec<u8>,
}

impl NameServer {
    /// Answers a READDIRLOOK of an attached incarnation while the server serves. `names` are at most 32 files of the directory behind
    /// the id that it names, by id, and `more` says whether the list goes on behind them. The reply has them and the lease, or says
    /// that the client is to ask again later; where the client's own lease on the directory is to be given up, a DIREVICTED stands
    /// before it.
    ///
    /// # Errors
    ///
    /// `NoMemory` where memory is wanting; then nothing is changed.
    pub(crate) fn read_dir(
        &mut self,
        alloc: Global,
        request: &ReadDir,
        names: &[FileName],
        more: bool,
        out: &mut Outbox,
    ) -> Result<(), NoMemory>
        requires few { length names.now ≤ most_names }
        requires drawn { self.old.table.drawn < 2 ^ 62 }
        ensures read { OnOk result (IsServed (reads_dir self.old request.now (record { names = names.now; more = more })) self.new out.old out.new) }
        ensures drawn { self.new.table.drawn ≤ self.old.table.drawn + 1 }
        ensures first { out.new.first ≡ out.old.first }
        ensures refused { OnErr result (IsUntouched self.old self.new out.old out.new) }
    {
        let replies = ready(alloc, request, names, more)?;
        out.reserve(2)?;
        match self.number_for(request) {
            Some(number) => self.read_numbered(alloc, request, number, replies, out),
            None => {
                let Replies { page, .. } = replies;
                give_page(request, page, &None, out);
                Ok(())
            }
        }
    }

    /// The number of the directory of a request, or the next one; None where all are taken.
    fn number_for(&self, request: &ReadDir) -> Option<FileId>
        ensures { result ≡ number_for self.now request.now.prefix }
    {
        match self.number_of(&request.prefix) {
            Some(number) => Some(number),
            None if self.directories.len() < MOST_DIRECTORIES => {
                Some(FileId(self.directories.len() as u32))
            }
            None => None,
        }
    }

    /// Answers a READDIRLOOK of the directory with this number, which may be a new one.
    ///
    /// # Errors
    ///
    /// `NoMemory` where memory is wanting; then nothing is changed.
    fn read_numbered(
        &mut self,
        alloc: Global,
        request: &ReadDir,
        number: FileId,
        replies: Replies,
        out: &mut Outbox,
    ) -> Result<(), NoMemory>
        requires number { number_for self.old request.now.prefix ≡ Some number }
        requires drawn { self.old.table.drawn < 2 ^ 62 }
        requires room { 2 ≤ out.old.spare }
        requires spare { 48 ≤ replies.page.spare }
        ensures read { OnOk result ((leaf : Leaf) → AreReady request.now leaf replies.page.bytes replies.later.items
            → IsServed (reads_dir self.old request.now leaf) self.new out.old out.new) }
        ensures drawn { self.new.table.drawn ≤ self.old.table.drawn + 1 }
        ensures first { out.new.first ≡ out.old.first }
        ensures refused { OnErr result (IsUntouched self.old self.new out.old out.new) }
    {
        let warning = self.own_notice(alloc, request, number)?;
        self.enter(request, number);
        self.drop_older(request, number);
        let asked = self.ask_for(request, number);
        self.reply(request, asked, warning, replies, out);
        Ok(())
    }

    /// Adds the reply to a READDIRLOOK, by what the lease table said, behind what its host is told about its own row.
    #[tactic(auto, using(crate::proofs::Replying::replying))]
    fn reply(
        &mut self,
        request: &ReadDir,
        asked: Asked,
        warning: Option<Vec<u8>>,
        replies: Replies,
        out: &mut Outbox,
    )
        requires room { 2 ≤ out.old.spare }
        requires spare { 48 ≤ replies.page.spare }
        ensures replied { (leaf : Leaf) → AreReady request.now leaf replies.page.bytes replies.later.items
            → IsServed (replied self.old request.now leaf (warnings request.now (option_map (λ v. v.items) warning)) asked) self.new out.old out.new }
        ensures table { self.new.table ≡ self.old.table }
        ensures first { out.new.first ≡ out.old.first }
    {
        let Replies { page, later } = replies;
        match asked {
            Asked::TryLater(_) => self.put_off(request, warning, later, out),
            Asked::Granted(grant) => give_page(request, page, &Some(grant), out),
            Asked::Free | Asked::NoLease => give_page(request, page, &None, out),
        }
    }

    /// Adds the reply that puts a READDIRLOOK off, behind what its host is told about its own row.
    fn put_off(
        &mut self,
        request: &ReadDir,
        warning: Option<Vec<u8>>,
        later: Vec<u8>,
        out: &mut Outbox,
    )
        requires { 2 ≤ out.old.spare }
        ensures served { self.new ≡ record self.old {
          notice = notice_after self.old.notice
              (length (warnings request.now (option_map (λ v. v.items) warning)));
        } }
        ensures sends { out.new.datagrams ≡ out.old.datagrams ++ all_sent (warnings request.now (option_map (λ v. v.items) warning))
            ++ (Party.Client request.now.who.host, later.items) ∷ [] }
        ensures first { out.new.first ≡ out.old.first }
    {
        self.warn(request, warning, out);
        out.push(Party::Client(request.who.host), later).unwrap();
    }

    /// Tells the asker about its own row, if there is a DIREVICTED for it.
    fn warn(&mut self, request: &ReadDir, warning: Option<Vec<u8>>, out: &mut Outbox)
        requires { 1 ≤ out.old.spare }
        ensures served { self.new ≡ record self.old {
          notice = notice_after self.old.notice
              (length (warnings request.now (option_map (λ v. v.items) warning)));
        } }
        ensures sends { out.new.datagrams ≡ out.old.datagrams ++ all_sent (warnings request.now (option_map (λ v. v.items) warning)) }
        ensures first { out.new.first ≡ out.old.first }
        ensures spare { out.old.spare ≤ out.new.spare + 1 }
    {
        let notice = self.notice;
        if let Some(bytes) = warning {
            self.notice = notice.wrapping_add(1);
            out.push(Party::Client(request.who.host), bytes).unwrap();
        }
    }

    /// Asks the lease table for a reading lease on a directory.
    fn ask_for(&mut self, request: &ReadDir, number: FileId) -> Asked
        requires { self.old.table.drawn < 2 ^ 62 }
        ensures table { self.new ≡ record self.old { table = (ask self.old.table (lists_for self.old request.now number)).table } }
        ensures asked { result ≡ (ask self.old.table (lists_for self.old request.now number)).asked }
        ensures drawn { self.new.table.drawn ≤ self.old.table.drawn + 1 }
    {
        let question = Question {
            who: request.who,
            file: number,
            access: Access::Read,
            want: Some(Want {
                mode: Mode::Reading,
                term: request.term,
            }),
            longest: self.longest,
            time: self.time,
            rev: Rev(0),
            blocks: 0,
        };
        self.ask_table(&question)
    }

    /// The DIREVICTED to the asker itself, where its own row on the directory is to be given up.
    fn own_notice(
        &self,
        alloc: Global,
        request: &ReadDir,
        number: FileId,
    ) -> Result<Option<Vec<u8>>, NoMemory>
        ensures { IfOk result (λ o. warnings request.now (option_map (λ v. v.items) o)
            ≡ notices request.now.prefix self.now.notice (own_told request.now.who (find_row number request.now.who.host self.now.table.rows))) }
    {
        match self.own_row(request, number) {
            Some(row) => {
                let bytes = notice_bytes(alloc, &request.prefix, self.notice, &row)?;
                Ok(Some(bytes))
            }
            None => Ok(None),
        }
    }

    /// The asker's own row on a directory, where it is to be given up.
    fn own_row(&self, request: &ReadDir, number: FileId) -> Option<Row>
        ensures row { own_rows result ≡ own_told request.now.who (find_row number request.now.who.host self.now.table.rows) }
        ensures host { IfSome result (λ row. row.who.host ≡ request.now.who.host) }
    {
        let row = self.table.row(key_of(request, number))?;
        if row.who.inc == request.who.inc && row.evicting {
            Some(row)
        } else {
            None
        }
    }

    /// A directory without a number gets this one.
    fn enter(&mut self, request: &ReadDir, number: FileId)
        requires { number ≡ length self.old.directories → number < most_directories }
        ensures entered { self.new ≡ record self.old { directories = entered number request.now.prefix self.old.directories } }
        ensures table { self.new.table ≡ self.old.table }
    {
        if number.0 as usize == self.directories.len() {
            self.directories.push(request.prefix).unwrap();
        }
    }

    /// Drops the asker's row on a directory, where it is of another incarnation.
    #[tactic(auto, using(crate::proofs::Running::again_runs), unfolding(nq_model::specs::protocol::Table::with_rows))]
    fn drop_older(&mut self, request: &ReadDir, number: FileId)
        ensures table { self.new ≡ record self.old { table = for_asker self.old.table request.now.who number } }
        ensures drawn { self.new.table.drawn ≡ self.old.table.drawn }
    {
        if self.is_older(request, number) {
            self.table.drop_row(key_of(request, number));
        }
    }

    /// Whether the asker's row on a directory is of another incarnation.
    fn is_older(&self, request: &ReadDir, number: FileId) -> bool
        ensures { own_again request.now.who number (find_row number request.now.who.host self.now.table.rows) self.now.table.rows
            ≡ (if result then drop_row number request.now.who.host self.now.table.rows else self.now.table.rows) }
    {
        match self.table.row(key_of(request, number)) {
            Some(row) => row.who.inc != request.who.inc,
            None => false,
        }
    }
}

/// What the asker's row on a directory is looked up by.
fn key_of(request: &ReadDir, number: FileId) -> RowKey
    ensures file { result.file ≡ number }
    ensures host { result.host ≡ request.now.who.host }
{
    RowKey {
        file: number,
        host: request.who.host,
    }
}

/// The replies to a READDIRLOOK with a page of these files. All memory that they take is taken here.
fn ready(
    alloc: Global,
    request: &ReadDir,
    names: &[FileName],
    more: bool,
) -> Result<Replies, NoMemory>
    requires { length names.now ≤ most_names }
    ensures ready { IfOk result (λ p. AreReady request.now (record { names = names.now; more = more }) p.page.bytes p.later.items) }
    ensures spare { IfOk result (λ p. 48 ≤ p.page.spare) }
{
    let inc = request.who.inc.0;
    let page = BegunPage::new(alloc, request.xid, inc, names, more)?;
    let later = later_bytes(alloc, request.xid, inc)?;
    Ok(Replies { page, later })
}

/// Adds the reply with a page, and with this lease.
fn give_page(request: &ReadDir, page: BegunPage, grant: &Option<Grant>, out: &mut Outbox)
    requires room { 1 ≤ out.old.spare }
    requires spare { 48 ≤ page.spare }
    ensures sends { out.new.datagrams ≡ out.old.datagrams ++ (Party.Client request.now.who.host, page.bytes ++ optional grant_bytes grant.now) ∷ [] }
    ensures first { out.new.first ≡ out.old.first }
{
    let bytes = page.end(grant);
    out.push(Party::Client(request.who.host), bytes).unwrap();
}
