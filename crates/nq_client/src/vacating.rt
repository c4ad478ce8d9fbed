//! Leases that are given up for a notice.

ghost use Rattle.std.specs.Prelude.{◌≡◌, ◌≤◌, IsTrue};
ghost use Rattle.nq_model.specs.protocol.Client.{is_clean_in, notice_on};
ghost use Rattle.nq_model.specs.protocol.Hear.{evicted, notes_notice, vacates_if_clean, vacates_lease, vacates_noticed};
ghost use Rattle.nq_client.specs.Hearing.{GivesUp, IsSilent};
ghost use Rattle.nq_client.specs.Step.{step_of};

use crate::step::{Step, Vacated};
use nq_base::{FileId, Tag};
use nq_client_parts::dirty::{Dirty, Vacancy};
use nq_client_parts::holding::Notice;

/// The answer to a notice for a clean file.
fn vacancy(dirty: &Dirty, notice: Notice) -> Vacancy
    requires { IsTrue (is_clean_in notice.file dirty.now.dirty dirty.now.push) }
    ensures { result ≡ notice }
{
    let clean = dirty.clean(notice.file()).unwrap();
    clean.vacates(notice)
}

/// Spends a notice that is answered otherwise.
fn forget(notice: Option<Notice>) {
    match notice {
        Some(notice) => notice.forgotten(),
        None => {}
    }
}

impl Step {
    /// Gives the lease on a clean file up: VACATED takes the next number.
    #[tactic(auto, unfolding(nq_model::specs::protocol::Hear::vacates_lease))]
    pub(crate) fn vacates_lease(&mut self, notice: Notice)
        requires silent { IsSilent self.old }
        requires clean { IsTrue (is_clean_in notice.file self.old.state.dirty.dirty self.old.state.dirty.push) }
        ensures step { step_of self.new ≡ vacates_lease (step_of self.old) notice.file notice.tag }
        ensures kept { GivesUp self.old self.new }
    {
        let vacancy = vacancy(&self.state.dirty, notice);
        let file = vacancy.file();
        let xid = self.state.xid;
        self.state.xid = xid + 1;
        self.state.leases.remove(file);
        forget(self.state.notices.take_notice(file));
        self.vacated = Some(Vacated { xid, vacancy });
    }

    /// Gives the lease on a clean file up where a notice waits for it.
    pub(crate) fn vacates_noticed(&mut self, file: FileId)
        requires silent { IsSilent self.old }
        requires clean { IsTrue (is_clean_in file self.old.state.dirty.dirty self.old.state.dirty.push) }
        ensures step { step_of self.new ≡ vacates_noticed (step_of self.old) file (notice_on file self.old.state.notices.items) }
        ensures kept { GivesUp self.old self.new }
    {
        match self.state.notices.take_notice(file) {
            Some(notice) => self.vacates_lease(notice),
            None => {}
        }
    }

    /// Gives the lease on a file up where the file is clean and a notice waits for it.
    pub(crate) fn vacates_if_clean(&mut self, file: FileId)
        requires { IsSilent self.old }
        ensures step { step_of self.new ≡ vacates_if_clean (step_of self.old) file }
        ensures kept { GivesUp self.old self.new }
    {
        if self.state.dirty.is_clean(file) {
            self.vacates_noticed(file);
        }
    }

    /// Takes a notice in: a clean file's lease is given up at once, and another notice waits until its file is clean.
    #[tactic(auto, unfolding(nq_model::specs::protocol::Hear::notes_notice))]
    pub(crate) fn evicted(&mut self, file: FileId, tag: Tag)
        requires silent { IsSilent self.old }
        requires room { 1 ≤ self.old.state.notices.spare }
        ensures step { step_of self.new ≡ evicted (step_of self.old) file tag }
        ensures kept { GivesUp self.old self.new }
    {
        let notice = Notice::new(file, tag);
        if self.state.dirty.is_clean(file) {
            self.vacates_lease(notice);
        } else {
            self.state.notices.put_notice(notice);
        }
    }
}
