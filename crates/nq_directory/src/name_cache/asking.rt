//! What a host makes of datagrams.

ghost use Rattle.std.specs.Prelude.{◌≡◌, ◌<◌, ◌≤◌, ◌^◌, ◌+◌, [], ◌∷◌, ◌++◌, true, false, None, Some, option_map, vec_len, vec_capacity, IfOk, IfSome, OnErr};
ghost use Rattle.nq_directory.specs.Lent.{answer_of, answers_of, listing_of};
ghost use Rattle.nq_directory.specs.Messages.{read_dir_bytes};
ghost use Rattle.nq_directory.specs.Reading.{dir_evicted_in};
ghost use Rattle.nq_directory.specs.Asking.{answer_in, evicted, gone_on, heard, is_later, last_id, lease_by, next_bytes, noticed, page_taken, takes_page, told};
ghost use Rattle.nq_directory.specs.NameCacheNames.{Request, list_of};

use crate::FileName;
use crate::listing::{
    DirTag, Page, PageTold, dir_vacated_bytes, read_dir_bytes, read_dir_evicted, read_told,
};
use crate::name_cache::cache::{AskedPage, NameCache};
use crate::name_cache::listed::{Listed, list_of};
use nq_base::{FileId, Grant, NoMemory, Ticks};
use std::alloc::Global;

impl NameCache {
    /// Takes in a datagram of the server at this time of the host's clock, which is below 2^62: the reply to the request under way,
    /// or a DIREVICTED for this incarnation. Gives what the host sends then, if anything: the next READDIRLOOK for leases of this
    /// term, or a DIRVACATED. All else changes nothing.
    ///
    /// # Errors
    ///
    /// `NoMemory` where memory is wanting; nothing is changed then.
    #[tactic(auto, using(crate::proofs::Heard::hearing))]
    pub fn heard(
        &mut self,
        alloc: Global,
        datagram: &[u8],
        term: u32,
        now: Ticks,
    ) -> Result<Option<Vec<u8>>, NoMemory>
        requires { now < 2 ^ 62 }
        ensures heard { IfOk result (λ o. record { names = self.new; sends = option_map (λ v. v.items) o } ≡ heard self.old datagram.now term now) }
        ensures refused { OnErr result (self.new ≡ self.old) }
    {
        match self.read_answer(alloc, datagram)? {
            Some(said) => self.take_told(alloc, said, term, now),
            None => self.read_notice(alloc, datagram),
        }
    }

    /// What a datagram tells as the reply to the request under way.
    fn read_answer(&self, alloc: Global, datagram: &[u8]) -> Result<Option<PageTold>, NoMemory>
        ensures { IfOk result (λ t. answers_of t ≡ answer_in self.now self.now.asked datagram.now) }
    {
        match &self.asked {
            Some(asked) => read_told(alloc, asked.xid, self.who.inc.0, datagram),
            None => Ok(None),
        }
    }

    /// Takes in the reply to the request under way.
    fn take_told(
        &mut self,
        alloc: Global,
        said: PageTold,
        term: u32,
        now: Ticks,
    ) -> Result<Option<Vec<u8>>, NoMemory>
        requires { now < 2 ^ 62 }
        ensures told { IfOk result (λ o. (r : Request) → self.old.asked ≡ Some r
            → record { names = self.new; sends = option_map (λ v. v.items) o } ≡ told self.old r (answer_of said) term now) }
        ensures refused { OnErr result (self.new ≡ self.old) }
    {
        match said {
            PageTold::Page(page) => self.take_listing(alloc, page, term, now),
            PageTold::Later => {
                self.asked = None;
                Ok(None)
            }
        }
    }

    /// Takes in the page that was asked for.
    #[tactic(auto, using(crate::proofs::Heard::page_same))]
    fn take_listing(
        &mut self,
        alloc: Global,
        page: Page,
        term: u32,
        now: Ticks,
    ) -> Result<Option<Vec<u8>>, NoMemory>
        requires { now < 2 ^ 62 }
        ensures taken { IfOk result (λ o. (r : Request) → self.old.asked ≡ Some r
            → record { names = self.new; sends = option_map (λ v. v.items) o } ≡ takes_page self.old r (listing_of page) page.grant term now) }
        ensures refused { OnErr result (self.new ≡ self.old) }
    {
        let Page { names, more, grant } = page;
        match grant {
            Some(grant) => {
                let next = self.next_request(alloc, &names, more, term)?;
                self.take_page(&names, &grant, next, now)
            }
            None => {
                self.asked = None;
                Ok(None)
            }
        }
    }

    /// The READDIRLOOK for the page behind these names, where the list goes on behind them.
    fn next_request(
        &self,
        alloc: Global,
        names: &[FileName],
        more: bool,
        term: u32,
    ) -> Result<Option<Vec<u8>>, NoMemory>
        ensures { IfOk result (λ o. (r : Request) → self.now.asked ≡ Some r → option_map (λ v. v.items) o ≡ next_bytes self.now r names.now more term) }
    {
        match &self.asked {
            Some(asked) if more => {
                let after = last_id(asked.after, names);
                let request = self.request(&asked.part, after, term);
                Ok(Some(read_dir_bytes(alloc, &request)?))
            }
            _ => Ok(None),
        }
    }

    /// Takes in a page that came with a lease; `next` is the READDIRLOOK for the page behind it, where the list goes on.
    fn take_page(
        &mut self,
        names: &[FileName],
        grant: &Grant,
        next: Option<Vec<u8>>,
        now: Ticks,
    ) -> Result<Option<Vec<u8>>, NoMemory>
        requires { now < 2 ^ 62 }
        ensures taken { IfOk result (λ o. (r : Request) → self.old.asked ≡ Some r
            → record { names = self.new; sends = option_map (λ v. v.items) o }
            ≡ page_taken self.old r names.now grant.now (option_map (λ v. v.items) next) now) }
        ensures refused { OnErr result (self.new ≡ self.old) }
    {
        self.lists.reserve(1)?;
        let Some(asked) = &mut self.asked else {
            return Ok(None);
        };
        let sent = asked.sent;
        if !asked.part.grow(grant, sent, names)? {
            self.asked = None;
            return Ok(None);
        }
        let Some(AskedPage { after, part, .. }) = self.asked.take() else {
            return Ok(None);
        };
        match next {
            Some(bytes) => {
                self.ask(part, last_id(after, names), now);
                Ok(Some(bytes))
            }
            None => {
                keep(&mut self.lists, part);
                Ok(None)
            }
        }
    }

    /// Takes in a DIREVICTED, where a datagram is one for this incarnation.
    fn read_notice(&mut self, alloc: Global, datagram: &[u8]) -> Result<Option<Vec<u8>>, NoMemory>
        ensures noticed { IfOk result (λ o. record { names = self.new; sends = option_map (λ v. v.items) o } ≡ noticed self.old (dir_evicted_in datagram.now)) }
        ensures refused { OnErr result (self.new ≡ self.old) }
    {
        match read_dir_evicted(datagram) {
            Some(notice) if notice.who == self.who => self.give_up(alloc, &notice),
            _ => Ok(None),
        }
    }

    /// Gives the list of a directory up, unless a greater tag than the notice's is held.
    fn give_up(&mut self, alloc: Global, notice: &DirTag) -> Result<Option<Vec<u8>>, NoMemory>
        ensures evicted { IfOk result (λ o. record { names = self.new; sends = option_map (λ v. v.items) o } ≡ evicted self.old notice.now) }
        ensures refused { OnErr result (self.new ≡ self.old) }
    {
        if self.holds_later(notice) {
            return Ok(None);
        }
        let vacated = DirTag {
            xid: self.next,
            who: self.who,
            prefix: notice.prefix,
            tag: notice.tag,
        };
        let bytes = dir_vacated_bytes(alloc, &vacated)?;
        self.forget(&notice.prefix);
        self.next = self.next.wrapping_add(1);
        Ok(Some(bytes))
    }

    /// Whether a greater tag than the notice's is held on its directory.
    fn holds_later(&self, notice: &DirTag) -> bool
        ensures { result ≡ is_later notice.now.tag (lease_by notice.now.prefix (list_of notice.now.prefix self.now.lists) self.now.asked) }
    {
        if let Some(listed) = list_of(&self.lists, &notice.prefix) {
            return listed.is_later(&notice.tag);
        }
        match &self.asked {
            Some(asked) => asked.part.is_of(&notice.prefix) && asked.part.is_later(&notice.tag),
            None => false,
        }
    }
}

/// The last id of a page, or the one behind which it begins.
fn last_id(after: FileId, names: &[FileName]) -> FileId
    ensures { result ≡ last_id after names.now }
{
    match names.last() {
        Some(entry) => entry.file,
        None => after,
    }
}

/// Keeps a list that is whole, where there is room.
fn keep(lists: &mut Vec<Listed>, part: Listed)
    requires { vec_len lists.old + 1 ≤ vec_capacity lists.old }
    ensures { lists.new.items ≡ lists.old.items ++ part ∷ [] }
{
    lists.push(part).unwrap();
}
