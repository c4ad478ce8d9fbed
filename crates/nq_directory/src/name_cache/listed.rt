//! Lists of directories.

ghost use Rattle.std.specs.Prelude.{◌≡◌, ◌<◌, ◌^◌, ◌&&◌, not, true, Some, option_copied, if◌then◌else◌, IfOk, OnErr};
ghost use Rattle.nq_directory.specs.Names.{named};
ghost use Rattle.nq_client_parts.specs.HoldingLeases.{passes};
ghost use Rattle.nq_client_parts.specs.Takes.{is_broken};
ghost use Rattle.nq_model.specs.protocol.Client.{is_live};
ghost use Rattle.nq_model.specs.protocol.Profile.{same_bytes};
ghost use Rattle.nq_model.specs.protocol.Table.{tag_below};
ghost use Rattle.nq_directory.specs.Asking.{goes_on, is_later, is_reading, with_page};
ghost use Rattle.nq_directory.specs.NameCacheNames.{empty_list, found_as, list_of, other_lists};

use crate::name_cache::found::Found;
use crate::{DirNames, FileName, Prefix};
use nq_base::{FileId, Grant, Mode, Name, NoMemory, Tag, Ticks};
use nq_client_parts::holding::{GrantTaken, Held, Take};
use std::alloc::Global;
use std::marker::Model;
use std::mem;

/// The names of a directory. Clauses see them as the definitions do.
#[derive(Drop)]
pub(crate) struct Listed {
    prefix: Prefix,
    held: Held,
    names: DirNames,
}

impl Model for Listed {
    ghost use Rattle.nq_client_parts.specs.HoldingLeases.{lease_of};
    ghost use Rattle.nq_directory.specs.NameCacheNames.{DirList};

    ghost Value = { DirList };

    ghost view = { λ l. record { prefix = l.prefix; lease = lease_of l.held; names = l.names } };
}

impl Listed {
    /// Nothing of the list of a directory. It takes no memory.
    pub(crate) fn new(alloc: Global, prefix: Prefix) -> Listed
        ensures { result ≡ empty_list prefix }
    {
        Listed {
            prefix,
            held: Held::Nothing,
            names: DirNames::new(alloc, &prefix),
        }
    }

    /// The directory.
    pub(crate) fn prefix(&self) -> Prefix
        ensures { result ≡ self.now.prefix }
    {
        self.prefix
    }

    /// Whether it is the list of a directory.
    pub(crate) fn is_of(&self, prefix: &Prefix) -> bool
        ensures { result ≡ same_bytes self.now.prefix prefix.now }
    {
        self.prefix.is(prefix)
    }

    /// What the list says of a name. It takes no memory.
    pub(crate) fn find(&self, name: &Name, now: Ticks) -> Found
        ensures { result ≡ (if passes (is_live now) self.now.lease then found_as (named name.now self.now.names) else Found.Unknown) }
    {
        if !self.held.live(now) {
            return Found::Unknown;
        }
        match self.names.find(name) {
            Some(file) => Found::File(file),
            None => Found::Absent,
        }
    }

    /// Whether its lease has a greater tag than this one.
    pub(crate) fn is_later(&self, tag: &Tag) -> bool
        ensures { result ≡ is_later tag.now self.now.lease }
    {
        match &self.held {
            Held::Nothing => false,
            Held::NonCaching(lease) | Held::Reading(lease) | Held::Writing(lease) => {
                is_below(tag, &lease.tag)
            }
        }
    }

    /// Adds the names of a page that came with this lease, where it is a reading one that is the first of the list or goes on in its
    /// chain, and says so; else the list is to be forgotten. The request of the page was sent at `sent`.
    ///
    /// # Errors
    ///
    /// `NoMemory` where memory is wanting; the list is as before then.
    #[tactic(auto, using(crate::proofs::Pages::broken_breaks))]
    pub(crate) fn grow(
        &mut self,
        grant: &Grant,
        sent: Ticks,
        names: &[FileName],
    ) -> Result<bool, NoMemory>
        requires { sent < 2 ^ 62 }
        ensures grows { IfOk result (λ on. on ≡ goes_on self.old (Some grant.now)) }
        ensures grown { IfOk result (λ on. on ≡ true → self.new ≡ with_page self.old sent grant.now names.now) }
        ensures refused { OnErr result (self.new ≡ self.old) }
    {
        let _term = grant.term;
        self.names.extend(names)?;
        let held = mem::replace(&mut self.held, Held::Nothing);
        let GrantTaken { held, how } = held.take_grant(FileId(0), grant, sent);
        if !is_on(how, grant.mode) {
            return Ok(false);
        }
        self.held = held;
        Ok(true)
    }
}

/// Whether a tag was drawn before another.
fn is_below(tag: &Tag, other: &Tag) -> bool
    ensures { result ≡ tag_below tag.now other.now }
{
    tag < other
}

/// Whether a lease of this kind, which follows so on what was held, goes on with a list.
fn is_on(how: Take, mode: Mode) -> bool
    ensures { result ≡ (is_reading mode && not (is_broken how)) }
{
    let broken = how.is_broken();
    matches!(mode, Mode::Reading) && !broken
}

/// The list of a directory, if it is there.
pub(crate) fn list_of<'a>(lists: &'a [Listed], prefix: &Prefix) -> Option<&'a Listed>
    ensures { option_copied result ≡ list_of prefix.now lists.now }
{
    lists.iter().find(|listed| listed.is_of(prefix))
}

/// Forgets the list of a directory, if it is there. It takes no memory.
pub(crate) fn forget(lists: &mut Vec<Listed>, prefix: &Prefix)
    ensures { lists.new.items ≡ other_lists prefix.now lists.old.items }
{
    lists.retain(|listed| !listed.is_of(prefix));
}
