//! The lists of a host.

ghost use Rattle.std.specs.Prelude.{◌≡◌, ◌<◌, ◌^◌, [], None, Some, if◌then◌else◌, IfOk, OnErr};
ghost use Rattle.nq_directory.specs.Prefix.{directory};
ghost use Rattle.nq_directory.specs.Asking.{asks_behind, cleared, request_of};
ghost use Rattle.nq_directory.specs.NameCacheNames.{before_call, empty_list, finds, forgets, forgets_all, new_names, number_after, other_request};

use crate::listing::{ReadDir, read_dir_bytes};
use crate::name_cache::found::Found;
use crate::name_cache::listed::{Listed, forget, list_of};
use crate::{Prefix, directory_of};
use nq_base::{Call, FileId, Name, NoMemory, Ticks, Who};
use std::alloc::Global;
use std::marker::Model;

/// The number of the first message of an incarnation.
const FIRST_NUMBER: u32 = 1 << 31;

/// The most directories of which names are kept.
const MOST_LISTS: usize = 16;

/// A request for a page of a list. Clauses see it as the definitions do.
#[derive(Drop)]
pub(crate) struct AskedPage {
    pub(crate) xid: u32,
    pub(crate) after: FileId,
    pub(crate) sent: Ticks,
    /// What came of the list so far.
    pub(crate) part: Listed,
}

impl Model for AskedPage {
    ghost use Rattle.std.specs.Prelude.{◌<◌, ◌^◌};
    ghost use Rattle.nq_directory.specs.NameCacheNames.{Request};

    ghost Value = { Request };

    ghost view = { λ r. record { xid = r.xid; after = r.after; sent = r.sent; part = r.part } };

    ghost invariant = { λ r. r.sent < 2 ^ 62 };
}

/// What a host keeps of the names of directories: whole lists of at most 16 directories, and a list that it asks for. Clauses see it
/// as the definitions do.
#[derive(Drop)]
pub struct NameCache {
    pub(crate) who: Who,
    /// The number of the next message.
    pub(crate) next: u32,
    pub(crate) lists: Vec<Listed>,
    pub(crate) asked: Option<AskedPage>,
}

impl Model for NameCache {
    ghost use Rattle.nq_directory.specs.NameCacheNames.{Names};

    ghost Value = { Names };

    ghost view = { λ c. record { who = c.who; next = c.next; lists = c.lists.items; asked = c.asked } };
}

impl NameCache {
    /// What a new incarnation keeps: nothing. It takes no memory.
    pub fn new(alloc: Global, who: Who) -> NameCache
        ensures { result ≡ new_names who }
    {
        NameCache {
            who,
            next: FIRST_NUMBER,
            lists: Vec::new(alloc),
            asked: None,
        }
    }

    /// What is known of a name at this time of the host's clock: `Unknown` exactly where there is no whole list of its directory, or
    /// the lease of the list does not run. It takes no memory.
    pub fn find(&self, name: &Name, now: Ticks) -> Found
        ensures { result ≡ finds self.now name.now now }
    {
        match list_of(&self.lists, &directory_of(name)) {
            Some(listed) => listed.find(name, now),
            None => Found::Unknown,
        }
    }

    /// A user of the host is about to make this call: before a `create` the list of its directory and a request for it are forgotten,
    /// and before a `remove` all are. It takes no memory.
    pub fn before_call(&mut self, call: &Call)
        ensures { self.new ≡ before_call self.old call.now }
    {
        match call {
            Call::Create { name, .. } => self.forget(&directory_of(name)),
            Call::Remove { .. } => self.forget_all(),
            _ => {}
        }
    }

    /// The host started again as this incarnation, which keeps nothing. It takes no memory.
    pub fn restart(&mut self, who: Who)
        ensures { self.new ≡ new_names who }
    {
        self.forget_all();
        self.who = who;
        self.next = FIRST_NUMBER;
    }

    /// Asks for the list of a directory under a lease of this term, at this time of the host's clock, which is below 2^62: gives the
    /// READDIRLOOK. A request under way is cancelled, and the list of the directory is forgotten; all lists are where there would be
    /// more than 16.
    ///
    /// # Errors
    ///
    /// `NoMemory` where memory is wanting; nothing is changed then.
    pub fn list(
        &mut self,
        alloc: Global,
        prefix: &Prefix,
        term: u32,
        now: Ticks,
    ) -> Result<Vec<u8>, NoMemory>
        requires { now < 2 ^ 62 }
        ensures asks { IfOk result (λ v. record { names = self.new; sends = Some v.items }
            ≡ asks_behind (cleared prefix.now self.old) (empty_list prefix.now) 0 term now) }
        ensures refused { OnErr result (self.new ≡ self.old) }
    {
        let part = Listed::new(alloc, *prefix);
        let request = self.request(&part, FileId(0), term);
        let bytes = read_dir_bytes(alloc, &request)?;
        self.clear(prefix);
        self.ask(part, FileId(0), now);
        Ok(bytes)
    }

    /// The READDIRLOOK for the page of a list behind an id.
    pub(crate) fn request(&self, part: &Listed, after: FileId, term: u32) -> ReadDir
        ensures { result ≡ request_of self.now part.now.prefix after term }
    {
        ReadDir {
            xid: self.next,
            who: self.who,
            prefix: part.prefix(),
            after,
            term,
        }
    }

    /// The page of a list behind an id is asked for.
    pub(crate) fn ask(&mut self, part: Listed, after: FileId, sent: Ticks)
        requires { sent < 2 ^ 62 }
        ensures { self.new ≡ record self.old {
          next = number_after self.old.next;
          asked = Some (record { xid = self.old.next; after = after; sent = sent; part = part });
        } }
    {
        self.asked = Some(AskedPage {
            xid: self.next,
            after,
            sent,
            part,
        });
        self.next = self.next.wrapping_add(1);
    }

    /// Cancels the request under way, and makes room for the list of a directory, which is forgotten.
    fn clear(&mut self, prefix: &Prefix)
        ensures { self.new ≡ cleared prefix.now self.old }
    {
        self.asked = None;
        forget(&mut self.lists, prefix);
        if self.lists.len() >= MOST_LISTS {
            self.lists.clear();
        }
    }

    /// Forgets the list of a directory, and a request for it.
    pub(crate) fn forget(&mut self, prefix: &Prefix)
        ensures { self.new ≡ forgets prefix.now self.old }
    {
        forget(&mut self.lists, prefix);
        if self.asks_for(prefix) {
            self.asked = None;
        }
    }

    /// Whether a request for the list of a directory is under way.
    fn asks_for(&self, prefix: &Prefix) -> bool
        ensures { other_request prefix.now self.now.asked ≡ (if result then None else self.now.asked) }
    {
        match &self.asked {
            Some(asked) => asked.part.is_of(prefix),
            None => false,
        }
    }

    /// Forgets all lists and the request.
    fn forget_all(&mut self)
        ensures { self.new ≡ forgets_all self.old }
    {
        self.lists.clear();
        self.asked = None;
    }
}
