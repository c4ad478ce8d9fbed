//! The notices that wait until their files are clean, in order of files.

ghost use Rattle.std.specs.Prelude.{◌≡◌, ◌≤◌, ◌<◌, ◌+◌, [], is_some, slice_get, vec_len, vec_capacity, Some, None, IsOk, OnOk, OnErr, IfNone};
ghost use Rattle.std.specs.Option.{ForSome};
ghost use Rattle.std.specs.List.{insert, remove};
ghost use Rattle.nq_model.specs.protocol.Client.{file_of_notice, notice_on, drop_notice, put_notice};
ghost use Rattle.nq_model.specs.protocol.Hear.{noticed_tag, with_notice};
ghost use Rattle.nq_model.specs.protocol.Send.{noticed_in};
ghost use Rattle.nq_client_parts.specs.ByFile.{Ascends, IsPlace};

use crate::holding::Notice;
use nq_base::{FileId, NoMemory};
use std::alloc::Global;
use std::marker::Model;

/// The notices that wait, one for a file. Clauses see them in order of files, and for how many more there is room before
/// memory is wanted. Notices have to be spent, and so has this.
pub struct Notices {
    notices: Vec<Notice>,
}

impl Model for Notices {
    ghost use Rattle.std.specs.Prelude.{◌-◌, vec_len, vec_capacity};
    ghost use Rattle.nq_model.specs.protocol.Client.{file_of_notice};
    ghost use Rattle.nq_client_parts.specs.ByFile.{Ascends};
    ghost use Rattle.nq_client_parts.specs.Notices.{NoticeList};

    ghost Value = { NoticeList };

    ghost view = { λ n. record { items = n.notices.items; spare = vec_capacity n.notices - vec_len n.notices } };

    ghost invariant = { λ n. Ascends file_of_notice n.notices.items };
}

impl Notices {
    /// No notices. It takes no memory.
    pub fn new(alloc: Global) -> Notices
        ensures { result.items ≡ [] }
    {
        Notices {
            notices: Vec::new(alloc),
        }
    }

    /// Whether a notice waits for a file.
    pub fn waits(&self, file: FileId) -> bool
        ensures { result ≡ is_some (notice_on file self.now.items) }
    {
        is_at(&self.notices, place_of(&self.notices, file), file)
    }

    /// The least file for which a notice waits.
    pub fn first(&self) -> Option<FileId>
        ensures { result ≡ noticed_in self.now.items }
    {
        first(&self.notices)
    }

    /// Makes room for `more` notices for files for which none waits.
    pub fn reserve(&mut self, more: usize) -> Result<(), NoMemory>
        ensures items { self.new.items ≡ self.old.items }
        ensures room { OnOk result (more ≤ self.new.spare) }
        ensures refused { OnErr result (self.new ≡ self.old) }
        ensures succeeds { more ≤ self.old.spare → IsOk result }
        ensures spare { self.old.spare ≤ self.new.spare }
    {
        self.notices.try_reserve(more)?;
        Ok(())
    }

    /// Keeps a notice in room that is reserved. Of two for a file the later tag stays.
    pub fn put_notice(&mut self, notice: Notice)
        requires { 1 ≤ self.old.spare }
        ensures items { self.new.items ≡ with_notice notice.file notice.tag self.old.items }
        ensures spare { self.old.spare ≤ self.new.spare + 1 }
    {
        put_notice(&mut self.notices, notice);
    }

    /// Takes the notice for a file out, if one waits.
    pub fn take_notice(&mut self, file: FileId) -> Option<Notice>
        ensures found { result ≡ notice_on file self.old.items }
        ensures items { self.new.items ≡ drop_notice file self.old.items }
        ensures unchanged { IfNone result (self.new.items ≡ self.old.items) }
        ensures spare { self.old.spare ≤ self.new.spare }
    {
        take_notice(&mut self.notices, file)
    }

    /// Forgets the notices. This is for a client that ends.
    pub fn forgotten(self) {
        let Notices { mut notices } = self;
        while let Some(notice) = notices.pop() {
            notice.forgotten();
        }
        notices.destroy_empty();
    }
}

/// Where the notice for a file stands, or would stand.
fn place_of(notices: &[Notice], file: FileId) -> usize
    requires { Ascends file_of_notice notices.now }
    ensures { IsPlace file_of_notice file notices.now result }
{
    notices.partition_point(|notice| notice.file() < file)
}

/// Whether the notice for a file stands at its place.
fn is_at(notices: &[Notice], place: usize, file: FileId) -> bool
    requires ascends { Ascends file_of_notice notices.now }
    requires place { IsPlace file_of_notice file notices.now place }
    ensures { result ≡ is_some (notice_on file notices.now) }
{
    match notices.get(place) {
        Some(notice) => notice.file() == file,
        None => false,
    }
}

/// The least file for which a notice waits.
fn first(notices: &[Notice]) -> Option<FileId>
    requires { Ascends file_of_notice notices.now }
    ensures { result ≡ noticed_in notices.now }
{
    match notices.first() {
        Some(notice) => Some(notice.file()),
        None => None,
    }
}

/// Takes the notice at a place out.
fn take_at(notices: &mut Vec<Notice>, place: usize) -> Notice
    requires { place < vec_len notices.old }
    ensures notice { slice_get notices.old.items place ≡ Some result }
    ensures items { notices.new.items ≡ remove notices.old.items place }
    ensures len { vec_len notices.new + 1 ≡ vec_len notices.old }
    ensures capacity { vec_capacity notices.new ≡ vec_capacity notices.old }
{
    notices.remove(place)
}

/// Takes the notice for a file out.
fn take_notice(notices: &mut Vec<Notice>, file: FileId) -> Option<Notice>
    requires { Ascends file_of_notice notices.old.items }
    ensures found { result ≡ notice_on file notices.old.items }
    ensures items { notices.new.items ≡ drop_notice file notices.old.items }
    ensures unchanged { IfNone result (notices.new.items ≡ notices.old.items) }
    ensures ascends { Ascends file_of_notice notices.new.items }
    ensures len { vec_len notices.new ≤ vec_len notices.old }
    ensures capacity { vec_capacity notices.new ≡ vec_capacity notices.old }
{
    let place = place_of(notices, file);
    if is_at(notices, place, file) {
        Some(take_at(notices, place))
    } else {
        None
    }
}

/// Puts a notice at a place, without memory.
fn insert(notices: &mut Vec<Notice>, place: usize, notice: Notice)
    requires within { place ≤ vec_len notices.old }
    requires room { vec_len notices.old < vec_capacity notices.old }
    ensures items { notices.new.items ≡ insert notices.old.items place notice }
    ensures len { vec_len notices.new ≡ vec_len notices.old + 1 }
    ensures capacity { vec_capacity notices.old ≤ vec_capacity notices.new }
{
    notices.insert(place, notice).unwrap();
}

/// Puts a notice for a file for which none waits.
fn add(notices: &mut Vec<Notice>, notice: Notice)
    requires ascends { Ascends file_of_notice notices.old.items }
    requires room { vec_len notices.old < vec_capacity notices.old }
    requires absent { notice_on notice.file notices.old.items ≡ None }
    ensures items { notices.new.items ≡ put_notice notice notices.old.items }
    ensures ascends { Ascends file_of_notice notices.new.items }
    ensures len { vec_len notices.new ≡ vec_len notices.old + 1 }
    ensures capacity { vec_capacity notices.old ≤ vec_capacity notices.new }
{
    let place = place_of(notices, notice.file());
    insert(notices, place, notice);
}

/// A notice together with the one that waits for its file, if one does.
fn joined(waiting: Option<Notice>, notice: Notice) -> Notice
    requires { ForSome waiting (λ n. n.file ≡ notice.file) }
    ensures { result ≡ record { file = notice.file; tag = noticed_tag notice.tag waiting } }
{
    match waiting {
        Some(waiting) => waiting.join(notice),
        None => notice,
    }
}

/// Keeps a notice. Of two for a file the later tag stays.
fn put_notice(notices: &mut Vec<Notice>, notice: Notice)
    requires ascends { Ascends file_of_notice notices.old.items }
    requires room { vec_len notices.old < vec_capacity notices.old }
    ensures items { notices.new.items ≡ with_notice notice.file notice.tag notices.old.items }
    ensures ascends { Ascends file_of_notice notices.new.items }
    ensures len { vec_len notices.new ≤ vec_len notices.old + 1 }
    ensures capacity { vec_capacity notices.old ≤ vec_capacity notices.new }
{
    let waiting = take_notice(notices, notice.file());
    add(notices, joined(waiting, notice));
}
