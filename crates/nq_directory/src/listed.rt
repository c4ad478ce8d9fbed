//! The names of a directory.

ghost use Rattle.std.specs.Prelude.{◌≡◌, ◌+◌, ◌<◌, ◌≤◌, [], insert, length, vec_len, vec_capacity, OnErr, OnOk};
ghost use Rattle.std.specs.List.Sorted.{IsNonDecreasing};
ghost use Rattle.nq_directory.specs.Fronts.{AreFronted};
ghost use Rattle.nq_directory.specs.Names.{named, put_name, put_names};

use crate::fronts::{are_rising, count_less, front_of, is_at};
use crate::names::{FileName, file_at, file_named, place_of, put_at};
use crate::prefix::Prefix;
use nq_base::{FileId, Name, NoMemory};
use std::alloc::Global;
use std::marker::Model;

/// The names of a directory in order, with their files. Clauses see them as the list of both.
#[derive(Drop)]
pub struct DirNames {
    /// How many bytes the names have in common: those of the prefix of the directory.
    skip: usize,
    /// Whether the fronts do not fall. So it is where all names are of the directory.
    rise: bool,
    /// The front of each name, by which most are found: they stand close together.
    fronts: Vec<u64>,
    names: Vec<FileName>,
}

impl Model for DirNames {
    ghost use Rattle.std.specs.Prelude.{List};
    ghost use Rattle.nq_directory.specs.declared.names.FileName.{FileName};
    ghost use Rattle.nq_directory.specs.Fronts.{AreKept};

    ghost Value = { List FileName };

    ghost view = { λ d. d.names.items };

    ghost invariant = { λ d. AreKept d.skip d.rise d.fronts.items d.names.items };
}

impl DirNames {
    /// No names of a directory. It takes no memory.
    pub fn new(alloc: Global, prefix: &Prefix) -> DirNames
        ensures { result ≡ [] }
    {
        DirNames {
            skip: prefix.as_bytes().len(),
            rise: false,
            fronts: Vec::new(alloc),
            names: Vec::new(alloc),
        }
    }

    /// The file that has a name, if one of these does. It is found by halving, and takes no memory.
    pub fn find(&self, name: &Name) -> Option<FileId>
        ensures { result ≡ named name.now self.now }
    {
        if self.rise {
            find_by_front(&self.fronts, &self.names, self.skip, name)
        } else {
            file_named(&self.names, name)
        }
    }

    /// Puts names in their places.
    ///
    /// # Errors
    ///
    /// `NoMemory` where memory is wanting; nothing is changed then.
    pub fn extend(&mut self, more: &[FileName]) -> Result<(), NoMemory>
        ensures added { OnOk result (self.new ≡ put_names more.now self.old) }
        ensures refused { OnErr result (self.new ≡ self.old) }
    {
        self.fronts.reserve(more.len())?;
        self.names.reserve(more.len())?;
        put_all(&mut self.fronts, &mut self.names, self.skip, more);
        self.rise = are_rising(&self.fronts);
        Ok(())
    }
}

/// The file that has a name, if one of these does. Where two names have its front, they are halved by the names.
fn find_by_front(fronts: &[u64], names: &[FileName], skip: usize, name: &Name) -> Option<FileId>
    requires fronted { AreFronted skip fronts.now names.now }
    requires rising { IsNonDecreasing fronts.now }
    ensures { result ≡ named name.now names.now }
{
    let front = front_of(name, skip);
    let place = count_less(fronts, front);
    if is_at(fronts, place + 1, front) {
        file_named(names, name)
    } else {
        file_at(names, place, name)
    }
}

/// Puts a number in at a place, where there is room.
fn insert_front(fronts: &mut Vec<u64>, place: usize, front: u64)
    requires place { place ≤ vec_len fronts.old }
    requires room { vec_len fronts.old < vec_capacity fronts.old }
    ensures items { fronts.new.items ≡ insert fronts.old.items place front }
    ensures len { vec_len fronts.new ≡ vec_len fronts.old + 1 }
    ensures capacity { vec_capacity fronts.old ≤ vec_capacity fronts.new }
{
    fronts.insert(place, front).unwrap();
}

/// Puts an entry in its place, with its front, where there is room.
fn put_entry(fronts: &mut Vec<u64>, names: &mut Vec<FileName>, skip: usize, entry: &FileName)
    requires fronted { AreFronted skip fronts.old.items names.old.items }
    requires room { vec_len names.old < vec_capacity names.old }
    requires front_room { vec_len fronts.old < vec_capacity fronts.old }
    ensures items { names.new.items ≡ put_name entry.now names.old.items }
    ensures fronted { AreFronted skip fronts.new.items names.new.items }
    ensures len { vec_len names.new ≡ vec_len names.old + 1 }
    ensures front_len { vec_len fronts.new ≡ vec_len fronts.old + 1 }
    ensures capacity { vec_capacity names.old ≤ vec_capacity names.new }
    ensures front_capacity { vec_capacity fronts.old ≤ vec_capacity fronts.new }
{
    let place = place_of(names.as_slice(), &entry.name);
    let front = front_of(&entry.name, skip);
    insert_front(fronts, place, front);
    put_at(names, place, entry);
}

/// Puts entries in their places, with their fronts, where there is room.
fn put_all(fronts: &mut Vec<u64>, names: &mut Vec<FileName>, skip: usize, more: &[FileName])
    requires fronted { AreFronted skip fronts.old.items names.old.items }
    requires room { vec_len names.old + length more.now ≤ vec_capacity names.old }
    requires front_room { vec_len fronts.old + length more.now ≤ vec_capacity fronts.old }
    ensures items { names.new.items ≡ put_names more.now names.old.items }
    ensures fronted { AreFronted skip fronts.new.items names.new.items }
{
    for entry in more {
        put_entry(fronts, names, skip, entry);
    }
}
