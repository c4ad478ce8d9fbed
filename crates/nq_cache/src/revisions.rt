//! The revisions of files, in order of files.

ghost use Rattle.std.specs.Prelude.{◌≡◌, ◌≤◌, ◌<◌, ◌+◌, ◌-◌, [], ◌∷◌, map, length, slice_set, slice_get, option_map, vec_len, vec_capacity, IsTrue, ◌↔◌};
ghost use Rattle.std.specs.Prelude.{IsSomeAnd, IsSome, IsOk, IfOk, OnOk, OnErr};
ghost use Rattle.std.specs.List.{insert};
ghost use Rattle.nq_model.specs.protocol.Client.{revision_of, put_revision};
ghost use Rattle.nq_cache.specs.Revisions.{revision, of_file, Ascends, IsPlace};

use nq_base::{FileId, NoMemory, Rev};
use std::alloc::Global;
use std::marker::Model;

/// The revision of a file's clean blocks.
#[derive(Clone, Copy)]
pub(crate) struct KnownRevision {
    pub(crate) file: FileId,
    pub(crate) rev: Rev,
}

/// Where the revision of a file stands, or would stand.
fn place_of(known: &[KnownRevision], file: FileId) -> usize
    requires { Ascends known.now }
    ensures { IsPlace file known.now result }
{
    known.partition_point(|k| k.file < file)
}

/// What stands at the place of a file, if that is of the file.
fn at(known: &[KnownRevision], place: usize, file: FileId) -> Option<KnownRevision>
    ensures { result ≡ of_file file (slice_get known.now place) }
{
    match known.get(place) {
        Some(k) if k.file == file => Some(*k),
        _ => None,
    }
}

/// The revision of a file.
fn find(known: &[KnownRevision], file: FileId) -> Option<KnownRevision>
    requires { Ascends known.now }
    ensures { option_map revision result ≡ revision_of file (map revision known.now) }
{
    at(known, place_of(known, file), file)
}

/// Puts a revision that is there in the place of another of its file.
fn replace(known: &mut Vec<KnownRevision>, place: usize, new: KnownRevision)
    requires { place < vec_len known.old }
    ensures items { known.new.items ≡ slice_set known.old.items place new }
    ensures len { vec_len known.new ≡ vec_len known.old }
    ensures capacity { vec_capacity known.new ≡ vec_capacity known.old }
{
    known[place] = new;
}

/// Puts a revision that is not there at a place, without memory.
fn insert(known: &mut Vec<KnownRevision>, place: usize, new: KnownRevision)
    requires within { place ≤ vec_len known.old }
    requires room { vec_len known.old < vec_capacity known.old }
    ensures items { known.new.items ≡ insert known.old.items place new }
    ensures len { vec_len known.new ≡ vec_len known.old + 1 }
    ensures capacity { vec_capacity known.old ≤ vec_capacity known.new }
{
    known.insert(place, new).unwrap();
}

/// Puts a revision at the place of its file.
fn put_revision(known: &mut Vec<KnownRevision>, file: FileId, rev: Rev) -> Result<(), NoMemory>
    requires { Ascends known.old.items }
    ensures put { OnOk result (map revision known.new.items ≡ put_revision file rev (map revision known.old.items)) }
    ensures ascends { Ascends known.new.items }
    ensures refused { OnErr result ((known.new.items ≡ known.old.items) × (vec_len known.new ≡ vec_len known.old)
        × (vec_capacity known.new ≡ vec_capacity known.old)) }
    ensures there { IsSome (revision_of file (map revision known.old.items)) → IsOk result }
    ensures kept { IsSome (revision_of file (map revision known.old.items)) → (vec_len known.new ≡ vec_len known.old)
        × (vec_capacity known.new ≡ vec_capacity known.old) }
    ensures room { vec_len known.old < vec_capacity known.old → IsOk result }
    ensures len { vec_len known.new ≤ vec_len known.old + 1 }
    ensures capacity { vec_capacity known.old ≤ vec_capacity known.new }
{
    let place = place_of(known, file);
    let new = KnownRevision { file, rev };
    if is_at(known, place, file) {
        replace(known, place, new);
        Ok(())
    } else {
        known.try_reserve(1)?;
        insert(known, place, new);
        Ok(())
    }
}

/// Whether the revision of a file stands at a place.
fn is_at(known: &[KnownRevision], place: usize, file: FileId) -> bool
    ensures { IsTrue result ↔ IsSomeAnd (slice_get known.now place) (λ k. k.file ≡ file) }
{
    match known.get(place) {
        Some(k) => k.file == file,
        None => false,
    }
}

/// Revisions in order of files. Clauses see them and how many more files get one before memory is wanted.
#[derive(Drop)]
pub(crate) struct Revisions {
    known: Vec<KnownRevision>,
}

impl Model for Revisions {
    ghost use Rattle.std.specs.Prelude.{◌-◌, map, vec_len, vec_capacity};
    ghost use Rattle.nq_cache.specs.Revisions.{RevisionList, revision, Ascends};

    ghost Value = { RevisionList };

    ghost view = { λ r. record { items = map revision r.known.items; spare = vec_capacity r.known - vec_len r.known } };

    ghost invariant = { λ r. Ascends r.known.items };
}

impl Revisions {
    /// No revisions. It takes no memory.
    pub(crate) fn new(alloc: Global) -> Revisions
        ensures { result.items ≡ [] }
    {
        Revisions {
            known: Vec::new(alloc),
        }
    }

    /// The revision of a file, if there is one.
    pub(crate) fn get(&self, file: FileId) -> Option<Rev>
        ensures { result ≡ option_map (λ r. r.rev) (revision_of file self.now.items) }
    {
        match find(&self.known, file) {
            Some(k) => Some(k.rev),
            None => None,
        }
    }

    /// Makes room for the revisions of `files` files that have none.
    pub(crate) fn reserve(&mut self, files: usize) -> Result<(), NoMemory>
        ensures items { self.new.items ≡ self.old.items }
        ensures room { OnOk result (files ≤ self.new.spare) }
        ensures refused { OnErr result (self.new ≡ self.old) }
        ensures succeeds { files ≤ self.old.spare → IsOk result }
        ensures spare { self.old.spare ≤ self.new.spare }
    {
        self.known.try_reserve(files)?;
        Ok(())
    }

    /// Gives a file a revision.
    pub(crate) fn put_revision(&mut self, file: FileId, rev: Rev) -> Result<(), NoMemory>
        ensures put { OnOk result (self.new.items ≡ put_revision file rev self.old.items) }
        ensures refused { OnErr result (self.new ≡ self.old) }
        ensures there { IsSome (revision_of file self.old.items) → IsOk result }
        ensures kept { IsSome (revision_of file self.old.items) → self.new.spare ≡ self.old.spare }
        ensures succeeds { 1 ≤ self.old.spare → IsOk result }
        ensures spare { self.old.spare ≤ self.new.spare + 1 }
    {
        put_revision(&mut self.known, file, rev)
    }
}
