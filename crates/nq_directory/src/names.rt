//! Files with their names, in order of the names.

ghost use Rattle.std.specs.Prelude.{◌≡◌, ◌+◌, ◌≤◌, ◌<◌, slice_get, insert, Some, vec_len, vec_capacity};
ghost use Rattle.std.specs.List.{prefix_len};
ghost use Rattle.nq_directory.specs.Names.{AreInOrder, file_if, is_before, named, name_before, put_name};

use nq_base::{FileId, Name};

/// A file with its name.
#[derive(Clone, Copy)]
pub struct FileName {
    /// The file.
    pub file: FileId,
    /// Its name.
    pub name: Name,
}

/// Whether a file's name stands before a name: by the first byte in which they differ.
#[tactic(auto, unfolding(crate::specs::Names::name_before))]
fn stands_before(entry: &FileName, name: &Name) -> bool
    ensures { result ≡ is_before name.now entry.now }
{
    entry.name.as_bytes().cmp(name.as_bytes()).is_lt()
}

/// The place of a name: of its entry, or where it would stand.
pub(crate) fn place_of(names: &[FileName], name: &Name) -> usize
    requires { AreInOrder names.now }
    ensures { result ≡ prefix_len (is_before name.now) names.now }
{
    names.partition_point(|entry| stands_before(entry, name))
}

/// The file of an entry, if it has a name.
#[tactic(auto, using(crate::proofs::Called::named))]
fn file_if(entry: &FileName, name: &Name) -> Option<FileId>
    ensures { result ≡ file_if name.now (Some entry.now) }
{
    if entry.name.is(name) {
        Some(entry.file)
    } else {
        None
    }
}

/// The file of the entry at a place, if there is one and it has a name.
pub(crate) fn file_at(names: &[FileName], place: usize, name: &Name) -> Option<FileId>
    ensures { result ≡ file_if name.now (slice_get names.now place) }
{
    match names.get(place) {
        Some(entry) => file_if(entry, name),
        None => None,
    }
}

/// The file that has a name, if one of these does. It is found by halving.
pub(crate) fn file_named(names: &[FileName], name: &Name) -> Option<FileId>
    requires { AreInOrder names.now }
    ensures { result ≡ named name.now names.now }
{
    file_at(names, place_of(names, name), name)
}

/// Puts an entry in at a place, where there is room.
fn insert_at(names: &mut Vec<FileName>, place: usize, entry: &FileName)
    requires place { place ≤ vec_len names.old }
    requires room { vec_len names.old < vec_capacity names.old }
    ensures items { names.new.items ≡ insert names.old.items place entry.now }
    ensures len { vec_len names.new ≡ vec_len names.old + 1 }
    ensures capacity { vec_capacity names.old ≤ vec_capacity names.new }
{
    names.insert(place, *entry).unwrap();
}

/// Puts an entry in its place, which is known, where there is room.
pub(crate) fn put_at(names: &mut Vec<FileName>, place: usize, entry: &FileName)
    requires order { AreInOrder names.old.items }
    requires place { place ≡ prefix_len (is_before entry.now.name) names.old.items }
    requires room { vec_len names.old < vec_capacity names.old }
    ensures items { names.new.items ≡ put_name entry.now names.old.items }
    ensures order { AreInOrder names.new.items }
    ensures len { vec_len names.new ≡ vec_len names.old + 1 }
    ensures capacity { vec_capacity names.old ≤ vec_capacity names.new }
{
    insert_at(names, place, entry);
}
