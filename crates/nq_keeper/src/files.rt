//! The files of a keeper in memory, in order of their ids.

ghost use Rattle.std.specs.Prelude.{◌≡◌, ◌+◌, ◌≤◌, ◌<◌, [], ◌∷◌, ◌++◌, length, slice_get, slice_set, vec_len, None, Some, is_some, IfSome, IfNone, IfOk, OnOk};
ghost use Rattle.std.specs.Prelude.{OnErr};
ghost use Rattle.std.specs.List.{prefix_len};
ghost use Rattle.std.specs.Option.{ForSome};
ghost use Rattle.nq_keeper.specs.InOrder.{is_below, is_upto, of_id, IsRowAmong, FitsAmong};
ghost use Rattle.nq_keeper.specs.Keeping.{body_at};
ghost use Rattle.nq_keeper.specs.Named.{AreNamed, StandsAt};
ghost use Rattle.nq_model.specs.protocol.Change.{AreApart, HasBlock, blocks_with, file_after, file_of, files_with, files_without, row_of_found, with_block};
ghost use Rattle.nq_model.specs.protocol.Change.{with_body, with_file};
ghost use Rattle.nq_model.specs.protocol.Kept.{blocks_of, blocks_in_all, find_file, find_name, drop_file};
ghost use Rattle.nq_model.specs.protocol.Profile.{most_blocks_of_file};

use crate::names::{self, Names};
use crate::stored_file::StoredFile;
use nq_base::{Block, BlockChange, BlockNo, Change, FileId, FileRow, Name, NoMemory, Space};
use std::alloc::Global;
use std::collections::HashMap;
use std::marker::Model;

/// The files, their names, and how many blocks they have together. Contracts see the list of the model's files.
#[derive(Drop)]
pub(crate) struct Files {
    stored: Vec<StoredFile>,
    names: Names,
    blocks: u32,
}

impl Model for Files {
    ghost use Rattle.std.specs.Prelude.{List};
    ghost use Rattle.nq_keeper.specs.InOrder.{AreStored};
    ghost use Rattle.nq_keeper.specs.Named.{AreNamed};
    ghost use Rattle.nq_model.specs.protocol.Kept.{File};

    ghost Value = { List File };

    ghost view = { λ f. f.stored.items };

    ghost invariant = { λ f. AreStored f.stored.items f.blocks × AreNamed f.names.entries f.stored.items };
}

/// The place of an id: of its file, or where it would stand.
fn place_of(files: &[StoredFile], id: FileId) -> usize
    requires { AreApart files.now }
    ensures { result ≡ prefix_len (is_below id) files.now }
{
    files.partition_point(|file| file.id() < id)
}

/// The place behind an id: of the first file above it.
fn place_behind(files: &[StoredFile], id: FileId) -> usize
    requires { AreApart files.now }
    ensures { result ≡ prefix_len (is_upto id) files.now }
{
    files.partition_point(|file| file.id() <= id)
}

/// Whether there is a file at a place, and it has this id.
fn has_id(files: &[StoredFile], place: usize, id: FileId) -> bool
    ensures { result ≡ is_some (of_id id (slice_get files.now place)) }
{
    match files.get(place) {
        Some(file) => file.id() == id,
        None => false,
    }
}

/// Where a file stands; None where it is not there.
fn find(files: &[StoredFile], id: FileId) -> Option<usize>
    requires { AreApart files.now }
    ensures within { IfSome result (λ place. place < length files.now) }
    ensures found { IfSome result (λ place. find_file id files.now ≡ slice_get files.now place) }
    ensures none { IfNone result (find_file id files.now ≡ None) }
{
    let place = place_of(files, id);
    if has_id(files, place, id) {
        Some(place)
    } else {
        None
    }
}

/// The row at a place; None where the place is not below the number of files.
fn row_at(files: &[StoredFile], place: usize) -> Option<FileRow>
    ensures { result ≡ row_of_found (slice_get files.now place) }
{
    match files.get(place) {
        Some(file) => Some(file.row()),
        None => None,
    }
}

/// Puts a body in the place of a block of the file at a place.
fn write_at(files: &mut Vec<StoredFile>, place: usize, block: BlockNo, body: Block)
    requires within { place < vec_len files.old }
    requires block { ForSome (slice_get files.old.items place) (λ f. block < blocks_of f) }
    ensures { ForSome (slice_get files.old.items place) (λ f. files.new.items ≡ slice_set files.old.items place (with_body f block body)) }
{
    let file = &mut files[place];
    file.write(block, body);
}

/// Makes the file at a place follow its row.
fn follow_at(files: &mut Vec<StoredFile>, place: usize, row: &FileRow) -> Result<(), NoMemory>
    requires within { place < vec_len files.old }
    requires id { ForSome (slice_get files.old.items place) (λ f. row.now.id ≡ f.id) }
    requires name { ForSome (slice_get files.old.items place) (λ f. row.now.name ≡ f.name) }
    requires short { row.now.blocks ≤ most_blocks_of_file }
    ensures ok { OnOk result (ForSome (slice_get files.old.items place) (λ f. files.new.items ≡ slice_set files.old.items place (file_of row.now f.bodies))) }
    ensures err { OnErr result (files.new.items ≡ files.old.items) }
{
    let file = &mut files[place];
    file.follow(row)
}

/// Adds the new file of a row at the end, and its name.
fn add(
    files: &mut Vec<StoredFile>,
    names: &mut Names,
    alloc: Global,
    row: &FileRow,
) -> Result<(), NoMemory>
    requires { row.now.blocks ≤ most_blocks_of_file }
    ensures ok { OnOk result (files.new.items ≡ files.old.items ++ file_of row.now [] ∷ []) }
    ensures named { OnOk result (StandsAt row.now.name (Some row.now.id) names.old.entries names.new.entries) }
    ensures err { OnErr result (files.new.items ≡ files.old.items) }
    ensures same { OnErr result (names.new.entries ≡ names.old.entries) }
{
    let file = StoredFile::new(alloc, row)?;
    files.reserve(1)?;
    names::put_name(names, alloc, &row.name, row.id)?;
    files.push(file).unwrap();
    Ok(())
}

/// Puts the file of a row there, and gives the number of blocks that it had before.
fn put_file(
    files: &mut Vec<StoredFile>,
    names: &mut Names,
    alloc: Global,
    row: &FileRow,
) -> Result<u32, NoMemory>
    requires apart { AreApart files.old.items }
    requires named { AreNamed names.old.entries files.old.items }
    requires among { IsRowAmong row.now files.old.items (find_file row.now.id files.old.items) }
    requires short { row.now.blocks ≤ most_blocks_of_file }
    ensures ok { OnOk result (files.new.items ≡ with_file row.now files.old.items) }
    ensures count { IfOk result (λ had. had + blocks_in_all files.new.items ≡ blocks_in_all files.old.items + row.now.blocks) }
    ensures err { OnErr result (files.new.items ≡ files.old.items) }
    ensures named { AreNamed names.new.entries files.new.items }
{
    let Some(place) = find(files.as_slice(), row.id) else {
        add(files, names, alloc, row)?;
        return Ok(0);
    };
    let had = files[place].row().blocks;
    follow_at(files, place, row)?;
    Ok(had)
}

/// Puts a body in the place of a block of a file.
fn write(files: &mut Vec<StoredFile>, change: BlockChange)
    requires apart { AreApart files.old.items }
    requires block { HasBlock change.block (find_file change.file files.old.items) }
    ensures { files.new.items ≡ with_block change files.old.items }
{
    let Some(place) = find(files.as_slice(), change.file) else {
        unreachable!()
    };
    write_at(files, place, change.block, change.body);
}

/// Takes a file away with its name, and gives the number of blocks that it had.
fn take_file(files: &mut Vec<StoredFile>, names: &mut Names, id: FileId) -> u32
    requires apart { AreApart files.old.items }
    requires named { AreNamed names.old.entries files.old.items }
    ensures files { files.new.items ≡ drop_file id files.old.items }
    ensures count { result + blocks_in_all files.new.items ≡ blocks_in_all files.old.items }
    ensures named { AreNamed names.new.entries files.new.items }
{
    match find(files.as_slice(), id) {
        Some(place) => {
            let row = files.remove(place).row();
            names::take_name(names, &row.name);
            row.blocks
        }
        None => 0,
    }
}

/// Puts the file of a row there, if one is given.
fn put_if(files: &mut Files, alloc: Global, row: &Option<FileRow>) -> Result<(), NoMemory>
    requires { ForSome row.now (λ r. FitsAmong r files.old) }
    ensures ok { OnOk result (files.new ≡ files_with row.now files.old) }
    ensures err { OnErr result (files.new ≡ files.old) }
{
    match row {
        Some(row) => files.put_file(alloc, row),
        None => Ok(()),
    }
}

/// Puts a body in the place of a block of a file, if one is given.
fn write_if(files: &mut Files, change: Option<BlockChange>)
    requires { ForSome change (λ b. HasBlock b.block (find_file b.file files.old)) }
    ensures { files.new ≡ blocks_with change files.old }
{
    match change {
        Some(change) => files.write(change),
        None => {}
    }
}

impl Files {
    /// No files. They take no memory.
    pub(crate) fn new(alloc: Global) -> Files
        ensures { result ≡ [] }
    {
        Files {
            stored: Vec::new(alloc),
            names: HashMap::new(alloc),
            blocks: 0,
        }
    }

    /// The row of a file; None where it is not there.
    pub(crate) fn row(&self, id: FileId) -> Option<FileRow>
        ensures { result ≡ row_of_found (find_file id self.now) }
    {
        let place = find(self.stored.as_slice(), id)?;
        row_at(self.stored.as_slice(), place)
    }

    /// The row of the file of this name; None where no file has it.
    pub(crate) fn row_of_name(&self, name: &Name) -> Option<FileRow>
        ensures { result ≡ row_of_found (find_name name.now self.now) }
    {
        let id = names::id_of(&self.names, name)?;
        self.row(id)
    }

    /// The row of the first file above this id; None where there is none.
    pub(crate) fn row_after(&self, id: FileId) -> Option<FileRow>
        ensures { result ≡ row_of_found (file_after id self.now) }
    {
        let place = place_behind(self.stored.as_slice(), id);
        row_at(self.stored.as_slice(), place)
    }

    /// How many files and blocks there are.
    pub(crate) fn space(&self) -> Space
        ensures { result ≡ record { files = length self.now; blocks = blocks_in_all self.now } }
    {
        Space {
            files: self.stored.len() as u32,
            blocks: self.blocks,
        }
    }

    /// A copy of a block of a file.
    pub(crate) fn read(&self, alloc: Global, id: FileId, block: BlockNo) -> Result<Block, NoMemory>
        requires { HasBlock block (find_file id self.now) }
        ensures { IfOk result (λ body. Some body ≡ body_at block (find_file id self.now)) }
    {
        let Some(place) = find(self.stored.as_slice(), id) else {
            unreachable!()
        };
        self.stored[place].read(alloc, block)
    }

    /// Puts the file of a row there: with the blocks that it had, or a new one of zeros.
    pub(crate) fn put_file(&mut self, alloc: Global, row: &FileRow) -> Result<(), NoMemory>
        requires { FitsAmong row.now self.old }
        ensures ok { OnOk result (self.new ≡ with_file row.now self.old) }
        ensures err { OnErr result (self.new ≡ self.old) }
    {
        let had = put_file(&mut self.stored, &mut self.names, alloc, row)?;
        self.blocks = self.blocks + row.blocks - had;
        Ok(())
    }

    /// Puts a body in the place of a block of a file.
    pub(crate) fn write(&mut self, change: BlockChange)
        requires { HasBlock change.block (find_file change.file self.old) }
        ensures { self.new ≡ with_block change self.old }
    {
        write(&mut self.stored, change);
    }

    /// Takes a file away.
    pub(crate) fn remove(&mut self, id: FileId)
        ensures { self.new ≡ drop_file id self.old }
    {
        let had = take_file(&mut self.stored, &mut self.names, id);
        self.blocks -= had;
    }

    /// Makes the part of a change that is of files: whole, or nothing of it.
    pub(crate) fn change(&mut self, alloc: Global, change: Change) -> Result<(), NoMemory>
        requires file { ForSome change.file (λ row. FitsAmong row self.old) }
        requires block { ForSome change.block (λ b. HasBlock b.block (find_file b.file (files_with change.file self.old))) }
        requires alone { ForSome change.removed (λ id. (change.file ≡ None) × (change.block ≡ None)) }
        ensures ok { OnOk result (self.new ≡ blocks_with change.block (files_with change.file (files_without change.removed self.old))) }
        ensures err { OnErr result (self.new ≡ self.old) }
    {
        if let Some(id) = change.removed {
            self.remove(id);
            return Ok(());
        }
        put_if(self, alloc, &change.file)?;
        write_if(self, change.block);
        Ok(())
    }
}
