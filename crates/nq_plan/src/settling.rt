//! What is in memory after a change. It takes no memory.

ghost use Rattle.std.specs.Prelude.{◌≡◌, ◌<◌, true, false, length, slice_set, vec_len};
ghost use Rattle.std.specs.Option.{ForSome};
ghost use Rattle.nq_image.specs.Standing.{row_blocks};
ghost use Rattle.nq_model.specs.protocol.Change.{heads_with, hosts_with};
ghost use Rattle.nq_plan.specs.Finding.{file_in};
ghost use Rattle.nq_plan.specs.Settling.{marked_all, settled, with_file, with_file_at, with_file_if, with_rows, without, without_slot};

use crate::finding::{blocks_in, slot_of};
use crate::placing::Placed;
use crate::stored_file::StoredFile;
use crate::tables::Tables;
use nq_base::{Change, FileId, Heads, HostChange, HostRow};

/// Marks a block as given, or as free.
fn set_mark(marks: &mut [bool], block: u32, given: bool)
    ensures { marks.new ≡ slice_set marks.old block given }
{
    if (block as usize) < marks.len() {
        marks[block as usize] = given;
    }
}

/// Marks blocks as given, or as free.
fn mark_all(marks: &mut [bool], blocks: &[u32], given: bool)
    ensures { marks.new ≡ marked_all given blocks.now marks.old }
{
    for block in blocks {
        set_mark(marks, *block, given);
    }
}

/// The numbers of the server after a change.
fn heads_after(heads: &Heads, change: &Option<Heads>) -> Heads
    ensures { result ≡ heads_with change.now heads.now }
{
    match change {
        Some(changed) => *changed,
        None => *heads,
    }
}

/// Writes the row of a host, if one is given.
fn set_host(hosts: &mut Vec<HostRow>, change: &Option<HostChange>)
    requires { ForSome change.now (λ h. h.host < vec_len hosts.old) }
    ensures hosts { hosts.new.items ≡ hosts_with change.now hosts.old.items }
    ensures len { vec_len hosts.new ≡ vec_len hosts.old }
{
    match change {
        Some(change) => hosts[change.host.0 as usize] = change.row,
        None => {}
    }
}

/// Marks the blocks of the file in a row as free.
fn free_row(marks: &mut [bool], rows: &[Option<StoredFile>], slot: Option<usize>)
    requires { ForSome slot (λ s. s < length rows.now) }
    ensures { marks.new ≡ marked_all false (row_blocks (file_in rows.now slot)) marks.old }
{
    match slot {
        Some(slot) => mark_all(marks, blocks_in(&rows[slot]), false),
        None => {}
    }
}

/// Marks the blocks of the file in a row as free, and then those of a file as given.
fn swap_marks(
    marks: &mut [bool],
    rows: &[Option<StoredFile>],
    slot: Option<usize>,
    file: &StoredFile,
)
    requires { ForSome slot (λ s. s < length rows.now) }
    ensures { marks.new ≡ marked_all true file.now.blocks (marked_all false (row_blocks (file_in rows.now slot)) marks.old) }
{
    free_row(marks, rows, slot);
    mark_all(marks, file.blocks().as_slice(), true);
}

/// Puts a file into a row, or none.
fn set_row(rows: &mut Vec<Option<StoredFile>>, slot: usize, file: Option<StoredFile>)
    requires { slot < vec_len rows.old }
    ensures rows { rows.new.items ≡ slice_set rows.old.items slot file }
    ensures len { vec_len rows.new ≡ vec_len rows.old }
{
    rows[slot] = file;
}

impl Tables {
    /// A file stands in a row from now on, which it had in another one or in none before.
    #[tactic(auto, unfolding(crate::specs::Settling::with_file_at))]
    fn settle_at(&mut self, slot: usize, known: Option<usize>, file: StoredFile)
        requires slot { slot < 256 }
        requires known { ForSome known (λ k. k < 256) }
        ensures { self.new ≡ with_file_at self.old slot known file }
    {
        swap_marks(&mut self.marks, &self.rows, known, &file);
        set_row(&mut self.rows, slot, Some(file));
    }

    /// A file stands at its place from now on.
    fn settle_file(&mut self, file: StoredFile)
        requires { file.slot < 256 }
        ensures { self.new ≡ with_file self.old file }
    {
        let slot = file.slot() as usize;
        let known = slot_of(&self.rows, file.id());
        self.settle_at(slot, known, file);
    }

    /// The same, where there is one.
    fn settle_placed(&mut self, placed: Option<Placed>)
        requires { ForSome placed (λ p. p.file.slot < 256) }
        ensures { self.new ≡ with_file_if self.old placed }
    {
        if let Some(placed) = placed {
            let Placed { file, stay: _ } = placed;
            self.settle_file(file);
        }
    }

    /// A row of the image is unused from now on.
    #[tactic(auto, unfolding(crate::specs::Settling::without_slot))]
    fn settle_unused(&mut self, slot: usize)
        requires { slot < 256 }
        ensures { self.new ≡ without_slot self.old slot }
    {
        free_row(&mut self.marks, &self.rows, Some(slot));
        set_row(&mut self.rows, slot, None);
    }

    /// A file is gone, if one is named.
    fn settle_removal(&mut self, removed: Option<FileId>)
        ensures { self.new ≡ without self.old removed }
    {
        let Some(id) = removed else {
            return;
        };
        match slot_of(&self.rows, id) {
            Some(slot) => self.settle_unused(slot),
            None => {}
        }
    }

    /// The rows of hosts and the numbers of the server become those of a change.
    #[tactic(auto, unfolding(crate::specs::Settling::with_rows))]
    fn settle_rows(&mut self, change: &Change)
        requires { ForSome change.now.host (λ h. h.host < 64) }
        ensures { self.new ≡ with_rows self.old change.now }
    {
        self.heads = heads_after(&self.heads, &change.heads);
        set_host(&mut self.hosts, &change.host);
    }

    /// The tables become those after a change, whose file comes to stand somewhere. It takes no memory.
    pub fn settle(&mut self, change: &Change, placed: Option<Placed>)
        requires host { ForSome change.now.host (λ h. h.host < 64) }
        requires within { ForSome placed (λ p. p.file.slot < 256) }
        ensures { self.new ≡ settled self.old change.now placed }
    {
        self.settle_rows(change);
        self.settle_placed(placed);
        self.settle_removal(change.removed);
    }
}
