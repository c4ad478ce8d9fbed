//! Pages of names without a lease, which are read file by file.

ghost use Rattle.std.specs.Prelude.{◌≡◌, ◌≤◌, ℕ, Bool, List, IfOk, IfSome, length};
ghost use Rattle.nq_directory.specs.Files.{ReadsOn, nothing_read};
ghost use Rattle.nq_directory.specs.Messages.{most_names};

use crate::listing::MOST_NAMES;
use crate::names::FileName;
use nq_base::{FileId, FileRow, NoMemory};
use std::alloc::Global;
use std::marker::Model;

/// A page of names without a lease, as far as it was read. Clauses see it as the definitions do.
#[derive(Drop)]
pub struct BegunLeaf {
    /// The names, with room for all of a page.
    names: Vec<FileName>,
    /// Whether the list goes on behind them.
    more: bool,
    /// The file that was read last.
    last: FileId,
}

impl Model for BegunLeaf {
    ghost use Rattle.std.specs.Prelude.{◌≤◌, length, vec_capacity};
    ghost use Rattle.nq_directory.specs.Files.{ReadLeaf};
    ghost use Rattle.nq_directory.specs.Messages.{most_names};

    ghost Value = { ReadLeaf };

    ghost view = { λ l. record { leaf = record { names = l.names.items; more = l.more }; last = l.last } };

    ghost invariant = { λ l. (length l.names.items ≤ most_names) × (most_names ≤ vec_capacity l.names) };
}

impl BegunLeaf {
    /// Nothing was read behind this id.
    ///
    /// # Errors
    ///
    /// Only want of memory.
    pub fn new(alloc: Global, after: FileId) -> Result<BegunLeaf, NoMemory>
        ensures { IfOk result (λ l. l ≡ nothing_read after) }
    {
        Ok(BegunLeaf {
            names: Vec::with_capacity(alloc, MOST_NAMES as usize)?,
            more: false,
            last: after,
        })
    }

    /// The names that were read, which are no more than a page has.
    pub fn names(&self) -> &[FileName]
        ensures names { result.now ≡ self.now.leaf.names }
        ensures few { length result.now ≤ most_names }
    {
        &self.names
    }

    /// Whether the list goes on behind them.
    pub fn more(&self) -> bool
        ensures { result ≡ self.now.leaf.more }
    {
        self.more
    }

    /// The file that was read last.
    pub fn last(&self) -> FileId
        ensures { result ≡ self.now.last }
    {
        self.last
    }

    /// Takes the next file behind the last one in, if there is one: its name is added, where it is told to be of the list. Says whether
    /// the page is whole then.
    pub fn read(&mut self, next: Option<FileRow>, own: bool) -> bool
        ensures { (is_own : List ℕ → Bool) → IfSome next (λ row. own ≡ is_own row.name) → ReadsOn result is_own next self.old self.new }
    {
        let count = self.names.len();
        let Some(row) = next else {
            return true;
        };
        self.last = row.id;
        if !own {
            return false;
        }
        if count >= MOST_NAMES as usize {
            self.more = true;
            return true;
        }
        self.names
            .push(FileName {
                file: row.id,
                name: row.name,
            })
            .unwrap();
        false
    }
}
