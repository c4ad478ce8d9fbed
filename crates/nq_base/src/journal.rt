//! The journal of a run.

ghost use Rattle.std.specs.Prelude.{◌≡◌, ◌≤◌, ◌+◌, [], ◌∷◌, ◌++◌, length, IsOk, IfOk, OnOk, OnErr};

use crate::entries::Entry;
use nq_memory::NoMemory;
use std::alloc::Global;
use std::marker::Model;

/// The entries of a run, the oldest first. Clauses see the entries and `spare`, the number of entries for which room is
/// reserved.
#[derive(Drop)]
pub struct Journal {
    entries: Vec<Entry>,
}

impl Model for Journal {
    ghost use Rattle.std.specs.Prelude.{◌-◌, vec_len, vec_capacity};
    ghost use Rattle.nq_base.specs.Entries.{EntryList};

    ghost Value = { EntryList };

    ghost view = { λ j. record { entries = j.entries.items; spare = vec_capacity j.entries - vec_len j.entries } };
}

impl Journal {
    /// The empty journal. It takes no memory.
    pub fn new(alloc: Global) -> Result<Journal, NoMemory>
        ensures made { IsOk result }
        ensures empty { IfOk result (λ j. j.entries ≡ []) }
    {
        Ok(Journal {
            entries: Vec::new(alloc),
        })
    }

    /// Makes room for `more` entries.
    pub fn reserve(&mut self, more: usize) -> Result<(), NoMemory>
        ensures entries { self.new.entries ≡ self.old.entries }
        ensures room { OnOk result (more ≤ self.new.spare) }
        ensures refused { OnErr result (self.new ≡ self.old) }
        ensures succeeds { more ≤ self.old.spare → IsOk result }
        ensures spare { self.old.spare ≤ self.new.spare }
    {
        self.entries.reserve(more)?;
        Ok(())
    }

    /// Adds an entry at the end, without memory where room is reserved.
    pub fn push(&mut self, entry: Entry) -> Result<(), NoMemory>
        ensures ok { OnOk result (self.new.entries ≡ self.old.entries ++ entry ∷ []) }
        ensures err { OnErr result (self.new.entries ≡ self.old.entries) }
        ensures succeeds { 1 ≤ self.old.spare → IsOk result }
        ensures spare { self.old.spare ≤ self.new.spare + 1 }
    {
        self.entries.push(entry)?;
        Ok(())
    }

    /// How many entries there are.
    pub fn len(&self) -> usize
        ensures { result ≡ length self.now.entries }
    {
        self.entries.len()
    }

    /// All entries, the oldest first.
    pub fn entries(&self) -> &[Entry]
        ensures { result.now ≡ self.now.entries }
    {
        &self.entries
    }
}
