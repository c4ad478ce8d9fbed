//! Lists of files, of losses and of spans.

ghost use Rattle.std.specs.Prelude.{◌≡◌, ◌≤◌, ◌+◌, [], ◌∷◌, ◌++◌, length, slice_get, IsOk, IfOk, OnOk, OnErr, IfSome, IsNone, IsTrue, ◌↔◌};

use crate::names::Name;
use crate::numbers::{BlockNo, FileId, Number};
use nq_memory::NoMemory;
use std::alloc::Global;
use std::marker::Model;

/// Delayed writes of a block that were lost: those of the client with numbers from `first` to `last`.
#[derive(Clone, Copy)]
pub struct Loss {
    /// The file.
    pub file: FileId,
    /// The block.
    pub block: BlockNo,
    /// The number of the first write.
    pub first: Number,
    /// The number of the last write.
    pub last: Number,
}

/// A loss as a journal names it: the file is that of the call.
#[derive(Clone, Copy)]
pub struct Span {
    /// The block.
    pub block: BlockNo,
    /// The number of the first write.
    pub first: Number,
    /// The number of the last write.
    pub last: Number,
}

/// A list of losses. Clauses see the items and `spare`, the number of items for which room is reserved.
#[derive(Drop)]
pub struct Losses {
    losses: Vec<Loss>,
}

impl Model for Losses {
    ghost use Rattle.std.specs.Prelude.{◌-◌, vec_len, vec_capacity};
    ghost use Rattle.nq_base.specs.Lists.{LossList};

    ghost Value = { LossList };

    ghost view = { λ l. record { items = l.losses.items; spare = vec_capacity l.losses - vec_len l.losses } };
}

impl Losses {
    /// The empty list. It takes no memory.
    pub fn new(alloc: Global) -> Result<Losses, NoMemory>
        ensures made { IsOk result }
        ensures empty { IfOk result (λ l. l.items ≡ []) }
    {
        Ok(Losses {
            losses: Vec::new(alloc),
        })
    }

    /// Makes room for `more` items.
    pub fn reserve(&mut self, more: usize) -> Result<(), NoMemory>
        ensures items { self.new.items ≡ self.old.items }
        ensures room { OnOk result (more ≤ self.new.spare) }
        ensures refused { OnErr result (self.new ≡ self.old) }
        ensures succeeds { more ≤ self.old.spare → IsOk result }
        ensures spare { self.old.spare ≤ self.new.spare }
    {
        self.losses.reserve(more)?;
        Ok(())
    }

    /// Adds one at the end, without memory where room is reserved.
    pub fn push(&mut self, loss: Loss) -> Result<(), NoMemory>
        ensures ok { OnOk result (self.new.items ≡ self.old.items ++ loss ∷ []) }
        ensures err { OnErr result (self.new.items ≡ self.old.items) }
        ensures succeeds { 1 ≤ self.old.spare → IsOk result }
        ensures spare { self.old.spare ≤ self.new.spare + 1 }
    {
        self.losses.push(loss)?;
        Ok(())
    }

    /// How many there are.
    pub fn len(&self) -> usize
        ensures { result ≡ length self.now.items }
    {
        self.losses.len()
    }

    /// Whether there are none.
    pub fn is_empty(&self) -> bool
        ensures { IsTrue result ↔ (self.now.items ≡ []) }
    {
        self.losses.is_empty()
    }

    /// The one at a place; None where the place is not below the length.
    pub fn get(&self, place: usize) -> Option<Loss>
        ensures { result ≡ slice_get self.now.items place }
    {
        self.losses.get(place).copied()
    }
}

/// A list of spans. Clauses see the items and `spare`, the number of items for which room is reserved.
#[derive(Drop)]
pub struct Spans {
    spans: Vec<Span>,
}

impl Model for Spans {
    ghost use Rattle.std.specs.Prelude.{◌-◌, vec_len, vec_capacity};
    ghost use Rattle.nq_base.specs.Lists.{SpanList};

    ghost Value = { SpanList };

    ghost view = { λ l. record { items = l.spans.items; spare = vec_capacity l.spans - vec_len l.spans } };
}

impl Spans {
    /// The empty list. It takes no memory.
    pub fn new(alloc: Global) -> Result<Spans, NoMemory>
        ensures made { IsOk result }
        ensures empty { IfOk result (λ l. l.items ≡ []) }
    {
        Ok(Spans {
            spans: Vec::new(alloc),
        })
    }

    /// Makes room for `more` items.
    pub fn reserve(&mut self, more: usize) -> Result<(), NoMemory>
        ensures items { self.new.items ≡ self.old.items }
        ensures room { OnOk result (more ≤ self.new.spare) }
        ensures refused { OnErr result (self.new ≡ self.old) }
        ensures succeeds { more ≤ self.old.spare → IsOk result }
        ensures spare { self.old.spare ≤ self.new.spare }
    {
        self.spans.reserve(more)?;
        Ok(())
    }

    /// Adds one at the end, without memory where room is reserved.
    pub fn push(&mut self, span: Span) -> Result<(), NoMemory>
        ensures ok { OnOk result (self.new.items ≡ self.old.items ++ span ∷ []) }
        ensures err { OnErr result (self.new.items ≡ self.old.items) }
        ensures succeeds { 1 ≤ self.old.spare → IsOk result }
        ensures spare { self.old.spare ≤ self.new.spare + 1 }
    {
        self.spans.push(span)?;
        Ok(())
    }

    /// How many there are.
    pub fn len(&self) -> usize
        ensures { result ≡ length self.now.items }
    {
        self.spans.len()
    }

    /// The one at a place; None where the place is not below the length.
    pub fn get(&self, place: usize) -> Option<Span>
        ensures { result ≡ slice_get self.now.items place }
    {
        self.spans.get(place).copied()
    }
}

/// Names with their lengths in blocks. Clauses see the list of pairs.
#[derive(Drop)]
pub struct FileList {
    files: Vec<(Name, u32)>,
}

impl Model for FileList {
    ghost use Rattle.std.specs.Prelude.{List, ℕ};

    ghost Value = { List (List ℕ × ℕ) };

    ghost view = { λ l. l.files.items };
}

impl FileList {
    /// The empty list. It takes no memory.
    pub fn new(alloc: Global) -> Result<FileList, NoMemory>
        ensures made { IsOk result }
        ensures empty { IfOk result (λ l. l ≡ []) }
    {
        Ok(FileList {
            files: Vec::new(alloc),
        })
    }

    /// Adds a name with its length at the end.
    pub fn push(&mut self, name: Name, blocks: u32) -> Result<(), NoMemory>
        ensures ok { OnOk result (self.new ≡ self.old ++ (name, blocks) ∷ []) }
        ensures refused { OnErr result (self.new ≡ self.old) }
    {
        self.files.push((name, blocks))?;
        Ok(())
    }

    /// How many there are.
    pub fn len(&self) -> usize
        ensures { result ≡ length self.now }
    {
        self.files.len()
    }

    /// The one at a place; None where the place is not below the length.
    pub fn get(&self, place: usize) -> Option<(&Name, u32)>
        ensures none { IsNone result ↔ (length self.now ≤ place) }
        ensures some { IfSome result (λ f. slice_get self.now place ≡ Some (f.0.now, f.1)) }
    {
        match self.files.get(place) {
            Some((name, blocks)) => Some((name, *blocks)),
            None => None,
        }
    }
}
