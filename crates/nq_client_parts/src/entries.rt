//! The entries of a step.

ghost use Rattle.std.specs.Prelude.{◌≡◌, ◌≤◌, ◌+◌, ◌++◌, [], ◌∷◌, length, map, reverse, OnOk};
ghost use Rattle.nq_base.specs.Plain.{plain};
ghost use Rattle.nq_client_parts.specs.Entries.{Tells};
ghost use Rattle.nq_client_parts.specs.Lost.{lost_entry};

use nq_base::{Entry, Journal, Losses, NoMemory, Who};
use std::alloc::Global;
use std::collections::VecDeque;
use std::marker::Model;

/// The entries that a step has made so far. Clauses see them with the newest first, and for how many more there is room.
#[derive(Drop)]
pub struct Entries {
    newest_first: VecDeque<Entry>,
}

impl Model for Entries {
    ghost use Rattle.std.specs.Prelude.{◌-◌, map};
    ghost use Rattle.std.specs.VecDeque.{deque_len, deque_capacity};
    ghost use Rattle.nq_base.specs.Plain.{plain};
    ghost use Rattle.nq_client_parts.specs.Entries.{Noted};

    ghost Value = { Noted };

    ghost view = { λ e. record { items = map plain e.newest_first.items; spare = deque_capacity e.newest_first - deque_len e.newest_first } };
}

impl Entries {
    /// No entries. It takes no memory.
    pub fn new(alloc: Global) -> Entries
        ensures { result.items ≡ [] }
    {
        Entries {
            newest_first: VecDeque::new(alloc),
        }
    }

    /// Makes room for `more` entries.
    pub fn reserve(&mut self, more: usize) -> Result<(), NoMemory>
        ensures items { self.new.items ≡ self.old.items }
        ensures room { OnOk result (more ≤ self.new.spare) }
    {
        self.newest_first.reserve(more)?;
        Ok(())
    }

    /// Notes an entry in room that is there.
    pub fn note(&mut self, entry: Entry)
        requires { 1 ≤ self.old.spare }
        ensures items { self.new.items ≡ plain entry ∷ self.old.items }
        ensures spare { self.old.spare ≡ self.new.spare + 1 }
    {
        self.newest_first.push_front_reserved(entry);
    }

    /// Notes losses in room that is there.
    #[tactic(auto, using(crate::proofs::Found::noted_more))]
    pub fn note_losses(&mut self, who: &Who, losses: &Losses)
        requires { length losses.now.items ≤ self.old.spare }
        ensures items { self.new.items ≡ reverse (map (lost_entry who.now) losses.now.items) ++ self.old.items }
        ensures spare { self.old.spare ≡ self.new.spare + length losses.now.items }
    {
        for place in 0..losses.len() {
            let loss = losses.get(place).unwrap();
            self.note(Entry::L {
                who: *who,
                file: loss.file,
                block: loss.block,
                first: loss.first,
                last: loss.last,
            });
        }
    }

    /// Moves all entries to the end of a journal that has room for them, the oldest first.
    pub fn tell(&mut self, log: &mut Journal)
        requires { length self.old.items ≤ log.old.spare }
        ensures empty { self.new.items ≡ [] }
        ensures told { Tells self.old.items log.old.entries log.new.entries }
    {
        tell(&mut self.newest_first, log);
    }
}

/// Moves entries, the newest first, to the end of a journal that has room for them.
fn tell(newest_first: &mut VecDeque<Entry>, log: &mut Journal)
    requires { length newest_first.old.items ≤ log.old.spare }
    ensures empty { newest_first.new.items ≡ [] }
    ensures told { Tells (map plain newest_first.old.items) log.old.entries log.new.entries }
{
    move_all(newest_first, log);
}

/// Moves entries to the end of a journal that has room for them, the last one first.
fn move_all(entries: &mut VecDeque<Entry>, log: &mut Journal)
    requires { length entries.old.items ≤ log.old.spare }
    ensures empty { entries.new.items ≡ [] }
    ensures moved { log.new.entries ≡ log.old.entries ++ reverse entries.old.items }
{
    while let Some(entry) = entries.pop_back() {
        log.push(entry).unwrap();
    }
}
