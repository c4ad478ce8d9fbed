//! The delayed writes of a client.

ghost use Rattle.std.specs.Prelude.{◌≡◌, ◌≤◌, ◌+◌, ◌↔◌, [], None, false, true, length, is_some, slice_get, option_copied, option_map, IsTrue, IsSome, IfSome};
ghost use Rattle.std.specs.Prelude.{IfNone, IsOk, IfOk, OnOk, OnErr};
ghost use Rattle.nq_model.specs.protocol.Client.{is_push_of, push_passes, dirty_at, first_dirty, drop_dirty, other_dirty, is_clean_in};
ghost use Rattle.nq_model.specs.protocol.Hear.{all_dirty_in, loss_of, losses_in, other_push};
ghost use Rattle.nq_model.specs.protocol.Profile.{most_dirty};
ghost use Rattle.nq_model.specs.protocol.Settle.{dirty_body, pending_in, is_full_in, write_in};
ghost use Rattle.nq_client_parts.specs.declared.dirty.fault.DirtyFault.{DirtyFault};

use crate::dirty::clean::Clean;
use crate::dirty::entries::{
    Entries, Key, add, add_losses, count, has_file, holds, nth, overwrite, read, reserve,
    take_file, take_first,
};
use crate::dirty::fault::DirtyFault;
use crate::dirty::under_way;
use nq_base::{Block, BlockNo, FileId, Loss, Losses, NoMemory, Number, Push, Spare};
use std::alloc::Global;
use std::marker::Model;

/// The delayed writes of a client: at most 1024 blocks together, in the order in which they became dirty, and the push
/// under way. Clauses see the list and the push, and how many more blocks become dirty before memory is wanted.
#[derive(Drop)]
pub struct Dirty {
    entries: Entries,
    push: Option<Push>,
}

impl Model for Dirty {
    ghost use Rattle.std.specs.Prelude.{◌≤◌};
    ghost use Rattle.indexmap.specs.IndexMap.{spare};
    ghost use Rattle.nq_model.specs.protocol.Profile.{most_dirty};
    ghost use Rattle.nq_model.specs.protocol.Settle.{pending_in};
    ghost use Rattle.nq_client_parts.specs.Delayed.{Delayed};
    ghost use Rattle.nq_client_parts.specs.DirtyEntries.{delayed};

    ghost Value = { Delayed };

    ghost view = { λ d. record { dirty = delayed d.entries.entries; push = d.push; spare = spare d.entries } };

    ghost invariant = { λ d. pending_in (delayed d.entries.entries) d.push ≤ most_dirty };
}

impl Dirty {
    /// The most blocks that are delayed or under way.
    pub const MOST: usize = 1024;

    /// No delayed writes.
    pub fn new(alloc: Global) -> Result<Dirty, NoMemory>
        ensures made { IsOk result }
        ensures empty { IfOk result (λ d. (d.dirty ≡ []) × (d.push ≡ None)) }
    {
        Ok(Dirty {
            entries: Entries::new(alloc),
            push: None,
        })
    }

    /// Makes room for so many blocks that are not dirty yet.
    ///
    /// # Errors
    ///
    /// Only want of memory.
    pub fn reserve(&mut self, blocks: usize) -> Result<(), NoMemory>
        ensures dirty { self.new.dirty ≡ self.old.dirty }
        ensures push { self.new.push ≡ self.old.push }
        ensures room { OnOk result (blocks ≤ self.new.spare) }
        ensures succeeds { blocks ≤ self.old.spare → IsOk result }
        ensures spare { self.old.spare ≤ self.new.spare }
    {
        reserve(&mut self.entries, blocks)
    }

    /// Delays a write. A block that is in the list keeps its place and its first write; another goes to the end.
    ///
    /// # Errors
    ///
    /// `Full` exactly where 1024 blocks are delayed or under way and this one is not in the list. Else only want of
    /// memory, and none is wanted for a block in the list, nor for another where room is reserved.
    pub fn write(
        &mut self,
        file: FileId,
        block: BlockNo,
        number: Number,
        body: Block,
    ) -> Result<(), DirtyFault>
        ensures written { OnOk result (self.new.dirty ≡ write_in file block number body self.old.dirty) }
        ensures refused { OnErr result (self.new.dirty ≡ self.old.dirty) }
        ensures push { self.new.push ≡ self.old.push }

        ensures full { (result ≡ Err DirtyFault.Full) ↔ IsTrue (is_full_in file block self.old.dirty self.old.push) }
        ensures there { IsSome (dirty_at file block self.old.dirty) → IsOk result × (self.old.spare ≤ self.new.spare) }
        ensures succeeds { is_full_in file block self.old.dirty self.old.push ≡ false → 1 ≤ self.old.spare → IsOk result }
        ensures spare { self.old.spare ≤ self.new.spare + 1 }
    {
        let key = Key { file, block };
        let Some(body) = overwrite(&mut self.entries, &key, number, body) else {
            return Ok(());
        };
        if self.pending() == Dirty::MOST {
            return Err(DirtyFault::Full);
        }
        reserve(&mut self.entries, 1)?;
        add(&mut self.entries, key, number, body);
        Ok(())
    }

    /// Moves the first delayed writes of a file from the list to the push under way, if the list has some of the file, and
    /// gives a copy of them in room that is there. The order of the rest stays.
    pub fn next(&mut self, file: FileId, room: &mut Spare) -> Option<Push>
        requires none { self.old.push ≡ None }
        requires room { room.old ≡ true }
        ensures found { result ≡ first_dirty file self.old.dirty }
        ensures under_way { self.new.push ≡ first_dirty file self.old.dirty }
        ensures others { IfSome result (λ p. self.new.dirty ≡ drop_dirty p.file p.block self.old.dirty) }
        ensures unchanged { IfNone result (self.new ≡ self.old) }
        ensures spare { self.old.spare ≤ self.new.spare }
    {
        let push = take_first(&mut self.entries, file)?;
        let copy = under_way::copied(&push, room);
        self.push = Some(push);
        Some(copy)
    }

    /// Ends the push under way, which is of this file: it was stored.
    pub fn stored(&mut self, file: FileId)
        requires { IsTrue (push_passes (is_push_of file) self.old.push) }
        ensures { self.new ≡ record self.old { push = None } }
    {
        self.push = None;
    }

    /// The losses where all delayed writes of a file are lost: those under way first, then those of the list in their order.
    ///
    /// # Errors
    ///
    /// Only want of memory.
    pub fn losses(&self, alloc: Global, file: FileId) -> Result<Losses, NoMemory>
        ensures { IfOk result (λ l. l.items ≡ losses_in file self.now.dirty self.now.push) }
    {
        let mut losses = Losses::new(alloc).unwrap();
        losses.reserve(self.pending_of(file))?;
        under_way::add_loss(&self.push, file, &mut losses);
        add_losses(&self.entries, file, &mut losses);
        Ok(losses)
    }

    /// Takes all delayed writes of a file out.
    pub fn lose(&mut self, file: FileId)
        ensures others { self.new.dirty ≡ other_dirty file self.old.dirty }
        ensures push { self.new.push ≡ other_push file self.old.push }
        ensures spare { self.old.spare ≤ self.new.spare }
    {
        if under_way::is_of(&self.push, file) {
            self.push = None;
        }
        take_file(&mut self.entries, file);
    }

    /// The block as it was last written, where it has delayed writes in the list, else where it is under way.
    pub fn get(&self, file: FileId, block: BlockNo) -> Option<&Block>
        ensures { option_copied result ≡ dirty_body file block self.now.dirty self.now.push }
    {
        let key = Key { file, block };
        match read(&self.entries, &key) {
            Some(body) => Some(body),
            None => under_way::read(&self.push, &key),
        }
    }

    /// Whether a block is in the list.
    pub fn holds(&self, file: FileId, block: BlockNo) -> bool
        ensures { result ≡ is_some (dirty_at file block self.now.dirty) }
    {
        holds(&self.entries, &Key { file, block })
    }

    /// Whether a write of this block finds no room.
    pub fn is_full(&self, file: FileId, block: BlockNo) -> bool
        ensures { result ≡ is_full_in file block self.now.dirty self.now.push }
    {
        self.pending() >= Dirty::MOST && !self.holds(file, block)
    }

    /// How many blocks are delayed or under way.
    pub fn pending(&self) -> usize
        ensures pending { result ≡ pending_in self.now.dirty self.now.push }
        ensures few { result ≤ most_dirty }
    {
        self.entries.len() + usize::from(self.push.is_some())
    }

    /// How many blocks of a file are delayed or under way.
    pub fn pending_of(&self, file: FileId) -> usize
        ensures pending { result ≡ length (all_dirty_in file self.now.dirty self.now.push) }
        ensures few { result ≤ most_dirty }
    {
        let listed = count(&self.entries, file);
        if under_way::is_of(&self.push, file) {
            listed + 1
        } else {
            listed
        }
    }

    /// The delayed writes at a place of the list, without their body; None where the place is not below its length.
    pub fn nth(&self, place: usize) -> Option<Loss>
        ensures { result ≡ option_map loss_of (slice_get self.now.dirty place) }
    {
        nth(&self.entries, place)
    }

    /// Whether a file has no delayed writes, neither in the list nor under way.
    pub fn is_clean(&self, file: FileId) -> bool
        ensures { result ≡ is_clean_in file self.now.dirty self.now.push }
    {
        !has_file(&self.entries, file) && !under_way::is_of(&self.push, file)
    }

    /// The file as a clean one, where it has no delayed writes, neither in the list nor under way.
    pub fn clean(&self, file: FileId) -> Option<Clean<'_>>
        ensures clean { IsSome result ↔ IsTrue (is_clean_in file self.now.dirty self.now.push) }
        ensures value { IfSome result (λ c. c ≡ record { file = file; dirty = self.now.dirty; push = self.now.push }) }
    {
        if self.is_clean(file) {
            Some(Clean::new(self, file))
        } else {
            None
        }
    }
}
