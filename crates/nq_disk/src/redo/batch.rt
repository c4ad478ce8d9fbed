//! A batch: the ranges of one change.

ghost use Rattle.std.specs.Prelude.{◌≡◌, ◌+◌, ◌<◌, ◌≤◌, ◌^◌, [], ◌∷◌, ◌++◌, length, take, drop, IfOk, OnOk, OnErr, vec_capacity};
ghost use Rattle.std.specs.Int.{w32, to_be_bytes};
ghost use Rattle.nq_disk.specs.Batch.{AreSpellable, IsBatch, body_of, ranges_behind, spelled_range};
ghost use Rattle.nq_disk.specs.Record.{ranges_in};

use nq_memory::NoMemory;
use std::alloc::Global;
use std::marker::Model;

/// The ranges of one change, eight at most. They stand as a record spells them, so that a change takes no memory.
#[derive(Drop)]
pub struct Batch {
    count: u32,
    body: Vec<u8>,
}

impl Model for Batch {
    ghost use Rattle.std.specs.Prelude.{List};
    ghost use Rattle.nq_disk.specs.Batch.{IsBatch, ranges_behind};
    ghost use Rattle.nq_disk.specs.Ranges.{Range};

    ghost Value = { List Range };

    ghost view = { λ b. ranges_behind b.count b.body.items };

    ghost invariant = { λ b. IsBatch b.count b.body.items };
}

/// Adds a range behind others.
fn push_range(body: &mut Vec<u8>, place: u64, bytes: &[u8])
    requires room { length body.old.items + 12 + length bytes.now ≤ vec_capacity body.old }
    requires short { length bytes.now < 2 ^ 32 }
    ensures { body.new.items ≡ body.old.items ++ spelled_range (record { place = place; bytes = bytes.now }) }
{
    body.extend_from_slice(&place.to_be_bytes()).unwrap();
    body.extend_from_slice(&(bytes.len() as u32).to_be_bytes())
        .unwrap();
    body.extend_from_slice(bytes).unwrap();
}

/// Writes the number of ranges.
fn set_count(body: &mut [u8], count: u32)
    requires { 15 ≤ length body.old }
    ensures { body.new ≡ take 7 body.old ++ (to_be_bytes w32 count ++ drop 11 body.old) }
{
    body[7..11].copy_from_slice(&count.to_be_bytes());
}

/// Adds a range to a batch of so many.
fn add_range(body: &mut Vec<u8>, count: u32, place: u64, bytes: &[u8])
    requires batch { IsBatch count body.old.items }
    requires few { count < 8 }
    requires room { length body.old.items + 12 + length bytes.now ≤ vec_capacity body.old }
    requires short { length bytes.now < 2 ^ 32 }
    ensures batch { IsBatch (count + 1) body.new.items }
    ensures ranges { ranges_behind (count + 1) body.new.items ≡ ranges_behind count body.old.items ++ (record { place = place; bytes = bytes.now } ∷ []) }
{
    push_range(body, place, bytes);
    set_count(body, count + 1);
}

impl Batch {
    /// No ranges.
    ///
    /// # Errors
    ///
    /// Only want of memory.
    pub fn new(alloc: Global) -> Result<Batch, NoMemory>
        ensures { IfOk result (λ batch. batch ≡ []) }
    {
        let body = [0; 15].to_vec(alloc)?;
        Ok(Batch { count: 0, body })
    }

    /// Adds bytes for a place, fewer than 2^32.
    ///
    /// # Errors
    ///
    /// Only want of memory; the batch is as before then.
    pub fn add(&mut self, place: u64, bytes: &[u8]) -> Result<(), NoMemory>
        requires few { length self.old < 8 }
        requires short { length bytes.now < 2 ^ 32 }
        ensures added { OnOk result (self.new ≡ self.old ++ (record { place = place; bytes = bytes.now } ∷ [])) }
        ensures memory { OnErr result (self.new ≡ self.old) }
    {
        self.body.reserve(12 + bytes.len())?;
        add_range(&mut self.body, self.count, place, bytes);
        self.count += 1;
        Ok(())
    }

    /// How many ranges it has.
    pub(crate) fn count(&self) -> u32
        ensures counts { result ≡ length self.now }
        ensures few { result ≤ 8 }
        ensures fits { AreSpellable self.now }
    {
        self.count
    }

    /// The record behind its gate.
    pub(crate) fn body(&self) -> &[u8]
        ensures { result.now ≡ body_of self.now }
    {
        &self.body
    }

    /// The ranges as they are spelled.
    pub(crate) fn ranges(&self) -> &[u8]
        ensures { ranges_in (length self.now) result.now ≡ self.now }
    {
        &self.body[15..]
    }
}
