//! Datagrams to be sent.

ghost use Rattle.std.specs.Prelude.{◌≡◌, ◌+◌, ◌-◌, ◌≤◌, [], ◌∷◌, ◌++◌, length, take, min, slice_get, IsOk, IfOk, OnOk, OnErr, IsNone, IfSome, ◌↔◌};

use crate::{NoMemory, Party};
use std::alloc::Global;
use std::marker::Model;

/// Datagrams that are to be sent, in their order, numbered one after the other. Contracts see them with
/// the number of the first, and `spare`, the number of further ones for which room is reserved.
#[derive(Drop)]
pub struct Outbox {
    first: u64,
    datagrams: Vec<(Party, Vec<u8>)>,
}

impl Model for Outbox {
    ghost use Rattle.std.specs.Prelude.{◌-◌, map, vec_len, vec_capacity};
    ghost use Rattle.nq_wire.specs.Outbox.{Datagrams};

    ghost Value = { Datagrams };

    ghost view = { λ o. record {
      first = o.first;
      datagrams = map (λ d. (d.0, d.1.items)) o.datagrams.items;
      spare = vec_capacity o.datagrams - vec_len o.datagrams;
    } };
}

impl Outbox {
    /// The empty outbox whose first datagram gets the number `next`. It takes no memory.
    pub fn new(alloc: Global, next: u64) -> Result<Outbox, NoMemory>
        ensures made { IsOk result }
        ensures empty { IfOk result (λ o. (o.first ≡ next) × (o.datagrams ≡ [])) }
    {
        Ok(Outbox {
            first: next,
            datagrams: Vec::new(alloc),
        })
    }

    /// Makes room for `more` datagrams.
    pub fn reserve(&mut self, more: usize) -> Result<(), NoMemory>
        ensures first { self.new.first ≡ self.old.first }
        ensures datagrams { self.new.datagrams ≡ self.old.datagrams }
        ensures room { OnOk result (more ≤ self.new.spare) }
        ensures refused { OnErr result (self.new ≡ self.old) }
        ensures succeeds { more ≤ self.old.spare → IsOk result }
        ensures spare { self.old.spare ≤ self.new.spare }
    {
        self.datagrams.reserve(more)?;
        Ok(())
    }

    /// Adds a datagram at the end.
    pub fn push(&mut self, to: Party, bytes: Vec<u8>) -> Result<(), NoMemory>
        ensures first { self.new.first ≡ self.old.first }
        ensures pushed { OnOk result (self.new.datagrams ≡ self.old.datagrams ++ (to, bytes.items) ∷ []) }
        ensures refused { OnErr result (self.new.datagrams ≡ self.old.datagrams) }
        ensures succeeds { 1 ≤ self.old.spare → IsOk result }
        ensures spare { self.old.spare ≤ self.new.spare + 1 }
    {
        self.datagrams.push((to, bytes))?;
        Ok(())
    }

    /// The number that the next datagram gets. It stops at the type's end.
    pub fn next(&self) -> u64
        ensures { result ≡ min (self.now.first + length self.now.datagrams) u64.MAX }
    {
        self.first.saturating_add(self.datagrams.len() as u64)
    }

    /// How many datagrams there are.
    pub fn len(&self) -> usize
        ensures { result ≡ length self.now.datagrams }
    {
        self.datagrams.len()
    }

    /// Keeps the first `len` datagrams.
    pub fn cut(&mut self, len: usize)
        requires { len ≤ length self.old.datagrams }
        ensures first { self.new.first ≡ self.old.first }
        ensures kept { self.new.datagrams ≡ take len self.old.datagrams }
        ensures spare { self.new.spare + len ≡ self.old.spare + length self.old.datagrams }
    {
        self.datagrams.truncate(len);
    }

    /// To whom the datagram at a place goes, and its bytes; None exactly where the place is not below the
    /// length.
    pub fn get(&self, place: usize) -> Option<(Party, &[u8])>
        ensures none { IsNone result ↔ (length self.now.datagrams ≤ place) }
        ensures some { IfSome result (λ d. slice_get self.now.datagrams place ≡ Some (d.0, d.1.now)) }
    {
        match self.datagrams.get(place) {
            Some((to, bytes)) => Some((*to, bytes)),
            None => None,
        }
    }
}
