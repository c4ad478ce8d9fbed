//! The packets of a world.

ghost use Rattle.std.specs.Prelude.{◌≡◌, ◌+◌, ◌≤◌, [], ◌∷◌, ◌++◌, length, slice_get, vec_len, vec_capacity, Some, IsOk, IfOk, OnOk, OnErr, IsNone, IfSome};
ghost use Rattle.std.specs.Prelude.{IsTrue, ◌↔◌};

use crate::net::runs::Run;
use crate::net::{NoMemory, Party};
use nq_xdr::push_words;
use std::alloc::Global;
use std::marker::Model;

/// A datagram that was sent. Contracts see its sender, its receiver and its bytes.
#[derive(Drop)]
pub struct Packet<'a> {
    sender: Party,
    to: Party,
    front: &'a [u8],
    word: [u8; 4],
    times: usize,
    back: &'a [u8],
}

impl<'a> Model for Packet<'a> {
    ghost use Rattle.std.specs.Prelude.{◌≡◌, ◌+◌, ◌*◌, ◌<◌, ◌^◌, ◌++◌, length};
    ghost use Rattle.nq_link.specs.Packets.{Datagram};
    ghost use Rattle.nq_xdr.specs.Words.{repeats};

    ghost Value = { Datagram };

    ghost view = { λ p. record {
      sender = p.sender;
      to = p.to;
      bytes = p.front.now ++ (repeats p.times p.word ++ p.back.now);
    } };

    ghost invariant = { λ p. (length p.word ≡ 4) × (length p.front.now + 4 * p.times + length p.back.now < 2 ^ 63) };
}

impl<'a> Packet<'a> {
    /// Who sent it.
    pub fn sender(&self) -> Party
        ensures { result ≡ self.now.sender }
    {
        self.sender
    }

    /// Whom it is for.
    pub fn to(&self) -> Party
        ensures { result ≡ self.now.to }
    {
        self.to
    }

    /// How many bytes it has.
    fn len(&self) -> usize
        ensures { result ≡ length self.now.bytes }
    {
        self.front.len() + 4 * self.times + self.back.len()
    }

    /// Adds its bytes at the end of a vector.
    ///
    /// # Errors
    ///
    /// Only want of memory, and then the vector is as before. Where it has room for them none is wanted.
    pub fn bytes_into(&self, out: &mut Vec<u8>) -> Result<(), NoMemory>
        ensures ok { OnOk result (out.new.items ≡ out.old.items ++ self.now.bytes) }
        ensures err { OnErr result (out.new.items ≡ out.old.items) }
        ensures succeeds { vec_len out.old + length self.now.bytes ≤ vec_capacity out.old → IsOk result }
        ensures room { vec_capacity out.old ≤ vec_capacity out.new }
    {
        out.reserve(self.len())?;
        out.extend_from_slice(self.front).unwrap();
        push_words(out, self.word, self.times);
        out.extend_from_slice(self.back).unwrap();
        Ok(())
    }
}

/// Where the bytes of a datagram stand among those of all, and the word that is repeated between them.
#[derive(Clone, Copy)]
struct Mark {
    sender: Party,
    to: Party,
    start: usize,
    middle: usize,
    end: usize,
    word: [u8; 4],
    times: u32,
}

/// All datagrams that were sent, the first one first. Contracts see them, and how many further datagrams
/// and bytes fit before memory is wanted. Of a word that a datagram repeats, one is kept and how often it
/// stands there.
#[derive(Drop)]
pub struct Packets {
    marks: Vec<Mark>,
    bytes: Vec<u8>,
}

impl Model for Packets {
    ghost use Rattle.std.specs.Prelude.{◌-◌, map, vec_len, vec_capacity};
    ghost use Rattle.std.specs.List.{All};
    ghost use Rattle.nq_link.specs.Packets.{PacketList};
    ghost use Rattle.nq_link.specs.Marks.{datagram_at, IsWithin};

    ghost Value = { PacketList };

    ghost view = { λ p. record {
      datagrams = map (datagram_at p.bytes.items) p.marks.items;
      spare = vec_capacity p.marks - vec_len p.marks;
      spare_bytes = vec_capacity p.bytes - vec_len p.bytes;
    } };

    ghost invariant = { λ p. All (IsWithin p.bytes.items) p.marks.items };
}

impl Packets {
    /// No datagrams. It takes no memory.
    pub fn new(alloc: Global) -> Result<Packets, NoMemory>
        ensures made { IsOk result }
        ensures empty { IfOk result (λ p. p.datagrams ≡ []) }
    {
        Ok(Packets {
            marks: Vec::new(alloc),
            bytes: Vec::new(alloc),
        })
    }

    /// Makes room for `packets` datagrams that have `bytes` bytes in all.
    pub fn reserve(&mut self, packets: usize, bytes: usize) -> Result<(), NoMemory>
        ensures datagrams { self.new.datagrams ≡ self.old.datagrams }
        ensures room { OnOk result ((packets ≤ self.new.spare) × (bytes ≤ self.new.spare_bytes)) }
        ensures succeeds { packets ≤ self.old.spare → bytes ≤ self.old.spare_bytes → IsOk result }
        ensures spare { self.old.spare ≤ self.new.spare }
        ensures spare_bytes { self.old.spare_bytes ≤ self.new.spare_bytes }
    {
        self.marks.reserve(packets)?;
        self.bytes.reserve(bytes)?;
        Ok(())
    }

    /// Adds a datagram at the end.
    pub fn push(&mut self, sender: Party, to: Party, bytes: &[u8]) -> Result<(), NoMemory>
        ensures pushed { OnOk result (self.new.datagrams ≡ self.old.datagrams ++ record { sender = sender; to = to; bytes = bytes.now } ∷ []) }
        ensures refused { OnErr result ((self.new.datagrams ≡ self.old.datagrams)
            × (self.old.spare ≤ self.new.spare) × (self.old.spare_bytes ≤ self.new.spare_bytes)) }
        ensures succeeds { 1 ≤ self.old.spare → length bytes.now ≤ self.old.spare_bytes → IsOk result }
        ensures spare { self.old.spare ≤ self.new.spare + 1 }
        ensures spare_bytes { self.old.spare_bytes ≤ self.new.spare_bytes + length bytes.now }
    {
        self.reserve(1, bytes.len())?;
        let run = Run::in_bytes(bytes);
        let word = run.word;
        let start = self.bytes.len();
        self.bytes.extend_from_slice(&bytes[..run.at]).unwrap();
        let middle = self.bytes.len();
        self.bytes
            .extend_from_slice(&bytes[run.at + 4 * run.times as usize..])
            .unwrap();
        let end = self.bytes.len();
        let mark = Mark {
            sender,
            to,
            start,
            middle,
            end,
            word,
            times: run.times,
        };
        self.marks.push(mark).unwrap();
        Ok(())
    }

    /// How many datagrams there are.
    pub fn len(&self) -> u64
        ensures { result ≡ length self.now.datagrams }
    {
        self.marks.len() as u64
    }

    /// Whether there are none.
    pub fn is_empty(&self) -> bool
        ensures { IsTrue result ↔ (self.now.datagrams ≡ []) }
    {
        self.marks.is_empty()
    }

    /// The datagram of a number; None exactly where so many were not sent.
    pub fn get(&self, number: u64) -> Option<Packet<'_>>
        ensures none { IsNone result ↔ (length self.now.datagrams ≤ number) }
        ensures some { IfSome result (λ p. slice_get self.now.datagrams number ≡ Some p) }
    {
        let mark = self.marks.get(number as usize)?;
        let word = mark.word;
        Some(Packet {
            sender: mark.sender,
            to: mark.to,
            front: &self.bytes[mark.start..mark.middle],
            word,
            times: mark.times as usize,
            back: &self.bytes[mark.middle..mark.end],
        })
    }
}
