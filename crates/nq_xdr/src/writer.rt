//! Writing items.

ghost use Rattle.std.specs.Prelude.{◌≡◌, ◌+◌, ◌-◌, ◌*◌, ◌<◌, ◌≤◌, ◌^◌, [], ◌++◌, length, vec_len, vec_capacity, IfOk, IsOk, OnOk, OnErr};
ghost use Rattle.nq_xdr.specs.Item.{word, hyper, boolean, residual, padding, opaque, opaque_len};
ghost use Rattle.nq_xdr.specs.Words.{repeats};

use crate::NoMemory;
use crate::words::push_words;
use byteorder::{BigEndian, ByteOrder};
use std::alloc::Global;
use std::marker::Model;

/// Writes items one behind the other. Contracts see the bytes written so far, and `spare`, the number
/// of bytes that still fit before memory is wanted.
///
/// What is put needs room, and takes no memory. Other writes either append their item or leave the writer as it
/// was, and are refused only where the item takes more than `spare` bytes.
#[derive(Drop)]
pub struct Writer {
    bytes: Vec<u8>,
}

impl Model for Writer {
    ghost use Rattle.std.specs.Prelude.{◌-◌, vec_len, vec_capacity};
    ghost use Rattle.nq_xdr.specs.Buffer.{Buffer};

    ghost Value = { Buffer };

    ghost view = { λ w. record { bytes = w.bytes.items; spare = vec_capacity w.bytes - vec_len w.bytes } };
}

impl Writer {
    /// A writer that holds nothing yet. It takes no memory before the first write.
    pub fn new(alloc: Global) -> Result<Writer, NoMemory>
        ensures made { IsOk result }
        ensures empty { IfOk result (λ w. w.bytes ≡ []) }
    {
        Ok(Writer {
            bytes: Vec::new(alloc),
        })
    }

    /// A writer that goes on behind these bytes. It takes no memory.
    pub fn behind(bytes: Vec<u8>) -> Writer
        ensures bytes { result.bytes ≡ bytes.items }
        ensures spare { result.spare ≡ vec_capacity bytes - vec_len bytes }
    {
        Writer { bytes }
    }

    /// Forgets what was written. Its room is room again.
    pub fn clear(&mut self)
        ensures empty { self.new.bytes ≡ [] }
        ensures spare { self.new.spare ≡ self.old.spare + length self.old.bytes }
    {
        self.bytes.clear();
    }

    /// Makes room for `more` bytes.
    pub fn reserve(&mut self, more: usize) -> Result<(), NoMemory>
        ensures bytes { self.new.bytes ≡ self.old.bytes }
        ensures room { OnOk result (more ≤ self.new.spare) }
        ensures refused { OnErr result (self.new ≡ self.old) }
        ensures succeeds { more ≤ self.old.spare → IsOk result }
        ensures spare { self.old.spare ≤ self.new.spare }
    {
        self.bytes.reserve(more)?;
        Ok(())
    }

    /// Writes an unsigned integer (RFC 1014 section 3.2). There is room.
    #[tactic(auto, unfolding(crate::specs::Item::word))]
    pub fn put_u32(&mut self, value: u32)
        requires { 4 ≤ self.old.spare }
        ensures written { self.new.bytes ≡ self.old.bytes ++ word value }
        ensures spare { self.old.spare ≤ self.new.spare + 4 }
    {
        let mut number = [0; 4];
        BigEndian::write_u32(&mut number, value);
        self.put_bytes(&number);
    }

    /// Writes an unsigned hyper integer (RFC 1014 section 3.5). There is room.
    #[tactic(auto, unfolding(crate::specs::Item::hyper))]
    pub fn put_u64(&mut self, value: u64)
        requires { 8 ≤ self.old.spare }
        ensures written { self.new.bytes ≡ self.old.bytes ++ hyper value }
        ensures spare { self.old.spare ≤ self.new.spare + 8 }
    {
        let mut number = [0; 8];
        BigEndian::write_u64(&mut number, value);
        self.put_bytes(&number);
    }

    /// Writes a boolean (RFC 1014 section 3.4). There is room.
    #[tactic(auto, unfolding(crate::specs::Item::boolean))]
    pub fn put_boolean(&mut self, value: bool)
        requires { 4 ≤ self.old.spare }
        ensures written { self.new.bytes ≡ self.old.bytes ++ boolean value }
        ensures spare { self.old.spare ≤ self.new.spare + 4 }
    {
        self.put_u32(u32::from(value));
    }

    /// Writes the bytes as they are, with no length and no residual bytes. There is room.
    pub fn put_bytes(&mut self, bytes: &[u8])
        requires { length bytes.now ≤ self.old.spare }
        ensures written { self.new.bytes ≡ self.old.bytes ++ bytes.now }
        ensures spare { self.old.spare ≤ self.new.spare + length bytes.now }
    {
        self.bytes.extend_from_slice(bytes).unwrap();
    }

    /// Writes variable-length opaque data (RFC 1014 section 3.9). There is room.
    pub fn put_opaque(&mut self, bytes: &[u8])
        requires fits { length bytes.now < 2 ^ 32 - 4 }
        requires room { opaque_len (length bytes.now) ≤ self.old.spare }
        ensures written { self.new.bytes ≡ self.old.bytes ++ opaque bytes.now }
        ensures spare { self.old.spare ≤ self.new.spare + opaque_len (length bytes.now) }
    {
        let length = bytes.len();
        self.put_u32(length as u32);
        self.put_bytes(bytes);
        self.put_bytes(&[0; 3][..(4 - length % 4) % 4]);
    }

    /// Writes variable-length opaque data (RFC 1014 section 3.9) that is one unsigned integer, so many times over. There is
    /// room.
    pub fn put_opaque_words(&mut self, value: u32, count: usize)
        requires fits { 4 * count < 2 ^ 32 - 4 }
        requires room { 4 + 4 * count ≤ self.old.spare }
        ensures written { self.new.bytes ≡ self.old.bytes ++ opaque (repeats count (word value)) }
        ensures spare { self.old.spare ≤ self.new.spare + (4 + 4 * count) }
    {
        self.put_u32((4 * count) as u32);
        self.words(value, count);
    }

    /// Writes an unsigned integer so many times. There is room.
    #[tactic(auto, unfolding(crate::specs::Item::word))]
    fn words(&mut self, value: u32, count: usize)
        requires { 4 * count ≤ self.old.spare }
        ensures written { self.new.bytes ≡ self.old.bytes ++ repeats count (word value) }
        ensures spare { self.old.spare ≤ self.new.spare + 4 * count }
    {
        let mut number = [0; 4];
        BigEndian::write_u32(&mut number, value);
        push_words(&mut self.bytes, number, count);
    }

    /// Writes an unsigned integer (RFC 1014 section 3.2).
    pub fn u32(&mut self, value: u32) -> Result<(), NoMemory>
        ensures written { OnOk result (self.new.bytes ≡ self.old.bytes ++ word value) }
        ensures refused { OnErr result (self.new ≡ self.old) }
        ensures succeeds { 4 ≤ self.old.spare → IsOk result }
        ensures spare { self.old.spare ≤ self.new.spare + 4 }
    {
        self.reserve(4)?;
        self.put_u32(value);
        Ok(())
    }

    /// Writes variable-length opaque data (RFC 1014 section 3.9).
    pub fn opaque(&mut self, bytes: &[u8]) -> Result<(), NoMemory>
        requires { length bytes.now < 2 ^ 32 - 4 }
        ensures written { OnOk result (self.new.bytes ≡ self.old.bytes ++ opaque bytes.now) }
        ensures refused { OnErr result (self.new ≡ self.old) }
        ensures succeeds { opaque_len (length bytes.now) ≤ self.old.spare → IsOk result }
        ensures spare { self.old.spare ≤ self.new.spare + opaque_len (length bytes.now) }
    {
        let length = bytes.len();
        self.reserve(4 + length + (4 - length % 4) % 4)?;
        self.put_opaque(bytes);
        Ok(())
    }

    /// The bytes that were written so far.
    pub fn as_bytes(&self) -> &[u8]
        ensures { result.now ≡ self.now.bytes }
    {
        &self.bytes
    }

    /// The bytes that were written, with the room that is left behind them.
    pub fn into_bytes(self) -> Vec<u8>
        ensures bytes { result.items ≡ self.bytes }
        ensures spare { vec_capacity result - vec_len result ≡ self.spare }
    {
        let Writer { bytes } = self;
        bytes
    }
}
