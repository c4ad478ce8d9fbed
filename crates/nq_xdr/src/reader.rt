//! Reading items.

ghost use Rattle.std.specs.Prelude.{◌≡◌, ◌≢◌, ℕ, ◌+◌, ◌<◌, ◌≤◌, ◌^◌, ◌↔◌, ◌==◌, Bool, List, [], ◌++◌, length, IfOk, IsOkAnd, IfErr, OnErr, IsOk};
ghost use Rattle.std.specs.List.{list_all};
ghost use Rattle.nq_xdr.specs.declared.fault.XdrFault.{XdrFault};
ghost use Rattle.nq_xdr.specs.Item.{word, hyper, boolean, opaque, residual};
ghost use Rattle.nq_xdr.specs.Reading.{Gives, bytes_at, word_at, hyper_at, boolean_at, body_at, opaque_at};
ghost use Rattle.nq_xdr.specs.Fault.{IsShort, IsBooleanFault, IsOpaqueFault};

use crate::XdrFault;
use byteorder::{BigEndian, ByteOrder};
use std::marker::Model;

/// The first `count` bytes, and those behind them.
#[tactic(auto, unfolding(crate::specs::Reading::bytes_at))]
fn split(bytes: &[u8], count: usize) -> Result<(&[u8], &[u8]), XdrFault>
    ensures step { Gives (λ x. (x.0.now, x.1.now)) result (bytes_at count bytes.now) }
    ensures front_len { IfOk result (λ x. length x.0.now ≡ count) }
    ensures fault { IfErr result (IsShort count bytes.now) }
{
    if bytes.len() < count {
        return Err(XdrFault::Short);
    }
    Ok(bytes.split_at(count))
}

fn is_zero(bytes: &[u8]) -> bool
    ensures { result ≡ list_all (λ b. b == 0) bytes.now }
{
    bytes.iter().all(|byte| *byte == 0)
}

#[tactic(auto, unfolding(crate::specs::Reading::word_at))]
fn word(bytes: &[u8]) -> Result<(u32, &[u8]), XdrFault>
    ensures found { IfOk result (λ x. bytes.now ≡ word x.0 ++ x.1.now) }
    ensures fault { IfErr result (IsShort 4 bytes.now) }
    ensures step { Gives (λ x. (x.0, x.1.now)) result (word_at bytes.now) }
{
    let (front, rest) = split(bytes, 4)?;
    Ok((BigEndian::read_u32(front), rest))
}

#[tactic(auto, unfolding(crate::specs::Reading::hyper_at))]
fn hyper(bytes: &[u8]) -> Result<(u64, &[u8]), XdrFault>
    ensures found { IfOk result (λ x. bytes.now ≡ hyper x.0 ++ x.1.now) }
    ensures fault { IfErr result (IsShort 8 bytes.now) }
    ensures step { Gives (λ x. (x.0, x.1.now)) result (hyper_at bytes.now) }
{
    let (front, rest) = split(bytes, 8)?;
    Ok((BigEndian::read_u64(front), rest))
}

#[tactic(auto, unfolding(crate::specs::Reading::boolean_at))]
fn boolean(bytes: &[u8]) -> Result<(bool, &[u8]), XdrFault>
    ensures found { IfOk result (λ x. bytes.now ≡ boolean x.0 ++ x.1.now) }
    ensures fault { IfErr result (IsBooleanFault bytes.now) }
    ensures step { Gives (λ x. (x.0, x.1.now)) result (boolean_at bytes.now) }
{
    let (number, rest) = word(bytes)?;
    if number > 1 {
        return Err(XdrFault::Bool);
    }
    Ok((number == 1, rest))
}

#[tactic(auto, unfolding(crate::specs::Reading::body_at))]
fn body(bytes: &[u8], length: u32) -> Result<(&[u8], &[u8]), XdrFault>
    ensures { Gives (λ x. (x.0.now, x.1.now)) result (body_at length bytes.now) }
{
    let length = length as usize;
    let (body, rest) = split(bytes, length)?;
    let (pad, rest) = split(rest, (4 - length % 4) % 4)?;
    if is_zero(pad) {
        Ok((body, rest))
    } else {
        Err(XdrFault::Pad)
    }
}

#[tactic(auto, unfolding(crate::specs::Reading::opaque_at))]
fn opaque(bytes: &[u8], max: u32) -> Result<(&[u8], &[u8]), XdrFault>
    ensures found { IfOk result (λ x. (length x.0.now ≤ max) × (bytes.now ≡ opaque x.0.now ++ x.1.now)) }
    ensures fault { IfErr result (IsOpaqueFault max bytes.now) }
    ensures step { Gives (λ x. (x.0.now, x.1.now)) result (opaque_at max bytes.now) }
{
    let (length, rest) = word(bytes)?;
    if length > max {
        return Err(XdrFault::TooLong);
    }
    body(rest, length)
}

/// Reads items from the left of bytes that it borrows. Contracts see it as the list of the bytes that
/// are left.
#[derive(Drop)]
pub struct Reader<'a> {
    bytes: &'a [u8],
}

impl<'a> Model for Reader<'a> {
    ghost use Rattle.std.specs.Prelude.{ℕ, List};

    ghost Value = { List ℕ };

    ghost view = { λ r. r.bytes.now };
}

impl<'a> Reader<'a> {
    /// A reader of all the bytes.
    pub fn new(bytes: &'a [u8]) -> Reader<'a>
        ensures { result ≡ bytes.now }
    {
        Reader { bytes }
    }

    /// The bytes that are left.
    pub fn rest(&self) -> &'a [u8]
        ensures { result.now ≡ self.now }
    {
        self.bytes
    }

    /// Reads an unsigned integer (RFC 1014 section 3.2).
    ///
    /// # Errors
    ///
    /// `Short` exactly where fewer than four bytes are left. A fault leaves the reader as it was.
    pub fn u32(&mut self) -> Result<u32, XdrFault>
        // What is read is spelled so, and what is spelled so is read.
        ensures found { IfOk result (λ n. self.old ≡ word n ++ self.new) }
        ensures only { (n : ℕ) (rest : List ℕ) → n < 2 ^ 32 → self.old ≡ word n ++ rest → (result ≡ Ok n) × (self.new ≡ rest) }

        // Which fault it is, and that a fault changes nothing.
        ensures fault { IfErr result (IsShort 4 self.old) }
        ensures only_fault { (e : XdrFault) → IsShort 4 self.old e → result ≡ Err e }
        ensures unchanged { OnErr result (self.new ≡ self.old) }

        // All of it, as a step of a longer reading.
        ensures step { Gives (λ n. (n, self.new)) result (word_at self.old) }
    {
        let (number, rest) = word(self.bytes)?;
        self.bytes = rest;
        Ok(number)
    }

    /// Reads an unsigned hyper integer (RFC 1014 section 3.5).
    ///
    /// # Errors
    ///
    /// `Short` exactly where fewer than eight bytes are left. A fault leaves the reader as it was.
    pub fn u64(&mut self) -> Result<u64, XdrFault>
        ensures found { IfOk result (λ n. self.old ≡ hyper n ++ self.new) }
        ensures only { (n : ℕ) (rest : List ℕ) → n < 2 ^ 64 → self.old ≡ hyper n ++ rest → (result ≡ Ok n) × (self.new ≡ rest) }
        ensures fault { IfErr result (IsShort 8 self.old) }
        ensures only_fault { (e : XdrFault) → IsShort 8 self.old e → result ≡ Err e }
        ensures unchanged { OnErr result (self.new ≡ self.old) }
        ensures step { Gives (λ n. (n, self.new)) result (hyper_at self.old) }
    {
        let (number, rest) = hyper(self.bytes)?;
        self.bytes = rest;
        Ok(number)
    }

    /// Reads a boolean (RFC 1014 section 3.4).
    ///
    /// # Errors
    ///
    /// `Short` exactly where fewer than four bytes are left, and `Bool` exactly where their number is
    /// above 1. A fault leaves the reader as it was.
    pub fn boolean(&mut self) -> Result<bool, XdrFault>
        ensures found { IfOk result (λ b. self.old ≡ boolean b ++ self.new) }
        ensures only { (b : Bool) (rest : List ℕ) → self.old ≡ boolean b ++ rest → (result ≡ Ok b) × (self.new ≡ rest) }
        ensures fault { IfErr result (IsBooleanFault self.old) }
        ensures only_fault { (e : XdrFault) → IsBooleanFault self.old e → result ≡ Err e }
        ensures unchanged { OnErr result (self.new ≡ self.old) }
        ensures step { Gives (λ b. (b, self.new)) result (boolean_at self.old) }
    {
        let (value, rest) = boolean(self.bytes)?;
        self.bytes = rest;
        Ok(value)
    }

    /// Reads variable-length opaque data of at most `max` bytes (RFC 1014 section 3.9), and lends it.
    ///
    /// # Errors
    ///
    /// `TooLong` exactly where the length is above `max`, else `Short` exactly where the bytes end
    /// inside the length, the data or its residual bytes, else `Pad` exactly where a residual byte is
    /// not zero. A fault leaves the reader as it was.
    pub fn opaque(&mut self, max: u32) -> Result<&'a [u8], XdrFault>
        ensures found { IfOk result (λ b. (length b.now ≤ max) × (self.old ≡ opaque b.now ++ self.new)) }
        ensures only { (body rest : List ℕ) → length body ≤ max → self.old ≡ opaque body ++ rest
            → IsOkAnd result (λ b. (b.now ≡ body) × (self.new ≡ rest)) }
        ensures fault { IfErr result (IsOpaqueFault max self.old) }
        ensures only_fault { (e : XdrFault) → IsOpaqueFault max self.old e → result ≡ Err e }
        ensures unchanged { OnErr result (self.new ≡ self.old) }
        ensures step { Gives (λ b. (b.now, self.new)) result (opaque_at max self.old) }
    {
        let (body, rest) = opaque(self.bytes, max)?;
        self.bytes = rest;
        Ok(body)
    }

    /// Ends the reading.
    ///
    /// # Errors
    ///
    /// `Trailing` exactly where bytes are left.
    pub fn end(self) -> Result<(), XdrFault>
        ensures ended { IsOk result ↔ (self.entry ≡ []) }
        ensures fault { IfErr result (λ e. e ≡ XdrFault.Trailing) }
    {
        if self.bytes.is_empty() {
            Ok(())
        } else {
            Err(XdrFault::Trailing)
        }
    }
}
