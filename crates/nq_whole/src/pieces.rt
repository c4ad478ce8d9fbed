//! Bytes in blocks: pieces of 4096 bytes, with zeros behind the last byte.

ghost use Rattle.std.specs.Prelude.{◌≡◌, ◌+◌, ◌-◌, ◌^◌, ◌*◌, ◌++◌, ◌<◌, ◌≤◌, length, take, drop, replicate, vec_len, vec_capacity, IsOk, IfOk, OnOk, OnErr};
ghost use Rattle.nq_base.specs.Block.{filled, word};
ghost use Rattle.nq_base.specs.Seen.{seen_bytes};
ghost use Rattle.nq_whole.specs.Pieces.{piece_of};

use nq_base::{Block, NoMemory, Seen};
use nq_script::words::push_bytes;
use nq_xdr::push_words;
use std::alloc::Global;

/// The block with the bytes from a place on, with zeros behind the last. The first piece has place 0.
#[tactic(auto, unfolding(crate::specs::Pieces::piece_of))]
pub(crate) fn piece(alloc: Global, bytes: &[u8], place: usize) -> Result<Block, NoMemory>
    requires { 4096 * place < length bytes.now }
    ensures { IfOk result (λ block. block ≡ piece_of place bytes.now) }
{
    let whole = filled_up(alloc, front_of(&bytes[Block::SIZE * place..]))?;
    match Block::from_bytes(alloc, &whole)? {
        Some(block) => Ok(block),
        None => unreachable!(),
    }
}

/// The first bytes, as many as a block has.
fn front_of(bytes: &[u8]) -> &[u8]
    ensures front { result.now ≡ take 4096 bytes.now }
    ensures short { length result.now ≤ 4096 }
{
    if bytes.len() < Block::SIZE {
        bytes
    } else {
        &bytes[..Block::SIZE]
    }
}

/// These bytes, with zeros behind them up to the size of a block.
fn filled_up(alloc: Global, bytes: &[u8]) -> Result<Vec<u8>, NoMemory>
    requires { length bytes.now ≤ 4096 }
    ensures filled { IfOk result (λ whole. whole.items ≡ bytes.now ++ replicate (4096 - length bytes.now) 0) }
    ensures size { IfOk result (λ whole. length whole.items ≡ 4096) }
{
    let mut whole = Vec::with_capacity(alloc, Block::SIZE)?;
    push_bytes(&mut whole, bytes)?;
    push_zeros(&mut whole, Block::SIZE - bytes.len())?;
    Ok(whole)
}

/// Adds zeros.
fn push_zeros(bytes: &mut Vec<u8>, count: usize) -> Result<(), NoMemory>
    requires { length bytes.old.items + count < 2 ^ 64 }
    ensures { OnOk result (bytes.new.items ≡ bytes.old.items ++ replicate count 0) }
{
    bytes.resize(bytes.len() + count, 0)?;
    Ok(())
}

/// Appends the bytes of a block.
///
/// # Errors
///
/// Only want of memory, and then `out` is as before.
pub(crate) fn push_body(out: &mut Vec<u8>, body: &Block) -> Result<(), NoMemory>
    ensures pushed { OnOk result (out.new.items ≡ out.old.items ++ body.now) }
    ensures refused { OnErr result (out.new.items ≡ out.old.items) }
    ensures succeeds { vec_len out.old + 4096 ≤ vec_capacity out.old → IsOk result }
{
    out.reserve(Block::SIZE)?;
    push_seen(out, body.seen());
    Ok(())
}

/// Appends what a block holds. There is room for it.
fn push_seen(out: &mut Vec<u8>, seen: Seen<'_>)
    requires size { length (seen_bytes seen) ≡ 4096 }
    requires room { vec_len out.old + 4096 ≤ vec_capacity out.old }
    ensures { out.new.items ≡ out.old.items ++ seen_bytes seen.entry }
{
    match seen {
        Seen::Bytes(bytes) => out.extend_from_slice(bytes).unwrap(),
        Seen::Filled(value) => push_filled(out, value),
    }
}

/// Appends a word of four bytes, 1024 times. There is room for it.
fn push_filled(out: &mut Vec<u8>, value: u32)
    requires { vec_len out.old + 4096 ≤ vec_capacity out.old }
    ensures { out.new.items ≡ out.old.items ++ filled value }
{
    push_words(out, word_of(value), Block::SIZE / 4);
}

/// The four bytes of a number, the highest first.
fn word_of(value: u32) -> [u8; 4]
    ensures { result ≡ word value }
{
    [
        (value / 0x0100_0000) as u8,
        (value / 0x0001_0000 % 0x0100) as u8,
        (value / 0x0100 % 0x0100) as u8,
        (value % 0x0100) as u8,
    ]
}
