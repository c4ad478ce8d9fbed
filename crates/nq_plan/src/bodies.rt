//! The bytes of a block's body.

ghost use Rattle.std.specs.Prelude.{◌≡◌, ◌+◌, ◌≤◌, ◌++◌, vec_len, vec_capacity, IfOk};
ghost use Rattle.nq_base.specs.Block.{filled, word};

use nq_base::{Block, Seen};
use nq_memory::NoMemory;
use nq_xdr::push_words;
use std::alloc::Global;

/// How many words of four bytes a block has.
const WORDS: usize = 1024;

/// The four bytes of a number, the highest first.
fn word_of(value: u32) -> [u8; 4]
    ensures { result ≡ word value }
{
    [
        (value / 0x0100_0000) as u8,
        (value / 0x0001_0000 % 256) as u8,
        (value / 0x0100 % 256) as u8,
        (value % 256) as u8,
    ]
}

/// Adds the bytes of a block that repeats a word. There is room for them.
fn push_filled(bytes: &mut Vec<u8>, value: u32)
    requires { vec_len bytes.old + 4096 ≤ vec_capacity bytes.old }
    ensures { bytes.new.items ≡ bytes.old.items ++ filled value }
{
    push_words(bytes, word_of(value), WORDS);
}

/// The bytes of a block that repeats a word.
fn spell_filled(alloc: Global, value: u32) -> Result<Vec<u8>, NoMemory>
    ensures { IfOk result (λ bytes. bytes.items ≡ filled value) }
{
    let mut bytes = Vec::with_capacity(alloc, Block::SIZE)?;
    push_filled(&mut bytes, value);
    Ok(bytes)
}

/// The bytes of a block.
///
/// # Errors
///
/// Only want of memory.
pub(crate) fn spell_block(alloc: Global, block: &Block) -> Result<Vec<u8>, NoMemory>
    ensures { IfOk result (λ bytes. bytes.items ≡ block.now) }
{
    match block.seen() {
        Seen::Filled(value) => spell_filled(alloc, value),
        Seen::Bytes(bytes) => Ok(Vec::from_slice(alloc, bytes)?),
    }
}
