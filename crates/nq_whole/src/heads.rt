//! The head of a whole file.

ghost use Rattle.std.specs.Prelude.{◌≡◌, ◌≤◌, ◌++◌, ℕ, Some, None, length, drop, codes, IfOk};
ghost use Rattle.nq_base.specs.Block.{filled, value_of};
ghost use Rattle.nq_whole.specs.Heads.{block_of, front_of_head, head_in, most_bytes};

use crate::pieces::piece;
use nq_base::{Block, FileId, NoMemory, Seen};
use nq_script::words::is;
use std::alloc::Global;

/// The most bytes of a whole file.
pub const MOST_BYTES: usize = 4_194_304;

/// What the first block under a name tells of a whole file.
#[derive(Clone, Copy)]
pub struct FileHead {
    /// The file that has the bytes.
    pub file: FileId,
    /// How many bytes there are, at most 4,194,304.
    pub size: u32,
}

/// The block that tells a head.
///
/// # Errors
///
/// Only want of memory.
pub fn head_block(alloc: Global, head: FileHead) -> Result<Block, NoMemory>
    ensures { IfOk result (λ block. block ≡ block_of head) }
{
    piece(alloc, &front_of_head(head), 0)
}

/// A block that tells a head is read as this head.
pub fn heads_are_read()
    ensures { (head : FileHead) → head.size ≤ most_bytes → head_in (block_of head) ≡ Some head }
{}

/// The first bytes of the block that tells a head: two numbers, and a mark.
fn front_of_head(head: FileHead) -> [u8; 18]
    ensures { result ≡ front_of_head head }
{
    let file = head.file.0;
    let size = head.size;
    [
        (file / 0x0100_0000) as u8,
        (file / 0x0001_0000 % 0x0100) as u8,
        (file / 0x0100 % 0x0100) as u8,
        (file % 0x0100) as u8,
        (size / 0x0100_0000) as u8,
        (size / 0x0001_0000 % 0x0100) as u8,
        (size / 0x0100 % 0x0100) as u8,
        (size % 0x0100) as u8,
        b'w',
        b'h',
        b'o',
        b'l',
        b'e',
        b' ',
        b'f',
        b'i',
        b'l',
        b'e',
    ]
}

/// The head that a block tells; None where it tells none. No block that repeats a number tells one.
pub fn head_in(block: &Block) -> Option<FileHead>
    ensures is { result ≡ head_in block.now }
    ensures none { (v : ℕ) → block.now ≡ filled v → result ≡ None }
{
    head_seen(block)
}

/// The head that a block tells.
fn head_seen(block: &Block) -> Option<FileHead>
    ensures { result ≡ head_in block.now }
{
    match block.seen() {
        Seen::Bytes(bytes) => head_read(bytes),
        Seen::Filled(value) => none_filled(value),
    }
}

/// The head that a block tells which repeats this number: none.
fn none_filled(value: u32) -> Option<FileHead>
    ensures { result ≡ head_in (filled value) }
{
    let _repeated = value;
    None
}

/// The head that the bytes of a block tell.
#[tactic(auto, unfolding(crate::specs::Heads::head_in))]
fn head_read(bytes: &[u8]) -> Option<FileHead>
    requires { length bytes.now ≡ 4096 }
    ensures { result ≡ head_in bytes.now }
{
    let size = number_at(&bytes[4..]);
    if is(&bytes[8..18], b"whole file") && size as usize <= MOST_BYTES {
        let file = FileId(number_at(bytes));
        Some(FileHead { file, size })
    } else {
        None
    }
}

/// The number in the first four bytes, the highest first.
fn number_at(bytes: &[u8]) -> u32
    requires { 4 ≤ length bytes.now }
    ensures { result ≡ value_of bytes.now }
{
    u32::from(bytes[0]) * 0x0100_0000
        + u32::from(bytes[1]) * 0x0001_0000
        + u32::from(bytes[2]) * 0x0100
        + u32::from(bytes[3])
}
