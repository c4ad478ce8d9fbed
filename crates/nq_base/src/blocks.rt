//! A block of a file.

ghost use Rattle.std.specs.Prelude.{◌≡◌, ◌≢◌, ◌<◌, ◌==◌, ◌&&◌, get_or, ◌+◌, ◌*◌, ◌↔◌, ℕ, true, false, length, take, drop, refl, IsSome, IsOk, IfSome, IfOk};
ghost use Rattle.std.specs.Prelude.{OnOk};
ghost use Rattle.nq_base.specs.Block.{word, value_of, repeated, filled};
ghost use Rattle.nq_base.specs.Seen.{seen_bytes};

use nq_memory::NoMemory;
use std::alloc::Global;
use std::marker::Model;

/// A block: 4096 bytes. Clauses see it as the list of its bytes.
///
/// A block that repeats a word of four bytes takes no memory, and any block moves as a handle. Where a second one is
/// meant, [`Block::copied`] makes it, which may want memory, or [`Block::copied_in`], which has it.
#[derive(Drop)]
pub struct Block {
    content: Content,
}

/// What a block keeps.
#[derive(Drop)]
enum Content {
    /// A word that is repeated 1024 times.
    Filled(u32),
    /// The bytes.
    Bytes(Box<[u8; Block::SIZE]>),
}

/// What a block holds, as it is lent.
#[derive(Clone, Copy)]
pub enum Seen<'a> {
    /// The four bytes of this number, the highest first, 1024 times.
    Filled(u32),
    /// These 4096 bytes.
    Bytes(&'a [u8]),
}

/// Room for one block, taken ahead, so that a copy in the middle of a step cannot fail. Clauses see whether it is there.
#[derive(Drop)]
pub struct Spare {
    room: Option<Box<[u8; Block::SIZE]>>,
}

impl Model for Block {
    ghost use Rattle.std.specs.Prelude.{List, ℕ};

    ghost Value = { List ℕ };

    ghost use Rattle.nq_base.specs.Content.{content_bytes, IsKeptLight};

    ghost view = { λ b. content_bytes b.content };

    ghost invariant = { λ b. IsKeptLight b.content };
}

impl Model for Spare {
    ghost use Rattle.std.specs.Prelude.{Bool, is_some};

    ghost Value = { Bool };

    ghost view = { λ s. is_some s.room };
}

impl Block {
    /// The number of bytes of a block.
    pub const SIZE: usize = 4096;

    /// The block that repeats the four bytes of `value`, the highest first, 1024 times. It takes no memory.
    pub fn fill(value: u32) -> Block
        ensures bytes { result ≡ filled value }
        ensures size { length result ≡ 4096 }
        ensures value { value_of result ≡ value }
    {
        Block {
            content: Content::Filled(value),
        }
    }

    /// The number in the first four bytes, the highest first.
    pub fn value(&self) -> u32
        ensures { result ≡ value_of self.now }
    {
        match &self.content {
            Content::Filled(value) => *value,
            Content::Bytes(bytes) => first_word(&**bytes),
        }
    }

    /// What the block holds.
    pub fn seen(&self) -> Seen<'_>
        ensures bytes { seen_bytes result ≡ self.now }
        ensures size { length self.now ≡ 4096 }
        ensures light { (v : ℕ) → self.now ≡ filled v → result ≡ Seen.Filled v }
    {
        match &self.content {
            Content::Filled(value) => Seen::Filled(*value),
            Content::Bytes(bytes) => Seen::Bytes(&**bytes),
        }
    }

    /// A second block of the same bytes.
    ///
    /// # Errors
    ///
    /// `NoMemory` where memory is wanting; a block that repeats a word wants none.
    pub fn copied(&self, alloc: Global) -> Result<Block, NoMemory>
        ensures block { IfOk result (λ block. block ≡ self.now) }
        ensures light { (v : ℕ) → self.now ≡ filled v → IsOk result }
    {
        match &self.content {
            Content::Filled(value) => Ok(Block::fill(*value)),
            Content::Bytes(bytes) => boxed(alloc, &**bytes),
        }
    }

    /// A second block of the same bytes, in room that was taken ahead.
    pub fn copied_in(&self, spare: &mut Spare) -> Block
        requires { spare.old ≡ true }
        ensures { result ≡ self.now }
    {
        match &self.content {
            Content::Filled(value) => Block::fill(*value),
            Content::Bytes(bytes) => {
                let mut room = spare.room.take().unwrap();
                room.copy_from_slice(&**bytes);
                Block {
                    content: Content::Bytes(room),
                }
            }
        }
    }

    /// The block of these bytes; None where there are not 4096.
    ///
    /// # Errors
    ///
    /// `NoMemory` where memory is wanting; bytes that repeat a word want none.
    pub fn from_bytes(alloc: Global, bytes: &[u8]) -> Result<Option<Block>, NoMemory>
        ensures size { IfOk result (λ block. IsSome block ↔ (length bytes.now ≡ 4096)) }
        ensures block { IfOk result (λ block. IfSome block (λ b. b ≡ bytes.now)) }
        ensures other { length bytes.now ≢ 4096 → IsOk result }
        ensures light { (v : ℕ) → bytes.now ≡ filled v → IsOk result }
    {
        if bytes.len() != Block::SIZE {
            return Ok(None);
        }
        if repeats(bytes) {
            return Ok(Some(Block::fill(first_word(bytes))));
        }
        Ok(Some(boxed(alloc, bytes)?))
    }

    /// The block of these bytes, in room that was taken ahead; None where there are not 4096.
    pub fn from_bytes_in(bytes: &[u8], spare: &mut Spare) -> Option<Block>
        requires { spare.old ≡ true }
        ensures size { IsSome result ↔ (length bytes.now ≡ 4096) }
        ensures block { IfSome result (λ b. b ≡ bytes.now) }
    {
        if bytes.len() != Block::SIZE {
            return None;
        }
        if repeats(bytes) {
            return Some(Block::fill(first_word(bytes)));
        }
        let mut room = spare.room.take().unwrap();
        room.copy_from_slice(bytes);
        Some(Block {
            content: Content::Bytes(room),
        })
    }
}

impl Spare {
    /// No room.
    pub fn none() -> Spare
        ensures { result ≡ false }
    {
        Spare { room: None }
    }

    /// Sees to it that there is room.
    ///
    /// # Errors
    ///
    /// `NoMemory` where memory is wanting; there is no room then.
    pub fn reserve(&mut self, alloc: Global) -> Result<(), NoMemory>
        ensures reserved { OnOk result (self.new ≡ true) }
        ensures succeeds { self.old ≡ true → IsOk result }
        ensures kept { self.old ≡ true → self.new ≡ true }
    {
        if self.room.is_none() {
            self.room = Some(Box::new(alloc, [0; Block::SIZE])?);
        }
        Ok(())
    }
}

/// The number in the first four of 4096 bytes, the highest first.
fn first_word(bytes: &[u8]) -> u32
    requires { length bytes.now ≡ 4096 }
    ensures { result ≡ value_of bytes.now }
{
    u32::from(bytes[0]) * 0x0100_0000
        + u32::from(bytes[1]) * 0x0001_0000
        + u32::from(bytes[2]) * 0x0100
        + u32::from(bytes[3])
}

/// Whether 4096 bytes repeat their first word.
fn repeats(bytes: &[u8]) -> bool
    requires { length bytes.now ≡ 4096 }
    ensures yes { result ≡ true → bytes.now ≡ filled (value_of bytes.now) }
    ensures no { result ≡ false → (v : ℕ) → bytes.now ≢ filled v }
{
    // It ends at no difference, so that the compiler compares many bytes at once.
    let mut same = true;
    for at in 0..Block::SIZE - 4 {
        same = both(same, goes_on(bytes, at));
    }
    same
}

/// Whether the byte at a place is the one four bytes behind it.
fn goes_on(bytes: &[u8], at: usize) -> bool
    requires { at + 4 < length bytes.now }
    ensures { result ≡ (get_or bytes.now at 0 == get_or bytes.now (at + 4) 0) }
{
    bytes[at] == bytes[at + 4]
}

/// Whether both are so. It looks at both.
fn both(one: bool, other: bool) -> bool
    ensures { result ≡ (one && other) }
{
    one & other
}

/// The block that keeps 4096 bytes, which repeat no word.
fn boxed(alloc: Global, bytes: &[u8]) -> Result<Block, NoMemory>
    requires size { length bytes.now ≡ 4096 }
    requires other { (v : ℕ) → bytes.now ≢ filled v }
    ensures { IfOk result (λ block. block ≡ bytes.now) }
{
    let mut room = Box::new(alloc, [0; Block::SIZE])?;
    room.copy_from_slice(bytes);
    Ok(Block {
        content: Content::Bytes(room),
    })
}
