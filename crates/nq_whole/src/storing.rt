//! Storing a whole file.

ghost use Rattle.std.specs.Prelude.{◌≡◌, ◌*◌, ◌≤◌, ◌<◌, ℕ, Option, IfOk, length};
ghost use Rattle.nq_base.specs.declared.Call.{Call};
ghost use Rattle.nq_whole.specs.Answers.{body_in, file_in};
ghost use Rattle.nq_whole.specs.Heads.{block_of, head_in, most_bytes};
ghost use Rattle.nq_whole.specs.Storing.{KeepsOrder, asked_at, blocks_for, filled_to, found, headed, head_of, needs, old_head, store_at, synced};

use crate::answers::{body_in, file_in, is_done};
use crate::heads::{FileHead, head_block, head_in};
use crate::pieces::piece;
use nq_base::{Answer, Block, BlockNo, Call, FileId, Name, NoMemory, Value};
use std::alloc::Global;
use std::marker::Model;

/// A step of storing a file.
#[derive(Clone, Copy)]
pub(crate) enum StoringStep {
    /// The file for the bytes is made.
    Making,
    /// Its block at this place is stored.
    Filling(FileId, u32),
    /// The file of the name is asked for.
    Finding(FileId),
    /// It is made.
    Founding(FileId),
    /// Its first block is read.
    Heading(FileId, FileId),
    /// The head is written there, and this file had the bytes before.
    Writing(FileId, FileId, Option<FileId>),
    /// The head is synced.
    Syncing(FileId, FileId, Option<FileId>),
    /// The bytes that there were before are removed.
    Clearing(FileId),
    /// The new bytes are removed, since storing was refused.
    Dropping(FileId),
    /// It is over.
    Ended,
}

/// What storing a file says of an answer.
#[derive(Clone, Copy)]
pub enum StoringSays {
    /// It goes on.
    Goes,
    /// That answer refused it. What it had made is removed next.
    Drops,
    /// The file of the name was not stored as a whole one, and stays as it is. What it had made is removed next.
    NotWhole,
    /// All is stored.
    Done,
    /// It has ended, and was refused.
    Refused,
}

/// Storing bytes under a name, call by call. The bytes stand in a file of their own.
#[derive(Drop)]
pub struct Storing {
    name: Name,
    own: Name,
    bytes: Vec<u8>,
    step: StoringStep,
}

impl Model for Storing {
    ghost use Rattle.std.specs.Prelude.{◌≤◌, length};
    ghost use Rattle.nq_whole.specs.Storing.{Stores, needs};

    ghost Value = { Stores };

    ghost view = { λ s. record { name = s.name; own = s.own; bytes = s.bytes.items; step = s.step } };

    ghost invariant = { λ s. (length s.bytes.items ≤ 4194304) × (needs s.step ≤ length s.bytes.items) };
}

/// A step behind an answer: what storing says, and what comes next.
#[derive(Clone, Copy)]
struct StoreStep {
    said: StoringSays,
    step: StoringStep,
}

/// It goes on with this step.
fn goes(step: StoringStep) -> StoreStep
    ensures { result ≡ record { said = StoringSays.Goes; step = step } }
{
    let said = StoringSays::Goes;
    StoreStep { said, step }
}

/// It was refused, and the bytes in this file are removed.
fn drops(file: FileId) -> StoreStep
    ensures is { result ≡ record { said = StoringSays.Drops; step = StoringStep.Dropping file } }
    ensures none { needs result.step ≡ 0 }
{
    let said = StoringSays::Drops;
    let step = StoringStep::Dropping(file);
    StoreStep { said, step }
}

/// It ends so.
fn ends(said: StoringSays) -> StoreStep
    ensures is { result ≡ record { said = said; step = StoringStep.Ended } }
    ensures none { needs result.step ≡ 0 }
{
    let step = StoringStep::Ended;
    StoreStep { said, step }
}

/// Behind looking for the name, and behind making it.
fn found(answer: &Answer, file: FileId) -> StoreStep
    ensures is { result ≡ found answer.now file }
    ensures none { needs result.step ≡ 0 }
{
    match answer {
        Answer::Ok(value) => match value {
            Value::File(at) => goes(StoringStep::Heading(file, *at)),
            _ => drops(file),
        },
        Answer::NoEntry => goes(StoringStep::Founding(file)),
        Answer::Exists => goes(StoringStep::Finding(file)),
        _ => drops(file),
    }
}

/// Behind the first block of the file of the name.
fn headed(answer: &Answer, file: FileId, at: FileId) -> StoreStep
    ensures is { result ≡ headed (body_in answer.now) file at }
    ensures none { needs result.step ≡ 0 }
{
    match body_in(answer) {
        Some(body) => old_head(body, file, at),
        None => drops(file),
    }
}

/// What is removed in the end.
fn old_head(body: &Block, file: FileId, at: FileId) -> StoreStep
    ensures is { result ≡ old_head body.now (head_in body.now) file at }
    ensures none { needs result.step ≡ 0 }
{
    match head_in(body) {
        Some(head) => goes(StoringStep::Writing(file, at, Some(head.file))),
        None if body.value() == 0 => goes(StoringStep::Writing(file, at, None)),
        None => StoreStep {
            said: StoringSays::NotWhole,
            step: StoringStep::Dropping(file),
        },
    }
}

/// Behind the sync of the head.
fn synced(answer: &Answer, old: Option<FileId>) -> StoreStep
    ensures is { result ≡ synced answer.now old }
    ensures none { needs result.step ≡ 0 }
{
    match answer {
        Answer::Ok(_) => match old {
            Some(old) => goes(StoringStep::Clearing(old)),
            None => ends(StoringSays::Done),
        },
        _ => ends(StoringSays::Refused),
    }
}

/// In how many blocks so many bytes stand: in one at least.
fn blocks_for(size: usize) -> u32
    requires { size ≤ most_bytes }
    ensures { result ≡ blocks_for size }
{
    if size <= Block::SIZE {
        1
    } else {
        size.div_ceil(Block::SIZE) as u32
    }
}

impl Storing {
    /// Storing these bytes begins. No file has the name `own` yet, and nobody else gives it to one.
    pub fn new(name: Name, own: Name, bytes: Vec<u8>) -> Storing
        requires { length bytes.items ≤ most_bytes }
        ensures { result ≡ record { name = name; own = own; bytes = bytes.items; step = StoringStep.Making } }
    {
        Storing {
            name,
            own,
            bytes,
            step: StoringStep::Making,
        }
    }

    /// What is asked next.
    ///
    /// # Errors
    ///
    /// Only want of memory.
    pub fn asks(&self, alloc: Global) -> Result<Call, NoMemory>
        ensures { IfOk result (λ call. call ≡ asked_at self.now.name self.now.own self.now.bytes self.now.step) }
    {
        let block = BlockNo(0);
        match self.step {
            StoringStep::Making => Ok(self.makes()),
            StoringStep::Filling(file, place) => self.fills(alloc, file, place),
            StoringStep::Finding(_) => Ok(Call::Lookup { name: self.name }),
            StoringStep::Founding(_) => Ok(Call::Create {
                name: self.name,
                blocks: 1,
            }),
            StoringStep::Heading(_, file) => Ok(Call::Read { file, block }),
            StoringStep::Writing(file, at, _) => self.heads(alloc, file, at),
            StoringStep::Syncing(_, file, _) => Ok(Call::Sync { file }),
            StoringStep::Clearing(file) => Ok(Call::Remove { file }),
            StoringStep::Dropping(file) => Ok(Call::Remove { file }),
            StoringStep::Ended => Ok(Call::Lookup { name: self.own }),
        }
    }

    /// The call that makes the file for the bytes.
    fn makes(&self) -> Call
        ensures { result ≡ asked_at self.now.name self.now.own self.now.bytes StoringStep.Making }
    {
        Call::Create {
            name: self.own,
            blocks: blocks_for(self.bytes.len()),
        }
    }

    /// The call that stores a block.
    fn fills(&self, alloc: Global, file: FileId, place: u32) -> Result<Call, NoMemory>
        requires { 4096 * place < length self.now.bytes }
        ensures { IfOk result (λ call. call ≡ asked_at self.now.name self.now.own self.now.bytes (StoringStep.Filling file place)) }
    {
        let block = BlockNo(place);
        let body = piece(alloc, &self.bytes, place as usize)?;
        Ok(Call::Put { file, block, body })
    }

    /// The call that writes the head.
    fn heads(&self, alloc: Global, file: FileId, at: FileId) -> Result<Call, NoMemory>
        ensures { IfOk result (λ call. call ≡ Call.Write at 0 (block_of (head_of file self.now.bytes))) }
    {
        let size = self.bytes.len() as u32;
        let body = head_block(alloc, FileHead { file, size })?;
        Ok(Call::Write {
            file: at,
            block: BlockNo(0),
            body,
        })
    }

    /// Takes the answer to what was asked. When the head is written, all bytes are stored.
    pub fn take_answer(&mut self, answer: &Answer) -> StoringSays
        ensures gives { let next = store_at self.old.step answer.now self.old.bytes in (result ≡ next.said)
            × (self.new ≡ record self.old { step = next.step }) }
        ensures order { KeepsOrder answer.now self.old self.new }
    {
        self.give(answer)
    }

    /// Takes the answer to what was asked.
    fn give(&mut self, answer: &Answer) -> StoringSays
        ensures { let next = store_at self.old.step answer.now self.old.bytes in (result ≡ next.said) × (self.new ≡ record self.old { step = next.step }) }
    {
        let next = self.next(answer);
        self.step = next.step;
        next.said
    }

    /// What comes behind an answer.
    fn next(&self, answer: &Answer) -> StoreStep
        ensures is { result ≡ store_at self.now.step answer.now self.now.bytes }
        ensures enough { needs result.step ≤ length self.now.bytes }
    {
        match self.step {
            StoringStep::Making => match file_in(answer) {
                Some(file) => self.filled_to(file, 0),
                None => ends(StoringSays::Refused),
            },
            StoringStep::Filling(file, place) => {
                if is_done(answer) {
                    self.filled_to(file, place + 1)
                } else {
                    drops(file)
                }
            }
            StoringStep::Finding(file) => found(answer, file),
            StoringStep::Founding(file) => found(answer, file),
            StoringStep::Heading(file, at) => headed(answer, file, at),
            StoringStep::Writing(file, at, old) => {
                if is_done(answer) {
                    goes(StoringStep::Syncing(file, at, old))
                } else {
                    drops(file)
                }
            }
            StoringStep::Syncing(_, _, old) => synced(answer, old),
            StoringStep::Clearing(_) => ends(StoringSays::Done),
            StoringStep::Dropping(_) => ends(StoringSays::Refused),
            StoringStep::Ended => ends(StoringSays::Refused),
        }
    }

    /// So many blocks are stored.
    #[tactic(auto, unfolding(crate::specs::Storing::filled_to))]
    fn filled_to(&self, file: FileId, place: u32) -> StoreStep
        ensures is { result ≡ filled_to file place self.now.bytes }
        ensures enough { needs result.step ≤ length self.now.bytes }
    {
        if self.bytes.len() <= Block::SIZE * place as usize {
            goes(StoringStep::Finding(file))
        } else {
            goes(StoringStep::Filling(file, place))
        }
    }
}
