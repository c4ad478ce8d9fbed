//! Entries that are looked for.

ghost use Rattle.std.specs.Prelude.{◌≡◌, reverse};
ghost use Rattle.nq_rules.specs.Sought.{kind_sought, passes, spot_sought};
ghost use Rattle.nq_model.specs.laws.JournalTest.{exists};

use crate::entries::{
    covers, cuts, is_answer, is_answer_by, is_answer_with, is_busy_answer, is_call, is_resize_by,
    loss_covers, store_covers,
};
use crate::keys::{EntryKey, KeyKind, block_key, call_key, own_key_of};
use nq_base::{BlockNo, Entry, FileId, Who};

/// An entry that is looked for.
#[derive(Clone, Copy)]
pub enum Sought<'a> {
    /// A C of a call.
    Call {
        who: &'a Who,
        q: u64,
    },
    /// An A of a call.
    Answer {
        who: &'a Who,
        q: u64,
    },
    /// An A of a call that says `by` a packet.
    AnswerBy {
        who: &'a Who,
        q: u64,
        packet: u64,
    },
    /// An A of a call that says ok with a value.
    AnswerWith {
        who: &'a Who,
        q: u64,
        value: u32,
    },
    /// An A `busy` of a call.
    Busy {
        who: &'a Who,
        q: u64,
    },
    /// A Z of a call.
    Resize {
        who: &'a Who,
        q: u64,
    },
    /// A Z that cuts a block.
    Cut {
        file: &'a FileId,
        block: &'a BlockNo,
    },
    /// An S or L that covers a write.
    Cover(&'a Entry),
    /// An S that covers a write.
    Store(&'a Entry),
    /// An L that covers a write.
    Loss(&'a Entry),
    /// A write that an S or L covers.
    Covered(&'a Entry),
    /// A write that an L covers.
    Lost(&'a Entry),
}

/// Whether an entry is what is looked for.
pub fn passes(sought: Sought, entry: &Entry) -> bool
    ensures { result ≡ passes sought.entry entry.now }
{
    match sought {
        Sought::Call { who, q } => is_call(entry, who, q),
        Sought::Answer { who, q } => is_answer(entry, who, q),
        Sought::AnswerBy { who, q, packet } => is_answer_by(entry, who, q, packet),
        Sought::AnswerWith { who, q, value } => is_answer_with(entry, who, q, value),
        Sought::Busy { who, q } => is_busy_answer(entry, who, q),
        Sought::Resize { who, q } => is_resize_by(entry, who, q),
        Sought::Cut { file, block } => cuts(entry, *file, *block),
        Sought::Cover(write) => covers(entry, write),
        Sought::Store(write) => store_covers(entry, write),
        Sought::Loss(write) => loss_covers(entry, write),
        Sought::Covered(cover) => covers(cover, entry),
        Sought::Lost(loss) => loss_covers(loss, entry),
    }
}

/// The key of the links to follow.
pub fn key_sought(sought: Sought) -> EntryKey
    ensures { result ≡ spot_sought sought.entry }
{
    match sought {
        Sought::Call { who, q }
        | Sought::Answer { who, q }
        | Sought::AnswerBy { who, q, .. }
        | Sought::AnswerWith { who, q, .. }
        | Sought::Busy { who, q }
        | Sought::Resize { who, q } => call_key(who, q),
        Sought::Cut { file, .. } => block_key(*file, BlockNo(0)),
        Sought::Cover(entry)
        | Sought::Store(entry)
        | Sought::Loss(entry)
        | Sought::Covered(entry)
        | Sought::Lost(entry) => own_key_of(entry),
    }
}

/// The kind of the links to follow.
pub fn kind_sought(sought: Sought) -> KeyKind
    ensures { result ≡ kind_sought sought.entry }
{
    match sought {
        Sought::Call { .. }
        | Sought::Answer { .. }
        | Sought::AnswerBy { .. }
        | Sought::AnswerWith { .. }
        | Sought::Busy { .. }
        | Sought::Resize { .. } => KeyKind::Calls,
        Sought::Cut { .. } => KeyKind::Cuts,
        Sought::Cover(_) | Sought::Store(_) | Sought::Loss(_) => KeyKind::Covers,
        Sought::Covered(_) | Sought::Lost(_) => KeyKind::Own,
    }
}

#[tactic(auto, using(crate::proofs::Backwards::last_first))]
/// Whether what is looked for is one of the entries, without links. The first that is ends the search.
pub(crate) fn is_among(entries: &[Entry], sought: Sought) -> bool
    ensures { result ≡ exists (passes sought.entry) (reverse entries.now) }
{
    for entry in entries {
        if passes(sought, entry) {
            return true;
        }
    }
    false
}

/// Whether it is one of the entries. Those from a place on are looked at first.
pub(crate) fn is_near(entries: &[Entry], near: usize, sought: Sought) -> bool
    ensures { result ≡ exists (passes sought.entry) (reverse entries.now) }
{
    let (earlier, later) = entries.split_at(near.min(entries.len()));
    is_among(later, sought) || is_among(earlier, sought)
}
