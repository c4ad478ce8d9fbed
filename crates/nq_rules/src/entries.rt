//! What a single entry tells.

ghost use Rattle.std.specs.Prelude.{◌≡◌, Some};
ghost use Rattle.nq_model.specs.laws.Journal.{cuts, told_by, value_written};
ghost use Rattle.nq_model.specs.laws.JournalTest.{covers, is_answer, is_answer_by, is_call, is_read_by, is_through, is_within, is_write_by, is_write_on};
ghost use Rattle.nq_model.specs.laws.JournalTest.{loss_covers, store_covers};
ghost use Rattle.nq_model.specs.laws.LegalTest.{gives_value, is_answer_with};
ghost use Rattle.nq_model.specs.laws.OrderedTest.{is_call_below, is_numbered, is_resize_by};
ghost use Rattle.nq_model.specs.laws.ReportedTest.{is_busy_answer};
ghost use Rattle.nq_model.specs.laws.SynchronizedTest.{is_delayed_on};

use nq_base::{BlockNo, Entry, FileId, Number, Said, Told, Who};

/// Whether it is a C of a call.
pub fn is_call(entry: &Entry, by: &Who, n: u64) -> bool
    ensures { result ≡ is_call by.now n entry.now }
{
    match entry {
        Entry::C { who, q, .. } => *by == *who && n == *q,
        _ => false,
    }
}

/// What it tells of a call, if it is the call's C.
pub fn told_by(entry: &Entry, by: &Who, n: u64) -> Option<Told>
    ensures { result ≡ told_by entry.now by.now n }
{
    match entry {
        Entry::C { who, q, told } if *by == *who && n == *q => Some(told.told()),
        _ => None,
    }
}

/// Whether it is an A of a call.
pub fn is_answer(entry: &Entry, by: &Who, n: u64) -> bool
    ensures { result ≡ is_answer by.now n entry.now }
{
    match entry {
        Entry::A { who, q, .. } => *by == *who && n == *q,
        _ => false,
    }
}

/// Whether it is an A of a call that says `by` a packet.
pub(crate) fn is_answer_by(entry: &Entry, by: &Who, n: u64, k: u64) -> bool
    ensures { result ≡ is_answer_by by.now n k entry.now }
{
    match entry {
        Entry::A {
            who,
            q,
            said: Said::OkBy { packet, .. },
        } => *by == *who && n == *q && k == *packet,
        _ => false,
    }
}

/// Whether an answer is ok with a value.
fn gives_value(said: &Said, v: u32) -> bool
    ensures { result ≡ gives_value v said.now }
{
    match said {
        Said::OkValue(value) => v == *value,
        Said::OkBy { value, .. } => v == *value,
        _ => false,
    }
}

/// Whether it is an A of a call that says ok with a value.
pub(crate) fn is_answer_with(entry: &Entry, by: &Who, n: u64, v: u32) -> bool
    ensures { result ≡ is_answer_with by.now n v entry.now }
{
    match entry {
        Entry::A { who, q, said } => *by == *who && n == *q && gives_value(said, v),
        _ => false,
    }
}

/// Whether it is an A `busy` of a call.
pub(crate) fn is_busy_answer(entry: &Entry, by: &Who, n: u64) -> bool
    ensures { result ≡ is_busy_answer by.now n entry.now }
{
    match entry {
        Entry::A {
            who,
            q,
            said: Said::Busy,
        } => *by == *who && n == *q,
        _ => false,
    }
}

/// Whether it is a read by a call.
pub fn is_read_by(entry: &Entry, by: &Who, n: u64) -> bool
    ensures { result ≡ is_read_by by.now n entry.now }
{
    match entry {
        Entry::R { who, q, .. } => *by == *who && n == *q,
        _ => false,
    }
}

/// Whether it is a C of the incarnation with a number below one, or no C of it.
pub(crate) fn is_call_below(entry: &Entry, by: &Who, n: u64) -> bool
    ensures { result ≡ is_call_below by.now n entry.now }
{
    match entry {
        Entry::C { who, q, .. } => *by != *who || *q < n,
        _ => true,
    }
}

/// Whether it is the write of an incarnation with a number.
pub(crate) fn is_numbered(entry: &Entry, by: &Who, n: Number) -> bool
    ensures { result ≡ is_numbered by.now n entry.now }
{
    match entry {
        Entry::W { who, number, .. } => *by == *who && n == *number,
        _ => false,
    }
}

/// Whether it is a Z of a call.
pub fn is_resize_by(entry: &Entry, by: &Who, n: u64) -> bool
    ensures { result ≡ is_resize_by by.now n entry.now }
{
    match entry {
        Entry::Z { who, q, .. } => *by == *who && n == *q,
        _ => false,
    }
}

/// Whether it is a write to a block.
pub fn is_write_on(entry: &Entry, on: FileId, at: BlockNo) -> bool
    ensures { result ≡ is_write_on on at entry.now }
{
    match entry {
        Entry::W { file, block, .. } => *file == on && *block == at,
        _ => false,
    }
}

/// Whether it is a write of an incarnation.
pub fn is_write_by(entry: &Entry, by: &Who) -> bool
    ensures { result ≡ is_write_by by.now entry.now }
{
    match entry {
        Entry::W { who, .. } => *by == *who,
        _ => false,
    }
}

/// Whether it is a write that went through.
pub fn is_through(entry: &Entry) -> bool
    ensures { result ≡ is_through entry.now }
{
    match entry {
        Entry::W { through, .. } => *through,
        _ => false,
    }
}

/// The value that it gives its block, or 0 where it is no write.
pub fn value_written(entry: &Entry) -> u32
    ensures { result ≡ value_written entry.now }
{
    match entry {
        Entry::W { value, .. } => *value,
        _ => 0,
    }
}

/// Whether it is a delayed write of an incarnation on a file.
pub(crate) fn is_delayed_on(entry: &Entry, by: &Who, on: FileId) -> bool
    ensures { result ≡ is_delayed_on by.now on entry.now }
{
    match entry {
        Entry::W {
            who,
            file,
            through,
            ..
        } => !*through && *by == *who && *file == on,
        _ => false,
    }
}

/// Delayed writes as an S or L tells them: those of an incarnation to a block with numbers from `first` to `last`.
#[derive(Drop)]
pub(crate) struct Extent<'a> {
    pub(crate) who: &'a Who,
    pub(crate) file: FileId,
    pub(crate) block: BlockNo,
    pub(crate) first: Number,
    pub(crate) last: Number,
}

/// Whether a write is one of them.
pub(crate) fn is_within(write: &Entry, extent: &Extent) -> bool
    ensures { result ≡ is_within extent.now.who.now extent.now.file extent.now.block extent.now.first extent.now.last write.now }
{
    match write {
        Entry::W {
            who,
            file,
            block,
            number,
            through,
            ..
        } => {
            !*through
                && *extent.who == *who
                && *file == extent.file
                && *block == extent.block
                && extent.first <= *number
                && *number <= extent.last
        }
        _ => false,
    }
}

/// Whether it is an S and covers a write.
pub(crate) fn store_covers(entry: &Entry, write: &Entry) -> bool
    ensures { result ≡ store_covers entry.now write.now }
{
    match entry {
        Entry::S {
            who,
            file,
            block,
            first,
            last,
            ..
        } => is_within(
            write,
            &Extent {
                who,
                file: *file,
                block: *block,
                first: *first,
                last: *last,
            },
        ),
        _ => false,
    }
}

/// Whether it is an L and covers a write.
pub fn loss_covers(entry: &Entry, write: &Entry) -> bool
    ensures { result ≡ loss_covers entry.now write.now }
{
    match entry {
        Entry::L {
            who,
            file,
            block,
            first,
            last,
        } => is_within(
            write,
            &Extent {
                who,
                file: *file,
                block: *block,
                first: *first,
                last: *last,
            },
        ),
        _ => false,
    }
}

/// Whether it covers a write.
pub fn covers(entry: &Entry, write: &Entry) -> bool
    ensures { result ≡ covers entry.now write.now }
{
    match entry {
        Entry::S { .. } => store_covers(entry, write),
        Entry::L { .. } => loss_covers(entry, write),
        _ => false,
    }
}

/// Whether it is a Z that cuts a block.
pub(crate) fn cuts(entry: &Entry, on: FileId, at: BlockNo) -> bool
    ensures { result ≡ cuts entry.now on at }
{
    match entry {
        Entry::Z { file, to, .. } => *file == on && *to <= at.0,
        _ => false,
    }
}
