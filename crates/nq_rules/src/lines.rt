//! How far the calls of an incarnation have come, as one look over a journal learns it.

ghost use Rattle.std.specs.Prelude.{◌≡◌};
ghost use Rattle.nq_rules.specs.Lines.{after_answer_of, after_call, after_call_at, after_read_of, after_resize_of, after_write_of, is_sizing, is_used};
ghost use Rattle.nq_rules.specs.Lines.{is_writing, lower, sizing_of, upper, writing_of};

use nq_base::{BlockNo, FileId, KeptCall, Number, Told};

/// A file, a block of it and a value: the write that a call asks.
pub type Writing = (u32, u32, u32);

/// A file and a length: what a call asks its file to become.
pub type Sizing = (u32, u32);

/// The write that a call asks, where it asks one.
fn writing_of(told: &Told) -> Option<Writing>
    ensures { result ≡ writing_of told.now }
{
    match told {
        Told::Write { file, block, value } => Some((file.0, block.0, *value)),
        Told::Put { file, block, value } => Some((file.0, block.0, *value)),
        _ => None,
    }
}

/// The length that a call asks for its file, where it asks one.
fn sizing_of(told: &Told) -> Option<Sizing>
    ensures { result ≡ sizing_of told.now }
{
    match told {
        Told::Resize { file, blocks } => Some((file.0, *blocks)),
        Told::Remove { file } => Some((file.0, 0)),
        _ => None,
    }
}

/// Whether a write of a value to a block is asked.
fn is_writing(asked: Option<Writing>, on: FileId, at: BlockNo, v: u32) -> bool
    ensures { result ≡ is_writing on at v asked }
{
    match asked {
        Some((file, block, value)) => file == on.0 && block == at.0 && value == v,
        None => false,
    }
}

/// Whether it is asked that a file gets a length.
fn is_sizing(asked: Option<Sizing>, on: FileId, to: u32) -> bool
    ensures { result ≡ is_sizing on to asked }
{
    match asked {
        Some((file, blocks)) => file == on.0 && blocks == to,
        None => false,
    }
}

/// The open call of an incarnation, and what it has made.
#[derive(Clone, Copy)]
pub struct Open {
    /// Its number.
    pub q: u64,
    /// The write that it asks for, where it asks for one.
    pub writing: Option<Writing>,
    /// The length that it asks for, where it asks for one.
    pub sizing: Option<Sizing>,
    /// Whether its write stands in the journal.
    pub wrote: bool,
    /// Whether its change of a length stands there.
    pub resized: bool,
    /// Whether a read of it stands there.
    pub read: bool,
}

/// How far the calls of an incarnation have come.
#[derive(Clone, Copy)]
pub struct CallProgress {
    /// The highest number of its calls.
    pub highest: u64,
    /// The highest number of its writes.
    pub last: u64,
    /// The lowest number of its writes.
    pub least: u64,
    /// The call that is open, where one is.
    pub current: Option<Open>,
    /// The call that the next entry answers `busy`.
    pub busy: Option<u64>,
}

/// The line behind a C whose number is the highest.
fn after_call_at(line: &CallProgress, q: u64, told: &Told, is_busy: bool) -> Option<CallProgress>
    ensures { result ≡ after_call_at line.now q told.now is_busy line.now.current line.now.busy }
{
    if line.busy.is_some() {
        return None;
    }
    match line.current {
        None => Some(CallProgress {
            highest: q,
            current: Some(Open {
                q,
                writing: writing_of(told),
                sizing: sizing_of(told),
                wrote: false,
                resized: false,
                read: false,
            }),
            ..*line
        }),
        Some(_) if is_busy => Some(CallProgress {
            highest: q,
            busy: Some(q),
            ..*line
        }),
        Some(_) => None,
    }
}

/// The line behind a C, where it is known whether the next entry answers it `busy`. None where the C may be out of order.
pub fn after_call(
    line: &CallProgress,
    q: u64,
    told: &KeptCall,
    is_busy: bool,
) -> Option<CallProgress>
    ensures { result ≡ after_call line.now q told.now is_busy }
{
    if q <= line.highest {
        return None;
    }
    after_call_at(line, q, &told.told(), is_busy)
}

/// The higher of two numbers.
fn upper(a: u64, b: u64) -> u64
    ensures { result ≡ upper a b }
{
    if a <= b { b } else { a }
}

/// The lower of two numbers.
fn lower(a: u64, b: u64) -> u64
    ensures { result ≡ lower a b }
{
    if a <= b { a } else { b }
}

/// Whether a number is neither above all that were used nor below them.
fn is_used(line: &CallProgress, number: Number) -> bool
    ensures { result ≡ is_used line.now number }
{
    number.0 <= line.last && line.least <= number.0
}

/// The line behind a W, whose number has to be above all that were used, or below them. None where the W may be out of order.
pub fn after_write(
    line: &CallProgress,
    file: FileId,
    block: BlockNo,
    number: Number,
    value: u32,
) -> Option<CallProgress>
    ensures { result ≡ after_write_of line.now file block number value line.now.current line.now.busy }
{
    if line.busy.is_some() {
        return None;
    }
    let open = line.current?;
    if open.wrote || is_used(line, number) || !is_writing(open.writing, file, block, value) {
        return None;
    }
    let open = Open {
        q: open.q,
        writing: open.writing,
        sizing: open.sizing,
        wrote: true,
        resized: open.resized,
        read: open.read,
    };
    Some(CallProgress {
        last: upper(number.0, line.last),
        least: lower(number.0, line.least),
        current: Some(open),
        ..*line
    })
}

/// The line behind a Z. None where the Z may be out of order.
pub fn after_resize(line: &CallProgress, q: u64, file: FileId, to: u32) -> Option<CallProgress>
    ensures { result ≡ after_resize_of line.now q file to line.now.current }
{
    let open = line.current?;
    if open.q != q || open.resized || !is_sizing(open.sizing, file, to) {
        return None;
    }
    let open = Open {
        q: open.q,
        writing: open.writing,
        sizing: open.sizing,
        wrote: open.wrote,
        resized: true,
        read: open.read,
    };
    Some(CallProgress {
        current: Some(open),
        ..*line
    })
}

/// The line behind a counted read. None where the read may be out of order.
pub fn after_read(line: &CallProgress, q: u64) -> Option<CallProgress>
    ensures { result ≡ after_read_of line.now q line.now.current }
{
    let open = line.current?;
    if open.q != q || open.read {
        return None;
    }
    let open = Open {
        q: open.q,
        writing: open.writing,
        sizing: open.sizing,
        wrote: open.wrote,
        resized: open.resized,
        read: true,
    };
    Some(CallProgress {
        current: Some(open),
        ..*line
    })
}

/// The line behind an A. None where the A may be out of order.
pub fn after_answer(line: &CallProgress, q: u64) -> Option<CallProgress>
    ensures { result ≡ after_answer_of line.now q line.now.current line.now.busy }
{
    if let Some(busy) = line.busy {
        if busy != q {
            return None;
        }
        return Some(CallProgress {
            busy: None,
            ..*line
        });
    }
    let open = line.current?;
    if open.q != q {
        return None;
    }
    Some(CallProgress {
        current: None,
        ..*line
    })
}
