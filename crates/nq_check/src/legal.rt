//! Which reads, and which answers to them, are legal, as links show it.

ghost use Rattle.std.specs.Prelude.{◌≡◌, ◌+◌, ◌-◌, ◌<◌, ◌≤◌, ◌||◌, Some, if◌then◌else◌, length, not, reverse, take, true};
ghost use Rattle.std.specs.List.{slice_get};
ghost use Rattle.nq_check.specs.Fronts.{AreKnown};
ghost use Rattle.nq_check.specs.Tables.{AreTables, NoneBetween};
ghost use Rattle.nq_check.specs.Legal.{is_legal_answer, is_legal_at};
ghost use Rattle.nq_model.specs.laws.Journal.{call_of};
ghost use Rattle.nq_model.specs.laws.JournalTest.{is_counted, is_lost};
ghost use Rattle.nq_model.specs.laws.LegalTest.{is_counted_by, is_counted_with, is_legal_read, is_reading};
ghost use Rattle.nq_model.specs.laws.StandsTest.{standing_value, stands};

use crate::along::{back_from, call_near, is_before_near, is_between, is_somewhere_near};
use crate::fates::{Linked, fate_at};
use crate::stored::is_stored;
use crate::tables::{LinkTables, answer_near};
use nq_base::{BlockNo, Entry, FileId, Said, Who};
use nq_rules::calls::is_reading;
use nq_rules::entries::{is_read_by, is_through, is_write_by, is_write_on, value_written};
use nq_rules::keys::{KeyKind, block_key, call_key};
use nq_rules::sought::Sought;

/// A read, as its R tells it.
#[derive(Drop)]
struct Reading<'a> {
    who: &'a Who,
    q: u64,
    file: FileId,
    block: BlockNo,
    value: u32,
}

/// Whether an entry, which stands at a place, is a counted read.
pub(crate) fn is_counted(tables: &LinkTables, whole: &[Entry], place: usize, entry: &Entry) -> bool
    requires tables { AreTables whole.now tables.now }
    ensures { result ≡ is_counted (reverse whole.now) entry.now }
{
    match entry {
        Entry::R { who, q, served, .. } => match served {
            None => true,
            Some(packet) => is_somewhere_near(
                &tables.calls,
                whole,
                answer_near(tables, place),
                Sought::AnswerBy {
                    who,
                    q: *q,
                    packet: *packet,
                },
            ),
        },
        _ => false,
    }
}

/// Whether an L before a place covers the write at another.
fn is_lost(linked: &Linked, place: usize, at: usize, write: &Entry) -> bool
    requires tables { AreTables linked.now.whole.now linked.now.tables.now }
    requires within { place < length linked.now.whole.now }
    ensures { result ≡ is_lost (reverse (take place linked.now.whole.now)) write.now }
{
    is_before_near(
        &linked.tables.covers,
        linked.whole,
        place,
        fate_at(linked.fates, at),
        Sought::Loss(write),
    )
}

/// Whether the write at a place stands for the read at another.
fn stands(linked: &Linked, place: usize, read: &Reading, at: usize, write: &Entry) -> bool
    requires known { AreKnown linked.now.whole.now linked.now.tables.now linked.now.fates.now }
    requires there { slice_get linked.now.whole.now at ≡ Some write.now }
    requires within { place < length linked.now.whole.now }
    ensures { result ≡ stands (reverse linked.now.whole.now) (reverse (take place linked.now.whole.now)) read.now.who.now read.now.file read.now.block
        write.now }
{
    is_write_on(write, read.file, read.block)
        && (is_through(write)
            || (is_stored(linked, at, write)
                || is_write_by(write, read.who) && !is_lost(linked, place, at, write)))
}

/// The place of the last write before a read that stands for it, counted from 1, or 0 where there is none.
fn last_standing(linked: &Linked, place: usize, read: &Reading) -> usize
    requires known { AreKnown linked.now.whole.now linked.now.tables.now linked.now.fates.now }
    requires within { place < length linked.now.whole.now }
    ensures low { result ≤ place }
    ensures none { NoneBetween (stands (reverse linked.now.whole.now) (reverse (take place linked.now.whole.now)) read.now.who.now read.now.file
        read.now.block) linked.now.whole.now result place }
    ensures there { 0 < result → (write : Entry) → slice_get linked.now.whole.now (result - 1) ≡ Some write
        → stands (reverse linked.now.whole.now) (reverse (take place linked.now.whole.now)) read.now.who.now read.now.file read.now.block
        write ≡ true }
{
    let whole = linked.whole;
    let key = block_key(read.file, read.block);
    let mut at = back_from(
        &linked.tables.writes,
        KeyKind::Writes,
        key,
        whole,
        whole.len(),
        place,
    );
    while at > 0 {
        if stands(linked, place, read, at - 1, &whole[at - 1]) {
            return at;
        }
        at = back_from(
            &linked.tables.writes,
            KeyKind::Writes,
            key,
            whole,
            whole.len(),
            at - 1,
        );
    }
    0
}

/// The value of the last write before a read that stands for it, or 0 where there is none.
fn standing_value(linked: &Linked, place: usize, read: &Reading) -> u32
    requires known { AreKnown linked.now.whole.now linked.now.tables.now linked.now.fates.now }
    requires within { place < length linked.now.whole.now }
    ensures { result ≡ standing_value (reverse linked.now.whole.now) (reverse (take place linked.now.whole.now)) read.now.who.now read.now.file
        read.now.block }
{
    let whole = linked.whole;
    let at = last_standing(linked, place, read);
    let cut = Sought::Cut {
        file: &read.file,
        block: &read.block,
    };
    if is_between(&linked.tables.cuts, whole, at, place, cut) {
        return 0;
    }
    if at == 0 {
        return 0;
    }
    value_written(&whole[at - 1])
}

/// Whether a counted read is legal.
fn is_legal_read(linked: &Linked, place: usize, read: &Reading) -> bool
    requires known { AreKnown linked.now.whole.now linked.now.tables.now linked.now.fates.now }
    requires within { place < length linked.now.whole.now }
    ensures { result ≡ is_legal_read (reverse linked.now.whole.now) (reverse (take place linked.now.whole.now)) read.now.who.now read.now.q
        read.now.file read.now.block read.now.value }
{
    read.value == standing_value(linked, place, read)
        && is_reading(call_near(&linked.tables.calls, linked.whole, place, read.who, read.q))
        && is_somewhere_near(
            &linked.tables.calls,
            linked.whole,
            answer_near(linked.tables, place),
            Sought::AnswerWith {
                who: read.who,
                q: read.q,
                value: read.value,
            },
        )
}

/// Whether an entry, which stands at a place, is a counted read by a call.
fn is_counted_by(linked: &Linked, place: usize, by: &Who, n: u64, entry: &Entry) -> bool
    requires tables { AreTables linked.now.whole.now linked.now.tables.now }
    ensures { result ≡ is_counted_by (reverse linked.now.whole.now) by.now n entry.now }
{
    is_read_by(entry, by, n) && is_counted(linked.tables, linked.whole, place, entry)
}

/// Whether an entry, which stands at a place, is a counted read by a call, of a value.
fn is_counted_with(linked: &Linked, place: usize, by: &Who, n: u64, v: u32, entry: &Entry) -> bool
    requires tables { AreTables linked.now.whole.now linked.now.tables.now }
    ensures { result ≡ is_counted_with (reverse linked.now.whole.now) by.now n v entry.now }
{
    match entry {
        Entry::R { value, .. } => *value == v && is_counted_by(linked, place, by, n, entry),
        _ => false,
    }
}

/// A number, or the next one where something is counted.
fn counted(number: usize, here: bool) -> usize
    requires { number < 18446744073709551615 }
    ensures { result ≡ (if here then 1 + number else number) }
{
    if here { number + 1 } else { number }
}

#[tactic(auto, unfolding(crate::specs::Legal::is_legal_answer))]
/// Whether exactly one counted read is of a call and a value.
fn is_legal_answer(linked: &Linked, by: &Who, n: u64, v: u32) -> bool
    requires tables { AreTables linked.now.whole.now linked.now.tables.now }
    ensures { result ≡ is_legal_answer (reverse linked.now.whole.now) by.now n v }
{
    let whole = linked.whole;
    let key = call_key(by, n);
    let mut number: usize = 0;
    let mut at = back_from(
        &linked.tables.reads,
        KeyKind::Reads,
        key,
        whole,
        whole.len(),
        whole.len(),
    );
    while at > 0 {
        let counts = is_counted_with(linked, at - 1, by, n, v, &whole[at - 1]);
        number = counted(number, counts);
        at = back_from(
            &linked.tables.reads,
            KeyKind::Reads,
            key,
            whole,
            whole.len(),
            at - 1,
        );
    }
    number == 1
}

/// Whether the answer at a place is legal.
fn answers_legally(linked: &Linked, place: usize, by: &Who, n: u64, v: u32) -> bool
    requires tables { AreTables linked.now.whole.now linked.now.tables.now }
    requires within { place < length linked.now.whole.now }
    ensures { result ≡ (not (is_reading (call_of (reverse linked.now.whole.now) by.now n)) || is_legal_answer (reverse linked.now.whole.now) by.now n v) }
{
    !is_reading(call_near(&linked.tables.calls, linked.whole, place, by, n))
        || is_legal_answer(linked, by, n, v)
}

/// Whether the entry at a place is legal, as the links show.
pub(crate) fn is_legal(linked: &Linked, place: usize, entry: &Entry) -> bool
    requires known { AreKnown linked.now.whole.now linked.now.tables.now linked.now.fates.now }
    requires within { place < length linked.now.whole.now }
    ensures { result ≡ is_legal_at (reverse linked.now.whole.now) entry.now (reverse (take place linked.now.whole.now)) }
{
    match entry {
        Entry::R {
            who,
            q,
            file,
            block,
            value,
            ..
        } => {
            !is_counted(linked.tables, linked.whole, place, entry)
                || is_legal_read(
                    linked,
                    place,
                    &Reading {
                        who,
                        q: *q,
                        file: *file,
                        block: *block,
                        value: *value,
                    },
                )
        }
        Entry::A {
            who,
            q,
            said: Said::OkValue(value),
        } => answers_legally(linked, place, who, *q, *value),
        Entry::A {
            who,
            q,
            said: Said::OkBy { value, .. },
        } => answers_legally(linked, place, who, *q, *value),
        _ => true,
    }
}
