//! Why an entry came.

ghost use Rattle.nq_record.specs.Page.{Extends};

use crate::NoMemory;
use crate::chart::Page;
use crate::making::Maker;
use crate::record::{Act, Record};
use crate::telling::tell_moment;
use nq_base::{BlockNo, Entry, FileId, Number, Said, Who};
use std::alloc::Global;

/// Appends the events that led to an entry, newest first, each as `tell` tells it. What stood in the text before stays in
/// front of them. An entry that is not there was led to by nothing.
///
/// An event led to an entry if it made the entry, or sent the packet whose arrival led to it, or made an entry that explains it: the
/// write that a read saw, the write that was lost, and the end in silence, or the boot of the server, for which it was.
///
/// # Errors
///
/// Only want of memory. Then nothing was appended.
pub fn why(
    alloc: Global,
    record: &Record,
    entries: &[Entry],
    place: usize,
    out: &mut Vec<u8>,
) -> Result<(), NoMemory>
    ensures { Extends out.old.items out.new.items }
{
    let mut maker = Maker::new(alloc);
    let led = led_to(&mut maker, record, entries, place);
    if maker.is_short {
        return Err(NoMemory::Memory);
    }
    let mut page = Page::new(alloc);
    let count = record.moments.len();
    for back in 0..count {
        let moment = count.saturating_sub(1).saturating_sub(back);
        if led.contains(&moment) {
            tell_moment(record, moment, &mut page);
        }
    }
    page.close(out)
}

/// The places of the events that led to an entry.
fn led_to(maker: &mut Maker, record: &Record, entries: &[Entry], place: usize) -> Vec<usize> {
    let mut led = Vec::new(maker.alloc);
    let mut open = Vec::new(maker.alloc);
    maker.push(&mut open, place);
    for _ in 0..entries.len() {
        let Some(entry) = open.pop() else {
            break;
        };
        if let Some(moment) = moment_of(record, entry) {
            follow_packets(maker, record, moment, &mut led);
        }
        if let Some(source) = source_of(entries, entry) {
            maker.push(&mut open, source);
            if let Some(end) = end_between(entries, source, entry) {
                maker.push(&mut open, end);
            }
        }
    }
    led
}

/// The event that made an entry.
fn moment_of(record: &Record, entry: usize) -> Option<usize> {
    for (place, moment) in record.moments.iter().enumerate() {
        if moment.entries <= entry && entry < moment.entries.saturating_add(moment.made) {
            return Some(place);
        }
    }
    None
}

/// Adds an event, the event that sent the packet that arrives in it, and so on.
fn follow_packets(maker: &mut Maker, record: &Record, first: usize, led: &mut Vec<usize>) {
    let mut place = first;
    for _ in 0..record.moments.len() {
        maker.push(led, place);
        let Some(moment) = record.moments.get(place) else {
            return;
        };
        let Act::Arrival(number) = moment.act else {
            return;
        };
        let Some(sent) = record.packets.get(number as usize) else {
            return;
        };
        place = sent.sent;
    }
}

/// The last entry before an entry that is its source.
fn source_of(entries: &[Entry], place: usize) -> Option<usize> {
    let entry = entries.get(place)?;
    let mut found = None;
    for (earlier, before) in entries.iter().enumerate() {
        if earlier < place && is_source(before, entry) {
            found = Some(earlier);
        }
    }
    found
}

/// Whether an earlier entry can be the source of a later one: the call, the read or the loss that is answered, the write that is read,
/// stored or lost, the grant that ends in silence.
fn is_source(before: &Entry, entry: &Entry) -> bool {
    match entry {
        Entry::A { who, q, said } => is_answered(before, *who, *q, said),
        Entry::R {
            file,
            block,
            value,
            ..
        } => gives(before, *file, *block, *value),
        Entry::S {
            who,
            file,
            block,
            last,
            ..
        }
        | Entry::L {
            who,
            file,
            block,
            last,
            ..
        } => is_write(before, *who, *file, *block, *last),
        Entry::F { who, file, .. } => is_grant(before, *who, *file),
        _ => false,
    }
}

/// Whether an entry is a call, what it read, or a loss, of which this answer tells.
fn is_answered(before: &Entry, who: Who, q: u64, said: &Said) -> bool {
    match said {
        Said::Lost(_) => match before {
            Entry::L { who: loser, .. } => *loser == who,
            _ => false,
        },
        _ => match before {
            Entry::C {
                who: caller,
                q: call,
                ..
            }
            | Entry::R {
                who: caller,
                q: call,
                ..
            } => *caller == who && *call == q,
            _ => false,
        },
    }
}

/// Whether an entry is a write of this value to a block.
fn gives(before: &Entry, file: FileId, block: BlockNo, value: u32) -> bool {
    match before {
        Entry::W {
            file: of,
            block: at,
            value: written,
            ..
        } => *of == file && *at == block && *written == value,
        _ => false,
    }
}

/// Whether an entry is this write.
fn is_write(before: &Entry, who: Who, file: FileId, block: BlockNo, number: Number) -> bool {
    match before {
        Entry::W {
            who: writer,
            file: of,
            block: at,
            number: written,
            ..
        } => *writer == who && *of == file && *at == block && *written == number,
        _ => false,
    }
}

/// Whether an entry is a grant to this client.
fn is_grant(before: &Entry, who: Who, file: FileId) -> bool {
    match before {
        Entry::G {
            who: holder,
            file: of,
            ..
        } => *holder == who && *of == file,
        _ => false,
    }
}

/// What ended the lease under which a write was lost, between the write and its loss: the end in silence, or else a boot of the server.
fn end_between(entries: &[Entry], written: usize, place: usize) -> Option<usize> {
    let Some(Entry::L { who, file, .. }) = entries.get(place) else {
        return None;
    };
    let mut silence = None;
    let mut boot = None;
    for (earlier, before) in entries.iter().enumerate() {
        if written < earlier && earlier < place {
            match before {
                Entry::F {
                    who: silent,
                    file: of,
                    ..
                } if *silent == *who && *of == *file => silence = Some(earlier),
                Entry::X { .. } => boot = Some(earlier),
                _ => {}
            }
        }
    }
    silence.or(boot)
}
