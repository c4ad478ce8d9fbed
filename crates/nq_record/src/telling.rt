//! A run, told line by line.

ghost use Rattle.nq_record.specs.Page.{Extends};

use crate::NoMemory;
use crate::chart::{Page, Part};
use crate::columns::{put_blanks, put_right};
use crate::record::{Act, Moment, Record, Sent};
use crate::spans::{Change, SpanKind};
use crate::text::{mode_word, party_parts};
use nq_base::Mode;
use std::alloc::Global;

/// Appends a line for each event: its number, who acts and what the clock of that party shows, what happens, how many rows the server
/// then has, how many leases the hosts hold and how many blocks with delayed writes they have. Behind these columns stands, each behind
/// a bar, what began or ended, the packets that are sent, and the entries that are made. What stood in the text before stays
/// in front of it.
///
/// # Errors
///
/// Only want of memory. Then nothing was appended.
pub fn tell(alloc: Global, record: &Record, out: &mut Vec<u8>) -> Result<(), NoMemory>
    ensures { Extends out.old.items out.new.items }
{
    let mut page = Page::new(alloc);
    for place in 0..record.moments.len() {
        tell_moment(record, place, &mut page);
    }
    page.close(out)
}

/// Puts the line of an event.
pub(crate) fn tell_moment(record: &Record, place: usize, page: &mut Page) {
    if let Some(moment) = record.moments.get(place) {
        tell_act(record, place, moment, page);
        tell_changes(record, moment, page);
        tell_packets(record, moment, page);
        tell_entries(record, moment, page);
        page.put(&[Part::Text("\n")]);
    }
}

/// Puts the columns of an event that have a fixed width.
fn tell_act(record: &Record, place: usize, moment: &Moment, page: &mut Page) {
    put_right(page, place as u64, 6, " ");
    let clock = page.len().saturating_add(8);
    page.put(&party_parts(moment.party));
    put_blanks(page, clock);
    put_right(page, moment.clock.0, 7, "  ");
    let counts = page.len().saturating_add(52);
    tell_what(record, place, moment.act, page);
    put_blanks(page, counts);
    page.put(&[Part::Text(" rows ")]);
    put_right(page, moment.rows as u64, 3, " leases ");
    put_right(page, moment.leases as u64, 3, " delayed ");
    put_right(page, moment.dirty as u64, 4, "");
}

/// Puts what happens.
fn tell_what(record: &Record, place: usize, act: Act, page: &mut Page) {
    let word = match act {
        Act::Arrival(number) => return tell_arrival(record, place, number, page),
        Act::Call => "call",
        Act::Tick => "tick",
        Act::Restart => "restart",
        Act::Crash => "crash",
    };
    page.put(&[Part::Text(word)]);
}

/// Puts an arrival.
fn tell_arrival(record: &Record, place: usize, number: u64, page: &mut Page) {
    page.fill("deliver #", &[number]);
    if let Some(sent) = record.packets.get(number as usize) {
        page.put(&[
            Part::Text(again_word(sent, place)),
            Part::Text(sent.words.as_str()),
        ]);
    }
}

/// What stands between the number of a packet that arrives and its words.
fn again_word(sent: &Sent, place: usize) -> &'static str {
    match sent.arrivals.first() {
        Some(first) if *first < place => " again: ",
        _ => ": ",
    }
}

/// Puts what begins or ends in an event, and how many blocks with delayed writes the host then has, if that is another number than
/// before.
fn tell_changes(record: &Record, moment: &Moment, page: &mut Page) {
    let end = moment.changes.saturating_add(moment.changed);
    for place in moment.changes..end {
        if let Some(change) = record.changes.get(place) {
            tell_change(change, page);
        }
    }
    if let Some(blocks) = moment.delays {
        page.fill(" | delayed #", &[blocks as u64]);
    }
}

/// Puts a change in words, behind a bar and a sign.
fn tell_change(change: &Change, page: &mut Page) {
    let sign = if change.begins { " | + " } else { " | - " };
    page.put(&[Part::Text(sign)]);
    match change.kind {
        SpanKind::Recovery => page.put(&[Part::Text("recovery")]),
        SpanKind::Lease { file, mode } => tell_lease("lease ", mode, file.0, page),
        SpanKind::Row { file, host, mode } => {
            tell_lease("row ", mode, file.0, page);
            page.fill(" of host #", &[host.0 as u64]);
        }
    }
}

/// Puts a word, the kind of a lease and its file.
fn tell_lease(word: &str, mode: Mode, file: u32, page: &mut Page) {
    page.put(&[
        Part::Text(word),
        Part::Text(mode_word(mode)),
        Part::Text(" "),
        Part::Number(file as u64),
    ]);
}

/// Puts the packets that an event sends, each behind a bar: its number, to whom it goes, and what it says.
fn tell_packets(record: &Record, moment: &Moment, page: &mut Page) {
    let end = moment.packets.saturating_add(moment.sent);
    for number in moment.packets..end {
        if let Some(sent) = record.packets.get(number as usize) {
            page.fill(" | sends # to ", &[number]);
            page.put(&party_parts(sent.to));
            page.put(&[Part::Text(": "), Part::Text(sent.words.as_str())]);
        }
    }
}

/// Puts the entries that an event makes.
fn tell_entries(record: &Record, moment: &Moment, page: &mut Page) {
    let end = moment.entries.saturating_add(moment.made);
    for place in moment.entries..end {
        if let Some(entry) = record.entries.get(place) {
            page.put(&[Part::Text(" | "), Part::Text(entry.words.as_str())]);
        }
    }
}
