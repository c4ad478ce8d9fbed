//! Events as the rows of a chart.

use crate::chart::{ChartRow, Note, Part, Side, Sign};
use crate::drawing::{outer, place_of};
use crate::making::Maker;
use crate::quiet::{Quiet, is_quiet};
use crate::record::{Act, Moment, Record, Sent};
use nq_base::Party;
use std::mem;

/// The rows of a chart, and in which of them each event stands.
#[derive(Drop)]
pub(crate) struct Rows {
    /// The first event that is shown.
    pub(crate) from: usize,
    /// The last event that is shown.
    pub(crate) to: usize,
    rows: Vec<ChartRow>,
    places: Vec<usize>,
}

impl Rows {
    /// Adds the row of so many events.
    pub(crate) fn add(&mut self, maker: &mut Maker, events: usize, row: ChartRow) {
        let place = self.rows.len();
        for _ in 0..events {
            maker.push(&mut self.places, place);
        }
        maker.push(&mut self.rows, row);
    }

    /// The row of an event, if it is shown.
    pub(crate) fn row_of(&self, moment: usize) -> Option<usize> {
        if moment < self.from {
            return None;
        }
        match self.places.get(moment - self.from) {
            Some(row) => Some(*row),
            None => None,
        }
    }

    /// The rows, as many as there was memory for.
    pub(crate) fn into_rows(self) -> Vec<ChartRow> {
        let Rows {
            from: _,
            to: _,
            rows,
            places: _places,
        } = self;
        rows
    }
}

/// What the clocks show that no row has told yet, by the places of the parties.
pub(crate) type Clocks = Vec<Option<u64>>;

/// Clocks of so many parties that all show this time.
fn clocks_of(maker: &mut Maker, parties: usize, time: Option<u64>) -> Clocks {
    let mut clocks = Vec::new(maker.alloc);
    for _ in 0..parties {
        maker.push(&mut clocks, time);
    }
    clocks
}

/// What the clocks show; from then on nothing is untold.
pub(crate) fn taken(maker: &mut Maker, clocks: &mut Clocks) -> Clocks {
    let untold = clocks_of(maker, clocks.len(), None);
    mem::replace(clocks, untold)
}

/// The rows of the events from `from` to `to`. Quiet ticks, one after the other, share a row.
pub(crate) fn rows_of(maker: &mut Maker, record: &Record, from: usize, to: usize) -> Rows {
    let parties = (record.hosts as usize).saturating_add(1);
    let mut clocks = clocks_of(maker, parties, Some(0));
    let mut rows = Rows {
        from,
        to,
        rows: Vec::new(maker.alloc),
        places: Vec::new(maker.alloc),
    };
    let mut quiet = Quiet::new(maker);
    for (place, moment) in record.moments.iter().enumerate() {
        let is_shown = place >= from && place <= to;
        let joins = is_quiet(record, moment) && quiet.takes(moment);
        if is_shown && !joins {
            quiet.end(maker, record, &mut rows, &mut clocks);
        }
        if let Some(clock) = clocks.get_mut(place_of(record.hosts, moment.party)) {
            *clock = Some(moment.clock.0);
        }
        if is_shown && is_quiet(record, moment) {
            quiet.add(maker, record, place, moment);
        } else if is_shown {
            let row = event_row(maker, record, place, moment, &mut clocks);
            rows.add(maker, 1, row);
        }
    }
    quiet.end(maker, record, &mut rows, &mut clocks);
    rows
}

/// The row of an event.
fn event_row(
    maker: &mut Maker,
    record: &Record,
    place: usize,
    moment: &Moment,
    clocks: &mut Clocks,
) -> ChartRow {
    ChartRow {
        name: maker.text(&[Part::Number(place as u64)]),
        clocks: taken(maker, clocks),
        party: place_of(record.hosts, moment.party),
        notes: notes(maker, record, moment),
    }
}

/// The notes of an event.
fn notes(maker: &mut Maker, record: &Record, moment: &Moment) -> Vec<Note> {
    let mut notes = Vec::new(maker.alloc);
    let side = arrival_note(maker, record, moment, &mut notes);
    entry_notes(maker, record, moment, side, &mut notes);
    lost_notes(maker, record, moment, &mut notes);
    if notes.is_empty() {
        let sign = Sign::Plain;
        let text = maker.text(&[Part::Text(act_word(moment.act))]);
        maker.push(&mut notes, Note { side, sign, text });
    }
    notes
}

/// The note of the packet that arrives, if one does; the side on which the other notes stand.
fn arrival_note(
    maker: &mut Maker,
    record: &Record,
    moment: &Moment,
    notes: &mut Vec<Note>,
) -> Side {
    if let Act::Arrival(number) = moment.act {
        if let Some(sent) = record.packets.get(number as usize) {
            let side = toward(record.hosts, moment.party, sent.from);
            let sign = Sign::Packet;
            let text = packet_words(maker, number, sent, "");
            maker.push(notes, Note { side, sign, text });
            return other(side);
        }
    }
    outer(record.hosts, moment.party)
}

/// The number of a packet and what it says, with an end.
pub(crate) fn packet_words<'a>(
    maker: &mut Maker,
    number: u64,
    sent: &'a Sent,
    end: &'a str,
) -> String {
    maker.text(&[
        Part::Number(number),
        Part::Text(": "),
        Part::Text(sent.words.as_str()),
        Part::Text(end),
    ])
}

/// What an event is called that has no other note.
fn act_word(act: Act) -> &'static str {
    match act {
        Act::Call => "call",
        Act::Arrival(_) => "arrival",
        Act::Tick => "tick",
        Act::Restart => "starts again",
        Act::Crash => "boots again",
    }
}

/// The notes of the entries that an event makes.
fn entry_notes(
    maker: &mut Maker,
    record: &Record,
    moment: &Moment,
    side: Side,
    notes: &mut Vec<Note>,
) {
    let end = moment.entries.saturating_add(moment.made);
    for place in moment.entries..end {
        if let Some(entry) = record.entries.get(place) {
            let sign = entry.sign;
            let text = maker.text(&[Part::Text(entry.words.as_str())]);
            maker.push(notes, Note { side, sign, text });
        }
    }
}

/// The notes of the packets that an event sends and that never arrive.
fn lost_notes(maker: &mut Maker, record: &Record, moment: &Moment, notes: &mut Vec<Note>) {
    let end = moment.packets.saturating_add(moment.sent);
    for number in moment.packets..end {
        if let Some(sent) = record.packets.get(number as usize) {
            if sent.arrivals.is_empty() {
                let side = toward(record.hosts, moment.party, sent.to);
                let sign = Sign::Loss;
                let text = packet_words(maker, number, sent, ", lost");
                maker.push(notes, Note { side, sign, text });
            }
        }
    }
}

/// The side of a party on which another one stands.
pub(crate) fn toward(hosts: u32, party: Party, another: Party) -> Side {
    if place_of(hosts, another) < place_of(hosts, party) {
        Side::Left
    } else {
        Side::Right
    }
}

/// The other side.
fn other(side: Side) -> Side {
    match side {
        Side::Left => Side::Right,
        Side::Right => Side::Left,
    }
}
