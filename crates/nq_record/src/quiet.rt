//! Ticks in which nothing happens, but that a party sends again what gets lost: they share a row of a chart.

use crate::chart::{ChartRow, Note, Part, Sign};
use crate::drawing::{outer, place_of};
use crate::making::Maker;
use crate::picture_rows::{Clocks, Rows, packet_words, taken, toward};
use crate::record::{Act, Moment, Record, Sent};
use nq_base::Party;

/// Among so many packets before it a packet is looked for that said the same.
const MOST_BACK: usize = 256;

/// Whether an event is a tick in which nothing else happens, but that what gets lost is sent again.
pub(crate) fn is_quiet(record: &Record, moment: &Moment) -> bool {
    if !matches!(moment.act, Act::Tick) || moment.made > 0 || moment.changed > 0 {
        return false;
    }
    for number in moment.packets..moment.packets.saturating_add(moment.sent) {
        if !is_again(record, number as usize) {
            return false;
        }
    }
    true
}

/// Whether a packet never arrives, and one was sent before that said the same on the same link.
fn is_again(record: &Record, number: usize) -> bool {
    let Some(sent) = record.packets.get(number) else {
        return false;
    };
    if !sent.arrivals.is_empty() {
        return false;
    }
    for place in number.saturating_sub(MOST_BACK)..number {
        if let Some(earlier) = record.packets.get(place) {
            if is_same(earlier, sent) {
                return true;
            }
        }
    }
    false
}

/// Whether two packets say the same on the same link.
fn is_same(one: &Sent, other: &Sent) -> bool {
    one.from == other.from && one.to == other.to && one.words.as_str() == other.words.as_str()
}

/// Packets of one link that say the same.
#[derive(Clone, Copy)]
struct Again {
    first: u64,
    last: u64,
    count: u64,
}

/// Quiet ticks, one after the other, in which at most one party sends.
#[derive(Drop)]
pub(crate) struct Quiet {
    first: usize,
    count: usize,
    /// Whose clock ticks; the server where several do.
    party: Party,
    /// Who sends, if one does.
    sender: Option<Party>,
    again: Vec<Again>,
}

impl Quiet {
    /// None.
    pub(crate) fn new(maker: &Maker) -> Quiet {
        Quiet {
            first: 0,
            count: 0,
            party: Party::Server,
            sender: None,
            again: Vec::new(maker.alloc),
        }
    }

    /// Whether a quiet tick can be one of them: no other party sends in it.
    pub(crate) fn takes(&self, moment: &Moment) -> bool {
        match self.sender {
            Some(sender) => moment.sent == 0 || sender == moment.party,
            None => true,
        }
    }

    /// One more.
    pub(crate) fn add(
        &mut self,
        maker: &mut Maker,
        record: &Record,
        place: usize,
        moment: &Moment,
    ) {
        if self.count == 0 {
            self.first = place;
            self.party = moment.party;
        } else if self.party != moment.party {
            self.party = Party::Server;
        }
        self.count = self.count.saturating_add(1);
        for number in moment.packets..moment.packets.saturating_add(moment.sent) {
            self.sender = Some(moment.party);
            self.send(maker, record, number);
        }
    }

    /// One packet more.
    fn send(&mut self, maker: &mut Maker, record: &Record, number: u64) {
        let Some(sent) = record.packets.get(number as usize) else {
            return;
        };
        for again in self.again.iter_mut() {
            if let Some(first) = record.packets.get(again.first as usize) {
                if is_same(first, sent) {
                    again.last = number;
                    again.count = again.count.saturating_add(1);
                    return;
                }
            }
        }
        let again = Again {
            first: number,
            last: number,
            count: 1,
        };
        maker.push(&mut self.again, again);
    }

    /// Gives them a row, if there are any; then there are none.
    pub(crate) fn end(
        &mut self,
        maker: &mut Maker,
        record: &Record,
        rows: &mut Rows,
        clocks: &mut Clocks,
    ) {
        if self.count > 0 {
            let row = self.row(maker, record, clocks);
            rows.add(maker, self.count, row);
        }
        self.count = 0;
        self.sender = None;
        self.again.clear();
    }

    /// Whoever sends, or else whose clock ticks.
    fn place(&self) -> &Party {
        match &self.sender {
            Some(sender) => sender,
            None => &self.party,
        }
    }

    /// Their row.
    fn row(&self, maker: &mut Maker, record: &Record, clocks: &mut Clocks) -> ChartRow {
        let party = self.place();
        let (name, text) = if self.count == 1 {
            ("#", "tick")
        } else {
            ("#-#", "# ticks")
        };
        let last = self.first.saturating_add(self.count).saturating_sub(1);
        let text = maker.filled(text, &[self.count as u64]);
        let mut notes = self.losses(maker, record, party);
        let side = outer(record.hosts, *party);
        let sign = Sign::Plain;
        maker.push(&mut notes, Note { side, sign, text });
        ChartRow {
            name: maker.filled(name, &[self.first as u64, last as u64]),
            clocks: taken(maker, clocks),
            party: place_of(record.hosts, *party),
            notes,
        }
    }

    /// The notes of what this party sends.
    fn losses(&self, maker: &mut Maker, record: &Record, party: &Party) -> Vec<Note> {
        let mut notes = Vec::new(maker.alloc);
        for again in &self.again {
            if let Some(sent) = record.packets.get(again.first as usize) {
                let side = toward(record.hosts, *party, sent.to);
                let sign = Sign::Loss;
                let text = again_words(maker, again, sent);
                maker.push(&mut notes, Note { side, sign, text });
            }
        }
        notes
    }
}

/// The numbers of packets, how many they are, and what they say.
fn again_words(maker: &mut Maker, again: &Again, sent: &Sent) -> String {
    if again.count == 1 {
        return packet_words(maker, again.first, sent, ", lost");
    }
    let numbers = maker.filled("# to #, # times: ", &[again.first, again.last, again.count]);
    lost_words(maker, numbers.as_str(), sent)
}

/// What packets say that are lost, behind their numbers.
fn lost_words<'a>(maker: &mut Maker, numbers: &'a str, sent: &'a Sent) -> String {
    maker.text(&[
        Part::Text(numbers),
        Part::Text(sent.words.as_str()),
        Part::Text(", lost"),
    ])
}
