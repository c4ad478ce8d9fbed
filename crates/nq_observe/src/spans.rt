//! What lasts for some time.

use crate::memory::Memory;
use nq_base::{FileId, Host, Party, Row};
use nq_client::Client;
use nq_record::{Change, Moment, Span, SpanKind};
use std::alloc::Global;

/// What lasts, and what of it began or ended, in the order of the events.
#[derive(Drop)]
pub(crate) struct Spans {
    pub(crate) spans: Vec<Span>,
    pub(crate) changes: Vec<Change>,
    /// The places of the spans that go on.
    open: Vec<usize>,
    /// The highest file of which there was a row.
    files: u32,
}

impl Spans {
    /// Nothing lasts.
    pub(crate) fn new(alloc: Global) -> Spans {
        Spans {
            spans: Vec::new(alloc),
            changes: Vec::new(alloc),
            open: Vec::new(alloc),
            files: 0,
        }
    }

    /// The spans, and what of them began or ended.
    pub(crate) fn into_parts(self) -> (Vec<Span>, Vec<Change>) {
        let Spans {
            spans,
            changes,
            open: _open,
            files: _,
        } = self;
        (spans, changes)
    }

    /// Lets the leases among the newest spans begin where they were asked for. So many spans are older.
    pub(crate) fn date_leases(&mut self, older: usize, asked: usize) {
        for place in older..self.spans.len() {
            if let Some(span) = self.spans.get_mut(place) {
                if let SpanKind::Lease { .. } = span.kind {
                    span.first = asked;
                }
            }
        }
    }

    /// Notes the rows that the server has after the event at a place, and whether it recovers.
    pub(crate) fn see_server(
        &mut self,
        memory: &mut Memory,
        rows: &[Row],
        recovers: bool,
        place: usize,
    ) {
        for row in rows {
            self.files = self.files.max(row.file.0);
            let kind = SpanKind::Row {
                file: row.file,
                host: row.who.host,
                mode: row.mode,
            };
            self.touch(memory, &Party::Server, &kind, place);
        }
        if recovers {
            self.touch(memory, &Party::Server, &SpanKind::Recovery, place);
        }
    }

    /// Notes the leases of a host that run, how many blocks with delayed writes it has, and what its clock shows, if it acts.
    pub(crate) fn see_client(
        &mut self,
        memory: &mut Memory,
        client: &Client,
        host: u32,
        place: usize,
        moment: &mut Moment,
    ) {
        let party = Party::Client(Host(host));
        let now = client.time();
        let blocks = client.dirty().pending();
        moment.dirty = moment.dirty.saturating_add(blocks);
        if moment.party == party {
            moment.clock = now;
            moment.delays = Some(blocks);
        }
        for file in 1..self.files.saturating_add(1) {
            let held = client.held(FileId(file));
            if held.live(now) {
                if let Some(mode) = held.mode() {
                    let kind = SpanKind::Lease {
                        file: FileId(file),
                        mode,
                    };
                    self.touch(memory, &party, &kind, place);
                    moment.leases = moment.leases.saturating_add(1);
                }
            }
        }
    }

    /// Notes that something is there at a place. Where it was not there before, it begins there.
    fn touch(&mut self, memory: &mut Memory, party: &Party, kind: &SpanKind, place: usize) {
        if !goes_on(&mut self.spans, &self.open, party, kind, place) {
            self.begin(memory, party, kind, place);
        }
    }

    /// Notes that something begins at a place.
    fn begin(&mut self, memory: &mut Memory, party: &Party, kind: &SpanKind, place: usize) {
        let newest = self.spans.len();
        let change = Change {
            kind: *kind,
            begins: true,
        };
        let span = Span {
            party: *party,
            kind: *kind,
            first: place,
            last: place,
            open: true,
        };
        memory.push(&mut self.open, newest);
        memory.push(&mut self.changes, change);
        memory.push(&mut self.spans, span);
    }

    /// Ends what is no longer there after the event at a place.
    pub(crate) fn end(&mut self, memory: &mut Memory, place: usize) {
        let mut open = Vec::new(memory.alloc);
        for index in &self.open {
            match ended(&mut self.spans, *index, place) {
                Some(kind) => {
                    let change = Change {
                        kind,
                        begins: false,
                    };
                    memory.push(&mut self.changes, change);
                }
                None => memory.push(&mut open, *index),
            }
        }
        self.open = open;
    }
}

/// Notes that one of the spans that go on is there, if it is one of them.
fn goes_on(
    spans: &mut Vec<Span>,
    open: &[usize],
    party: &Party,
    kind: &SpanKind,
    place: usize,
) -> bool {
    for index in open {
        if let Some(span) = spans.get_mut(*index) {
            if span.party == *party && span.kind == *kind {
                span.last = place;
                return true;
            }
        }
    }
    false
}

/// Ends a span that was not there at a place; what it was, if it ends.
fn ended(spans: &mut Vec<Span>, index: usize, place: usize) -> Option<SpanKind> {
    match spans.get_mut(index) {
        Some(span) => end_span(span, place),
        None => None,
    }
}

/// Ends a span if it was not there at a place; what it was, if it ends.
fn end_span(span: &mut Span, place: usize) -> Option<SpanKind> {
    if span.last < place {
        span.open = false;
        span.last = place;
        Some(span.kind)
    } else {
        None
    }
}
