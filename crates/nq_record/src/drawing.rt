//! A run as a chart.

ghost use Rattle.std.specs.Prelude.{◌≡◌, ◌+◌, vec_len, IfOk};

use crate::NoMemory;
use crate::chart::{Bar, Chart, Column, Packet, Part, Side, Tint};
use crate::making::Maker;
use crate::picture_rows::{Rows, packet_words, rows_of};
use crate::record::{Record, Sent};
use crate::spans::{Span, SpanKind};
use crate::text::party_parts;
use nq_base::{Host, Mode, Party};
use std::alloc::Global;

/// How many hosts stand left of the server.
fn hosts_left(hosts: u32) -> u32 {
    hosts / 2 + hosts % 2
}

/// The place of a party, from the left: the server stands in the middle.
pub(crate) fn place_of(hosts: u32, party: Party) -> usize {
    let left = hosts_left(hosts);
    match party {
        Party::Server => left as usize,
        Party::Client(host) => place_of_host(left, host.0),
    }
}

/// The place of a host, where so many stand left of the server.
fn place_of_host(left: u32, host: u32) -> usize {
    let place = host as usize;
    if host < left {
        place
    } else {
        place.saturating_add(1)
    }
}

/// The side of a party that is turned away from the others; the server has its bars on the right.
pub(crate) fn outer(hosts: u32, party: Party) -> Side {
    match party {
        Party::Client(host) if host.0 < hosts_left(hosts) => Side::Left,
        _ => Side::Right,
    }
}

/// The events from `from` to `to` of a run as a chart, with a column for each host and one for the server. Ticks in which nothing
/// else happens share a row, and so do those in which a party only sends again what gets lost.
///
/// # Errors
///
/// Only want of memory.
pub fn picture(
    alloc: Global,
    record: &Record,
    title: String,
    from: usize,
    to: usize,
) -> Result<Chart, NoMemory>
    ensures { IfOk result (λ chart. vec_len chart.columns ≡ «record».now.hosts + 1) }
{
    let mut maker = Maker::new(alloc);
    let columns = columns(&mut maker, record.hosts);
    let shown = rows_of(&mut maker, record, from, to);
    let packets = packets(&mut maker, record, &shown);
    let bars = bars(&mut maker, record, &shown);
    // A column is missing only where memory was wanting.
    if maker.is_short || columns.len() != record.hosts as usize + 1 {
        return Err(NoMemory::Memory);
    }
    Ok(Chart {
        title,
        columns,
        rows: shown.into_rows(),
        packets,
        bars,
    })
}

/// The parties: the server stands between the hosts.
fn columns(maker: &mut Maker, hosts: u32) -> Vec<Column> {
    let mut columns = Vec::new(maker.alloc);
    let left = hosts_left(hosts);
    for place in 0..=hosts {
        let column = column(maker, hosts, &party_at(left, place));
        maker.push(&mut columns, column);
    }
    columns
}

/// A party.
fn column(maker: &mut Maker, hosts: u32, party: &Party) -> Column {
    let bars = outer(hosts, *party);
    let name = maker.text(&party_parts(*party));
    Column { name, bars }
}

/// The party at a place, where so many hosts stand left of the server.
fn party_at(left: u32, place: u32) -> Party {
    if place < left {
        Party::Client(Host(place))
    } else if place == left {
        Party::Server
    } else {
        Party::Client(Host(place - 1))
    }
}

/// The packets that are sent or arrive in the rows that are shown.
fn packets(maker: &mut Maker, record: &Record, shown: &Rows) -> Vec<Packet> {
    let mut packets = Vec::new(maker.alloc);
    for (number, sent) in record.packets.iter().enumerate() {
        if is_shown(sent, shown) {
            let packet = packet(maker, record.hosts, number as u64, sent, shown);
            maker.push(&mut packets, packet);
        }
    }
    packets
}

/// Whether a packet arrives in one of the rows that are shown, or is sent in one of them and never arrives.
fn is_shown(sent: &Sent, shown: &Rows) -> bool {
    if sent.arrivals.is_empty() {
        return shown.row_of(sent.sent).is_some();
    }
    for moment in &sent.arrivals {
        if shown.row_of(*moment).is_some() {
            return true;
        }
    }
    false
}

/// A packet of this number.
fn packet(maker: &mut Maker, hosts: u32, number: u64, sent: &Sent, shown: &Rows) -> Packet {
    Packet {
        from: place_of(hosts, sent.from),
        to: place_of(hosts, sent.to),
        sent: shown.row_of(sent.sent),
        arrivals: arrivals(maker, sent, shown),
        text: packet_words(maker, number, sent, ""),
    }
}

/// The rows in which a packet arrives.
fn arrivals(maker: &mut Maker, sent: &Sent, shown: &Rows) -> Vec<usize> {
    let mut arrivals = Vec::new(maker.alloc);
    for moment in &sent.arrivals {
        if let Some(row) = shown.row_of(*moment) {
            maker.push(&mut arrivals, row);
        }
    }
    arrivals
}

/// The bars of what lasts in the rows that are shown.
fn bars(maker: &mut Maker, record: &Record, shown: &Rows) -> Vec<Bar> {
    let mut bars = Vec::new(maker.alloc);
    for span in &record.spans {
        if span.first <= shown.to && span.last >= shown.from {
            let first = shown.row_of(span.first.max(shown.from));
            let last = shown.row_of(span.last.min(shown.to));
            if let (Some(first), Some(last)) = (first, last) {
                let bar = bar(maker, record.hosts, span, first, last);
                maker.push(&mut bars, bar);
            }
        }
    }
    bars
}

/// The bar of something that lasts.
fn bar(maker: &mut Maker, hosts: u32, span: &Span, first: usize, last: usize) -> Bar {
    Bar {
        party: place_of(hosts, span.party),
        first,
        last,
        tint: tint(span.kind),
        text: bar_text(maker, span.kind),
    }
}

/// The name of a bar: the kind of the lease by its letter, the file, and at the server the host.
fn bar_text(maker: &mut Maker, kind: SpanKind) -> String {
    match kind {
        SpanKind::Recovery => maker.text(&[Part::Text("recovery")]),
        SpanKind::Lease { file, mode } => {
            maker.text(&[Part::Text(letter(mode)), Part::Number(file.0 as u64)])
        }
        SpanKind::Row { file, host, mode } => maker.text(&[
            Part::Text(letter(mode)),
            Part::Number(file.0 as u64),
            Part::Text(" h"),
            Part::Number(host.0 as u64),
        ]),
    }
}

/// The letter of a kind of lease.
fn letter(mode: Mode) -> &'static str {
    match mode {
        Mode::NonCaching => "n",
        Mode::Reading => "r",
        Mode::Writing => "w",
    }
}

/// The colour of something that lasts.
fn tint(kind: SpanKind) -> Tint {
    match kind {
        SpanKind::Recovery => Tint::Recovery,
        SpanKind::Lease { mode, .. } | SpanKind::Row { mode, .. } => match mode {
            Mode::NonCaching => Tint::NonCaching,
            Mode::Reading => Tint::Reading,
            Mode::Writing => Tint::Writing,
        },
    }
}
