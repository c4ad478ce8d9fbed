//! What stands in a chart.

/// A message sequence chart. Parties and rows are meant by their places, counted from 0; what names a place that is not there is
/// left out.
#[derive(Drop)]
pub struct Chart {
    /// What the chart shows, in a few words.
    pub title: String,
    /// The parties, from left to right.
    pub columns: Vec<Column>,
    /// The moments, from the first one down.
    pub rows: Vec<ChartRow>,
    /// The packets.
    pub packets: Vec<Packet>,
    /// The spans of time beside the parties.
    pub bars: Vec<Bar>,
}

/// A party.
#[derive(Drop)]
pub struct Column {
    /// Its name.
    pub name: String,
    /// The side of its line on which its bars stand.
    pub bars: Side,
}

/// A side of a party's line.
#[derive(Clone, Copy, PartialEq, Eq)]
pub enum Side {
    Left,
    Right,
}

/// A moment.
#[derive(Drop)]
pub struct ChartRow {
    /// How the moment is named at the edge of the chart.
    pub name: String,
    /// For each party what its clock shows, where that is to be told.
    pub clocks: Vec<Option<u64>>,
    /// Who acts.
    pub party: usize,
    /// What is to be read beside the party that acts.
    pub notes: Vec<Note>,
}

/// A line of text beside a party.
#[derive(Drop)]
pub struct Note {
    /// On which side of the party's line.
    pub side: Side,
    /// Of what it tells.
    pub sign: Sign,
    /// The text.
    pub text: String,
}

/// Of what a note tells, which gives it its colour.
#[derive(Clone, Copy)]
pub enum Sign {
    /// A packet that arrives.
    Packet,
    /// Something that was lost.
    Loss,
    /// What a user asks and is answered.
    Call,
    /// A write, and where it is stored.
    Write,
    /// A party that starts again.
    Start,
    /// Anything else.
    Plain,
}

/// A packet.
#[derive(Drop)]
pub struct Packet {
    /// The party that sends it.
    pub from: usize,
    /// The party for which it is.
    pub to: usize,
    /// The row in which it is sent; None where that stands before the first row.
    pub sent: Option<usize>,
    /// The rows in which it arrives, in their order; none where it is lost.
    pub arrivals: Vec<usize>,
    /// What is told of it where a reader points at it.
    pub text: String,
}

/// A span of time beside a party.
#[derive(Drop)]
pub struct Bar {
    /// The party.
    pub party: usize,
    /// The row in which it begins.
    pub first: usize,
    /// The row in which it ends.
    pub last: usize,
    /// What it is.
    pub tint: Tint,
    /// Its name, of a few letters.
    pub text: String,
}

/// What a bar is, which gives it its colour.
#[derive(Clone, Copy)]
pub enum Tint {
    /// A lease under which nothing is cached.
    NonCaching,
    /// A lease for reading.
    Reading,
    /// A lease for writing.
    Writing,
    /// A recovery.
    Recovery,
}
