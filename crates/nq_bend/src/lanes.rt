//! Packets of two runs, matched to one another.

ghost use Rattle.std.specs.Prelude.{◌≡◌, [], IfOk};
ghost use Rattle.nq_bend.specs.Bending.{IsLonger};

use crate::old::Old;
use nq_base::{NoMemory, Party};
use nq_record::Sent;
use std::alloc::Global;

/// The packets of one kind on one link.
#[derive(Drop)]
struct Lane {
    from: Party,
    to: Party,
    kind: String,
    /// Their numbers in the old run.
    old: Vec<u64>,
    /// How many were sent in the new run.
    new: usize,
}

/// The packets of two runs by link and kind.
#[derive(Drop)]
pub(crate) struct Lanes {
    alloc: Global,
    lanes: Vec<Lane>,
    /// Of each packet of the new run the one of the old that it is.
    pub(crate) olds: Vec<Option<u64>>,
    /// Of each packet of the old run the one of the new that it is.
    news: Vec<Option<u64>>,
}

impl Lanes {
    /// The packets of an old run. No packet of the new run was sent.
    pub(crate) fn new(alloc: Global, sent: &[Sent]) -> Result<Lanes, NoMemory>
        ensures { IfOk result (λ lanes. lanes.olds.items ≡ []) }
    {
        let mut lanes = Lanes {
            alloc,
            lanes: Vec::new(alloc),
            olds: Vec::new(alloc),
            news: vec![in alloc; None; sent.len()]?,
        };
        for number in 0..sent.len() {
            lanes.add(number as u64, &sent[number])?;
        }
        Ok(lanes)
    }

    /// How many packets were sent in the new run.
    pub(crate) fn sent(&self) -> usize {
        self.olds.len()
    }

    /// Of each packet of the new run the one of the old that it is.
    pub(crate) fn into_olds(self) -> Vec<Option<u64>>
        ensures { result ≡ self.olds }
    {
        let Lanes { olds, .. } = self;
        olds
    }

    /// The packet of the new run that a packet of the old one is.
    pub(crate) fn new_of(&self, packet: u64) -> Option<u64> {
        match self.news.get(packet as usize) {
            Some(new) => *new,
            None => None,
        }
    }

    /// Whether the old run did not lose the last packet on the link of a packet and of its kind.
    pub(crate) fn was_heard(&self, packet: &Sent, old: &Old) -> bool {
        for lane in &self.lanes {
            if lane.is_of(packet) {
                return match lane.old.last() {
                    Some(last) => !old.is_overtaken(*last),
                    None => true,
                };
            }
        }
        true
    }

    /// Adds a packet of the old run.
    fn add(&mut self, number: u64, packet: &Sent) -> Result<(), NoMemory>
        ensures { self.new.olds ≡ self.old.olds }
    {
        for lane in self.lanes.iter_mut() {
            if lane.is_of(packet) {
                lane.old.push(number)?;
                return Ok(());
            }
        }
        let mut old = Vec::new(self.alloc);
        old.push(number)?;
        self.lanes.push(Lane {
            from: packet.from,
            to: packet.to,
            kind: String::from_str(self.alloc, kind_of(packet))?,
            old,
            new: 0,
        })?;
        Ok(())
    }

    /// Notes the next packet of the new run; the one of the old that it is.
    pub(crate) fn note(&mut self, packet: &Sent) -> Result<Option<u64>, NoMemory>
        ensures { IsLonger self.old.olds.items self.new.olds.items }
    {
        let number = self.olds.len() as u64;
        let old = match_in(&mut self.lanes, packet);
        self.olds.push(old)?;
        if let Some(old) = old {
            if let Some(new) = self.news.get_mut(old as usize) {
                *new = Some(number);
            }
        }
        Ok(old)
    }
}

impl Lane {
    /// Whether a packet is of this link and kind.
    fn is_of(&self, packet: &Sent) -> bool {
        self.from == packet.from && self.to == packet.to && self.kind.as_str() == kind_of(packet)
    }

    /// The packet of the old run that the next one of the new run is.
    fn next_packet(&mut self) -> Option<u64> {
        let place = self.new;
        self.new = place.saturating_add(1);
        match self.old.get(place) {
            Some(old) => Some(*old),
            None => None,
        }
    }
}

/// The packet of the old run that a packet of the new one is.
fn match_in(lanes: &mut Vec<Lane>, packet: &Sent) -> Option<u64> {
    for lane in lanes.iter_mut() {
        if lane.is_of(packet) {
            return lane.next_packet();
        }
    }
    None
}

/// The kind of a packet: the first word of what it says.
fn kind_of(packet: &Sent) -> &str {
    let words = packet.words.as_str();
    match words.split_once(' ') {
        Some((kind, _)) => kind,
        None => words,
    }
}
