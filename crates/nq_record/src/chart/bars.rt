//! Bars beside each other.

use crate::chart::chart::{Bar, Chart};
use crate::making::Maker;

/// A lane beside a party, in which bars stand one below the other.
#[derive(Clone, Copy)]
struct Lane {
    party: usize,
    /// Its place among the lanes of its party.
    place: u64,
    /// The last row of its last bar.
    last: usize,
}

/// The lane of each bar, and how many lanes each party has.
#[derive(Drop)]
pub(crate) struct Lanes {
    lanes: Vec<Lane>,
    places: Vec<u64>,
}

impl Lanes {
    /// Gives each bar the first lane of its party that is free.
    pub(crate) fn of(maker: &mut Maker, chart: &Chart) -> Lanes {
        let mut lanes = Vec::new(maker.alloc);
        let mut places = Vec::new(maker.alloc);
        for bar in &chart.bars {
            let place = take_lane(maker, &mut lanes, bar);
            maker.push(&mut places, place);
        }
        Lanes { lanes, places }
    }

    /// The lane of a bar.
    pub(crate) fn place(&self, bar: usize) -> u64 {
        match self.places.get(bar) {
            Some(place) => *place,
            None => 0,
        }
    }

    /// How many lanes a party has.
    pub(crate) fn count(&self, party: usize) -> u64 {
        count(&self.lanes, party)
    }
}

/// How many of these lanes are of a party.
fn count(lanes: &[Lane], party: usize) -> u64 {
    let mut count = 0u64;
    for lane in lanes {
        if lane.party == party {
            count = count.saturating_add(1);
        }
    }
    count
}

/// Takes the first lane that is free where a bar begins, or a new one.
fn take_lane(maker: &mut Maker, lanes: &mut Vec<Lane>, bar: &Bar) -> u64 {
    for lane in lanes.iter_mut() {
        if lane.party == bar.party && lane.last < bar.first {
            lane.last = bar.last;
            return lane.place;
        }
    }
    let place = count(lanes, bar.party);
    let lane = Lane {
        party: bar.party,
        place,
        last: bar.last,
    };
    maker.push(lanes, lane);
    place
}
