//! Where the parties stand.

use crate::chart::bars::Lanes;
use crate::chart::chart::{Chart, Side};
use crate::chart::style::{CLOCK, LANE, LETTER};
use crate::making::Maker;

/// How far from its line the first thing beside a party stands, in pixels.
pub(crate) const BESIDE: u64 = 8;

/// How far parties stand apart at least, in pixels.
const APART: u64 = 170;

/// A party on the page.
#[derive(Clone, Copy)]
pub(crate) struct Post {
    /// How far its line stands from the left edge, in pixels.
    pub(crate) x: u64,
    /// The side on which its bars stand.
    pub(crate) bars: Side,
    /// How wide all its bars are, in pixels.
    pub(crate) wide: u64,
}

impl Post {
    /// How far from the line the text of a side begins, in pixels.
    pub(crate) fn text_from(&self, side: Side) -> u64 {
        if side == self.bars {
            self.wide.saturating_add(BESIDE)
        } else {
            BESIDE
        }
    }
}

/// The parties on the page.
#[derive(Drop)]
pub(crate) struct Posts {
    pub(crate) posts: Vec<Post>,
    /// How wide the page is, in pixels.
    pub(crate) width: u64,
}

impl Posts {
    /// Gives each party its place: so far from the next one that no text of the one reaches the line of the other.
    pub(crate) fn of(maker: &mut Maker, chart: &Chart, lanes: &Lanes) -> Posts {
        let mut posts = Vec::new(maker.alloc);
        let mut x = edge(chart.columns.len() as u64);
        let mut before = 0;
        for (place, column) in chart.columns.iter().enumerate() {
            let mut post = Post {
                x: 0,
                bars: column.bars,
                wide: lanes.count(place).saturating_mul(LANE),
            };
            let left = room(chart, place, Side::Left, &post);
            let apart = if place == 0 {
                left
            } else {
                APART.max(before).max(left)
            };
            x = x.saturating_add(apart);
            post.x = x;
            before = room(chart, place, Side::Right, &post);
            maker.push(&mut posts, post);
        }
        let width = x.saturating_add(before).max(360);
        Posts { posts, width }
    }

    /// A party.
    pub(crate) fn get(&self, party: usize) -> Option<Post> {
        match self.posts.get(party) {
            Some(post) => Some(*post),
            None => None,
        }
    }
}

/// How wide the edge with names and clocks is, in pixels.
pub(crate) fn edge(parties: u64) -> u64 {
    parties.saturating_mul(CLOCK).saturating_add(64)
}

/// How much room a party needs on a side, in pixels.
fn room(chart: &Chart, party: usize, side: Side, post: &Post) -> u64 {
    let letters = longest(chart, party, side);
    post.text_from(side)
        .saturating_add(letters.saturating_mul(LETTER))
        .saturating_add(2 * BESIDE)
}

/// The letters of the longest note of a party on a side. A name stands half on each side.
fn longest(chart: &Chart, party: usize, side: Side) -> u64 {
    let mut most = match chart.columns.get(party) {
        Some(column) => column.name.len() as u64 / 2,
        None => 0,
    };
    for row in &chart.rows {
        for note in &row.notes {
            if row.party == party && note.side == side {
                most = most.max(note.text.len() as u64);
            }
        }
    }
    most
}
