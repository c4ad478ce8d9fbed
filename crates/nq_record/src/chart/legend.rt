//! What the colours and arrows mean.

use crate::chart::style::LETTER;
use crate::making::Maker;

/// What a sample in the legend shows.
#[derive(Clone, Copy)]
pub(crate) struct Sample {
    /// Whether it is an arrow, and else a bar.
    pub(crate) is_arrow: bool,
    /// Its class.
    pub(crate) class: &'static str,
    /// Its name.
    pub(crate) name: &'static str,
}

/// The samples, in their order.
pub(crate) const SAMPLES: [Sample; 7] = [
    Sample {
        is_arrow: true,
        class: "a",
        name: "packet",
    },
    Sample {
        is_arrow: true,
        class: "a g",
        name: "arrives again",
    },
    Sample {
        is_arrow: true,
        class: "x",
        name: "lost",
    },
    Sample {
        is_arrow: false,
        class: "n1",
        name: "reading lease",
    },
    Sample {
        is_arrow: false,
        class: "n2",
        name: "writing lease",
    },
    Sample {
        is_arrow: false,
        class: "n0",
        name: "non-caching lease",
    },
    Sample {
        is_arrow: false,
        class: "n3",
        name: "recovery",
    },
];

/// A sample, and where it stands on the page, in pixels from the left and from the upper edge.
#[derive(Clone, Copy)]
pub(crate) struct Entry {
    /// The place of the sample among all.
    pub(crate) sample: usize,
    pub(crate) x: u64,
    pub(crate) y: u64,
}

/// Where the left edge of the legend is, in pixels.
const LEFT: u64 = 8;

/// How wide a sample is with the room beside it, in pixels.
pub(crate) const SAMPLE: u64 = 38;

/// How far the lines of the legend stand apart, in pixels.
const APART: u64 = 18;

/// The legend.
#[derive(Drop)]
pub(crate) struct Legend {
    pub(crate) entries: Vec<Entry>,
    /// Where the first row begins, in pixels from the upper edge.
    pub(crate) end: u64,
}

impl Legend {
    /// Gives each entry its place, in lines that are no wider than the page.
    pub(crate) fn of(maker: &mut Maker, width: u64) -> Legend {
        let mut entries = Vec::new(maker.alloc);
        let mut x = LEFT;
        let mut y = 44;
        for (place, sample) in SAMPLES.iter().enumerate() {
            let letters = sample.name.len() as u64;
            let wide = SAMPLE.saturating_add(letters.saturating_mul(LETTER));
            if x.saturating_add(wide) > width {
                x = LEFT;
                y = APART.saturating_add(y);
            }
            let entry = Entry {
                sample: place,
                x,
                y,
            };
            maker.push(&mut entries, entry);
            x = x.saturating_add(wide).saturating_add(16);
        }
        Legend {
            entries,
            end: y.saturating_add(46),
        }
    }
}
