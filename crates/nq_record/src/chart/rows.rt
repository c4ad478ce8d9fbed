//! Where the moments stand.

use crate::chart::chart::{Chart, ChartRow, Side};
use crate::chart::style::LINE;
use crate::making::Maker;

/// A moment on the page. All is in pixels from the upper edge.
#[derive(Clone, Copy)]
pub(crate) struct ChartStep {
    /// Where it begins.
    pub(crate) top: u64,
    /// Where packets arrive.
    pub(crate) arrive: u64,
    /// Where packets are sent.
    pub(crate) send: u64,
}

/// The moments on the page.
#[derive(Drop)]
pub(crate) struct Steps {
    pub(crate) steps: Vec<ChartStep>,
    /// Where the last one ends.
    pub(crate) end: u64,
}

impl Steps {
    /// Gives each moment its place, the first one below the head: so high that its notes stand one below the other.
    pub(crate) fn of(maker: &mut Maker, chart: &Chart, head: u64) -> Steps {
        let mut steps = Vec::new(maker.alloc);
        let mut top = head;
        for row in &chart.rows {
            let arrive = top.saturating_add(6);
            let send = arrive.saturating_add(height(row));
            maker.push(&mut steps, ChartStep { top, arrive, send });
            top = send.saturating_add(6);
        }
        Steps { steps, end: top }
    }

    /// A moment.
    pub(crate) fn get(&self, row: usize) -> Option<ChartStep> {
        match self.steps.get(row) {
            Some(step) => Some(*step),
            None => None,
        }
    }
}

/// How high the notes of a row are, in pixels.
fn height(row: &ChartRow) -> u64 {
    let lines = lines(row, Side::Left).max(lines(row, Side::Right)).max(1);
    lines.saturating_mul(LINE).saturating_add(4)
}

/// How many notes of a row stand on a side.
fn lines(row: &ChartRow, side: Side) -> u64 {
    let mut lines = 0u64;
    for note in &row.notes {
        if note.side == side {
            lines = lines.saturating_add(1);
        }
    }
    lines
}
