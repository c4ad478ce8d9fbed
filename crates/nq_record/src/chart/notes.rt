//! The moments: their names, clocks and notes.

use crate::chart::chart::{Chart, ChartRow, Note, Side, Sign};
use crate::chart::columns::Post;
use crate::chart::frame::clock_at;
use crate::chart::layout::Layout;
use crate::chart::pages::Page;
use crate::chart::parts::Part;
use crate::chart::rows::ChartStep;
use crate::chart::style::LINE;

/// The class of a note.
fn class(sign: Sign) -> &'static str {
    match sign {
        Sign::Packet => "k",
        Sign::Loss => "l",
        Sign::Call => "c",
        Sign::Write => "w",
        Sign::Start => "s",
        Sign::Plain => "d",
    }
}

/// The names and clocks of all moments, each over a thin line.
pub(crate) fn names(page: &mut Page, chart: &Chart, layout: &Layout) {
    for (place, row) in chart.rows.iter().enumerate() {
        if let Some(step) = layout.steps.get(place) {
            name(page, layout.posts.width, row, step);
            clocks(page, row, step);
        }
    }
}

/// The name of a moment, over a thin line.
fn name(page: &mut Page, width: u64, row: &ChartRow, step: ChartStep) {
    page.put_within(
        "<path class=\"r\" d=\"M0 #H#\"/><text class=\"d\" x=\"8\" y=\"#\">",
        &[step.top, width, step.arrive.saturating_add(12)],
        row.name.as_str(),
        "</text>\n",
    );
}

/// What the clocks show.
fn clocks(page: &mut Page, row: &ChartRow, step: ChartStep) {
    for (place, shown) in row.clocks.iter().enumerate() {
        if let Some(time) = shown {
            clock(page, place, *time, step);
        }
    }
}

/// What the clock of a party shows.
fn clock(page: &mut Page, place: usize, time: u64, step: ChartStep) {
    page.fill(
        "<text class=\"d e\" x=\"#\" y=\"#\">#</text>",
        &[clock_at(place), step.arrive.saturating_add(12), time],
    );
}

/// The notes of all moments, each beside the party that acts.
pub(crate) fn notes(page: &mut Page, chart: &Chart, layout: &Layout) {
    for (place, row) in chart.rows.iter().enumerate() {
        if let (Some(step), Some(post)) = (layout.steps.get(place), layout.posts.get(row.party)) {
            dot(page, row, post, step);
            side_notes(page, row, Side::Left, post, step);
            side_notes(page, row, Side::Right, post, step);
        }
    }
}

/// The dot on the line of the party that acts.
fn dot(page: &mut Page, row: &ChartRow, post: Post, step: ChartStep) {
    let class = match row.notes.first() {
        Some(note) => class(note.sign),
        None => "d",
    };
    page.put(&[Part::Text("<circle class=\""), Part::Text(class)]);
    page.fill(
        "\" cx=\"#\" cy=\"#\" r=\"4\"/>",
        &[post.x, step.arrive.saturating_add(8)],
    );
}

/// The notes on a side, one below the other.
fn side_notes(page: &mut Page, row: &ChartRow, side: Side, post: Post, step: ChartStep) {
    let mut y = step.arrive.saturating_add(12);
    for shown in &row.notes {
        if shown.side == side {
            note(page, shown, post, y);
            y = y.saturating_add(LINE);
        }
    }
}

/// A note.
fn note(page: &mut Page, shown: &Note, post: Post, y: u64) {
    let from = post.text_from(shown.side);
    let (form, x) = match shown.side {
        Side::Left => (" e\" x=\"#\" y=\"#\">", post.x.saturating_sub(from)),
        Side::Right => ("\" x=\"#\" y=\"#\">", post.x.saturating_add(from)),
    };
    page.put(&[Part::Text("<text class=\""), Part::Text(class(shown.sign))]);
    page.put_within(form, &[x, y], shown.text.as_str(), "</text>\n");
}
