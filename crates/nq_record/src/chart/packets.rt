//! The packets and the bars.

use crate::chart::chart::{Bar, Chart, Packet, Side, Tint};
use crate::chart::columns::Post;
use crate::chart::layout::Layout;
use crate::chart::pages::Page;
use crate::chart::parts::Part;
use crate::chart::style::{BAR, LANE};

/// How long the arrow of a lost packet is, in pixels.
const LOST: u64 = 44;

/// How wide a letter in a bar is, in pixels.
const SMALL: u64 = 6;

/// All packets.
pub(crate) fn packets(page: &mut Page, chart: &Chart, layout: &Layout) {
    for packet in &chart.packets {
        if let (Some(from), Some(to)) = (
            layout.posts.get(packet.from),
            layout.posts.get(packet.to),
        ) {
            arrows(page, layout, packet, from, to);
        }
    }
}

/// The arrows of a packet.
fn arrows(page: &mut Page, layout: &Layout, packet: &Packet, from: Post, to: Post) {
    let sent = match packet.sent {
        Some(row) => match layout.steps.get(row) {
            Some(step) => step.send,
            None => layout.steps.end,
        },
        None => layout.legend.end,
    };
    let text = packet.text.as_str();
    if packet.arrivals.is_empty() {
        return lost(page, from, to, sent, text);
    }
    for (count, row) in packet.arrivals.iter().enumerate() {
        if let Some(step) = layout.steps.get(*row) {
            let class = if count > 0 { "a g" } else { "a" };
            arrow(page, class, &[from.x, sent, to.x, step.arrive], text);
        }
    }
}

/// An arrow between two ends, the sending and the arrival, each a place in pixels from the left and from the upper edge.
fn arrow(page: &mut Page, class: &str, ends: &[u64], text: &str) {
    page.put(&[Part::Text("<path class=\""), Part::Text(class)]);
    page.put_within("\" d=\"M# #L# #\"><title>", ends, text, "</title></path>\n");
}

/// The arrow of a lost packet.
fn lost(page: &mut Page, from: Post, to: Post, sent: u64, text: &str) {
    let x = from.x;
    let end = if to.x < x {
        x.saturating_sub(LOST)
    } else {
        x.saturating_add(LOST)
    };
    arrow(page, "x", &[x, sent, end, sent], text);
}

/// All bars.
pub(crate) fn bars(page: &mut Page, chart: &Chart, layout: &Layout) {
    for (place, shown) in chart.bars.iter().enumerate() {
        if let Some(post) = layout.posts.get(shown.party) {
            let lane = layout.lanes.place(place);
            bar(page, layout, shown, post, lane);
        }
    }
}

/// The class of a bar.
fn class(tint: Tint) -> &'static str {
    match tint {
        Tint::NonCaching => "n0",
        Tint::Reading => "n1",
        Tint::Writing => "n2",
        Tint::Recovery => "n3",
    }
}

/// A bar in a lane.
fn bar(page: &mut Page, layout: &Layout, shown: &Bar, post: Post, lane: u64) {
    let (Some(first), Some(last)) = (layout.steps.get(shown.first), layout.steps.get(shown.last))
    else {
        return;
    };
    let aside = lane.saturating_mul(LANE).saturating_add(7);
    let x = match post.bars {
        Side::Left => post.x.saturating_sub(aside).saturating_sub(BAR),
        Side::Right => post.x.saturating_add(aside),
    };
    let y = first.arrive;
    let high = last.send.saturating_sub(y);
    page.put(&[Part::Text("<rect class=\""), Part::Text(class(shown.tint))]);
    page.put_within(
        "\" x=\"#\" y=\"#\" width=\"#\" height=\"#\" rx=\"2\"><title>",
        &[x, y, BAR, high],
        shown.text.as_str(),
        "</title></rect>\n",
    );
    letters(page, shown, x, y, high);
}

/// The name of a bar along it, if there is room for it.
fn letters(page: &mut Page, shown: &Bar, x: u64, y: u64, high: u64) {
    let long = (shown.text.len() as u64)
        .saturating_mul(SMALL)
        .saturating_add(4);
    if long > high {
        return;
    }
    page.put_within(
        "<text class=\"b\" transform=\"translate(# #)rotate(90)\">",
        &[x.saturating_add(3), y.saturating_add(3)],
        shown.text.as_str(),
        "</text>\n",
    );
}
