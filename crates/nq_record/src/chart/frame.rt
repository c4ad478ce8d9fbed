//! What stands around the rows.

use crate::chart::chart::Chart;
use crate::chart::columns::edge;
use crate::chart::layout::Layout;
use crate::chart::legend::{Entry, SAMPLE, SAMPLES, Sample};
use crate::chart::pages::Page;
use crate::chart::parts::Part;
use crate::chart::style::{CLOCK, HEADS, STYLE};

/// Begins the page.
pub(crate) fn open(page: &mut Page, chart: &Chart, layout: &Layout) {
    let width = layout.posts.width;
    let height = layout.steps.end.saturating_add(16);
    page.fill(
        "<svg xmlns=\"http://www.w3.org/2000/svg\" width=\"#\" height=\"#\" viewBox=\"0 0 # #\" role=\"img\">\n",
        &[width, height, width, height],
    );
    page.put(&[Part::Text(STYLE), Part::Text(HEADS)]);
    page.fill(
        "\n<rect class=\"f\" width=\"#\" height=\"#\"/>",
        &[width, height],
    );
    // The title, for those who hear the page and for those who see it.
    let title = chart.title.as_str();
    page.put_within("\n<title>", &[], title, "</title>\n");
    page.put_within(
        "<text class=\"h\" x=\"8\" y=\"22\">",
        &[],
        title,
        "</text>\n",
    );
}

/// The legend.
pub(crate) fn legend(page: &mut Page, layout: &Layout) {
    for entry in &layout.legend.entries {
        if let Some(sample) = SAMPLES.get(entry.sample) {
            put_sample(page, sample, entry);
            page.fill(
                "<text x=\"#\" y=\"#\">",
                &[entry.x.saturating_add(SAMPLE), entry.y],
            );
            page.put(&[Part::Text(sample.name), Part::Text("</text>\n")]);
        }
    }
}

/// The sample of an entry: a bar or an arrow.
fn put_sample(page: &mut Page, sample: &Sample, entry: &Entry) {
    let (mark, form, above) = if sample.is_arrow {
        ("<path class=\"", "\" d=\"M# #h26\"/>", 4)
    } else {
        (
            "<rect class=\"",
            "\" x=\"#\" y=\"#\" width=\"26\" height=\"12\"/>",
            10,
        )
    };
    page.put(&[Part::Text(mark), Part::Text(sample.class)]);
    page.fill(form, &[entry.x, entry.y.saturating_sub(above)]);
}

/// The names and lines of the parties.
pub(crate) fn parties(page: &mut Page, chart: &Chart, layout: &Layout) {
    for place in 0..chart.columns.len() {
        party(page, chart, layout, place);
    }
}

/// The name and the line of a party, and its name above its clock.
fn party(page: &mut Page, chart: &Chart, layout: &Layout, place: usize) {
    let (Some(column), Some(post)) = (chart.columns.get(place), layout.posts.get(place)) else {
        return;
    };
    let name = column.name.as_str();
    let top = layout.legend.end;
    let above = top.saturating_sub(10);
    page.put_within(
        "<path class=\"v\" d=\"M# #V#\"/><text class=\"p\" x=\"#\" y=\"#\">",
        &[post.x, top, layout.steps.end, post.x, above],
        name,
        "</text>",
    );
    page.put_within(
        "<text class=\"d e\" x=\"#\" y=\"#\">",
        &[clock_at(place), above],
        name,
        "</text>\n",
    );
}

/// Where the clock of a party ends at the edge, in pixels.
pub(crate) fn clock_at(place: usize) -> u64 {
    edge(place as u64).saturating_add(CLOCK).saturating_sub(16)
}
