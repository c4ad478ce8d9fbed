//! Charts as pages.

ghost use Rattle.nq_record.specs.Page.{Extends};

use crate::chart::NoMemory;
use crate::chart::chart::Chart;
use crate::chart::frame::{legend, open, parties};
use crate::chart::layout::Layout;
use crate::chart::notes::{names, notes};
use crate::chart::packets::{bars, packets};
use crate::chart::pages::Page;
use crate::chart::parts::Part;
use crate::making::Maker;
use std::alloc::Global;

/// Appends a chart as one file of SVG (SVG 2), which needs no other file. What stood in the page before stays in front of it.
///
/// # Errors
///
/// Only want of memory. Then nothing was appended.
pub fn draw(alloc: Global, chart: &Chart, page: &mut Vec<u8>) -> Result<(), NoMemory>
    ensures { Extends page.old.items page.new.items }
{
    let mut maker = Maker::new(alloc);
    let layout = Layout::of(&mut maker, chart);
    if maker.is_short {
        return Err(NoMemory::Memory);
    }
    let mut drawn = Page::new(alloc);
    open(&mut drawn, chart, &layout);
    legend(&mut drawn, &layout);
    names(&mut drawn, chart, &layout);
    parties(&mut drawn, chart, &layout);
    bars(&mut drawn, chart, &layout);
    packets(&mut drawn, chart, &layout);
    notes(&mut drawn, chart, &layout);
    drawn.put(&[Part::Text("</svg>\n")]);
    drawn.close(page)
}
