//! Message sequence charts as SVG: parties stand side by side, time goes down, and packets are arrows.
//!
//! A [`Chart`] says what stands in the chart, in rows and columns. `draw` gives each of these its place on the page, so that
//! nothing lies over anything else, and appends the page to a text.

mod bars;
mod chart;
mod columns;
mod drawing;
mod frame;
mod layout;
mod legend;
mod notes;
mod packets;
mod pages;
mod parts;
mod rows;
mod style;
mod text;

pub use chart::{Bar, Chart, ChartRow, Column, Note, Packet, Side, Sign, Tint};
pub use drawing::draw;
pub use nq_memory::NoMemory;
pub use pages::Page;
pub use parts::{Part, text_of};
