//! A run as it was seen, event by event, and how it is shown: as a picture (`chart` draws
//! it), told line by line, and why an entry came.
#![tactic(auto)]

pub mod chart;
mod columns;
mod drawing;
mod entries;
mod making;
mod packets;
mod picture_rows;
mod quiet;
mod reasons;
mod record;
mod spans;
mod telling;
mod text;

pub use drawing::picture;
pub use entries::entry_words;
pub use nq_base::NoMemory;
pub use packets::{reply_words, request_words};
pub use reasons::why;
pub use record::{Act, Moment, Noted, Record, Sent};
pub use spans::{Change, Span, SpanKind};
pub use telling::tell;
