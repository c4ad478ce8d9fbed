//! What a server did, in numbers: a link that counts what comes and goes, and a report that prints the counts from time to time. A link
//! that counts is to everybody the link within it.

mod classes;
mod counted;
mod counts;
mod report;

pub use counted::CountedLink;
pub use counts::{Counts, PROCEDURES};
pub use report::{Gauge, Report};
