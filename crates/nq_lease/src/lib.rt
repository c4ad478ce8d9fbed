//! The lease table of one boot of the server: one row for each file and host that has a lease, in order of files, then
//! hosts (Gray and Cheriton 1989).
//!
//! All memory is taken when a table is made. Rows are looked up by halving. Beside the rows stand the times at which
//! they end, in order and each with how many rows end then. So the earliest end costs one look, and a row that is renewed
//! moves no end of another row while several rows end at one time.
#![tactic(auto)]

mod changes;
mod ends;
pub mod evict;
pub mod expire;
pub mod grant;
mod rows;
mod table;

pub use changes::Full;
pub use rows::is_in_the_way;
pub use table::Table;
