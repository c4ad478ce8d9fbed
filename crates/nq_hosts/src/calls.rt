//! Lines of calls, as the program `client` reads them: cut one by one, and searched for the first that spells no call.

mod lines;

pub use lines::{cut_line, find_fault};
