//! The text of an address book: lines `server ADDRESS:PORT` and `HOST ADDRESS:PORT`, as std writes addresses. A line that is empty, or begins with `#`,
//! says nothing. Each other line that cannot be taken in is named, with its number and what is wrong with it.
#![tactic(auto)]

mod lines;
mod texts;

pub use lines::Why;
pub use texts::{BadLine, book_in};
