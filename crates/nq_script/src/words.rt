//! The words of calls and of answers, read and written, as schedules, journals and a client's lines have them: the words
//! of a line, numbers in decimal, names.

mod answers;
mod calls;
mod cursor;
mod writing;

pub use answers::take_said;
pub use calls::{has_told, read_told, take_told};
pub use cursor::{WordCursor, cut, is, name, number, number32, number64};
pub use writing::{
    push_bytes, push_command, push_digits, push_numbers, push_said, push_told, push_word,
};
