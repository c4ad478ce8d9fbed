//! What stands at a prompt: the lines that a user writes there, answers in words, and how often a host was started.

mod answers;
mod lines;
mod starts;
mod wrongs;

pub use answers::answer_text;
pub use lines::{PromptLine, line_of};
pub use starts::{next_start, risen, start_text};
pub use wrongs::{Wrong, wrong_of};
