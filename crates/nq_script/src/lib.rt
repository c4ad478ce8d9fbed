//! The text of schedules, read and printed; beside it the words of calls and answers, which journals and command lines have too (`words`).
//!
//! The grammar is in `specs/`: `Text` (words and lines), `Calls`, `Lines`, `Heads`, and `Schedule`, which says what the
//! text of a schedule is and at which line another text first goes wrong. A further form of a line is one more case of
//! `SpellsCall` or `SpellsEvents`, of the reader beside it in `Reading`, and of the two laws on it in `CallReading` or
//! `LineReading`.
#![tactic(auto)]

mod calls;
mod faults;
mod fields;
mod heads;
mod kept;
mod laws;
mod lines;
mod print;
mod schedules;
mod scripts;
pub mod words;

pub use calls::parse_call;
pub use faults::ScriptFault;
pub use heads::{Head, HeadOut, parse_head};
pub use laws::{each_text, lines_are_short, one_fault, one_reading, printed_again};
pub use lines::Line;
pub use print::print_head;
pub use schedules::Schedule;
pub use scripts::{Lines, Script, parse};
