//! Asks and answers as text, between a prompt and the host that it asks.
//!
//! A line is an ask: a number, and the words that a person wrote. The host carries out an ask whose number is above all before it on that
//! connection, so none is carried out twice, and answers it with a line that has its number.
#![tactic(auto)]

mod lines;
mod numbers;

pub use lines::{AnswerKind, answer_in, ask_in, push_answer, push_ask};
pub use numbers::{Numbers, numbers_rise};
