//! What the words say.

use nq_words::{Args, Next, Wrong, number_in};
use std::alloc::{AllocError, Global};

/// The greatest number of a host.
const LAST_HOST: u32 = 63;

/// What is to be done.
#[derive(Drop)]
pub(crate) enum Order {
    /// Say what words there are.
    Help,
    /// Say which version this is.
    Version,
    /// Ask a host: one line, or all lines of the input where that one is empty.
    Ask { host: u32, line: String },
    /// Nothing, since memory was wanting.
    Memory,
}

/// What these words say. All behind the number of the host are the words of one line.
///
/// # Errors
///
/// What is wrong with them.
pub(crate) fn order_of(alloc: Global, words: &[String]) -> Result<Order, Wrong<'_>> {
    let mut args = Args::new(words);
    let host = match args.next() {
        Next::End => return Err(Wrong::Missing("HOST")),
        Next::Help => return Ok(Order::Help),
        Next::Version => return Ok(Order::Version),
        Next::Flag(word) => return Err(Wrong::Flag(word)),
        Next::Plain(word) => match number_in(word, 0, LAST_HOST) {
            Ok(host) => host,
            Err(wrong) => return Err(wrong),
        },
    };
    match line_of(alloc, words.get(1..).unwrap_or(&[])) {
        Ok(line) => Ok(Order::Ask { host, line }),
        Err(_) => Ok(Order::Memory),
    }
}

/// The words, with one blank between two.
fn line_of(alloc: Global, words: &[String]) -> Result<String, AllocError> {
    let mut line = String::new(alloc);
    for word in words {
        if !line.is_empty() {
            line.push_str(" ")?;
        }
        line.push_str(word.as_str())?;
    }
    Ok(line)
}
