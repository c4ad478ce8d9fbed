//! What the words behind the program's name say.

use nq_observe::View;
use nq_words::{Args, Next, Wrong, number_in};

/// The greatest number of an event or a line.
const MOST: u32 = 1_000_000_000;

/// What is to be done.
#[derive(Clone, Copy)]
pub(crate) enum Order {
    /// Show a run.
    Show(View),
    /// Say what words there are.
    Help,
    /// Say which version this is.
    Version,
}

/// What these words say.
///
/// # Errors
///
/// What is wrong with them.
pub(crate) fn asked_of(words: &[String]) -> Result<Order, Wrong<'_>> {
    let mut args = Args::new(words);
    match args.next() {
        Next::End => Err(Wrong::Missing("picture, tell or why")),
        Next::Help => Ok(Order::Help),
        Next::Version => Ok(Order::Version),
        Next::Flag(word) => Err(Wrong::Flag(word)),
        Next::Plain("picture") => picture_of(&mut args, words.len()),
        Next::Plain("tell") => alone(&mut args, View::Tell),
        Next::Plain("why") => why_of(&mut args),
        Next::Plain(word) => Err(Wrong::Word(word)),
    }
}

/// A view behind which no word stands.
fn alone<'a>(args: &mut Args<'a>, view: View) -> Result<Order, Wrong<'a>> {
    match args.word() {
        Some(word) => Err(Wrong::Extra(word)),
        None => Ok(Order::Show(view)),
    }
}

/// What stands behind `why`.
fn why_of<'a>(args: &mut Args<'a>) -> Result<Order, Wrong<'a>> {
    let Some(word) = args.word() else {
        return Err(Wrong::Missing("LINE"));
    };
    match number_in(word, 0, MOST) {
        Ok(line) => {
            let line = line as usize;
            alone(args, View::Why { line })
        }
        Err(wrong) => Err(wrong),
    }
}

/// What stands behind `picture`, among so many words.
fn picture_of<'a>(args: &mut Args<'a>, count: usize) -> Result<Order, Wrong<'a>> {
    let mut from = 0usize;
    let mut to = usize::MAX;
    for _word in 0..count {
        match args.next() {
            Next::End => break,
            Next::Help => return Ok(Order::Help),
            Next::Version => return Ok(Order::Version),
            Next::Flag("--from") => match args.number("--from", 0, MOST) {
                Ok(number) => from = number as usize,
                Err(wrong) => return Err(wrong),
            },
            Next::Flag("--to") => match args.number("--to", 0, MOST) {
                Ok(number) => to = number as usize,
                Err(wrong) => return Err(wrong),
            },
            Next::Flag(word) => return Err(Wrong::Flag(word)),
            Next::Plain(word) => return Err(Wrong::Extra(word)),
        }
    }
    Ok(Order::Show(View::Picture { from, to }))
}
