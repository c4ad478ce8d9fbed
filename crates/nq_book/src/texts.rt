//! The text of an address book.

ghost use Rattle.nq_book.specs.Texts.{ReadsBook};
ghost use Rattle.std.specs.Prelude.{◌≡◌};

use crate::lines::{Why, take_line};
use nq_script::words::cut;
use nq_udp::Book;

/// A line that cannot be taken in.
#[derive(Clone, Copy)]
pub struct BadLine {
    /// Its number, from 1 on; it stands still at `u32::MAX`.
    pub number: u32,
    /// What is wrong with it.
    pub why: Why,
}

/// The book that a text spells.
///
/// # Errors
///
/// The first line that cannot be taken in.
pub fn book_in(text: &[u8]) -> Result<Book, BadLine>
    ensures { ReadsBook text.now result }
{
    let mut book = Book::empty();
    let mut number: u32 = 1;
    let mut rest = text;
    while let Some((line, after)) = cut(rest, b'\n') {
        if let Err(why) = take_line(&mut book, line) {
            return Err(BadLine { number, why });
        }
        number = number.saturating_add(1);
        rest = after;
    }
    match take_line(&mut book, rest) {
        Ok(()) => Ok(book),
        Err(why) => Err(BadLine { number, why }),
    }
}
