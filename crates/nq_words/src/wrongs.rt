//! What is wrong with the words behind a program's name.

ghost use Rattle.std.specs.Prelude.{Some};
ghost use Rattle.nq_words.specs.Wrongs.{bounds_words, wrong_words};

use std::fmt;

/// What is wrong. It is displayed in words, which name the word that is wrong.
#[derive(Clone, Copy)]
pub enum Wrong<'a> {
    /// The program has no such option.
    Flag(&'a str),
    /// There is a word too many.
    Extra(&'a str),
    /// A word is none of those that may stand there.
    Word(&'a str),
    /// The value behind an option is missing.
    NoValue(&'a str),
    /// A word is missing that stands for this.
    Missing(&'a str),
    /// A word is no number within these bounds.
    NoNumber { word: &'a str, bounds: Bounds },
}

/// A least and a greatest number.
#[derive(Clone, Copy)]
pub struct Bounds {
    /// The least one.
    pub least: u32,
    /// The greatest one.
    pub most: u32,
}

impl fmt::Display for Bounds {
    ghost output = { λ bounds. Some (bounds_words bounds) };

    fn fmt<W: fmt::Write>(&self, f: &mut fmt::Formatter<W>) -> fmt::Result {
        let least = self.least;
        let most = self.most;
        write!(f, "from {least} to {most}")
    }
}

impl<'a> fmt::Display for Wrong<'a> {
    ghost output = { λ wrong. Some (wrong_words wrong) };

    fn fmt<W: fmt::Write>(&self, f: &mut fmt::Formatter<W>) -> fmt::Result {
        match self {
            Wrong::Flag(word) => write!(f, "{word}: no such option"),
            Wrong::Extra(word) => write!(f, "{word}: a word too many"),
            Wrong::Word(word) => write!(f, "{word}: no such word"),
            Wrong::NoValue(word) => write!(f, "{word}: the word behind it is missing"),
            Wrong::Missing(word) => write!(f, "{word} is missing"),
            Wrong::NoNumber { word, bounds } => { write!(f, "{word}: a number {bounds} is wanted") }
        }
    }
}
