//! Words from the left.

ghost use Rattle.std.specs.Prelude.{◌≡◌, ◌∷◌, [], Some, None, IsNone, IfOk, IfErr, OnErr, map, string_bytes, codes};
ghost use Rattle.nq_script.specs.WordsReading.{Takes, word_at};
ghost use Rattle.nq_words.specs.Args.{Reads, Says, begins_option, number_at, number_wrong, ranged_of, sort_of, value_at};
ghost use Rattle.nq_words.specs.Wrongs.{no_number, no_value, wrong_words};
ghost use Rattle.nq_words.specs.declared.args.Sort.{Sort};

use crate::wrongs::{Bounds, Wrong};
use nq_script::words::{is, number};
use std::marker::Model;

/// What stands next behind a program's name.
#[derive(Clone, Copy)]
pub enum Next<'a> {
    /// No word is left.
    End,
    /// `--help`.
    Help,
    /// `--version`.
    Version,
    /// Another word that begins with `-`.
    Flag(&'a str),
    /// Any other word.
    Plain(&'a str),
}

/// What a word is.
#[derive(Clone, Copy)]
pub(crate) enum Sort {
    /// It asks for help.
    Help,
    /// It asks for the version.
    Version,
    /// It begins as options do.
    Flag,
    /// Another one.
    Plain,
}

/// What a word is.
#[tactic(auto, unfolding(crate::specs::Args::sort_of))]
fn sort_of(word: &[u8]) -> Sort
    ensures is { result ≡ sort_of word.now }
    ensures help { result ≡ Sort.Help → word.now ≡ codes "--help" }
    ensures version { result ≡ Sort.Version → word.now ≡ codes "--version" }
{
    if is(word, b"--help") {
        Sort::Help
    } else if is(word, b"--version") {
        Sort::Version
    } else if begins_option(word) {
        Sort::Flag
    } else {
        Sort::Plain
    }
}

/// Whether a word begins as options do.
fn begins_option(word: &[u8]) -> bool
    ensures { result ≡ begins_option word.now }
{
    match word {
        [first, ..] => *first == b'-',
        [] => false,
    }
}

/// What a word says that stands next.
fn next_of(word: &str) -> Next<'_>
    ensures { Says result word.now }
{
    match sort_of(word.as_bytes()) {
        Sort::Help => Next::Help,
        Sort::Version => Next::Version,
        Sort::Flag => Next::Flag(word),
        Sort::Plain => Next::Plain(word),
    }
}

/// The number that a word writes in decimal, without a sign or a needless zero, where it is from `least` to `most`.
///
/// # Errors
///
/// That the word is no such number.
#[tactic(auto, unfolding(crate::specs::Args::ranged_of))]
pub fn number_in(word: &str, least: u32, most: u32) -> Result<u32, Wrong<'_>>
    ensures ok { IfOk result (λ n. ranged_of least most word.now ≡ Some n) }
    ensures none { OnErr result (ranged_of least most word.now ≡ None) }
    ensures wrong { IfErr result (λ wrong. wrong_words wrong ≡ no_number word.now (record { least = least; most = most })) }
{
    match number(word.as_bytes(), u64::from(most)) {
        Some(value) if value >= u64::from(least) => Ok(value as u32),
        _ => Err(Wrong::NoNumber {
            word,
            bounds: Bounds { least, most },
        }),
    }
}

/// The words that are left behind a program's name. Contracts see their list.
#[derive(Drop)]
pub struct Args<'a> {
    left: &'a [String],
}

impl<'a> Model for Args<'a> {
    ghost use Rattle.std.specs.Prelude.{ℕ, List, map, string_bytes};

    ghost Value = { List (List ℕ) };

    ghost view = { λ a. map (λ word. string_bytes word) a.left.now };
}

impl<'a> Args<'a> {
    /// All of these words.
    pub fn new(words: &'a [String]) -> Args<'a>
        ensures { result ≡ map (λ word. string_bytes word) words.now }
    {
        Args { left: words }
    }

    /// Takes the next word, whatever it is.
    pub fn word(&mut self) -> Option<&'a str>
        ensures step { Takes (λ word. word.now) result self.new (word_at self.old) }
        ensures none { IsNone result → (self.old ≡ []) × (self.new ≡ []) }
    {
        let (word, left) = self.left.split_first()?;
        self.left = left;
        Some(word.as_str())
    }

    /// Takes the next word, and tells what it is.
    pub fn next(&mut self) -> Next<'a>
        ensures { Reads result self.old self.new }
    {
        match self.word() {
            Some(word) => next_of(word),
            None => Next::End,
        }
    }

    /// Takes the next word, unless it begins as options do.
    #[tactic(auto, unfolding(crate::specs::Args::value_at))]
    fn plain(&mut self) -> Option<&'a str>
        ensures { Takes (λ word. word.now) result self.new (value_at self.old) }
    {
        let word = self.word()?;
        if begins_option(word.as_bytes()) {
            None
        } else {
            Some(word)
        }
    }

    /// Takes the value behind an option: the next word, unless it begins as options do.
    ///
    /// # Errors
    ///
    /// That there is no value behind the option. What is left then is not told.
    pub fn value(&mut self, flag: &'a str) -> Result<&'a str, Wrong<'a>>
        ensures ok { IfOk result (λ word. value_at self.old ≡ Some (word.now, self.new)) }
        ensures none { OnErr result (value_at self.old ≡ None) }
        ensures wrong { IfErr result (λ wrong. wrong_words wrong ≡ no_value flag.now) }
    {
        match self.plain() {
            Some(word) => Ok(word),
            None => Err(Wrong::NoValue(flag)),
        }
    }

    /// Takes the number behind an option, from `least` to `most`.
    ///
    /// # Errors
    ///
    /// That there is no value behind the option, or that it is no such number. What is left then is not told.
    #[tactic(auto, unfolding(crate::specs::Args::number_at))]
    pub fn number(&mut self, flag: &'a str, least: u32, most: u32) -> Result<u32, Wrong<'a>>
        ensures ok { IfOk result (λ n. number_at least most self.old ≡ Some (n, self.new)) }
        ensures none { OnErr result (number_at least most self.old ≡ None) }
        ensures wrong { IfErr result (λ wrong. wrong_words wrong ≡ number_wrong flag.now least most self.old) }
    {
        match self.value(flag) {
            Ok(word) => number_in(word, least, most),
            Err(wrong) => Err(wrong),
        }
    }
}
