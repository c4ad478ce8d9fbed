//! What comes from somebody who asks.

ghost use Rattle.std.specs.Prelude.{◌≡◌};
ghost use Rattle.nq_tasks.specs.Inbox.{TakesOut};

use crate::asks::Ask;
use nq_asks::{Numbers, ask_in};
use nq_base::NoMemory;
use nq_script::words::{WordCursor, cut, is};
use nq_whole::MOST_BYTES;
use std::alloc::Global;
use std::marker::Model;

/// The most bytes of a line.
const MOST_LINE: usize = 1024;

/// What is taken out of what came.
#[derive(Drop)]
pub enum AskTaken {
    /// An ask.
    Ask(Ask),
    /// No ask is there yet, or one that came again and is left out.
    Nothing,
    /// What came is no ask, or memory was wanting for it.
    Wrong,
}

/// What came from somebody on one connection and was not taken out yet. Contracts see the number of the last ask that was taken out.
#[derive(Drop)]
pub struct Inbox {
    alloc: Global,
    bytes: Vec<u8>,
    numbers: Numbers,
}

impl Model for Inbox {
    ghost use Rattle.std.specs.Prelude.{ℕ};

    ghost Value = { ℕ };

    ghost view = { λ i. i.numbers };
}

/// How many bytes follow a line: as many as the third word of `store NAME SIZE` says. None where those are too many.
fn bytes_behind(text: &[u8]) -> Option<usize> {
    let mut words = WordCursor::new(text);
    let verb = words.next().unwrap_or(b"");
    if !is(verb, b"store") {
        return Some(0);
    }
    let _name = words.next();
    let size = words.u32()? as usize;
    if size > MOST_BYTES { None } else { Some(size) }
}

/// The number and the words of a line that asks, and how many bytes follow it.
fn asked(line: &[u8]) -> Option<(u32, &[u8], usize)> {
    let (number, text) = ask_in(line)?;
    let size = bytes_behind(text)?;
    Some((number, text, size))
}

/// An ask with its own words and bytes.
fn copied(alloc: Global, number: u32, text: &[u8], body: &[u8]) -> Result<Ask, NoMemory> {
    let text = text.to_vec(alloc)?;
    let body = body.to_vec(alloc)?;
    Ok(Ask { number, text, body })
}

impl Inbox {
    /// Nothing came yet.
    pub fn new(alloc: Global) -> Inbox
        ensures { result ≡ 0 }
    {
        Inbox {
            alloc,
            bytes: Vec::new(alloc),
            numbers: Numbers::new(),
        }
    }

    /// Whether there is room for more.
    pub fn has_room(&self) -> bool {
        self.bytes.len() <= MOST_BYTES + MOST_LINE
    }

    /// Adds what came.
    ///
    /// # Errors
    ///
    /// Only want of memory.
    pub fn add(&mut self, bytes: &[u8]) -> Result<(), NoMemory>
        ensures { self.new ≡ self.old }
    {
        self.bytes.extend_from_slice(bytes)?;
        Ok(())
    }

    /// Whether the next ask has these words.
    pub fn says(&self, words: &[u8]) -> bool {
        match cut(&self.bytes, b'\n') {
            Some((line, _)) => match ask_in(line) {
                Some((_, text)) => is(text, words),
                None => false,
            },
            None => false,
        }
    }

    /// Takes the next ask out, if all of it has come. One whose number is not above all before it is left out, so none is carried out twice.
    pub fn next(&mut self) -> AskTaken
        ensures { TakesOut result self.old self.new }
    {
        match self.take_ask() {
            Ok(Some(ask)) => self.admit(ask),
            Ok(None) => AskTaken::Nothing,
            Err(_) => AskTaken::Wrong,
        }
    }

    /// Lets an ask pass whose number is above all before it.
    #[tactic(auto, using(crate::proofs::Numbering::risen, crate::proofs::Numbering::not_lower))]
    fn admit(&mut self, ask: Ask) -> AskTaken
        ensures { TakesOut result self.old self.new }
    {
        let number = ask.number;
        if self.numbers.admit(number) {
            AskTaken::Ask(ask)
        } else {
            AskTaken::Nothing
        }
    }

    /// Takes the next ask out, whatever its number, if all of it has come. An error says that it is none.
    fn take_ask(&mut self) -> Result<Option<Ask>, ()>
        ensures { self.new ≡ self.old }
    {
        let Some((line, rest)) = cut(&self.bytes, b'\n') else {
            return if self.bytes.len() > MOST_LINE {
                Err(())
            } else {
                Ok(None)
            };
        };
        let Some((number, text, size)) = asked(line) else {
            return Err(());
        };
        if rest.len() < size {
            return Ok(None);
        }
        let ask = copied(self.alloc, number, text, &rest[..size]);
        let rest = rest[size..].to_vec(self.alloc);
        let (Ok(ask), Ok(rest)) = (ask, rest) else {
            return Err(());
        };
        self.bytes = rest;
        Ok(Some(ask))
    }
}
