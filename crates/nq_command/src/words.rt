//! The words that say what to run.

ghost use Rattle.std.specs.Prelude.{◌≡◌, ◌++◌, ◌∷◌, [], IsOk, IfOk, IfSome, OnOk, OnErr, map};
ghost use Rattle.nq_command.specs.Commands.{IsRanged, command_of};

use crate::commands::{Command, alone, counted, numbered, paired};
use nq_base::NoMemory;
use std::alloc::Global;
use std::marker::Model;

/// Words, each a list of bytes.
#[derive(Drop)]
pub struct CommandWords {
    alloc: Global,
    words: Vec<Vec<u8>>,
}

impl Model for CommandWords {
    ghost use Rattle.std.specs.Prelude.{List, ℕ, map};

    ghost Value = { List (List ℕ) };

    ghost view = { λ w. map (λ word. word.items) w.words.items };
}

impl CommandWords {
    /// No words. It takes no memory.
    pub fn new(alloc: Global) -> Result<CommandWords, NoMemory>
        ensures made { IsOk result }
        ensures empty { IfOk result (λ words. words ≡ []) }
    {
        Ok(CommandWords {
            alloc,
            words: Vec::new(alloc),
        })
    }

    /// Adds a word at the end.
    ///
    /// # Errors
    ///
    /// `Memory`, and then no word was added.
    pub fn push(&mut self, word: &str) -> Result<(), NoMemory>
        ensures ok { OnOk result (self.new ≡ self.old ++ word.now ∷ []) }
        ensures err { OnErr result (self.new ≡ self.old) }
    {
        let Ok(bytes) = word.as_bytes().to_vec(self.alloc) else {
            return Err(NoMemory::Memory);
        };
        match self.words.push(bytes) {
            Ok(()) => Ok(()),
            Err(_) => Err(NoMemory::Memory),
        }
    }

    /// What they say, if they are the words of a command.
    pub fn command(&self) -> Option<Command>
        ensures says { result ≡ command_of self.now }
        ensures ranged { IfSome result IsRanged }
    {
        said(self.words.as_slice())
    }
}

/// What words say, if they are those of a command.
fn said(words: &[Vec<u8>]) -> Option<Command>
    ensures { result ≡ command_of (map (λ word. word.items) words.now) }
{
    match words {
        [name] => alone(name.as_slice()),
        [name, first] => counted(name.as_slice(), first.as_slice()),
        [name, first, second] => paired(name.as_slice(), first.as_slice(), second.as_slice()),
        [name, first, second, third] => numbered(
            name.as_slice(),
            first.as_slice(),
            second.as_slice(),
            third.as_slice(),
        ),
        _ => None,
    }
}
