//! Getting a whole file.

ghost use Rattle.std.specs.Prelude.{◌≡◌, ◌≢◌, []};
ghost use Rattle.nq_whole.specs.Answers.{is_gone};
ghost use Rattle.nq_whole.specs.Getting.{Gives, KeepsPart, Takes, added, asked_at, missed, reached, told};
ghost use Rattle.nq_whole.specs.Heads.{head_in};

use crate::answers::{body_in, file_in, is_gone};
use crate::heads::{FileHead, head_in};
use crate::pieces::push_body;
use nq_base::{Answer, Block, BlockNo, Call, FileId, Name};
use std::alloc::Global;
use std::marker::Model;

/// The most pieces of a file.
const MOST_PIECES: u32 = 1024;

/// Where getting a file stands.
#[derive(Clone, Copy)]
pub(crate) enum Stage {
    /// The file of the name is asked for.
    Finding,
    /// The head in this file is asked for.
    Heading(FileId),
    /// The pieces from this place on are asked for.
    Reading(FileHead, u32),
    /// All is there.
    Whole(FileHead),
}

/// What getting a file says of an answer.
#[derive(Clone, Copy)]
pub enum GettingSays {
    /// It goes on.
    Goes,
    /// It begins anew: the bytes were gone, since somebody stored others.
    Anew,
    /// It has all bytes.
    Done,
    /// That answer refused it.
    Refused,
    /// The file was not stored as a whole one.
    NotWhole,
    /// Memory was wanting.
    Memory,
}

/// Getting the whole file of a name, call by call.
#[derive(Drop)]
pub struct Getting {
    name: Name,
    stage: Stage,
    bytes: Vec<u8>,
}

impl Model for Getting {
    ghost use Rattle.nq_whole.specs.Getting.{Gets};

    ghost Value = { Gets };

    ghost view = { λ g. record { name = g.name; stage = g.stage; bytes = g.bytes.items } };
}

impl Getting {
    /// Getting begins. It takes no memory.
    pub fn new(alloc: Global, name: Name) -> Getting
        ensures { result ≡ record { name = name; stage = Stage.Finding; bytes = [] } }
    {
        Getting {
            name,
            stage: Stage::Finding,
            bytes: Vec::new(alloc),
        }
    }

    /// What is asked next.
    pub fn asks(&self) -> Call
        ensures { result ≡ asked_at self.now.name self.now.stage }
    {
        match self.stage {
            Stage::Finding => Call::Lookup { name: self.name },
            Stage::Heading(file) => Call::Read {
                file,
                block: BlockNo(0),
            },
            Stage::Reading(head, place) => Call::Fetch {
                file: head.file,
                block: BlockNo(place),
            },
            Stage::Whole(head) => Call::Attr { file: head.file },
        }
    }

    /// Takes the answer to what was asked. Where each head is written behind all the bytes that it tells, into a file that nobody changes,
    /// the bytes are those of one file that was stored.
    ///
    /// Where memory is wanting it stands as before.
    pub fn take_answer(&mut self, answer: &Answer) -> GettingSays
        ensures gives { Gives result answer.now self.old self.new }
        ensures part { KeepsPart answer.now self.old self.new }
    {
        self.step(answer)
    }

    /// Takes the answer to what was asked.
    fn step(&mut self, answer: &Answer) -> GettingSays
        ensures { Gives result answer.now self.old self.new }
    {
        match self.standing() {
            Stage::Finding => self.find(answer),
            Stage::Heading(file) => self.head(answer, file),
            Stage::Reading(head, place) => self.read(answer, head, place),
            Stage::Whole(_) => GettingSays::Done,
        }
    }

    /// Where it stands.
    fn standing(&self) -> Stage
        ensures { result ≡ self.now.stage }
    {
        self.stage
    }

    /// Takes the answer to what the file of the name is.
    fn find(&mut self, answer: &Answer) -> GettingSays
        requires { self.old.stage ≡ Stage.Finding }
        ensures { Gives result answer.now self.old self.new }
    {
        match file_in(answer) {
            Some(file) => {
                self.stage = Stage::Heading(file);
                self.bytes.clear();
                GettingSays::Goes
            }
            None => GettingSays::Refused,
        }
    }

    /// Takes the answer to what the head is.
    fn head(&mut self, answer: &Answer, file: FileId) -> GettingSays
        requires { self.old.stage ≡ Stage.Heading file }
        ensures { Gives result answer.now self.old self.new }
    {
        match body_in(answer) {
            Some(body) => self.tell(body),
            None => self.miss(answer),
        }
    }

    /// Takes the head that a block tells.
    #[tactic(auto, using(crate::proofs::Parts::lifts))]
    fn tell(&mut self, body: &Block) -> GettingSays
        ensures { Takes result (told (head_in body.now) self.old) self.old self.new }
    {
        match head_in(body) {
            Some(head) => {
                self.bytes.clear();
                self.reach(head, 0)
            }
            None => GettingSays::NotWhole,
        }
    }

    /// Takes the answer to a piece.
    fn read(&mut self, answer: &Answer, head: FileHead, place: u32) -> GettingSays
        requires { self.old.stage ≡ Stage.Reading head place }
        ensures { Gives result answer.now self.old self.new }
    {
        match body_in(answer) {
            Some(body) => self.add(body, head, place),
            None => self.miss(answer),
        }
    }

    /// Adds a piece.
    #[tactic(auto, using(crate::proofs::Parts::lifts))]
    fn add(&mut self, body: &Block, head: FileHead, place: u32) -> GettingSays
        ensures { Takes result (added body.now head place self.old) self.old self.new }
    {
        if place >= MOST_PIECES {
            return GettingSays::NotWhole;
        }
        if push_body(&mut self.bytes, body).is_err() {
            return GettingSays::Memory;
        }
        self.reach(head, place + 1)
    }

    /// So many pieces have come.
    #[tactic(auto, unfolding(crate::specs::Getting::reached))]
    fn reach(&mut self, head: FileHead, place: u32) -> GettingSays
        ensures is { reached head place self.old.bytes self.old.name ≡ record { said = result; gets = self.new } }
        ensures goes { result ≢ GettingSays.Memory }
    {
        let size = head.size as usize;
        if size <= Block::SIZE * place as usize {
            self.bytes.truncate(size);
            self.stage = Stage::Whole(head);
            GettingSays::Done
        } else {
            self.stage = Stage::Reading(head, place);
            GettingSays::Goes
        }
    }

    /// Takes an answer that brings no block.
    fn miss(&mut self, answer: &Answer) -> GettingSays
        ensures { Takes result (missed (is_gone answer.now) self.old) self.old self.new }
    {
        if is_gone(answer) {
            self.stage = Stage::Finding;
            self.bytes.clear();
            GettingSays::Anew
        } else {
            GettingSays::Refused
        }
    }

    /// The bytes, once all are there.
    pub fn into_bytes(self) -> Vec<u8>
        ensures { result.items ≡ self.bytes }
    {
        let Getting { bytes, .. } = self;
        bytes
    }
}
