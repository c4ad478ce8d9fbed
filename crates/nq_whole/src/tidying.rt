//! Tidying up behind a store that was cut off.

ghost use Rattle.std.specs.Prelude.{◌≡◌};
ghost use Rattle.nq_whole.specs.Heads.{head_in};
ghost use Rattle.nq_whole.specs.Tidying.{asked_at, headed, named, owned, removed, told_by, tidy_at};

use crate::heads::head_in;
use nq_base::{Answer, Block, BlockNo, Call, FileId, Name, Value};
use std::marker::Model;

/// What is left to be done.
#[derive(Clone, Copy)]
pub(crate) enum Rest {
    /// The file that was made is asked for.
    Owning,
    /// The file of the name is asked for.
    Naming(FileId),
    /// Its head is asked for.
    Heading(FileId, FileId),
    /// The file that was made is removed.
    Removing(FileId),
    /// It is over.
    Ended,
}

/// What tidying says of an answer.
#[derive(Clone, Copy)]
pub enum TidyingSays {
    /// It goes on.
    Goes,
    /// A head tells the file: it stays.
    Kept,
    /// The file is not there, or no more.
    Gone,
    /// An answer left it open.
    Unsure,
}

/// A step behind an answer.
#[derive(Clone, Copy)]
struct TidyStep {
    told: TidyingSays,
    rest: Rest,
}

/// Tidying up behind the store of a name, call by call, once its host has begun another incarnation. The file that it made is removed where
/// the head under the name does not tell it.
#[derive(Drop)]
pub struct Tidying {
    own: Name,
    name: Name,
    rest: Rest,
}

impl Model for Tidying {
    ghost use Rattle.nq_whole.specs.Tidying.{Tidies};

    ghost Value = { Tidies };

    ghost view = { λ t. record { own = t.own; name = t.name; rest = t.rest } };
}

/// It goes on.
fn goes(rest: Rest) -> TidyStep
    ensures { result ≡ record { told = TidyingSays.Goes; rest = rest } }
{
    let told = TidyingSays::Goes;
    TidyStep { told, rest }
}

/// It ends so.
fn ends(told: TidyingSays) -> TidyStep
    ensures { result ≡ record { told = told; rest = Rest.Ended } }
{
    let rest = Rest::Ended;
    TidyStep { told, rest }
}

/// Behind looking for the file that was made.
fn owned(answer: &Answer) -> TidyStep
    ensures { result ≡ owned answer.now }
{
    match answer {
        Answer::Ok(value) => match value {
            Value::File(file) => goes(Rest::Naming(*file)),
            _ => ends(TidyingSays::Unsure),
        },
        Answer::NoEntry => ends(TidyingSays::Gone),
        _ => ends(TidyingSays::Unsure),
    }
}

/// Behind looking for the name.
fn named(answer: &Answer, file: FileId) -> TidyStep
    ensures { result ≡ named answer.now file }
{
    match answer {
        Answer::Ok(value) => match value {
            Value::File(at) => goes(Rest::Heading(file, *at)),
            _ => ends(TidyingSays::Unsure),
        },
        Answer::NoEntry => goes(Rest::Removing(file)),
        _ => ends(TidyingSays::Unsure),
    }
}

/// Whether the head that a block tells tells the file.
fn told_by(body: &Block, file: FileId) -> TidyStep
    ensures { result ≡ told_by (head_in body.now) file }
{
    match head_in(body) {
        Some(head) => {
            if head.file.0 == file.0 {
                ends(TidyingSays::Kept)
            } else {
                goes(Rest::Removing(file))
            }
        }
        None => goes(Rest::Removing(file)),
    }
}

/// Behind the first block under the name.
fn headed(answer: &Answer, file: FileId) -> TidyStep
    ensures { result ≡ headed answer.now file }
{
    match answer {
        Answer::Ok(value) => match value {
            Value::Body(body) => told_by(body, file),
            _ => ends(TidyingSays::Unsure),
        },
        Answer::Stale => goes(Rest::Removing(file)),
        _ => ends(TidyingSays::Unsure),
    }
}

/// Behind the removal.
fn removed(answer: &Answer) -> TidyStep
    ensures { result ≡ removed answer.now }
{
    match answer {
        Answer::Ok(_) => ends(TidyingSays::Gone),
        Answer::Stale => ends(TidyingSays::Gone),
        _ => ends(TidyingSays::Unsure),
    }
}

impl Tidying {
    /// Tidying begins, behind a store under `name` that made the file `own`.
    pub fn new(own: Name, name: Name) -> Tidying
        ensures { result ≡ record { own = own; name = name; rest = Rest.Owning } }
    {
        Tidying {
            own,
            name,
            rest: Rest::Owning,
        }
    }

    /// What is asked next.
    pub fn asks(&self) -> Call
        ensures { result ≡ asked_at self.now.own self.now.name self.now.rest }
    {
        match self.rest {
            Rest::Owning => Call::Lookup { name: self.own },
            Rest::Naming(_) => Call::Lookup { name: self.name },
            Rest::Heading(_, file) => Call::Fetch {
                file,
                block: BlockNo(0),
            },
            Rest::Removing(file) => Call::Remove { file },
            Rest::Ended => Call::Lookup { name: self.own },
        }
    }

    /// Takes the answer to what was asked.
    pub fn take_answer(&mut self, answer: &Answer) -> TidyingSays
        ensures { let next = tidy_at self.old.rest answer.now in (result ≡ next.told) × (self.new ≡ record self.old { rest = next.rest }) }
    {
        let next = self.next(answer);
        self.rest = next.rest;
        next.told
    }

    /// What comes behind an answer.
    fn next(&self, answer: &Answer) -> TidyStep
        ensures { result ≡ tidy_at self.now.rest answer.now }
    {
        match self.rest {
            Rest::Owning => owned(answer),
            Rest::Naming(file) => named(answer, file),
            Rest::Heading(file, _) => headed(answer, file),
            Rest::Removing(_) => removed(answer),
            Rest::Ended => ends(TidyingSays::Unsure),
        }
    }
}
