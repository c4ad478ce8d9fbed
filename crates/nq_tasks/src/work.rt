//! What a host does for one ask, call by call.

ghost use Rattle.std.specs.Prelude.{◌≡◌, ◌≤◌, ◌↔◌, IfOk, IfSome, IsSome, Some, length};
ghost use Rattle.nq_asks.specs.declared.lines.AnswerKind.{AnswerKind};
ghost use Rattle.nq_tasks.specs.Work.{Answers, ComesOfGetting, ComesOfStoring, ComesOfTidying};
ghost use Rattle.nq_tasks.specs.Work.{Ends, GoesOrRefuses, TakesAnswer, asked_by, kind_by, nobodys, syncs};
ghost use Rattle.nq_tasks.specs.declared.tasks.Task.{Task};
ghost use Rattle.nq_tasks.specs.declared.work.Came.{Came};
ghost use Rattle.nq_whole.specs.Heads.{most_bytes};
ghost use Rattle.nq_whole.specs.declared.storing.StoringStep.{StoringStep};
ghost use Rattle.nq_whole.specs.declared.tidying.Rest.{Rest};

use crate::asks::{Ask, Made};
use crate::listing::{Listed, Listing};
use crate::tasks::{Stepped, Task};
use crate::texts::{AGAIN, NO_MEMORY, NOT_WHOLE};
use nq_asks::AnswerKind;
use nq_base::{Answer, Call, FileId, Name, NoMemory, Who};
use nq_command::prompt::answer_text;
use nq_directory::Prefix;
use nq_script::words::{WordCursor, is};
use nq_whole::{GettingSays, MOST_BYTES, Storing, StoringSays, Tidying, TidyingSays};
use std::alloc::Global;
use std::marker::Model;
use std::mem;

/// How often a file is read anew whose bytes were gone.
const MOST_ANEW: u32 = 1000;

/// The place of nobody.
pub const NOBODY: usize = usize::MAX;

/// What came of a step.
#[derive(Drop)]
pub enum Came {
    /// It goes on.
    On,
    /// It goes on later: the server recovers.
    Later,
    /// It is over, with this answer.
    Over(AskReply),
    /// Tidying up is over. What was made is kept on the list, if it is there or may be there.
    Tidied(Option<Made>),
}

/// The answer to an ask.
#[derive(Drop)]
pub struct AskReply {
    /// Who asked.
    pub place: usize,
    /// The number of the ask.
    pub number: u32,
    /// Its kind.
    pub kind: AnswerKind,
    /// Its words.
    pub text: Vec<u8>,
    /// The bytes behind its line.
    pub bytes: Vec<u8>,
    /// The name under which a store was refused.
    pub refused: Option<Name>,
    /// Whether a file was removed, perhaps one that told where the bytes of a whole file are.
    pub is_removal: bool,
}

/// An ask at work. Contracts see who asked, the number of the ask, and what is done call by call.
#[derive(Drop)]
pub struct Work {
    alloc: Global,
    place: usize,
    number: u32,
    task: Task,
    listing: Option<Listing>,
    /// Why it was refused, once that is known.
    why: Vec<u8>,
    anew: u32,
    made: Option<Made>,
}

impl Model for Work {
    ghost use Rattle.nq_tasks.specs.Work.{Works};

    ghost Value = { Works };

    ghost view = { λ w. record { asked = record { place = w.place; number = w.number }; task = w.task } };
}

/// The request of this number for the next page of a list, where that is due at this time.
fn due_page(
    alloc: Global,
    listing: &mut Listing,
    who: Who,
    number: u32,
    now: u64,
) -> Result<Option<Vec<u8>>, NoMemory> {
    if listing.is_due(now) {
        let request = listing.ask(alloc, who, number, now)?;
        Ok(Some(request))
    } else {
        Ok(None)
    }
}

/// The list of names that an ask wants; None where it wants none.
fn listing_of(alloc: Global, text: &[u8]) -> Option<Listing> {
    let mut words = WordCursor::new(text);
    if !is(words.next()?, b"ls") {
        return None;
    }
    let prefix = Prefix::new(words.next().unwrap_or(b""))?;
    Some(Listing::new(alloc, prefix))
}

impl Work {
    /// The work of a task.
    fn of(alloc: Global, place: usize, number: u32, task: Task) -> Work
        ensures { result ≡ record { asked = record { place = place; number = number }; task = task } }
    {
        Work {
            alloc,
            place,
            number,
            task,
            listing: None,
            why: Vec::new(alloc),
            anew: 0,
            made: None,
        }
    }

    /// The work for an ask that stores no file; None where it names none.
    pub fn new(alloc: Global, place: usize, ask: &Ask) -> Option<Work>
        ensures { IfSome result (λ work. work.asked ≡ record { place = place; number = ask.now.number }) }
    {
        if let Some(listing) = listing_of(alloc, &ask.text) {
            return Some(Work::list(alloc, place, ask.number, listing));
        }
        let task = Task::named(alloc, &ask.text)?;
        Some(Work::of(alloc, place, ask.number, task))
    }

    /// The work of a list.
    fn list(alloc: Global, place: usize, number: u32, listing: Listing) -> Work
        ensures { result ≡ record { asked = record { place = place; number = number }; task = Task.List } }
    {
        let mut work = Work::of(alloc, place, number, Task::List);
        work.listing = Some(listing);
        work
    }

    /// The work of storing the bytes of an ask, of which there are not too many.
    pub fn store(alloc: Global, place: usize, ask: Ask, made: Made) -> Option<Work>
        ensures asked { IfSome result (λ work. work.asked ≡ record { place = place; number = ask.number }) }
        ensures begins { IfSome result (λ work.
            work.task ≡ Task.Store (record { name = made.name; own = made.own; bytes = ask.body.items; step = StoringStep.Making })) }
        ensures fits { IsSome result ↔ (length ask.body.items ≤ most_bytes) }
    {
        let Ask {
            number,
            text: _text,
            body,
        } = ask;
        if body.len() > MOST_BYTES {
            return None;
        }
        let storing = Storing::new(made.name, made.own, body);
        let mut work = Work::of(alloc, place, number, Task::Store(storing));
        work.made = Some(made);
        Some(work)
    }

    /// The work of tidying up behind a store, which nobody asked for.
    pub fn tidy(alloc: Global, made: Made) -> Work
        ensures { result ≡ record { asked = nobodys; task = Task.Tidy (record { own = made.own; name = made.name; rest = Rest.Owning }) } }
    {
        let tidying = Tidying::new(made.own, made.name);
        let mut work = Work::of(alloc, NOBODY, 0, Task::Tidy(tidying));
        work.made = Some(made);
        work
    }

    /// The work of storing what is delayed of a file, which nobody asked for.
    pub fn sync(alloc: Global, file: FileId) -> Work
        ensures { result ≡ syncs file }
    {
        Work::of(alloc, NOBODY, 0, Task::Call(Call::Sync { file }))
    }

    /// Who asked; `NOBODY` where nobody did.
    pub fn place(&self) -> usize
        ensures { result ≡ self.now.asked.place }
    {
        self.place
    }

    /// The number of the ask.
    pub fn number(&self) -> u32
        ensures { result ≡ self.now.asked.number }
    {
        self.number
    }

    /// The call that comes next. A list has none.
    ///
    /// # Errors
    ///
    /// Want of memory, and that there is no call.
    pub fn asks(&self) -> Result<Call, NoMemory>
        ensures { IfOk result (λ call. asked_by self.now.task ≡ Some call) }
    {
        self.task.asks(self.alloc)
    }

    /// Whether it lists names. Then it makes no call.
    pub fn is_listing(&self) -> bool {
        self.listing.is_some()
    }

    /// The request of this number for the next page of its list, where that is due at this time.
    ///
    /// # Errors
    ///
    /// Only want of memory.
    pub fn asks_page(
        &mut self,
        who: Who,
        number: u32,
        now: u64,
    ) -> Result<Option<Vec<u8>>, NoMemory>
        ensures { self.new ≡ self.old }
    {
        match &mut self.listing {
            Some(listing) => due_page(self.alloc, listing, who, number, now),
            None => Ok(None),
        }
    }

    /// Takes a datagram, which may be the page of its list that was asked for.
    pub fn take_page(&mut self, who: Who, datagram: &[u8]) -> Came
        ensures same { self.new.asked ≡ self.old.asked }
        ensures own { Answers self.old.asked result }
    {
        let listed = match &mut self.listing {
            Some(listing) => listing.take_page(self.alloc, who, datagram),
            None => Ok(Listed::Goes),
        };
        match listed {
            Ok(Listed::Goes) => Came::On,
            Ok(Listed::Later) => Came::Later,
            Ok(Listed::Whole) => self.gives(),
            Err(_) => self.lacks(),
        }
    }

    /// The name under which a store is refused, if an answer of this kind says so.
    fn refused(&self, kind: AnswerKind) -> Option<Name> {
        match kind {
            AnswerKind::Refused => match &self.made {
                Some(made) => Some(made.name),
                None => None,
            },
            _ => None,
        }
    }

    /// Whether an answer of this kind says that a file was removed.
    fn is_removal(&self, kind: AnswerKind) -> bool {
        self.task.removes() && matches!(kind, AnswerKind::Done)
    }

    /// It is over, with this answer and no bytes.
    fn ends(&self, kind: AnswerKind, text: Vec<u8>) -> Came
        ensures { Ends self.now.asked kind result }
    {
        Came::Over(AskReply {
            place: self.place,
            number: self.number,
            kind,
            text,
            bytes: Vec::new(self.alloc),
            refused: self.refused(kind),
            is_removal: self.is_removal(kind),
        })
    }

    /// These words, or none where memory is wanting.
    fn words(&self, words: &[u8]) -> Vec<u8> {
        match words.to_vec(self.alloc) {
            Ok(text) => text,
            Err(_) => Vec::new(self.alloc),
        }
    }

    /// An answer in words.
    fn text(&self, answer: &Answer) -> Vec<u8> {
        match answer_text(self.alloc, answer) {
            Ok(text) => text,
            Err(_) => self.words(NO_MEMORY),
        }
    }

    /// It is over, with these words.
    fn says(&self, kind: AnswerKind, words: &[u8]) -> Came
        ensures { Ends self.now.asked kind result }
    {
        self.ends(kind, self.words(words))
    }

    /// It is over since memory was wanting.
    pub fn lacks(&self) -> Came
        ensures { Ends self.now.asked AnswerKind.Refused result }
    {
        self.says(AnswerKind::Refused, NO_MEMORY)
    }

    /// It is over, with an answer in words.
    fn tells(&self, kind: AnswerKind, answer: &Answer) -> Came
        ensures { Ends self.now.asked kind result }
    {
        self.ends(kind, self.text(answer))
    }

    /// Takes the answer to the call.
    pub fn take_answer(&mut self, answer: &Answer) -> Came
        ensures { TakesAnswer answer.now result self.old self.new }
    {
        match self.task.take_answer(answer) {
            Stepped::Called => self.answered(answer),
            Stepped::Stored(said) => self.stored(said, answer),
            Stepped::Got(got) => self.got(got, answer),
            Stepped::Tidied(told) => self.tidied(told),
            Stepped::Listing => Came::On,
        }
    }

    /// A call has its answer.
    fn answered(&self, answer: &Answer) -> Came
        ensures { Ends self.now.asked (kind_by answer.now) result }
    {
        match answer {
            Answer::Ok(_) => self.tells(AnswerKind::Done, answer),
            _ => self.tells(AnswerKind::Refused, answer),
        }
    }

    /// What tidying says.
    fn tidied(&self, told: TidyingSays) -> Came
        ensures { ComesOfTidying told result }
    {
        match told {
            TidyingSays::Goes => Came::On,
            TidyingSays::Gone => Came::Tidied(None),
            TidyingSays::Kept => Came::Tidied(self.kept()),
            TidyingSays::Unsure => Came::Tidied(self.kept()),
        }
    }

    /// What was made, to be kept on the list.
    fn kept(&self) -> Option<Made> {
        match &self.made {
            Some(made) => Some(Made {
                own: made.own,
                name: made.name,
            }),
            None => None,
        }
    }

    /// What storing says.
    fn stored(&mut self, said: StoringSays, answer: &Answer) -> Came
        ensures same { self.new ≡ self.old }
        ensures comes { ComesOfStoring self.old.asked said result }
    {
        match said {
            StoringSays::Goes => Came::On,
            StoringSays::Done => self.says(AnswerKind::Done, b"ok, stored"),
            StoringSays::Drops => {
                self.why = self.text(answer);
                Came::On
            }
            StoringSays::NotWhole => {
                self.why = self.words(NOT_WHOLE);
                Came::On
            }
            StoringSays::Refused => self.refuses(answer),
        }
    }

    /// It is over, for the reason that is known, or else with this answer.
    fn refuses(&mut self, answer: &Answer) -> Came
        ensures same { self.new ≡ self.old }
        ensures own { Ends self.old.asked AnswerKind.Refused result }
    {
        if self.why.is_empty() {
            return self.tells(AnswerKind::Refused, answer);
        }
        let text = mem::replace(&mut self.why, Vec::new(self.alloc));
        self.ends(AnswerKind::Refused, text)
    }

    /// What getting says.
    fn got(&mut self, got: GettingSays, answer: &Answer) -> Came
        ensures same { self.new.asked ≡ self.old.asked }
        ensures goes { result ≡ Came.On → self.new ≡ self.old }
        ensures comes { ComesOfGetting self.old.asked got result }
    {
        match got {
            GettingSays::Goes => Came::On,
            GettingSays::Anew => self.begins_anew(),
            GettingSays::Done => self.gives(),
            GettingSays::Refused => self.tells(AnswerKind::Refused, answer),
            GettingSays::NotWhole => self.says(AnswerKind::Refused, NOT_WHOLE),
            GettingSays::Memory => self.lacks(),
        }
    }

    /// Getting has begun anew.
    fn begins_anew(&mut self) -> Came
        ensures same { self.new ≡ self.old }
        ensures own { GoesOrRefuses self.old.asked result }
    {
        self.anew = self.anew.saturating_add(1);
        if self.anew > MOST_ANEW {
            self.says(AnswerKind::Refused, AGAIN)
        } else {
            Came::On
        }
    }

    /// The bytes that it got. No call is made behind it.
    fn take_bytes(&mut self) -> Vec<u8>
        ensures { self.new.asked ≡ self.old.asked }
    {
        let nothing = Task::Call(Call::Sync { file: FileId(0) });
        mem::replace(&mut self.task, nothing).into_bytes(self.alloc)
    }

    /// All bytes are there. No call is made behind it.
    fn gives(&mut self) -> Came
        ensures same { self.new.asked ≡ self.old.asked }
        ensures own { Ends self.old.asked AnswerKind.Bytes result }
    {
        let bytes = match &mut self.listing {
            Some(listing) => listing.take_lines(self.alloc),
            None => self.take_bytes(),
        };
        let size = bytes.len();
        let text = match format!(in self.alloc; "{size}") {
            Ok(text) => text.into_bytes(),
            Err(_) => Vec::new(self.alloc),
        };
        Came::Over(AskReply {
            place: self.place,
            number: self.number,
            kind: AnswerKind::Bytes,
            text,
            bytes,
            refused: None,
            is_removal: false,
        })
    }
}
