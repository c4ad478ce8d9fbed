//! The asks that a host has taken out and not answered yet.

ghost use Rattle.std.specs.Prelude.{◌≡◌, ◌++◌, Option, Some, None, is_none, is_some, option_map};
ghost use Rattle.nq_asks.specs.declared.lines.AnswerKind.{AnswerKind};
ghost use Rattle.nq_tasks.specs.Desk.{Desks, Moves, asker_of, closed, place_of, resumed, set_aside, somebodys, told_of, unanswered, waiter_of};
ghost use Rattle.nq_tasks.specs.Work.{Answers, Ends, IsOf, TakesAnswer, Works};
ghost use Rattle.nq_tasks.specs.declared.work.AskReply.{AskReply};
ghost use Rattle.nq_tasks.specs.declared.work.Came.{Came};

use crate::asks::Ask;
use crate::work::{Came, NOBODY, Work};
use nq_base::{Answer, FileId, NoMemory, Who};
use std::alloc::Global;
use std::marker::Model;

/// An ask that was taken out, and is done next.
#[derive(Drop)]
struct Held {
    place: usize,
    ask: Ask,
}

/// An ask that wants the host to end.
#[derive(Clone, Copy)]
struct Ender {
    place: usize,
    number: u32,
}

/// What a host has to do: the work for one ask, or for none; what was put aside for it; the ask that is next; and the one that wants it to end.
/// Contracts see whose they are, the numbers of the asks, and what is done.
/// Where its answer comes an ask leaves the desk; that none is begun over another one, whoever uses it has to see to.
#[derive(Drop)]
pub struct Desk {
    alloc: Global,
    work: Option<Work>,
    aside: Option<Work>,
    held: Option<Held>,
    ender: Option<Ender>,
}

impl Model for Desk {
    ghost use Rattle.std.specs.Prelude.{option_map};
    ghost use Rattle.nq_tasks.specs.Desk.{Desks};

    ghost Value = { Desks };

    ghost view = { λ d. record {
      work = d.work;
      aside = d.aside;
      held = option_map (λ h. record { place = h.place; number = h.ask.number }) d.held;
      ender = option_map (λ e. record { place = e.place; number = e.number }) d.ender;
    } };
}

/// An ask is answered once: behind its answer it is no more among those that were taken out and are not answered yet, and all others are.
pub fn asks_are_answered_once()
    ensures { (desk : Desks) (work : Works) (reply : AskReply) → desk.work ≡ Some work → IsOf work.asked reply
        → unanswered desk ≡ somebodys (Some (told_of (reply.place, reply.number))) ++ unanswered (closed (Came.Over reply) desk) }
{}

impl Desk {
    /// Nothing is to be done.
    pub fn new(alloc: Global) -> Desk
        ensures { result ≡ record { work = None; aside = None; held = None; ender = None } }
    {
        Desk {
            alloc,
            work: None,
            aside: None,
            held: None,
            ender: None,
        }
    }

    /// What is at work.
    pub fn work(&self) -> Option<&Work>
        ensures { option_map (λ work. work.now) result ≡ self.now.work }
    {
        self.work.as_ref()
    }

    /// Whether nothing is at work.
    pub fn is_idle(&self) -> bool
        ensures { result ≡ is_none self.now.work }
    {
        self.work.is_none()
    }

    /// Whether an ask is taken out that is done next.
    pub fn has_next(&self) -> bool
        ensures { result ≡ is_some self.now.held }
    {
        self.held.is_some()
    }

    /// Whether somebody wants the host to end.
    pub fn wants_end(&self) -> bool
        ensures { result ≡ is_some self.now.ender }
    {
        self.ender.is_some()
    }

    /// The place of whoever is next; that of nobody, where nobody is.
    pub fn next_place(&self) -> usize
        ensures { result ≡ place_of self.now.held }
    {
        match &self.held {
            Some(held) => held.place,
            None => NOBODY,
        }
    }

    /// The place of whoever asked what was put aside; that of nobody, where nobody did.
    pub fn aside_place(&self) -> usize
        ensures { result ≡ place_of (asker_of self.now.aside) }
    {
        match &self.aside {
            Some(work) => work.place(),
            None => NOBODY,
        }
    }

    /// Keeps an ask, which is done next.
    pub fn hold(&mut self, place: usize, ask: Ask)
        ensures { self.new ≡ record self.old { held = Some (record { place = place; number = ask.number }) } }
    {
        self.held = Some(Held { place, ask });
    }

    /// Keeps the ask that wants the host to end.
    pub fn hold_end(&mut self, place: usize, number: u32)
        ensures { self.new ≡ record self.old { ender = Some (record { place = place; number = number }) } }
    {
        self.ender = Some(Ender { place, number });
    }

    /// The ask that is next, with the place of whoever asked. It is to be begun, or refused.
    pub fn take_next(&mut self) -> Option<(usize, Ask)>
        ensures is { option_map (λ next. record { place = next.0; number = next.1.number }) result ≡ self.old.held }
        ensures left { self.new ≡ record self.old { held = None } }
    {
        match self.held.take() {
            Some(Held { place, ask }) => Some((place, ask)),
            None => None,
        }
    }

    /// The ask that wants the host to end. It is to be answered.
    pub fn take_end(&mut self) -> Option<(usize, u32)>
        ensures is { option_map (λ end. record { place = end.0; number = end.1 }) result ≡ self.old.ender }
        ensures left { self.new ≡ record self.old { ender = None } }
    {
        match self.ender.take() {
            Some(Ender { place, number }) => Some((place, number)),
            None => None,
        }
    }

    /// Begins work.
    pub fn begin(&mut self, work: Work)
        ensures { self.new ≡ record self.old { work = Some work } }
    {
        self.work = Some(work);
    }

    /// Takes up what was put aside. Whether there was anything.
    pub fn resume(&mut self) -> bool
        ensures is { result ≡ is_some self.old.aside }
        ensures next { self.new ≡ resumed self.old }
    {
        if self.aside.is_none() {
            return false;
        }
        self.work = self.aside.take();
        true
    }

    /// Puts aside what is at work, if nothing is put aside yet, and begins to store what is delayed of a file.
    pub fn put_aside(&mut self, file: FileId)
        ensures { self.new ≡ set_aside file self.old }
    {
        if self.aside.is_none() {
            self.aside = self.work.take();
        }
        self.work = Some(Work::sync(self.alloc, file));
    }

    /// Who waits, and the number of the ask, where something is at work: whoever asked it or, where nobody did, is next.
    pub fn waiter(&self) -> Option<(usize, u32)>
        ensures { option_map told_of result ≡ waiter_of self.now }
    {
        let work = self.work.as_ref()?;
        if work.place() != NOBODY {
            return Some((work.place(), work.number()));
        }
        match &self.held {
            Some(held) => Some((held.place, held.ask.number)),
            None => None,
        }
    }

    /// Hands the answer to its call to what is at work. Where that is over, nothing is at work.
    pub fn take_answer(&mut self, answer: &Answer) -> Came
        ensures { Moves (TakesAnswer answer.now result) result self.old.work self.old self.new }
    {
        let came = match &mut self.work {
            Some(work) => work.take_answer(answer),
            None => Came::On,
        };
        self.close(came)
    }

    /// Hands a datagram to what is at work, which may be the page of its list. Where that is over, nothing is at work.
    pub fn take_page(&mut self, who: Who, datagram: &[u8]) -> Came
        ensures { Moves (λ old new. (new.asked ≡ old.asked) × Answers old.asked result) result self.old.work self.old self.new }
    {
        let came = match &mut self.work {
            Some(work) => work.take_page(who, datagram),
            None => Came::On,
        };
        self.close(came)
    }

    /// What is at work is over, since memory was wanting.
    pub fn lack(&mut self) -> Came
        ensures { Moves (λ old new. (new ≡ old) × Ends old.asked AnswerKind.Refused result) result self.old.work self.old self.new }
    {
        let came = match &self.work {
            Some(work) => work.lacks(),
            None => Came::On,
        };
        self.close(came)
    }

    /// The request of this number for the next page of the list at work, where that is due at this time.
    ///
    /// # Errors
    ///
    /// Only want of memory.
    pub fn asks_page(
        &mut self,
        who: Who,
        number: u32,
        now: u64,
    ) -> Result<Option<Vec<u8>>, NoMemory>
        ensures { self.new ≡ self.old }
    {
        match &mut self.work {
            Some(work) => work.asks_page(who, number, now),
            None => Ok(None),
        }
    }

    /// Where what came of a step says that work is over, nothing is at work.
    fn close(&mut self, came: Came) -> Came
        ensures is { result ≡ came }
        ensures next { self.new ≡ closed came self.old }
    {
        match came {
            Came::On => Came::On,
            Came::Later => Came::Later,
            Came::Over(reply) => {
                self.work = None;
                Came::Over(reply)
            }
            Came::Tidied(made) => {
                self.work = None;
                Came::Tidied(made)
            }
        }
    }
}
