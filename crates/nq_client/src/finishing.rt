//! What a step gives: its datagrams, its entries and its answer.

ghost use Rattle.std.specs.Prelude.{◌≡◌, ◌≤◌, ◌∷◌, [], None, length, option_map, OnOk};
ghost use Rattle.nq_base.specs.Plain.{plain_answer};
ghost use Rattle.nq_model.specs.protocol.Message.{call};
ghost use Rattle.nq_wire.specs.Request.{HasSpelling};
ghost use Rattle.nq_client.specs.Finishing.{Finishes, HasLetters, HasRooms, Posts, longest_call};
ghost use Rattle.nq_client.specs.Outcome.{IsHeard, or_pending};
ghost use Rattle.nq_client.specs.Step.{IsBegun, request_message, vacated_message};

use crate::asked::AskedRequest;
use crate::letters::Letter;
use crate::reaction::Reaction;
use crate::rooms::Rooms;
use crate::step::{Step, Vacated};
use nq_base::{Answer, Journal, NoMemory, Party, Request, Who};
use nq_wire::Outbox;
use std::alloc::Global;

/// Memory for the bytes of what a step sends, and for the blocks that it copies.
#[derive(Drop)]
pub(crate) struct Letters {
    pub(crate) vacated: Letter,
    pub(crate) request: Letter,
    pub(crate) rooms: Rooms,
}

impl Letters {
    /// No room. It takes no memory.
    pub(crate) fn new(alloc: Global) -> Letters {
        Letters {
            vacated: Letter::new(alloc),
            request: Letter::new(alloc),
            rooms: Rooms::none(),
        }
    }

    /// Makes room for what a step may send and for the blocks that it may copy.
    pub(crate) fn reserve(&mut self, alloc: Global) -> Result<(), NoMemory>
        ensures letters { OnOk result (HasLetters self.new) }
        ensures rooms { OnOk result (HasRooms self.new.rooms) }
    {
        self.rooms.reserve(alloc)?;
        self.vacated.reserve()?;
        self.request.reserve()
    }
}

/// Sends a call to the server, in room that is there.
#[tactic(auto, using(crate::proofs::Fitting::fit_one))]
fn post(letter: &mut Letter, alloc: Global, xid: u32, request: &Request, out: &mut Outbox)
    requires bytes { longest_call ≤ letter.old }
    requires place { 1 ≤ out.old.spare }
    requires spelled { HasSpelling request.now }
    ensures { Posts (call xid request.now ∷ []) out.old out.new }
{
    let bytes = letter.spell(alloc, xid, request);
    out.push(Party::Server, bytes).unwrap();
}

/// Sends a vacated message, if there is one.
#[tactic(auto, using(crate::proofs::Fitting::fit_none))]
fn post_vacated(
    letter: &mut Letter,
    alloc: Global,
    who: Who,
    vacated: Option<Vacated>,
    out: &mut Outbox,
)
    requires bytes { longest_call ≤ letter.old }
    requires place { 1 ≤ out.old.spare }
    ensures { Posts (vacated_message who vacated) out.old out.new }
{
    match vacated {
        Some(vacated) => {
            let request = Request::Vacated {
                who,
                file: vacated.vacancy.file(),
                tag: vacated.vacancy.tag(),
            };
            post(letter, alloc, vacated.xid, &request, out);
        }
        None => {}
    }
}

/// Sends the request under way, if the step sends it.
#[tactic(auto, using(crate::proofs::Fitting::fit_none))]
fn post_request(
    letter: &mut Letter,
    alloc: Global,
    asks: bool,
    asked: &Option<AskedRequest>,
    out: &mut Outbox,
)
    requires bytes { longest_call ≤ letter.old }
    requires place { 1 ≤ out.old.spare }
    ensures { Posts (request_message asks asked.now) out.old out.new }
{
    match asked {
        Some(asked) if asks => post(letter, alloc, asked.xid(), asked.request(), out),
        _ => {}
    }
}

impl Step {
    /// Gives what the step gave but for its answer: its datagrams and entries go to an outbox and a journal that have room for
    /// them.
    #[tactic(auto, using(crate::proofs::Fitting::fit_both))]
    pub(crate) fn finish(&mut self, letters: &mut Letters, out: &mut Outbox, log: &mut Journal)
        requires letters { HasLetters letters.old }
        requires places { 2 ≤ out.old.spare }
        requires room { length self.old.entries.items ≤ log.old.spare }
        ensures { Finishes self.old self.new out.old out.new log.old log.new }
    {
        let alloc = self.state.alloc;
        let vacated = self.vacated.take();
        post_vacated(&mut letters.vacated, alloc, self.state.who, vacated, out);
        post_request(
            &mut letters.request,
            alloc,
            self.asks,
            &self.state.asked,
            out,
        );
        self.asks = false;
        self.cached = false;
        self.entries.tell(log);
    }

    /// Gives the answer of a call, with which the step ends.
    pub(crate) fn gives_answer(&mut self) -> Answer
        requires { IsBegun (record self.old { answer = None }) }
        ensures begun { IsBegun self.new }
        ensures state { self.new.state ≡ self.old.state }
        ensures answer { plain_answer result ≡ or_pending (option_map plain_answer self.old.answer) }
    {
        match self.answer.take() {
            Some(answer) => answer,
            None => Answer::Pending,
        }
    }

    /// Gives what is heard of the answer, with which the step ends.
    pub(crate) fn gives_heard(&mut self) -> Reaction
        requires { IsBegun (record self.old { answer = None }) }
        ensures begun { IsBegun self.new }
        ensures state { self.new.state ≡ self.old.state }
        ensures heard { IsHeard result (option_map plain_answer self.old.answer) }
    {
        match self.answer.take() {
            Some(answer) => Reaction::Answered(answer),
            None => Reaction::Nothing,
        }
    }
}
