//! The start of an incarnation.

ghost use Rattle.std.specs.Prelude.{◌≡◌, ◌+◌, ◌<◌, ◌≤◌, ◌^◌, None, IfOk, OnOk};
ghost use Rattle.nq_base.specs.declared.Request.{Request};
ghost use Rattle.nq_model.specs.protocol.Client.{attaching};
ghost use Rattle.nq_model.specs.protocol.ClientStep.{starts};
ghost use Rattle.nq_model.specs.protocol.Send.{sends_request};
ghost use Rattle.nq_client.specs.Finishing.{Begins, HasLetters, IsUnsent};
ghost use Rattle.nq_client.specs.Step.{step_of};

use crate::finishing::Letters;
use crate::state::State;
use crate::step::Step;
use nq_base::{Journal, NoMemory, Request, Ticks, Who};
use nq_client_parts::Job;
use nq_wire::Outbox;
use std::alloc::Global;

impl Step {
    /// Asks the server to attach this incarnation.
    fn asks_to_attach(&mut self)
        requires idle { self.old.state.asked ≡ None }
        requires time { self.old.state.time < 2 ^ 62 }
        requires xid { self.old.state.xid + 1 < 2 ^ 32 }
        ensures { step_of self.new ≡ sends_request (step_of self.old) attaching (Request.Attach self.old.state.who) }
    {
        let who = self.state.who;
        self.sends_request(Job::Attaching, Request::Attach { who });
    }
}

/// The first step of an incarnation, which asks to be attached.
#[tactic(auto, unfolding(nq_model::specs::protocol::ClientStep::starts, nq_model::specs::protocol::ClientStep::fresh_client, nq_model::specs::protocol::Send::sends_request))]
fn first_step(alloc: Global, who: Who, term: u32, time: Ticks) -> Result<Step, NoMemory>
    requires { time < 2 ^ 62 }
    ensures { IfOk result (λ s. step_of s ≡ starts who term time) }
{
    let state = State::fresh(alloc, who, term, time)?;
    let mut step = Step::begun(state);
    step.asks_to_attach();
    Ok(step)
}

/// Takes the memory that the first step may want.
fn reserve(alloc: Global, letters: &mut Letters, out: &mut Outbox) -> Result<(), NoMemory>
    ensures letters { OnOk result (HasLetters letters.new) }
    ensures places { OnOk result (2 ≤ out.new.spare) }
    ensures unsent { IsUnsent out.old out.new }
{
    letters.reserve(alloc)?;
    out.reserve(2)
}

/// Begins an incarnation: its client asks to be attached.
pub(crate) fn begin(
    alloc: Global,
    who: Who,
    term: u32,
    time: Ticks,
    letters: &mut Letters,
    out: &mut Outbox,
) -> Result<Step, NoMemory>
    requires { time < 2 ^ 62 }
    ensures { Begins result (starts who term time) out.old out.new }
{
    reserve(alloc, letters, out)?;
    let mut log = Journal::new(alloc).unwrap();
    let mut step = first_step(alloc, who, term, time)?;
    step.finish(letters, out, &mut log);
    // No call is under way, so there is no answer to give.
    step.answer = None;
    Ok(step)
}
