//! Answers to the call under way that a reply brings.

ghost use Rattle.std.specs.Prelude.{◌≡◌, ◌≤◌, ◌<◌, ◌^◌, None};
ghost use Rattle.nq_base.specs.Plain.{plain_answer, plain_said};
ghost use Rattle.nq_base.specs.declared.Answer.TheVariants.{Ok as ok};
ghost use Rattle.nq_model.specs.protocol.Hear.{answer_of, answers_call, marks_through, pauses};
ghost use Rattle.nq_client.specs.Answering.{answers_as};
ghost use Rattle.nq_client.specs.Prepared.{Leaves};
ghost use Rattle.nq_client.specs.Step.{step_of};

use crate::step::Step;
use nq_base::{Answer, Refusal, Said, Ticks, Value};
use nq_client_parts::{answer_of, said_value};

/// So long a client pauses after a request was put off, in ticks.
const PATIENCE: u64 = 2;

impl Step {
    /// Answers the call under way, if there is one.
    fn answers_as(&mut self, answer: Answer, said: Said)
        requires { 1 ≤ self.old.entries.spare }
        ensures step { step_of self.new ≡ answers_as (step_of self.old) (plain_answer answer) (plain_said said) (step_of self.old).client.call }
        ensures left { Leaves 1 self.old self.new }
    {
        match &self.state.call {
            Some(u) => {
                let q = u.q;
                self.ends_call(q, answer, said);
            }
            None => {}
        }
    }

    /// Answers the call under way with what it brings; the server sent a block in the packet of this number.
    #[tactic(auto, unfolding(nq_model::specs::protocol::Settle::answers))]
    pub(crate) fn answers_value(&mut self, value: Value, served: Option<u64>)
        requires { 1 ≤ self.old.entries.spare }
        ensures step { step_of self.new ≡ answers_call (step_of self.old) (ok value) served }
        ensures left { Leaves 1 self.old self.new }
    {
        let said = said_value(&value, served);
        self.answers_as(Answer::Ok(value), said);
    }

    /// Answers the call under way with what a refusal means.
    #[tactic(auto, unfolding(nq_model::specs::protocol::Settle::answers))]
    pub(crate) fn answers_refusal(&mut self, status: Refusal)
        requires { 1 ≤ self.old.entries.spare }
        ensures step { step_of self.new ≡ answers_call (step_of self.old) (answer_of status) None }
        ensures left { Leaves 1 self.old self.new }
    {
        let (answer, said) = answer_of(status);
        self.answers_as(answer, said);
    }

    /// The write of the call under way is to go through, or not.
    #[tactic(auto, unfolding(nq_model::specs::protocol::Hear::marks_through))]
    pub(crate) fn marks_through(&mut self, on: bool)
        ensures step { step_of self.new ≡ marks_through on (step_of self.old) }
        ensures left { Leaves 0 self.old self.new }
    {
        match &mut self.state.call {
            Some(u) => u.through = on,
            None => {}
        }
    }

    /// A request was put off: the client pauses, and a write is not to go through any more.
    #[tactic(auto, unfolding(nq_model::specs::protocol::Hear::pauses))]
    pub(crate) fn pauses(&mut self)
        requires { self.old.state.time < 2 ^ 62 }
        ensures step { step_of self.new ≡ pauses (step_of self.old) }
        ensures left { Leaves 0 self.old self.new }
    {
        self.state.pause = Ticks(self.state.time.0 + PATIENCE);
        self.marks_through(false);
    }
}
