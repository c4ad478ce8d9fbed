//! A step of the client.

ghost use Rattle.std.specs.Prelude.{◌≡◌};
ghost use Rattle.nq_client.specs.Step.{IsBegun};

use crate::state::State;
use nq_base::Answer;
use nq_client_parts::Entries;
use nq_client_parts::dirty::Vacancy;

/// A vacated message with its number.
#[derive(Drop)]
pub(crate) struct Vacated {
    pub(crate) xid: u32,
    pub(crate) vacancy: Vacancy,
}

/// A step of the client: the client as it is by now, and what the step gave so far. Between steps nothing is given. What
/// it sends is spelled when it ends.
pub(crate) struct Step {
    pub(crate) state: State,
    /// The vacated message that it sends, which goes first.
    pub(crate) vacated: Option<Vacated>,
    /// Whether it sends the request under way, for the first time or again.
    pub(crate) asks: bool,
    pub(crate) entries: Entries,
    pub(crate) answer: Option<Answer>,
    /// Whether a read was answered from what the client has.
    pub(crate) cached: bool,
}

impl Step {
    /// A client between steps.
    pub(crate) fn begun(state: State) -> Step
        ensures state { result.state ≡ state }
        ensures begun { IsBegun result }
    {
        let alloc = state.alloc;
        Step {
            state,
            vacated: None,
            asks: false,
            entries: Entries::new(alloc),
            answer: None,
            cached: false,
        }
    }
}
