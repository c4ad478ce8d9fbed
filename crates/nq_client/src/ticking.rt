//! A tick of a client's clock.

ghost use Rattle.std.specs.Prelude.{◌≡◌, ◌≤◌, ◌<◌, ◌+◌, ◌^◌, false, nat_le, option_map, if◌then◌else◌};
ghost use Rattle.nq_model.specs.protocol.Client.{begun};
ghost use Rattle.nq_model.specs.protocol.ClientStep.{client_tick};
ghost use Rattle.nq_client.specs.Finishing.{HasRooms};
ghost use Rattle.nq_client.specs.Step.{HasNumbers, HasRoom, step_of};
ghost use Rattle.nq_client.specs.Ticking.{is_due, sent_at};
ghost use Rattle.nq_client.specs.Tied.{Tied};

use crate::asked::AskedRequest;
use crate::rooms::Rooms;
use crate::step::Step;
use nq_base::Ticks;

/// Notes that the request under way is sent again, where it waited for its reply for 2 ticks; whether it is.
fn asks_again(asked: &mut Option<AskedRequest>, now: Ticks) -> bool
    requires { now < 2 ^ 62 }
    ensures due { result ≡ is_due now asked.old }
    ensures sent { asked.new ≡ (if result then option_map (sent_at now) asked.old else asked.old) }
{
    match asked {
        Some(asked) if asked.again_due(now) => {
            asked.again(now);
            true
        }
        _ => false,
    }
}

impl Step {
    /// A tick of the client's clock, which now shows this time.
    ///
    /// The request under way is sent again where it is due; where there is none, the call goes on.
    #[tactic(auto, unfolding(nq_model::specs::protocol::ClientStep::at_time, nq_model::specs::protocol::ClientStep::sends_again))]
    pub(crate) fn tick(&mut self, now: Ticks, rooms: &mut Rooms)
        requires rooms { HasRooms rooms.old }
        requires room { HasRoom self.old }
        requires numbers { HasNumbers 2 self.old.state }
        requires early { now < 2 ^ 62 }
        requires silent { self.old.asks ≡ false }
        requires begun { step_of self.old ≡ begun (step_of self.old).client }
        requires tied { Tied self.old.state.asked self.old.state.dirty.push }
        ensures { step_of self.new ≡ client_tick (step_of self.old).client now }
    {
        self.state.time = now;
        match &self.state.asked {
            Some(_) => self.asks = asks_again(&mut self.state.asked, now),
            None => self.goes_on(true, rooms),
        }
    }
}
