//! A call of a user.

ghost use Rattle.std.specs.Prelude.{◌≡◌, ◌≤◌, ◌<◌, ◌+◌, ◌^◌, false};
ghost use Rattle.nq_model.specs.protocol.Client.{begun, losses_of};
ghost use Rattle.nq_model.specs.protocol.ClientStep.{begins_call, call_freely, changed_file, client_call, losses_for, says_busy, tell_losses};
ghost use Rattle.nq_base.specs.Calls.{told};
ghost use Rattle.nq_model.specs.protocol.Settle.{names_losses};
ghost use Rattle.nq_client.specs.Finishing.{HasRooms};
ghost use Rattle.nq_client.specs.Step.{HasNumbers, HasRoom, step_of};
ghost use Rattle.nq_client.specs.Losing.{Uses};
ghost use Rattle.nq_client.specs.Calling.{HasRoomToCall};
ghost use Rattle.nq_client.specs.Tied.{Tied};

use crate::rooms::Rooms;
use crate::state::UnderWay;
use crate::step::Step;
use nq_base::{Answer, Call, Entry, FileId, KeptCall, Said};
use nq_client_parts::{Named, changed_file};

impl Step {
    /// A call: busy, or told of losses, or under way.
    pub(crate) fn call(&mut self, call: Call, kept: KeptCall, named: Named, rooms: &mut Rooms)
        requires rooms { HasRooms rooms.old }
        requires room { HasRoomToCall self.old }
        requires numbers { HasNumbers 2 self.old.state }
        requires calls { self.old.state.calls < 2 ^ 62 }
        requires tied { Tied self.old.state.asked self.old.state.dirty.push }
        requires kept { kept ≡ told call }
        requires named { named ≡ losses_for (changed_file call) self.old.state.losses.items }
        requires begun { step_of self.old ≡ begun (step_of self.old).client }
        ensures { step_of self.new ≡ client_call (step_of self.old).client call }
    {
        let busy = self.state.call.is_some() || !self.state.attached;
        self.begins_call(&call, kept);
        if busy {
            self.says_busy();
        } else if named.is_empty() {
            self.call_freely(call, rooms);
        } else {
            self.tells_losses(&call, named);
        }
    }

    /// A call begins: it takes the next number.
    #[tactic(auto, unfolding(nq_model::specs::protocol::ClientStep::begins_call))]
    fn begins_call(&mut self, call: &Call, kept: KeptCall)
        requires kept { kept ≡ told call.now }
        requires room { HasRoomToCall self.old }
        requires numbers { HasNumbers 2 self.old.state }
        requires calls { self.old.state.calls < 2 ^ 62 }
        requires begun { step_of self.old ≡ begun (step_of self.old).client }
        ensures step { step_of self.new ≡ begins_call (step_of self.old).client call.now }
        ensures room { HasRoom self.new }
        ensures numbers { HasNumbers 2 self.new.state }
        ensures losses { self.new.state.losses ≡ self.old.state.losses }
        ensures asked { self.new.state.asked ≡ self.old.state.asked }
        ensures dirty { self.new.state.dirty ≡ self.old.state.dirty }
    {
        self.state.calls += 1;
        self.entries.note(Entry::C {
            who: self.state.who,
            q: self.state.calls,
            told: kept,
        });
    }

    /// The call is answered at once, and the other one goes on.
    #[tactic(auto, unfolding(nq_model::specs::protocol::ClientStep::says_busy))]
    fn says_busy(&mut self)
        requires { HasRoom self.old }
        ensures { step_of self.new ≡ says_busy (step_of self.old) }
    {
        self.entries.note(Entry::A {
            who: self.state.who,
            q: self.state.calls,
            said: Said::Busy,
        });
        self.answer = Some(Answer::Busy);
    }

    /// The call is told its losses, which are then named.
    fn tells_losses(&mut self, call: &Call, named: Named)
        requires room { HasRoom self.old }
        requires named { named ≡ losses_for (changed_file call.now) self.old.state.losses.items }
        ensures { step_of self.new ≡ tell_losses (step_of self.old) (changed_file call.now) }
    {
        match changed_file(call) {
            Some(file) => self.names_losses(self.state.calls, file, named),
            None => {}
        }
    }

    /// The answer that names all losses of a file, which are then named.
    #[tactic(auto, unfolding(nq_model::specs::protocol::Settle::answers))]
    pub(crate) fn names_losses(&mut self, q: u64, file: FileId, named: Named)
        requires room { 1 ≤ self.old.entries.spare }
        requires named { named ≡ losses_of file self.old.state.losses.items }
        ensures step { step_of self.new ≡ names_losses (step_of self.old) q file }
        ensures left { Uses 1 self.old self.new }
    {
        self.state.losses.forget(file);
        let (losses, spans) = named.told();
        self.ends_call(q, Answer::Lost(losses), Said::Lost(spans));
    }

    /// A call of a client that has none under way, and that is told of no losses: it is under way.
    #[tactic(auto, unfolding(nq_model::specs::protocol::ClientStep::is_called))]
    fn call_freely(&mut self, call: Call, rooms: &mut Rooms)
        requires rooms { HasRooms rooms.old }
        requires room { HasRoom self.old }
        requires numbers { HasNumbers 2 self.old.state }
        requires tied { Tied self.old.state.asked self.old.state.dirty.push }
        ensures { step_of self.new ≡ call_freely (step_of self.old) call }
    {
        self.state.call = Some(UnderWay {
            q: self.state.calls,
            call,
            through: false,
            written: false,
        });
        self.settle(&mut rooms.kept);
        if !self.cached {
            self.send_next(false, &mut rooms.sent);
        }
    }
}
