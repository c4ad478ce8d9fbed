//! The next request: what a client sends where none is under way.

ghost use Rattle.std.specs.Prelude.{◌≡◌, None, true};
ghost use Rattle.nq_model.specs.protocol.Send.{send_next, then_renews};
ghost use Rattle.nq_client.specs.Asking.{IsSpelled, meets};
ghost use Rattle.nq_client.specs.Step.{HasNumbers, step_of};

use crate::asking::Need;
use crate::step::Step;
use nq_base::Spare;
use nq_client_parts::Job;

impl Step {
    /// In a tick's step, sends the renewal that is due.
    fn renews(&mut self, in_tick: bool)
        requires idle { self.old.state.asked ≡ None }
        requires numbers { HasNumbers 1 self.old.state }
        ensures { step_of self.new ≡ then_renews in_tick (step_of self.old) }
    {
        match self.state.renewal(in_tick) {
            Some(request) => self.sends_request(Job::Renewing, request),
            None => {}
        }
    }

    /// Sends what is needed.
    fn meets(&mut self, need: Need, room: &mut Spare)
        requires block { room.old ≡ true }
        requires idle { self.old.state.asked ≡ None }
        requires none { self.old.state.dirty.push ≡ None }
        requires numbers { HasNumbers 1 self.old.state }
        requires spelled { IsSpelled need }
        ensures { step_of self.new ≡ meets (step_of self.old) need }
    {
        match need {
            Need::Push(file) => self.pushes(file, room),
            Need::Through(file, block) => self.sends_write(file, block, room),
            Need::Ask(request) => self.sends_request(Job::ForCall, request),
            Need::Order(request) => self.sends_in_order(request),
            Need::Change(file, request) => self.sends_change(file, request),
        }
    }

    /// The next request, where none is under way: a push for the least file with a notice; else one for the least file whose
    /// lease is about to end; else the call's request; else, in a tick's step, a renewal.
    pub(crate) fn send_next(&mut self, in_tick: bool, room: &mut Spare)
        requires block { room.old ≡ true }
        requires none { self.old.state.asked ≡ None → self.old.state.dirty.push ≡ None }
        requires numbers { HasNumbers 1 self.old.state }
        ensures { step_of self.new ≡ send_next in_tick (step_of self.old) }
    {
        if self.state.asked.is_some() {
            return;
        }
        match self.state.next() {
            Some(need) => self.meets(need, room),
            None => self.renews(in_tick),
        }
    }
}
