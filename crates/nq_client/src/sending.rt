//! Requests: each takes the next number, and is under way from then on.

ghost use Rattle.std.specs.Prelude.{◌≡◌, ◌+◌, ◌<◌, ◌^◌, Some, None, true};
ghost use Rattle.nq_base.specs.declared.Request.{Request};
ghost use Rattle.nq_model.specs.protocol.Client.{for_call};
ghost use Rattle.nq_model.specs.protocol.Send.{after_seq, base_in, gives_up, pushes, sends_request, sends_write};
ghost use Rattle.nq_wire.specs.Request.{HasSpelling};
ghost use Rattle.nq_client_parts.specs.Jobs.{job_of};
ghost use Rattle.nq_client.specs.Settling.{called_body};
ghost use Rattle.nq_client.specs.Step.{HasNumbers, step_of};

use crate::asked::{AskedRequest, put_under_way};
use crate::settling::called_body;
use crate::step::Step;
use nq_base::{BlockNo, FileId, Number, PushBase, Request, Seq, Spare};
use nq_cache::Cache;
use nq_client_parts::{Job, Leases};

/// What a push of a file rests on.
fn base_of(leases: &Leases, cache: &Cache, file: FileId) -> PushBase
    ensures { result ≡ base_in file leases.now.items cache.now.revisions }
{
    PushBase {
        boot: leases.boot(file),
        base: cache.rev_or_zero(file),
    }
}

impl Step {
    /// Sends a request. It takes no memory.
    #[tactic(auto, unfolding(nq_model::specs::protocol::Send::sends_request))]
    pub(crate) fn sends_request(&mut self, job: Job, request: Request)
        requires idle { self.old.state.asked ≡ None }
        requires time { self.old.state.time < 2 ^ 62 }
        requires xid { self.old.state.xid + 1 < 2 ^ 32 }
        requires spelled { HasSpelling request }
        ensures { step_of self.new ≡ sends_request (step_of self.old) (job_of job) request }
    {
        let xid = self.state.xid;
        let asked = AskedRequest::new(xid, self.state.time, request, job);
        self.state.xid = xid + 1;
        self.asks = true;
        put_under_way(&mut self.state.asked, asked);
    }

    /// Pushes the first delayed writes of a file, if it has some, with a copy of their block in room that is there.
    #[tactic(auto, unfolding(nq_model::specs::protocol::Send::after_seq, nq_model::specs::protocol::Send::takes_push))]
    pub(crate) fn pushes(&mut self, file: FileId, room: &mut Spare)
        requires block { room.old ≡ true }
        requires idle { self.old.state.asked ≡ None }
        requires none { self.old.state.dirty.push ≡ None }
        requires numbers { HasNumbers 1 self.old.state }
        ensures { step_of self.new ≡ pushes (step_of self.old) file }
    {
        let Some(push) = self.state.dirty.next(file, room) else {
            return;
        };
        let base = base_of(&self.state.leases, &self.state.cache, push.file);
        let seq = self.state.seq;
        self.state.seq = Seq(seq.0 + 1);
        self.sends_request(
            Job::Pushing,
            Request::Write {
                who: self.state.who,
                seq,
                file: push.file,
                block: push.block,
                first: push.first,
                last: push.last,
                push: Some(base),
                body: push.body,
            },
        );
    }

    /// Sends a request of the call under way that takes the next sequence.
    #[tactic(auto, unfolding(nq_model::specs::protocol::Send::after_seq))]
    pub(crate) fn sends_in_order(&mut self, request: Request)
        requires idle { self.old.state.asked ≡ None }
        requires time { self.old.state.time < 2 ^ 62 }
        requires seq { self.old.state.seq + 1 < 2 ^ 64 }
        requires xid { self.old.state.xid + 1 < 2 ^ 32 }
        requires spelled { HasSpelling request }
        ensures { step_of self.new ≡ sends_request (after_seq (step_of self.old)) for_call request }
    {
        self.state.seq = Seq(self.state.seq.0 + 1);
        self.sends_request(Job::ForCall, request);
    }

    /// Sends a WRITE of the block of the call under way, which goes through.
    #[tactic(auto, unfolding(nq_model::specs::protocol::Send::after_seq, nq_model::specs::protocol::Send::after_number))]
    pub(crate) fn sends_write(&mut self, file: FileId, block: BlockNo, room: &mut Spare)
        requires block { room.old ≡ true }
        requires idle { self.old.state.asked ≡ None }
        requires numbers { HasNumbers 1 self.old.state }
        ensures { step_of self.new ≡ sends_write (step_of self.old) file block (called_body (step_of self.old).client.call) }
    {
        let body = called_body(&self.state.call, room);
        let number = self.state.number;
        let seq = self.state.seq;
        self.state.number = Number(number.0 + 1);
        self.sends_in_order(Request::Write {
            who: self.state.who,
            seq,
            file,
            block,
            first: number,
            last: number,
            push: None,
            body,
        });
    }

    /// Gives the lease on a file up, with its clean blocks, and sends a request that changes the file.
    #[tactic(auto, unfolding(nq_model::specs::protocol::Send::gives_up))]
    pub(crate) fn sends_change(&mut self, file: FileId, request: Request)
        requires idle { self.old.state.asked ≡ None }
        requires numbers { HasNumbers 1 self.old.state }
        requires spelled { HasSpelling request }
        ensures { step_of self.new ≡ sends_request (after_seq (gives_up (step_of self.old) file)) for_call request }
    {
        self.state.leases.remove(file);
        self.state.cache.purge(file);
        self.sends_in_order(request);
    }
}
