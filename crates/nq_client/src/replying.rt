//! Replies to the request under way.

ghost use Rattle.std.specs.Prelude.{◌≡◌, ◌<◌, ◌^◌, OnOk, OnErr};
ghost use Rattle.std.specs.Option.{ForSome};
ghost use Rattle.nq_model.specs.protocol.Client.{pushing};
ghost use Rattle.nq_model.specs.protocol.Hear.{done, done_push, done_renewal, refused, replied};
ghost use Rattle.nq_client_parts.specs.Jobs.{job_of};
ghost use Rattle.nq_client.specs.Prepared.{Comes, IsPrepared};
ghost use Rattle.nq_client_parts.specs.Calls.{file_at_stake};
ghost use Rattle.nq_client.specs.Receiving.{answered, at_stake};
ghost use Rattle.nq_client.specs.Step.{HasRoom, step_of};
ghost use Rattle.nq_client.specs.Tied.{Tied, TiedFor};

use crate::asked::{AskedRequest, put_under_way};
use crate::step::Step;
use nq_base::{NoMemory, Refusal, Reply, Request, Ticks};
use nq_client_parts::{Job, is_put_off};

impl Step {
    /// A renewal was done. It was first sent at `sent`.
    fn done_renewal(
        &mut self,
        request: &Request,
        sent: Ticks,
        reply: &Reply,
    ) -> Result<(), NoMemory>
        requires prepared { IsPrepared (file_at_stake request.now) self.old }
        requires sent { sent < 2 ^ 62 }
        ensures { Comes result (done_renewal (step_of self.old) sent request.now reply.now) self.old self.new }
    {
        match request {
            Request::GetLease { file, .. } => match reply {
                Reply::GetLease { grant, .. } => self.takes_optional(*file, grant, sent),
                _ => Ok(()),
            },
            _ => Ok(()),
        }
    }

    /// A push was done.
    fn done_push(&mut self, request: &Request, reply: &Reply) -> Result<(), NoMemory>
        requires prepared { IsPrepared (file_at_stake request.now) self.old }
        requires tied { TiedFor pushing request.now self.old.state.dirty.push }
        ensures { Comes result (done_push (step_of self.old) request.now reply.now) self.old self.new }
    {
        match request {
            Request::Write {
                file,
                block,
                body,
                ..
            } => match reply {
                Reply::Write { rev, .. } => self.push_done(*file, *block, body, *rev),
                _ => Ok(()),
            },
            _ => Ok(()),
        }
    }

    /// A request was done, by what it was for.
    #[tactic(auto, unfolding(nq_model::specs::protocol::Hear::attached))]
    fn done(
        &mut self,
        job: Job,
        asked: &AskedRequest,
        packet: u64,
        reply: &Reply,
    ) -> Result<(), NoMemory>
        requires prepared { IsPrepared (file_at_stake asked.now.request) self.old }
        requires tied { TiedFor (job_of job) asked.now.request self.old.state.dirty.push }
        ensures { Comes result (done (step_of self.old) packet asked.now (job_of job) reply.now) self.old self.new }
    {
        match job {
            Job::Attaching => {
                self.state.attached = true;
                Ok(())
            }
            Job::ForCall => self.done_for_call(asked.request(), asked.first(), packet, reply),
            Job::Renewing => self.done_renewal(asked.request(), asked.first(), reply),
            Job::Pushing => self.done_push(asked.request(), reply),
        }
    }

    /// A request was refused, by what it was for.
    fn refused(&mut self, status: Refusal, job: Job, asked: &AskedRequest) -> Result<(), NoMemory>
        requires prepared { IsPrepared (file_at_stake asked.now.request) self.old }
        ensures { Comes result (refused (step_of self.old) status asked.now (job_of job)) self.old self.new }
    {
        match job {
            Job::Attaching => {}
            Job::ForCall => {
                if is_put_off(status) {
                    self.pauses();
                } else {
                    self.answers_refusal(status);
                }
            }
            Job::Renewing => {
                if is_put_off(status) {
                    self.pauses();
                }
            }
            // The delayed writes of the push's file are lost.
            Job::Pushing => match asked.request() {
                Request::Write { file, .. } => return self.push_refused(*file),
                _ => {}
            },
        }
        Ok(())
    }

    /// A request that is no more under way was answered in the packet of this number.
    fn answered(&mut self, asked: &AskedRequest, packet: u64, reply: &Reply) -> Result<(), NoMemory>
        requires prepared { IsPrepared (file_at_stake asked.now.request) self.old }
        requires tied { TiedFor asked.now.job asked.now.request self.old.state.dirty.push }
        ensures { Comes result (answered (step_of self.old) packet asked.now reply.now) self.old self.new }
    {
        let job = asked.job();
        match reply {
            Reply::Refused { status, .. } => self.refused(*status, job, asked),
            _ => self.done(job, asked, packet, reply),
        }
    }

    /// The request under way was answered in the packet of this number, and is spent.
    ///
    /// # Errors
    ///
    /// Only want of memory, and then nothing changed.
    pub(crate) fn replied(&mut self, packet: u64, reply: &Reply) -> Result<(), NoMemory>
        requires prepared { IsPrepared (at_stake self.old.state.asked) self.old }
        requires tied { Tied self.old.state.asked self.old.state.dirty.push }
        ensures done { OnOk result (ForSome self.old.state.asked (λ t. step_of self.new ≡ replied (step_of self.old) packet t reply.now)) }
        ensures room { OnOk result (HasRoom self.new) }
        ensures refused { OnErr result (self.new ≡ self.old) }
    {
        let Some(asked) = self.state.asked.take() else {
            return Ok(());
        };
        match self.answered(&asked, packet, reply) {
            Ok(()) => {
                asked.spent();
                Ok(())
            }
            Err(fault) => {
                put_under_way(&mut self.state.asked, asked);
                Err(fault)
            }
        }
    }
}
