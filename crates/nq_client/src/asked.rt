//! The request under way.

ghost use Rattle.std.specs.Prelude.{◌≡◌, ◌<◌, ◌+◌, ◌^◌, nat_le, Some};
ghost use Rattle.nq_client_parts.specs.Jobs.{job_of};
ghost use Rattle.nq_model.specs.protocol.Profile.{patience};
ghost use Rattle.nq_wire.specs.Request.{HasSpelling};

use nq_base::{Request, Ticks};
use nq_client_parts::Job;
use std::marker::Model;

/// After so long without an answer a request is sent again, in ticks.
const PATIENCE: u64 = 2;

/// The request under way. It has to be spent: by its answer, or by giving it up. Its bytes are spelled each time that it
/// is sent. Clauses see the ticket of the protocol.
pub(crate) struct AskedRequest {
    xid: u32,
    first: Ticks,
    last: Ticks,
    request: Request,
    job: Job,
}

impl Model for AskedRequest {
    ghost use Rattle.std.specs.Prelude.{◌<◌, ◌^◌};
    ghost use Rattle.nq_client_parts.specs.Jobs.{job_of};
    ghost use Rattle.nq_model.specs.protocol.Client.{Ticket};
    ghost use Rattle.nq_wire.specs.Request.{HasSpelling};

    ghost Value = { Ticket };

    ghost view = { λ a. record { xid = a.xid; first = a.first; last = a.last; request = a.request; job = job_of a.job } };

    ghost invariant = { λ a. HasSpelling a.request × (a.first < 2 ^ 62) × (a.last < 2 ^ 62) };
}

impl AskedRequest {
    /// A request that is sent now for the first time.
    pub(crate) fn new(xid: u32, now: Ticks, request: Request, job: Job) -> AskedRequest
        requires time { now < 2 ^ 62 }
        requires spelled { HasSpelling request }
        ensures { result ≡ record { xid = xid; first = now; last = now; request = request; job = job_of job } }
    {
        AskedRequest {
            xid,
            first: now,
            last: now,
            request,
            job,
        }
    }

    /// Its number, which its answer bears.
    pub(crate) fn xid(&self) -> u32
        ensures { result ≡ self.now.xid }
    {
        self.xid
    }

    /// When it was first sent. The term of a lease that the answer brings counts from then (Gray and Cheriton 1989).
    pub(crate) fn first(&self) -> Ticks
        ensures first { result ≡ self.now.first }
        ensures early { result < 2 ^ 62 }
    {
        self.first
    }

    /// What is asked.
    pub(crate) fn request(&self) -> &Request
        ensures request { result.now ≡ self.now.request }
        ensures spelled { HasSpelling result.now }
    {
        &self.request
    }

    /// What it is for.
    pub(crate) fn job(&self) -> Job
        ensures { job_of result ≡ self.now.job }
    {
        self.job
    }

    /// Whether it is to be sent again: 2 ticks have passed since it was last sent.
    pub(crate) fn again_due(&self, now: Ticks) -> bool
        ensures { result ≡ nat_le (self.now.last + patience) now }
    {
        self.last.0 + PATIENCE <= now.0
    }

    /// Notes that it is sent again now.
    pub(crate) fn again(&mut self, now: Ticks)
        requires { now < 2 ^ 62 }
        ensures { self.new ≡ record self.old { last = now } }
    {
        self.last = now;
    }

    /// Gives it up, or takes its answer: it is no more under way.
    pub(crate) fn spent(self) {
        let AskedRequest {
            xid: _,
            first: _,
            last: _,
            request: _request,
            job: _,
        } = self;
    }
}

/// Puts a request under way, in the place of another.
pub(crate) fn put_under_way(slot: &mut Option<AskedRequest>, asked: AskedRequest)
    ensures { slot.new ≡ Some asked }
{
    match slot.replace(asked) {
        Some(old) => old.spent(),
        None => {}
    }
}
