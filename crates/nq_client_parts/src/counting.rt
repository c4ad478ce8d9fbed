//! Which datagrams count for a client.

ghost use Rattle.std.specs.Prelude.{◌≡◌};
ghost use Rattle.nq_client_parts.specs.HoldingLeases.{lease_of};
ghost use Rattle.nq_model.specs.protocol.Hear.{counts_for_block, counts_for_call, counts_for_change, counts_for_lease, counts_for_name, holds_later, inc_of};
ghost use Rattle.nq_model.specs.protocol.Hear.{is_of_procedure, is_put_off, refusal_counts, wants_of};
ghost use Rattle.nq_client_parts.specs.Jobs.{job_of};

use crate::holding::Held;
use crate::job::Job;
use nq_base::{FileId, Inc, Refusal, Reply, Request, Tag};

/// Whether a refusal says that the request is put off.
pub fn is_put_off(status: Refusal) -> bool
    ensures { result ≡ is_put_off status }
{
    match status {
        Refusal::TryLater | Refusal::NotAttached | Refusal::Old => true,
        Refusal::NoEnt
        | Refusal::Exist
        | Refusal::Inval
        | Refusal::NoSpc
        | Refusal::Stale
        | Refusal::Fenced => false,
    }
}

/// Whether a refusal of LOOKUP, CREATE or GETATTR counts.
fn counts_for_name(status: Refusal) -> bool
    ensures { result ≡ counts_for_name status }
{
    match status {
        Refusal::Fenced => false,
        Refusal::NoEnt
        | Refusal::Exist
        | Refusal::Inval
        | Refusal::NoSpc
        | Refusal::Stale
        | Refusal::TryLater
        | Refusal::NotAttached
        | Refusal::Old => true,
    }
}

/// Whether a refusal of READ, or of a WRITE that goes through, counts.
fn counts_for_block(status: Refusal) -> bool
    ensures { result ≡ counts_for_block status }
{
    match status {
        Refusal::Inval | Refusal::Stale => true,
        Refusal::TryLater | Refusal::NotAttached | Refusal::Old => true,
        Refusal::NoEnt | Refusal::Exist | Refusal::NoSpc | Refusal::Fenced => false,
    }
}

/// Whether a refusal of the call's GETLEASE counts.
fn counts_for_lease(status: Refusal) -> bool
    ensures { result ≡ counts_for_lease status }
{
    match status {
        Refusal::Stale => true,
        Refusal::TryLater | Refusal::NotAttached | Refusal::Old => true,
        Refusal::NoEnt | Refusal::Exist | Refusal::Inval | Refusal::NoSpc | Refusal::Fenced =>
            false,
    }
}

/// Whether a refusal of RESIZE or REMOVE counts.
fn counts_for_change(status: Refusal) -> bool
    ensures { result ≡ counts_for_change status }
{
    match status {
        Refusal::NoEnt | Refusal::Exist | Refusal::Fenced => false,
        Refusal::Inval
        | Refusal::NoSpc
        | Refusal::Stale
        | Refusal::TryLater
        | Refusal::NotAttached
        | Refusal::Old => true,
    }
}

/// Whether a refusal of the call's request counts.
fn counts_for_call(status: Refusal, request: &Request) -> bool
    ensures { result ≡ counts_for_call status request.now }
{
    match request {
        Request::Lookup { .. } | Request::Create { .. } | Request::GetAttr { .. } => {
            counts_for_name(status)
        }
        Request::Read { .. } | Request::Write { .. } => counts_for_block(status),
        Request::GetLease { .. } => counts_for_lease(status),
        Request::Resize { .. } | Request::Remove { .. } => counts_for_change(status),
        Request::Null
        | Request::Attach { .. }
        | Request::Vacated { .. }
        | Request::Evicted { .. } => false,
    }
}

/// Whether a refusal of the request under way counts.
pub fn refusal_counts(status: Refusal, request: &Request, job: Job) -> bool
    ensures { result ≡ refusal_counts status request.now (job_of job) }
{
    match job {
        Job::Attaching => false,
        Job::ForCall => counts_for_call(status, request),
        Job::Renewing => true,
        Job::Pushing => !is_put_off(status),
    }
}

/// Whether a reply is of a request's procedure.
pub fn is_of_procedure(reply: &Reply, request: &Request) -> bool
    ensures { result ≡ is_of_procedure reply.now request.now }
{
    match reply {
        Reply::Null | Reply::Refused { .. } => false,
        Reply::Attach { .. } => matches!(request, Request::Attach { .. }),
        Reply::Lookup { .. } => matches!(request, Request::Lookup { .. }),
        Reply::Create { .. } => matches!(request, Request::Create { .. }),
        Reply::GetAttr { .. } => matches!(request, Request::GetAttr { .. }),
        Reply::Read { .. } => matches!(request, Request::Read { .. }),
        Reply::Write { .. } => matches!(request, Request::Write { .. }),
        Reply::GetLease { .. } => matches!(request, Request::GetLease { .. }),
        Reply::Resize { .. } => matches!(request, Request::Resize { .. }),
        Reply::Remove { .. } => matches!(request, Request::Remove { .. }),
    }
}

/// The incarnation that a reply repeats.
pub fn inc_of(reply: &Reply) -> Inc
    ensures { result ≡ inc_of reply.now }
{
    match reply {
        Reply::Null => Inc(0),
        Reply::Attach { inc }
        | Reply::Lookup { inc, .. }
        | Reply::Create { inc, .. }
        | Reply::GetAttr { inc, .. }
        | Reply::Read { inc, .. }
        | Reply::Write { inc, .. }
        | Reply::GetLease { inc, .. }
        | Reply::Resize { inc, .. }
        | Reply::Remove { inc }
        | Reply::Refused { inc, .. } => *inc,
    }
}

/// Whether a request carries a want for a file.
pub fn wants(request: &Request, file: FileId) -> bool
    ensures { result ≡ wants_of file request.now }
{
    match request {
        Request::Read {
            file: read,
            want,
            ..
        } => *read == file && want.is_some(),
        Request::GetLease { file: wanted, .. } => *wanted == file,
        Request::Null
        | Request::Attach { .. }
        | Request::Lookup { .. }
        | Request::Create { .. }
        | Request::GetAttr { .. }
        | Request::Write { .. }
        | Request::Vacated { .. }
        | Request::Evicted { .. }
        | Request::Resize { .. }
        | Request::Remove { .. } => false,
    }
}

/// Whether a lease with a later tag is held.
pub fn holds_later(tag: Tag, held: &Held) -> bool
    ensures { result ≡ holds_later tag (lease_of held.now) }
{
    match held.lease() {
        Some(lease) => tag < lease.tag,
        None => false,
    }
}
