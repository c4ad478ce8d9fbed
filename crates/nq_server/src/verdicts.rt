//! Replies to requests that were decided.

ghost use Rattle.std.specs.Prelude.{◌≡◌, ◌≤◌, IfSome};
ghost use Rattle.nq_base.specs.declared.Reply.{Reply as Answer};
ghost use Rattle.nq_base.specs.declared.Verdict.{Verdict as Said};
ghost use Rattle.nq_model.specs.protocol.Decided.{decided_answer};
ghost use Rattle.nq_server.specs.Deciding.{answer_to as answer_of, dropped_for};
ghost use Rattle.nq_wire.specs.Reply.{results_len};

use crate::received::Reason;
use nq_base::{Decided, FileId, Refusal, Reply, Request, Rev, Verdict, Who};

/// The reply to a request that was done, with the kept value.
fn done_reply(who: &Who, value: u64, request: &Request) -> Reply
    ensures { result ≡ decided_answer who.now.inc Said.Done value request.now }
{
    let inc = who.inc;
    match request {
        Request::Attach { .. } => Reply::Attach { inc },
        Request::Create { .. } => Reply::Create {
            inc,
            file: FileId((value % 0x1_0000_0000) as u32),
        },
        Request::Write { .. } => Reply::Write {
            inc,
            rev: Rev(value),
        },
        Request::Resize { .. } => Reply::Resize {
            inc,
            rev: Rev(value),
        },
        Request::Remove { .. } => Reply::Remove { inc },
        _ => Reply::Null,
    }
}

/// A refusal.
fn refused(who: &Who, status: Refusal) -> Reply
    ensures { result ≡ Answer.Refused who.now.inc status }
{
    Reply::Refused {
        inc: who.inc,
        status,
    }
}

/// The reply that a verdict and a value give.
fn verdict_reply(who: &Who, verdict: Verdict, value: u64, request: &Request) -> Reply
    ensures { result ≡ decided_answer who.now.inc verdict value request.now }
{
    if let Request::Attach { .. } = request {
        return Reply::Attach { inc: who.inc };
    }
    let status = match verdict {
        Verdict::Done => return done_reply(who, value, request),
        Verdict::Fenced => Refusal::Fenced,
        Verdict::Exist => Refusal::Exist,
        Verdict::NoSpace => Refusal::NoSpc,
        Verdict::Invalid => Refusal::Inval,
        Verdict::Stale => Refusal::Stale,
        Verdict::TryLater => Refusal::TryLater,
    };
    refused(who, status)
}

/// The reply to a request that was decided; None where it is dropped.
pub(crate) fn answer_to(who: &Who, request: &Request, decided: &Decided) -> Option<Reply>
    ensures is { result ≡ answer_of who.now request.now decided.now }
    ensures short { IfSome result (λ said. results_len said ≤ 16) }
{
    match decided {
        Decided::Fresh { verdict, value } => Some(verdict_reply(who, *verdict, *value, request)),
        Decided::Again { verdict, value } => Some(verdict_reply(who, *verdict, *value, request)),
        Decided::Old => Some(refused(who, Refusal::Old)),
        Decided::OldIncarnation | Decided::OutOfBounds => None,
        Decided::NotAttached => Some(refused(who, Refusal::NotAttached)),
    }
}

/// Why a request that was decided so is dropped, where it is.
pub(crate) fn drop_reason(decided: &Decided) -> Reason
    ensures { result ≡ dropped_for decided.now }
{
    match decided {
        Decided::OutOfBounds => Reason::OutOfBounds,
        _ => Reason::OldIncarnation,
    }
}
