//! What kind of message a datagram is.

ghost use Rattle.std.specs.Prelude.{◌≡◌, Ok};
ghost use Rattle.nq_xdr.specs.Lent.{lent_message, lent_outcome};
ghost use Rattle.nq_xdr.specs.Reading.{word_at};
ghost use Rattle.nq_serving.specs.Classes.{call_class, class_heard, class_said, heard_as, number_read, outcome_class, results_class};
ghost use Rattle.nq_serving.specs.Classes.{said_as, status_class, status_in};

use nq_datagrams::PROGRAM;
use nq_xdr::Reader;
use nq_xdr::rpc::{LentCall, LentMessage, LentOutcome, LentReply, decode_in_place};

/// What came to a server.
#[derive(Clone, Copy)]
pub(crate) enum ClassHeard {
    /// A call of this procedure of the program.
    Call(u32),
    /// Anything else.
    Strange,
}

/// What a server sent.
#[derive(Clone, Copy)]
pub(crate) enum ClassSaid {
    /// A notice.
    Notice,
    /// A reply that the request was carried out.
    Done,
    /// A reply that it is to come again later.
    Later,
    /// A reply that it comes too late.
    Fenced,
    /// A reply with another status.
    Refused,
    /// A reply that there is no such call.
    Error,
}

/// What kind of message came.
pub(crate) fn class_heard(bytes: &[u8]) -> ClassHeard
    ensures { result ≡ class_heard bytes.now }
{
    match decode_in_place(bytes) {
        Err(_) => ClassHeard::Strange,
        Ok(message) => heard(message),
    }
}

/// What kind of message came that is one of RPC.
fn heard(message: LentMessage<'_>) -> ClassHeard
    ensures { result ≡ heard_as (Ok (lent_message message.entry)) }
{
    match message {
        LentMessage::Reply(_) => ClassHeard::Strange,
        LentMessage::Call(call) => called(call),
    }
}

/// Of what kind a call is.
fn called(call: LentCall<'_>) -> ClassHeard
    ensures { result ≡ call_class call.entry.head }
{
    if call.head.prog == PROGRAM {
        ClassHeard::Call(call.head.procedure)
    } else {
        ClassHeard::Strange
    }
}

/// What kind of message was sent.
pub(crate) fn class_said(bytes: &[u8]) -> ClassSaid
    ensures { result ≡ class_said bytes.now }
{
    match decode_in_place(bytes) {
        Err(_) => ClassSaid::Error,
        Ok(message) => said(message),
    }
}

/// What kind of message was sent that is one of RPC.
fn said(message: LentMessage<'_>) -> ClassSaid
    ensures { result ≡ said_as (Ok (lent_message message.entry)) }
{
    match message {
        LentMessage::Call(_) => ClassSaid::Notice,
        LentMessage::Reply(LentReply { xid: _, outcome }) => answered(outcome),
    }
}

/// Of what kind a reply with this outcome is.
fn answered(outcome: LentOutcome<'_>) -> ClassSaid
    ensures { result ≡ outcome_class (lent_outcome outcome.entry) }
{
    match outcome {
        LentOutcome::Success(results) => carried_out(results),
        _ => ClassSaid::Error,
    }
}

/// Of what kind a reply with these results is; that to NULL has none.
fn carried_out(results: &[u8]) -> ClassSaid
    ensures { result ≡ results_class (status_in results.now) }
{
    match status_of(results) {
        None => ClassSaid::Done,
        Some(status) => status_said(status),
    }
}

/// The status in the results of a reply, behind the incarnation for which it is.
#[tactic(auto, unfolding(crate::specs::Classes::status_in))]
fn status_of(results: &[u8]) -> Option<u32>
    ensures { result ≡ status_in results.now }
{
    let mut reader = Reader::new(results);
    match reader.u32() {
        Err(_) => None,
        Ok(_) => word_behind(reader),
    }
}

/// The word that is read next.
fn word_behind(reader: Reader<'_>) -> Option<u32>
    ensures { result ≡ number_read (word_at reader.entry) }
{
    let mut reader = reader;
    match reader.u32() {
        Err(_) => None,
        Ok(word) => Some(word),
    }
}

/// What a reply with this status says: OK, TRYLATER, FENCED, or another one.
#[tactic(auto, unfolding(crate::specs::Classes::status_class))]
fn status_said(status: u32) -> ClassSaid
    ensures { result ≡ status_class status }
{
    match status {
        0 => ClassSaid::Done,
        501 => ClassSaid::Later,
        502 => ClassSaid::Fenced,
        _ => ClassSaid::Refused,
    }
}
