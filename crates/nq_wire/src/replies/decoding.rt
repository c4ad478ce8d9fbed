//! Reading results.

ghost use Rattle.std.specs.Prelude.{◌≡◌, ◌≢◌, Ok, true, ◌<◌, ◌≤◌, ◌↔◌, length, IfOk};
ghost use Rattle.nq_base.specs.declared.Reply.{Reply};
ghost use Rattle.nq_xdr.specs.Reading.{Gives};
ghost use Rattle.nq_wire.specs.Least.{least_results};
ghost use Rattle.nq_wire.specs.Reply.{IsResults};
ghost use Rattle.nq_wire.specs.Lent.{lent_in};
ghost use Rattle.nq_wire.specs.Reading.{found_at, created_at, attributes_at, block_at, written_at, lease_at, resized_at, results_at, answer_at, reply_at};
ghost use Rattle.nq_wire.specs.Reading.{reply_in};

use crate::fault::Garbage;
use crate::lent::LentReply;
use crate::parts::decoding::{end, hyper, lent_body, optional_grant, word};
use crate::{Procedure, Reply, WireFault, status};
use nq_base::{FileId, Inc, Rev, Spare};
use nq_xdr::Reader;

#[tactic(auto, unfolding(crate::specs::Reading::found_at))]
fn found(inc: Inc, reader: &mut Reader) -> Reply
    requires { 8 ≤ length reader.old }
    ensures { found_at inc reader.old ≡ Ok (result, reader.new) }
{
    let file = word(reader);
    let blocks = word(reader);
    Reply::Lookup {
        inc,
        file: FileId(file),
        blocks,
    }
}

#[tactic(auto, unfolding(crate::specs::Reading::created_at))]
fn created(inc: Inc, reader: &mut Reader) -> Reply
    requires { 4 ≤ length reader.old }
    ensures { created_at inc reader.old ≡ Ok (result, reader.new) }
{
    let file = word(reader);
    Reply::Create {
        inc,
        file: FileId(file),
    }
}

#[tactic(auto, unfolding(crate::specs::Reading::attributes_at))]
fn attributes(inc: Inc, reader: &mut Reader) -> Reply
    requires { 12 ≤ length reader.old }
    ensures { attributes_at inc reader.old ≡ Ok (result, reader.new) }
{
    let blocks = word(reader);
    let rev = hyper(reader);
    Reply::GetAttr {
        inc,
        blocks,
        rev: Rev(rev),
    }
}

/// The results of READ, which lend the body.
#[tactic(auto, unfolding(crate::specs::Reading::block_at))]
fn block<'a>(inc: Inc, reader: &mut Reader<'a>) -> Result<LentReply<'a>, Garbage>
    requires { 8 ≤ length reader.old }
    ensures { Gives (λ r. (r, reader.new)) (lent_in result) (block_at inc reader.old) }
{
    let rev = hyper(reader);
    let body = lent_body(reader)?;
    let grant = optional_grant(reader)?;
    Ok(LentReply::Read {
        inc,
        rev: Rev(rev),
        body,
        grant,
    })
}

#[tactic(auto, unfolding(crate::specs::Reading::written_at))]
fn written(inc: Inc, reader: &mut Reader) -> Reply
    requires { 8 ≤ length reader.old }
    ensures { written_at inc reader.old ≡ Ok (result, reader.new) }
{
    let rev = hyper(reader);
    Reply::Write { inc, rev: Rev(rev) }
}

#[tactic(auto, unfolding(crate::specs::Reading::lease_at))]
fn lease<'a>(inc: Inc, reader: &mut Reader<'a>) -> Result<LentReply<'a>, Garbage>
    ensures { Gives (λ r. (r, reader.new)) (lent_in result) (lease_at inc reader.old) }
{
    let grant = optional_grant(reader)?;
    Ok(LentReply::Plain(Reply::GetLease { inc, grant }))
}

#[tactic(auto, unfolding(crate::specs::Reading::resized_at))]
fn resized(inc: Inc, reader: &mut Reader) -> Reply
    requires { 8 ≤ length reader.old }
    ensures { resized_at inc reader.old ≡ Ok (result, reader.new) }
{
    let rev = hyper(reader);
    Reply::Resize { inc, rev: Rev(rev) }
}

/// How many bytes the items of fixed size take that stand in front, behind the incarnation and the status OK.
fn least_results(procedure: Procedure) -> usize
    ensures { result ≡ least_results procedure }
{
    match procedure {
        Procedure::Create => 4,
        Procedure::Lookup | Procedure::Read | Procedure::Write | Procedure::Resize => 8,
        Procedure::GetAttr => 12,
        Procedure::Null
        | Procedure::Attach
        | Procedure::GetLease
        | Procedure::Vacated
        | Procedure::Evicted
        | Procedure::Remove => 0,
    }
}

/// The results of a procedure, behind the incarnation and the status OK.
#[tactic(auto, using(crate::proofs::Short::results_short))]
fn results<'a>(
    procedure: Procedure,
    inc: Inc,
    reader: &mut Reader<'a>,
) -> Result<LentReply<'a>, Garbage>
    ensures { Gives (λ r. (r, reader.new)) (lent_in result) (results_at procedure inc reader.old) }
{
    if reader.rest().len() < least_results(procedure) {
        return Err(Garbage);
    }
    match procedure {
        Procedure::Attach => Ok(LentReply::Plain(Reply::Attach { inc })),
        Procedure::Lookup => Ok(LentReply::Plain(found(inc, reader))),
        Procedure::Create => Ok(LentReply::Plain(created(inc, reader))),
        Procedure::GetAttr => Ok(LentReply::Plain(attributes(inc, reader))),
        Procedure::Read => block(inc, reader),
        Procedure::Write => Ok(LentReply::Plain(written(inc, reader))),
        Procedure::GetLease => lease(inc, reader),
        Procedure::Resize => Ok(LentReply::Plain(resized(inc, reader))),
        Procedure::Remove => Ok(LentReply::Plain(Reply::Remove { inc })),
        Procedure::Null | Procedure::Vacated | Procedure::Evicted => Err(Garbage),
    }
}

/// The incarnation and the status, and what follows them.
#[tactic(auto, unfolding(crate::specs::Reading::answer_at))]
fn answer<'a>(procedure: Procedure, reader: &mut Reader<'a>) -> Result<LentReply<'a>, Garbage>
    ensures { Gives (λ r. (r, reader.new)) (lent_in result) (answer_at procedure reader.old) }
{
    if reader.rest().len() < 8 {
        return Err(Garbage);
    }
    let inc = Inc(word(reader));
    let number = word(reader);
    if number == status::OK {
        return results(procedure, inc, reader);
    }
    let status = status::refusal(number)?;
    Ok(LentReply::Plain(Reply::Refused { inc, status }))
}

fn reply<'a>(procedure: Procedure, reader: &mut Reader<'a>) -> Result<LentReply<'a>, Garbage>
    ensures { Gives (λ r. (r, reader.new)) (lent_in result) (reply_at procedure reader.old) }
{
    match procedure {
        Procedure::Null => Ok(LentReply::Plain(Reply::Null)),
        Procedure::Vacated | Procedure::Evicted => Err(Garbage),
        _ => answer(procedure, reader),
    }
}

/// The reply whose results are all of the bytes, by the number of the procedure that was called. The body of a block is
/// lent.
///
/// # Errors
///
/// `NoSuchProc` exactly where the number is above 11, else `Garbage` exactly where the bytes are not the
/// procedure's results, as always of VACATED and EVICTED, which have no reply.
pub fn decode_reply_in_place(procedure: u32, bytes: &[u8]) -> Result<LentReply<'_>, WireFault>
    // What is read is spelled so, and what is spelled so is read.
    ensures found { IfOk (lent_in result) (λ r. IsResults procedure r bytes.now) }
    ensures only { (r : Reply) → IsResults procedure r bytes.now → lent_in result ≡ Ok r }

    // When each error comes.
    ensures no_procedure { (result ≡ Err WireFault.NoSuchProc) ↔ (11 < procedure) }
    ensures garbage { (result ≡ Err WireFault.Garbage)
        ↔ ((procedure ≤ 11) × ((r : Reply) → IsResults procedure r bytes.now → ⊥)) }
    ensures memory { result ≢ Err WireFault.Memory }

    // All of it, as reading from the left.
    ensures step { lent_in result ≡ reply_in procedure bytes.now }
{
    let Some(called) = Procedure::from_number(procedure) else {
        return Err(WireFault::NoSuchProc);
    };
    let mut reader = Reader::new(bytes);
    let reply = reply(called, &mut reader)?;
    end(reader)?;
    Ok(reply)
}

/// The reply whose results are all of the bytes, by the number of the procedure that was called. The body
/// of a block goes into `room`, so no memory is wanted.
///
/// # Errors
///
/// `NoSuchProc` exactly where the number is above 11, else `Garbage` exactly where the bytes are not the
/// procedure's results, as always of VACATED and EVICTED, which have no reply.
pub fn decode_reply(procedure: u32, bytes: &[u8], room: &mut Spare) -> Result<Reply, WireFault>
    requires { room.old ≡ true }

    // What is read is spelled so, and what is spelled so is read.
    ensures found { IfOk result (λ r. IsResults procedure r bytes.now) }
    ensures only { (r : Reply) → IsResults procedure r bytes.now → result ≡ Ok r }

    // When each error comes.
    ensures no_procedure { (result ≡ Err WireFault.NoSuchProc) ↔ (11 < procedure) }
    ensures garbage { (result ≡ Err WireFault.Garbage)
        ↔ ((procedure ≤ 11) × ((r : Reply) → IsResults procedure r bytes.now → ⊥)) }
    ensures memory { result ≢ Err WireFault.Memory }

    // All of it, as reading from the left.
    ensures step { result ≡ reply_in procedure bytes.now }
{
    match decode_reply_in_place(procedure, bytes) {
        Ok(reply) => Ok(reply.kept(room)),
        Err(fault) => Err(fault),
    }
}
