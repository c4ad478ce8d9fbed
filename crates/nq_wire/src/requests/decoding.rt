//! Reading arguments.

ghost use Rattle.std.specs.Prelude.{◌≡◌, ◌≢◌, Ok, true, ◌<◌, ◌≤◌, ◌↔◌, length, IfOk};
ghost use Rattle.nq_base.specs.declared.Request.{Request};
ghost use Rattle.nq_xdr.specs.Reading.{Gives};
ghost use Rattle.nq_wire.specs.Least.{least_arguments};
ghost use Rattle.nq_wire.specs.Request.{IsArguments};
ghost use Rattle.nq_wire.specs.Reading.{lookup_at, create_at, get_attr_at, read_at, span_at, write_at, get_lease_at, vacated_at, evicted_at, resize_at};
ghost use Rattle.nq_wire.specs.Reading.{remove_at, arguments_at, asked_at, request_at, request_in};

use crate::fault::Garbage;
use crate::parts::decoding::{
    body, end, hyper, name, optional_push, optional_want, tag_there, want, who, word,
};
use crate::{Procedure, PushBase, Request, WireFault};
use nq_base::{BlockNo, FileId, Number, Seq, Spare, Who};
use nq_xdr::Reader;

#[tactic(auto, unfolding(crate::specs::Reading::lookup_at))]
fn lookup(who: Who, reader: &mut Reader) -> Result<Request, Garbage>
    ensures { Gives (λ r. (r, reader.new)) result (lookup_at who reader.old) }
{
    let name = name(reader)?;
    Ok(Request::Lookup { who, name })
}

#[tactic(auto, unfolding(crate::specs::Reading::create_at))]
fn create(who: Who, reader: &mut Reader) -> Result<Request, Garbage>
    requires { 8 ≤ length reader.old }
    ensures { Gives (λ r. (r, reader.new)) result (create_at who reader.old) }
{
    let seq = hyper(reader);
    let name = name(reader)?;
    let blocks = reader.u32()?;
    Ok(Request::Create {
        who,
        seq: Seq(seq),
        name,
        blocks,
    })
}

#[tactic(auto, unfolding(crate::specs::Reading::get_attr_at))]
fn get_attr(who: Who, reader: &mut Reader) -> Request
    requires { 4 ≤ length reader.old }
    ensures { get_attr_at who reader.old ≡ Ok (result, reader.new) }
{
    let file = word(reader);
    Request::GetAttr {
        who,
        file: FileId(file),
    }
}

#[tactic(auto, unfolding(crate::specs::Reading::read_at))]
fn read(who: Who, reader: &mut Reader) -> Result<Request, Garbage>
    requires { 16 ≤ length reader.old }
    ensures { Gives (λ r. (r, reader.new)) result (read_at who reader.old) }
{
    let call = hyper(reader);
    let file = word(reader);
    let block = word(reader);
    let want = optional_want(reader)?;
    Ok(Request::Read {
        who,
        call,
        file: FileId(file),
        block: BlockNo(block),
        want,
    })
}

/// The numbers of the first and the last write, which are equal where the WRITE is no push.
#[tactic(auto, unfolding(crate::specs::Reading::span_at))]
fn span(reader: &mut Reader) -> Result<(u64, u64, Option<PushBase>), Garbage>
    ensures { Gives (λ s. (s, reader.new)) result (span_at reader.old) }
{
    if reader.rest().len() < 16 {
        return Err(Garbage);
    }
    let first = hyper(reader);
    let last = hyper(reader);
    let push = optional_push(reader)?;
    if push.is_none() && first != last {
        return Err(Garbage);
    }
    Ok((first, last, push))
}

#[tactic(auto, unfolding(crate::specs::Reading::write_at))]
fn write(who: Who, reader: &mut Reader, room: &mut Spare) -> Result<Request, Garbage>
    requires room { room.old ≡ true }
    requires bytes { 16 ≤ length reader.old }
    ensures { Gives (λ r. (r, reader.new)) result (write_at who reader.old) }
{
    let seq = hyper(reader);
    let file = word(reader);
    let block = word(reader);
    let (first, last, push) = span(reader)?;
    let body = body(reader, room)?;
    Ok(Request::Write {
        who,
        seq: Seq(seq),
        file: FileId(file),
        block: BlockNo(block),
        first: Number(first),
        last: Number(last),
        push,
        body,
    })
}

#[tactic(auto, unfolding(crate::specs::Reading::get_lease_at))]
fn get_lease(who: Who, reader: &mut Reader) -> Result<Request, Garbage>
    requires { 4 ≤ length reader.old }
    ensures { Gives (λ r. (r, reader.new)) result (get_lease_at who reader.old) }
{
    let file = word(reader);
    let want = want(reader)?;
    Ok(Request::GetLease {
        who,
        file: FileId(file),
        want,
    })
}

#[tactic(auto, unfolding(crate::specs::Reading::vacated_at))]
fn vacated(who: Who, reader: &mut Reader) -> Request
    requires { 16 ≤ length reader.old }
    ensures { vacated_at who reader.old ≡ Ok (result, reader.new) }
{
    let file = word(reader);
    let tag = tag_there(reader);
    Request::Vacated {
        who,
        file: FileId(file),
        tag,
    }
}

#[tactic(auto, unfolding(crate::specs::Reading::evicted_at))]
fn evicted(who: Who, reader: &mut Reader) -> Request
    requires { 16 ≤ length reader.old }
    ensures { evicted_at who reader.old ≡ Ok (result, reader.new) }
{
    let file = word(reader);
    let tag = tag_there(reader);
    Request::Evicted {
        who,
        file: FileId(file),
        tag,
    }
}

#[tactic(auto, unfolding(crate::specs::Reading::resize_at))]
fn resize(who: Who, reader: &mut Reader) -> Request
    requires { 24 ≤ length reader.old }
    ensures { resize_at who reader.old ≡ Ok (result, reader.new) }
{
    let seq = hyper(reader);
    let call = hyper(reader);
    let file = word(reader);
    let blocks = word(reader);
    Request::Resize {
        who,
        seq: Seq(seq),
        call,
        file: FileId(file),
        blocks,
    }
}

#[tactic(auto, unfolding(crate::specs::Reading::remove_at))]
fn remove(who: Who, reader: &mut Reader) -> Request
    requires { 20 ≤ length reader.old }
    ensures { remove_at who reader.old ≡ Ok (result, reader.new) }
{
    let seq = hyper(reader);
    let call = hyper(reader);
    let file = word(reader);
    Request::Remove {
        who,
        seq: Seq(seq),
        call,
        file: FileId(file),
    }
}

/// How many bytes the items of fixed size take that stand in front, behind who asks.
fn least_arguments(procedure: Procedure) -> usize
    ensures { result ≡ least_arguments procedure }
{
    match procedure {
        Procedure::Null | Procedure::Attach | Procedure::Lookup => 0,
        Procedure::GetAttr | Procedure::GetLease => 4,
        Procedure::Create => 8,
        Procedure::Read | Procedure::Write | Procedure::Vacated | Procedure::Evicted => 16,
        Procedure::Remove => 20,
        Procedure::Resize => 24,
    }
}

/// The arguments behind who asks. A WRITE alone brings a body.
#[tactic(auto, using(crate::proofs::Short::arguments_short))]
fn arguments(
    procedure: Procedure,
    who: Who,
    reader: &mut Reader,
    room: &mut Spare,
) -> Result<Request, Garbage>
    requires { procedure ≡ Procedure.Write → room.old ≡ true }
    ensures { Gives (λ r. (r, reader.new)) result (arguments_at procedure who reader.old) }
{
    if reader.rest().len() < least_arguments(procedure) {
        return Err(Garbage);
    }
    match procedure {
        Procedure::Null => Err(Garbage),
        Procedure::Attach => Ok(Request::Attach { who }),
        Procedure::Lookup => lookup(who, reader),
        Procedure::Create => create(who, reader),
        Procedure::GetAttr => Ok(get_attr(who, reader)),
        Procedure::Read => read(who, reader),
        Procedure::Write => write(who, reader, room),
        Procedure::GetLease => get_lease(who, reader),
        Procedure::Vacated => Ok(vacated(who, reader)),
        Procedure::Evicted => Ok(evicted(who, reader)),
        Procedure::Resize => Ok(resize(who, reader)),
        Procedure::Remove => Ok(remove(who, reader)),
    }
}

/// Who asks, and the arguments behind it.
#[tactic(auto, unfolding(crate::specs::Reading::asked_at))]
fn asked(procedure: Procedure, reader: &mut Reader, room: &mut Spare) -> Result<Request, Garbage>
    requires { procedure ≡ Procedure.Write → room.old ≡ true }
    ensures { Gives (λ r. (r, reader.new)) result (asked_at procedure reader.old) }
{
    let who = who(reader)?;
    arguments(procedure, who, reader, room)
}

/// The arguments of a procedure: NULL has none, and the others begin with who asks.
fn request(procedure: Procedure, reader: &mut Reader, room: &mut Spare) -> Result<Request, Garbage>
    requires { procedure ≡ Procedure.Write → room.old ≡ true }
    ensures { Gives (λ r. (r, reader.new)) result (request_at procedure reader.old) }
{
    match procedure {
        Procedure::Null => Ok(Request::Null),
        _ => asked(procedure, reader, room),
    }
}

/// The request whose arguments are all of the bytes, by the number of the procedure that is called. The body
/// of a block, which a WRITE alone brings, goes into `room`, so no memory is wanted.
///
/// # Errors
///
/// `NoSuchProc` exactly where the number is above 11, else `Garbage` exactly where the bytes are not the
/// procedure's arguments.
pub fn decode_request(procedure: u32, bytes: &[u8], room: &mut Spare) -> Result<Request, WireFault>
    requires { procedure ≡ 6 → room.old ≡ true }

    // What is read is spelled so, and what is spelled so is read.
    ensures found { IfOk result (λ r. IsArguments procedure r bytes.now) }
    ensures only { (r : Request) → IsArguments procedure r bytes.now → result ≡ Ok r }

    // When each error comes.
    ensures no_procedure { (result ≡ Err WireFault.NoSuchProc) ↔ (11 < procedure) }
    ensures garbage { (result ≡ Err WireFault.Garbage)
        ↔ ((procedure ≤ 11) × ((r : Request) → IsArguments procedure r bytes.now → ⊥)) }
    ensures memory { result ≢ Err WireFault.Memory }

    // All of it, as reading from the left.
    ensures step { result ≡ request_in procedure bytes.now }
{
    let Some(called) = Procedure::from_number(procedure) else {
        return Err(WireFault::NoSuchProc);
    };
    let mut reader = Reader::new(bytes);
    let request = request(called, &mut reader, room)?;
    end(reader)?;
    Ok(request)
}
