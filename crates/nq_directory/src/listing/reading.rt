//! Reading messages. Only a page takes memory, for the names in it.

ghost use Rattle.std.specs.Prelude.{◌≡◌, ◌≤◌, ◌+◌, [], length, option_copied, vec_len, vec_capacity, IfOk};
ghost use Rattle.nq_xdr.specs.Lent.{lent_message, lent_outcome};
ghost use Rattle.nq_directory.specs.Lent.{answer_of, answers_of, lent_call, listing_of};
ghost use Rattle.nq_directory.specs.Messages.{most_names};
ghost use Rattle.nq_directory.specs.Reading.{answer_at, call_as, call_in, count_at, dir_evicted_in, dir_tag_at, dir_tag_by, dir_vacated_in, end_at, entries_at};
ghost use Rattle.nq_directory.specs.Reading.{entry_at, page_alone, page_at, prefix_at, read_dir_at, read_dir_in, results_in, results_of, told_at, told_by};
ghost use Rattle.nq_directory.specs.Reading.{told_for, told_in};
ghost use Rattle.nq_xdr.specs.Reading.{Gives};

use crate::listing::messages::{
    DIR_EVICTED_PROCEDURE, DIR_VACATED_PROCEDURE, DirTag, LATER_STATUS, MOST_NAMES, Page, PageTold,
    READ_DIR_PROCEDURE, ReadDir,
};
use crate::{FileName, Prefix};
use nq_base::{FileId, NoMemory};
use nq_datagrams::{PROGRAM, RPC_VERSION, VERSION};
use nq_wire::Garbage;
use nq_wire::parts::{name, optional_grant, tag, who};
use nq_xdr::Reader;
use nq_xdr::rpc::{LentCall, LentMessage, LentOutcome, LentReply, decode_in_place};
use std::alloc::Global;

/// A call of a procedure as it stands in a datagram.
#[derive(Clone, Copy)]
struct ProcedureCall<'a> {
    xid: u32,
    arguments: &'a [u8],
}

/// The READDIRLOOK that a datagram is; None where it is none.
#[tactic(auto, unfolding(crate::specs::Reading::read_dir_in))]
pub fn read_read_dir(datagram: &[u8]) -> Option<ReadDir>
    ensures { result ≡ read_dir_in datagram.now }
{
    let call = call_of(READ_DIR_PROCEDURE, datagram)?;
    match read_dir_of(call) {
        Ok(request) => Some(request),
        Err(Garbage) => None,
    }
}

/// The DIREVICTED that a datagram is; None where it is none.
#[tactic(auto, unfolding(crate::specs::Reading::dir_evicted_in))]
pub fn read_dir_evicted(datagram: &[u8]) -> Option<DirTag>
    ensures { result ≡ dir_evicted_in datagram.now }
{
    let call = call_of(DIR_EVICTED_PROCEDURE, datagram)?;
    match dir_tag_of(call) {
        Ok(notice) => Some(notice),
        Err(Garbage) => None,
    }
}

/// The DIRVACATED that a datagram is; None where it is none.
#[tactic(auto, unfolding(crate::specs::Reading::dir_vacated_in))]
pub fn read_dir_vacated(datagram: &[u8]) -> Option<DirTag>
    ensures { result ≡ dir_vacated_in datagram.now }
{
    let call = call_of(DIR_VACATED_PROCEDURE, datagram)?;
    match dir_tag_of(call) {
        Ok(vacated) => Some(vacated),
        Err(Garbage) => None,
    }
}

/// What a datagram tells as the reply to the READDIRLOOK of this number and incarnation; None where it is no such reply. So the
/// reply to an older incarnation is none.
///
/// # Errors
///
/// `NoMemory` where memory is wanting.
#[tactic(auto, unfolding(crate::specs::Reading::told_in))]
pub fn read_told(
    alloc: Global,
    xid: u32,
    inc: u32,
    datagram: &[u8],
) -> Result<Option<PageTold>, NoMemory>
    ensures { IfOk result (λ t. answers_of t ≡ told_in xid inc datagram.now) }
{
    let Some(results) = results_of(xid, datagram) else {
        return Ok(None);
    };
    let names = Vec::with_capacity(alloc, MOST_NAMES as usize)?;
    Ok(told_to(inc, results, names))
}

/// What results tell this incarnation, with room for the names of a page.
fn told_to(inc: u32, results: &[u8], names: Vec<FileName>) -> Option<PageTold>
    requires empty { names.items ≡ [] }
    requires room { most_names ≤ vec_capacity names }
    ensures { answers_of result ≡ told_for inc (told_at results.now) }
{
    match told(results, names) {
        Ok((of, told)) if of == inc => Some(told),
        _ => None,
    }
}

/// The call of a procedure of the program that a datagram is.
#[tactic(auto, unfolding(crate::specs::Reading::call_in))]
fn call_of(procedure: u32, datagram: &[u8]) -> Option<ProcedureCall<'_>>
    ensures { lent_call result ≡ call_in procedure datagram.now }
{
    let message = match decode_in_place(datagram) {
        Err(_) => return None,
        Ok(message) => message,
    };
    match message {
        LentMessage::Reply(_) => None,
        LentMessage::Call(call) => called(procedure, call),
    }
}

/// A call, where it is of this procedure.
#[tactic(auto, unfolding(crate::specs::Reading::call_as))]
fn called(procedure: u32, call: LentCall<'_>) -> Option<ProcedureCall<'_>>
    ensures { lent_call result ≡ call_as procedure (record { head = call.entry.head; rpcvers = call.entry.rpcvers; arguments = call.entry.arguments.now }) }
{
    let LentCall {
        head,
        rpcvers,
        arguments,
    } = call;
    if rpcvers != RPC_VERSION
        || head.prog != PROGRAM
        || head.vers != VERSION
        || head.procedure != procedure
    {
        return None;
    }
    Some(ProcedureCall {
        xid: head.xid,
        arguments,
    })
}

/// The results that a datagram brings as the reply to the call of this number.
#[tactic(auto, unfolding(crate::specs::Reading::results_in))]
fn results_of(xid: u32, datagram: &[u8]) -> Option<&[u8]>
    ensures { option_copied result ≡ results_in xid datagram.now }
{
    let message = match decode_in_place(datagram) {
        Err(_) => return None,
        Ok(message) => message,
    };
    match message {
        LentMessage::Call(_) => None,
        LentMessage::Reply(LentReply { xid: of, outcome }) => successful(xid, of, outcome),
    }
}

/// The results of a reply to the call of number `of`, where that is the awaited one.
#[tactic(auto, unfolding(crate::specs::Reading::results_of))]
fn successful(xid: u32, of: u32, outcome: LentOutcome<'_>) -> Option<&[u8]>
    ensures { option_copied result ≡ results_of xid of (lent_outcome outcome.entry) }
{
    match outcome {
        LentOutcome::Success(results) if of == xid => Some(results),
        _ => None,
    }
}

/// Ends the reading.
#[tactic(auto, unfolding(crate::specs::Reading::end_at))]
fn end(reader: Reader) -> Result<(), Garbage>
    ensures { Gives (λ done. done) result (end_at reader.entry) }
{
    reader.end()?;
    Ok(())
}

/// A prefix.
#[tactic(auto, unfolding(crate::specs::Reading::prefix_at))]
fn prefix(reader: &mut Reader) -> Result<Prefix, Garbage>
    ensures { Gives (λ p. (p, reader.new)) result (prefix_at reader.old) }
{
    let bytes = reader.opaque(64)?;
    Ok(Prefix::new(bytes).unwrap())
}

/// A file with its name.
#[tactic(auto, unfolding(crate::specs::Reading::entry_at))]
fn entry(reader: &mut Reader) -> Result<FileName, Garbage>
    ensures { Gives (λ e. (e, reader.new)) result (entry_at reader.old) }
{
    let file = reader.u32()?;
    let name = name(reader)?;
    Ok(FileName {
        file: FileId(file),
        name,
    })
}

/// So many files with their names.
#[tactic(auto, using(crate::proofs::Entries::reading))]
fn entries(reader: &mut Reader, count: u32, names: &mut Vec<FileName>) -> Result<(), Garbage>
    requires empty { names.old.items ≡ [] }
    requires room { count ≤ vec_capacity names.old }
    ensures { Gives (λ done. (names.new.items, reader.new)) result (entries_at [] count reader.old) }
{
    for place in 0..count {
        let entry = entry(reader)?;
        names.push(entry).unwrap();
    }
    Ok(())
}

/// How many files a page has.
#[tactic(auto, unfolding(crate::specs::Reading::count_at))]
fn count(reader: &mut Reader) -> Result<u32, Garbage>
    ensures step { Gives (λ n. (n, reader.new)) result (count_at reader.old) }
    ensures few { IfOk result (λ n. n ≤ most_names) }
{
    let count = reader.u32()?;
    if count > MOST_NAMES {
        return Err(Garbage);
    }
    Ok(count)
}

/// A page, with room for its names.
#[tactic(auto, unfolding(crate::specs::Reading::page_at))]
fn page(reader: &mut Reader, names: Vec<FileName>) -> Result<Page, Garbage>
    requires empty { names.items ≡ [] }
    requires room { most_names ≤ vec_capacity names }
    ensures { Gives (λ p. (listing_of p, reader.new)) result (page_at reader.old) }
{
    let mut names = names;
    let count = count(reader)?;
    entries(reader, count, &mut names)?;
    let more = reader.boolean()?;
    let grant = optional_grant(reader)?;
    Ok(Page { names, more, grant })
}

/// A page with nothing behind it.
#[tactic(auto, unfolding(crate::specs::Reading::page_alone))]
fn page_alone(reader: Reader, names: Vec<FileName>) -> Result<PageTold, Garbage>
    requires empty { names.items ≡ [] }
    requires room { most_names ≤ vec_capacity names }
    ensures { Gives answer_of result (page_alone reader.entry) }
{
    let mut reader = reader;
    let page = page(&mut reader, names)?;
    end(reader)?;
    Ok(PageTold::Page(page))
}

/// What stands behind a status.
#[tactic(auto, unfolding(crate::specs::Reading::answer_at, crate::specs::Reading::wait_alone))]
fn answer(status: u32, reader: Reader, names: Vec<FileName>) -> Result<PageTold, Garbage>
    requires empty { names.items ≡ [] }
    requires room { most_names ≤ vec_capacity names }
    ensures { Gives answer_of result (answer_at status reader.entry) }
{
    if status == 0 {
        return page_alone(reader, names);
    }
    if status != LATER_STATUS {
        return Err(Garbage);
    }
    end(reader)?;
    Ok(PageTold::Later)
}

/// The incarnation that a reply is for, and what it tells.
#[tactic(auto, unfolding(crate::specs::Reading::told_at))]
fn told(results: &[u8], names: Vec<FileName>) -> Result<(u32, PageTold), Garbage>
    requires empty { names.items ≡ [] }
    requires room { most_names ≤ vec_capacity names }
    ensures { Gives (λ t. (t.0, answer_of t.1)) result (told_at results.now) }
{
    let mut reader = Reader::new(results);
    let inc = reader.u32()?;
    let status = reader.u32()?;
    let told = answer(status, reader, names)?;
    Ok((inc, told))
}

/// The READDIRLOOK of a call's arguments.
#[tactic(auto, unfolding(crate::specs::Reading::read_dir_at))]
fn read_dir_of(call: ProcedureCall<'_>) -> Result<ReadDir, Garbage>
    ensures { Gives (λ r. r) result (read_dir_at call.entry.xid call.entry.arguments.now) }
{
    let ProcedureCall { xid, arguments } = call;
    let mut reader = Reader::new(arguments);
    let who = who(&mut reader)?;
    let prefix = prefix(&mut reader)?;
    let after = reader.u32()?;
    let term = reader.u32()?;
    end(reader)?;
    Ok(ReadDir {
        xid,
        who,
        prefix,
        after: FileId(after),
        term,
    })
}

/// The DIREVICTED or DIRVACATED of a call's arguments.
#[tactic(auto, unfolding(crate::specs::Reading::dir_tag_at))]
fn dir_tag_of(call: ProcedureCall<'_>) -> Result<DirTag, Garbage>
    ensures { Gives (λ t. t) result (dir_tag_at call.entry.xid call.entry.arguments.now) }
{
    let ProcedureCall { xid, arguments } = call;
    let mut reader = Reader::new(arguments);
    let who = who(&mut reader)?;
    let prefix = prefix(&mut reader)?;
    let tag = tag(&mut reader)?;
    end(reader)?;
    Ok(DirTag {
        xid,
        who,
        prefix,
        tag,
    })
}
