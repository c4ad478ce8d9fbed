//! Writing messages, each with AUTH_NULL.

ghost use Rattle.std.specs.Prelude.{◌≡◌, ◌+◌, ◌≤◌, ◌++◌, List, ℕ, length, All, IfOk, IfSome, OnOk};
ghost use Rattle.nq_base.specs.Name.{IsName};
ghost use Rattle.nq_directory.specs.Messages.{answer_bytes, dir_evicted, dir_evicted_bytes, dir_tag_arguments, dir_vacated_bytes, entries_bytes, entry_bytes};
ghost use Rattle.nq_directory.specs.Messages.{front_bytes, head_of, most_names, page, read_dir_arguments, read_dir_bytes, wait, IsDirTag, IsEntry, IsReadDir};
ghost use Rattle.nq_directory.specs.Prefix.{IsPrefix};
ghost use Rattle.nq_xdr.specs.Message.{call_with, null, reply_with, spelling};
ghost use Rattle.nq_wire.specs.Parts.{grant_bytes, optional, IsGrant, IsTag, IsWho};
ghost use Rattle.nq_xdr.specs.Item.{opaque};

use crate::listing::messages::{
    DIR_EVICTED_PROCEDURE, DIR_VACATED_PROCEDURE, DirTag, LATER_STATUS, READ_DIR_PROCEDURE, ReadDir,
};
use crate::{FileName, Prefix};
use nq_base::{Grant, NoMemory};
use nq_datagrams::{PROGRAM, VERSION};
use nq_wire::parts::{name_len, put_name, put_optional_grant, put_tag, put_who};
use nq_xdr::Writer;
use nq_xdr::rpc::{CallHead, begin_call, begin_reply};
use std::alloc::Global;
use std::marker::Model;

/// The status OK.
const OK: u32 = 0;

/// The most bytes that a grant takes, with the word before it.
const GRANT_SIZE: usize = 48;

/// The most bytes that a call of these has.
const CALL_SIZE: usize = 136;

/// How many bytes a reply has up to the number of its files.
const REPLY_SIZE: usize = 36;

/// The datagram of a READDIRLOOK.
///
/// # Errors
///
/// `NoMemory` where memory is wanting.
#[tactic(auto, unfolding(crate::specs::Messages::read_dir_bytes, crate::specs::Messages::read_dir_arguments))]
pub fn read_dir_bytes(alloc: Global, request: &ReadDir) -> Result<Vec<u8>, NoMemory>
    ensures bytes { IfOk result (λ v. v.items ≡ read_dir_bytes request.now) }
    ensures fits { OnOk result (IsReadDir request.now) }
{
    let mut out = begun(alloc, request.xid, READ_DIR_PROCEDURE)?;
    put_who(&request.who, &mut out);
    put_prefix(&request.prefix, &mut out);
    out.put_u32(request.after.0);
    out.put_u32(request.term);
    Ok(out.into_bytes())
}

/// The datagram of a DIREVICTED.
///
/// # Errors
///
/// `NoMemory` where memory is wanting.
#[tactic(auto, unfolding(crate::specs::Messages::dir_evicted_bytes))]
pub fn dir_evicted_bytes(alloc: Global, notice: &DirTag) -> Result<Vec<u8>, NoMemory>
    ensures bytes { IfOk result (λ v. v.items ≡ dir_evicted_bytes notice.now) }
    ensures fits { OnOk result (IsDirTag notice.now) }
{
    let mut out = begun(alloc, notice.xid, DIR_EVICTED_PROCEDURE)?;
    put_dir_tag(notice, &mut out);
    Ok(out.into_bytes())
}

/// The datagram of a DIRVACATED.
///
/// # Errors
///
/// `NoMemory` where memory is wanting.
#[tactic(auto, unfolding(crate::specs::Messages::dir_vacated_bytes))]
pub fn dir_vacated_bytes(alloc: Global, vacated: &DirTag) -> Result<Vec<u8>, NoMemory>
    ensures bytes { IfOk result (λ v. v.items ≡ dir_vacated_bytes vacated.now) }
    ensures fits { OnOk result (IsDirTag vacated.now) }
{
    let mut out = begun(alloc, vacated.xid, DIR_VACATED_PROCEDURE)?;
    put_dir_tag(vacated, &mut out);
    Ok(out.into_bytes())
}

/// The datagram of a reply to a READDIRLOOK that is to come again later.
///
/// # Errors
///
/// `NoMemory` where memory is wanting.
#[tactic(auto, unfolding(crate::specs::Messages::answer_bytes, crate::specs::Messages::results))]
pub fn later_bytes(alloc: Global, xid: u32, inc: u32) -> Result<Vec<u8>, NoMemory>
    ensures { IfOk result (λ v. v.items ≡ answer_bytes xid inc wait) }
{
    let mut out = begun_reply(alloc, xid)?;
    out.put_u32(inc);
    out.put_u32(LATER_STATUS);
    Ok(out.into_bytes())
}

/// The datagram of a reply with a page of which only the grant is missing. Contracts see its bytes so far, and `spare`, for how many
/// more there is room.
#[derive(Drop)]
pub struct BegunPage {
    out: Writer,
}

impl Model for BegunPage {
    ghost use Rattle.nq_xdr.specs.Buffer.{Buffer};

    ghost Value = { Buffer };

    ghost view = { λ b. b.out };
}

impl BegunPage {
    /// Begins the reply with a page of these files to the call of this number and incarnation. All memory that it takes is
    /// taken here.
    ///
    /// # Errors
    ///
    /// `NoMemory` where memory is wanting.
    #[tactic(auto, unfolding(crate::specs::Messages::front_bytes))]
    pub fn new(
        alloc: Global,
        xid: u32,
        inc: u32,
        names: &[FileName],
        more: bool,
    ) -> Result<BegunPage, NoMemory>
        requires { length names.now ≤ most_names }
        ensures begun { IfOk result (λ b. (rest : List ℕ) → b.bytes ++ rest ≡ spelling (reply_with xid (front_bytes inc names.now more ++ rest)) null null) }
        ensures room { IfOk result (λ b. 48 ≤ b.spare) }
    {
        let mut out = begun_reply(alloc, xid)?;
        out.put_u32(inc);
        out.put_u32(OK);
        out.put_u32(names.len() as u32);
        put_entries(names, &mut out)?;
        out.reserve(4 + GRANT_SIZE)?;
        out.put_boolean(more);
        Ok(BegunPage { out })
    }

    /// Ends the reply with this grant, and gives the datagram. It takes no memory.
    pub fn end(self, grant: &Option<Grant>) -> Vec<u8>
        requires { 48 ≤ self.spare }
        ensures written { result.items ≡ self.bytes ++ optional grant_bytes grant.now }
        ensures fits { IfSome grant.now IsGrant }
    {
        let BegunPage { mut out } = self;
        put_optional_grant(grant, &mut out);
        out.into_bytes()
    }
}

/// Begins the call of a procedure, with room for its arguments.
fn begun(alloc: Global, xid: u32, procedure: u32) -> Result<Writer, NoMemory>
    ensures begun { IfOk result (λ w. (arguments : List ℕ) → w.bytes ++ arguments ≡ spelling (call_with (head_of xid procedure) arguments) null null) }
    ensures room { IfOk result (λ w. 96 ≤ w.spare) }
{
    let head = CallHead {
        xid,
        prog: PROGRAM,
        vers: VERSION,
        procedure,
    };
    let mut out = Writer::behind(Vec::new(alloc));
    out.reserve(CALL_SIZE)?;
    begin_call(&head, &mut out).unwrap();
    Ok(out)
}

/// Begins a reply, with room for three words of its results.
fn begun_reply(alloc: Global, xid: u32) -> Result<Writer, NoMemory>
    ensures begun { IfOk result (λ w. (results : List ℕ) → w.bytes ++ results ≡ spelling (reply_with xid results) null null) }
    ensures room { IfOk result (λ w. 12 ≤ w.spare) }
{
    let mut out = Writer::behind(Vec::new(alloc));
    out.reserve(REPLY_SIZE)?;
    begin_reply(xid, &mut out).unwrap();
    Ok(out)
}

/// Writes a prefix, which takes at most 68 bytes. There is room.
fn put_prefix(prefix: &Prefix, out: &mut Writer)
    requires { 68 ≤ out.old.spare }
    ensures written { out.new.bytes ≡ out.old.bytes ++ opaque prefix.now }
    ensures fits { IsPrefix prefix.now }
    ensures spare { out.old.spare ≤ out.new.spare + 68 }
{
    out.put_opaque(prefix.as_bytes());
}

/// Writes what a DIREVICTED and a DIRVACATED say. There is room.
#[tactic(auto, unfolding(crate::specs::Messages::dir_tag_arguments))]
fn put_dir_tag(said: &DirTag, out: &mut Writer)
    requires { 88 ≤ out.old.spare }
    ensures written { out.new.bytes ≡ out.old.bytes ++ dir_tag_arguments said.now }
    ensures who { IsWho said.now.who }
    ensures prefix { IsPrefix said.now.prefix }
    ensures tag { IsTag said.now.tag }
{
    put_who(&said.who, out);
    put_prefix(&said.prefix, out);
    put_tag(&said.tag, out);
}

/// Writes a file with its name.
#[tactic(auto, unfolding(crate::specs::Messages::entry_bytes))]
fn put_entry(entry: &FileName, out: &mut Writer) -> Result<(), NoMemory>
    ensures written { OnOk result (out.new.bytes ≡ out.old.bytes ++ entry_bytes entry.now) }
    ensures fits { OnOk result (IsEntry entry.now) }
{
    out.reserve(4 + name_len(&entry.name))?;
    out.put_u32(entry.file.0);
    put_name(&entry.name, out);
    Ok(())
}

/// Writes files with their names.
#[tactic(auto, using(crate::proofs::Entries::writing))]
fn put_entries(names: &[FileName], out: &mut Writer) -> Result<(), NoMemory>
    ensures written { OnOk result (out.new.bytes ≡ out.old.bytes ++ entries_bytes names.now) }
{
    for entry in names {
        put_entry(entry, out)?;
    }
    Ok(())
}
