//! Packets in words.
#![tactic(auto, using(crate::proofs::Joined::ended))]

ghost use Rattle.std.specs.Prelude.{◌≡◌, ◌++◌, codes, string_bytes, Some, IfOk};
ghost use Rattle.nq_record.specs.Words.{SaysRequest, filed, granted, lease_granted, lease_words, plain_read, read_words, refusal_word, reply_text};
ghost use Rattle.nq_record.specs.Words.{resize_words, revised, wanting_read, with_grant, write_words};

use crate::NoMemory;
use crate::chart::{Part, text_of};
use crate::text::{mode_word, named, owned};
use nq_base::{Grant, Mode, Refusal, Reply, Request, Want};
use std::alloc::Global;

/// A request or a notice in words: its procedure, and the fields that matter.
pub fn request_words(alloc: Global, request: &Request) -> Result<String, NoMemory>
    ensures { IfOk result (λ text. SaysRequest request.now (string_bytes text)) }
{
    match request {
        Request::Null => owned(alloc, "NULL"),
        Request::Attach { who } => filed(alloc, "ATTACH incarnation", who.inc.0),
        Request::Lookup { name, .. } => named(alloc, "LOOKUP ", name),
        Request::Create { name, .. } => named(alloc, "CREATE ", name),
        Request::Read {
            file,
            block,
            want,
            ..
        } => read_words(alloc, file.0, block.0, *want),
        Request::Write {
            file,
            block,
            first,
            last,
            push,
            ..
        } => write_words(alloc, file.0, block.0, first.0, last.0, push.is_some()),
        Request::GetLease { file, want, .. } => lease_words(alloc, file.0, want),
        Request::GetAttr { file, .. } => filed(alloc, "GETATTR", file.0),
        Request::Vacated { file, .. } => filed(alloc, "VACATED", file.0),
        Request::Evicted { file, .. } => filed(alloc, "EVICTED", file.0),
        Request::Remove { file, .. } => filed(alloc, "REMOVE", file.0),
        Request::Resize { file, blocks, .. } => resize_words(alloc, file.0, *blocks),
    }
}

/// A RESIZE.
#[tactic(auto, using(crate::proofs::Joined::ended), unfolding(crate::specs::Words::resize_words))]
fn resize_words(alloc: Global, file: u32, blocks: u32) -> Result<String, NoMemory>
    ensures { IfOk result (λ text. string_bytes text ≡ resize_words file blocks) }
{
    text_of(
        alloc,
        &[
            Part::Text("RESIZE "),
            Part::Number(file as u64),
            Part::Text(" to "),
            Part::Number(blocks as u64),
        ],
    )
}

/// A procedure and its file.
#[tactic(auto, using(crate::proofs::Joined::ended), unfolding(crate::specs::Words::filed))]
fn filed(alloc: Global, procedure: &str, file: u32) -> Result<String, NoMemory>
    ensures { IfOk result (λ text. string_bytes text ≡ filed procedure.now file) }
{
    text_of(
        alloc,
        &[
            Part::Text(procedure),
            Part::Text(" "),
            Part::Number(file as u64),
        ],
    )
}

/// A READ.
fn read_words(alloc: Global, file: u32, block: u32, want: Option<Want>) -> Result<String, NoMemory>
    ensures { IfOk result (λ text. string_bytes text ≡ read_words file block want) }
{
    match want {
        None => plain_read(alloc, file, block),
        Some(want) => wanting_read(alloc, file, block, want.mode),
    }
}

/// A READ that wants no lease.
#[tactic(auto, using(crate::proofs::Joined::ended), unfolding(crate::specs::Words::plain_read))]
fn plain_read(alloc: Global, file: u32, block: u32) -> Result<String, NoMemory>
    ensures { IfOk result (λ text. string_bytes text ≡ plain_read file block) }
{
    text_of(
        alloc,
        &[
            Part::Text("READ "),
            Part::Number(file as u64),
            Part::Text(":"),
            Part::Number(block as u64),
        ],
    )
}

/// A READ that wants a lease.
#[tactic(auto, using(crate::proofs::Joined::ended), unfolding(crate::specs::Words::wanting_read))]
fn wanting_read(alloc: Global, file: u32, block: u32, mode: Mode) -> Result<String, NoMemory>
    ensures { IfOk result (λ text. string_bytes text ≡ wanting_read file block mode) }
{
    text_of(
        alloc,
        &[
            Part::Text("READ "),
            Part::Number(file as u64),
            Part::Text(":"),
            Part::Number(block as u64),
            Part::Text(" want "),
            Part::Text(mode_word(mode)),
        ],
    )
}

/// A WRITE.
#[tactic(auto, using(crate::proofs::Joined::ended), unfolding(crate::specs::Words::write_words))]
fn write_words(
    alloc: Global,
    file: u32,
    block: u32,
    first: u64,
    last: u64,
    pushed: bool,
) -> Result<String, NoMemory>
    ensures { IfOk result (λ text. string_bytes text ≡ write_words file block first last pushed) }
{
    if pushed {
        text_of(
            alloc,
            &[
                Part::Text("WRITE "),
                Part::Number(file as u64),
                Part::Text(":"),
                Part::Number(block as u64),
                Part::Text(" delayed "),
                Part::Number(first),
                Part::Text("-"),
                Part::Number(last),
            ],
        )
    } else {
        text_of(
            alloc,
            &[
                Part::Text("WRITE "),
                Part::Number(file as u64),
                Part::Text(":"),
                Part::Number(block as u64),
                Part::Text(" through "),
                Part::Number(last),
            ],
        )
    }
}

/// A GETLEASE.
#[tactic(auto, using(crate::proofs::Joined::ended), unfolding(crate::specs::Words::lease_words))]
fn lease_words(alloc: Global, file: u32, want: &Want) -> Result<String, NoMemory>
    ensures { IfOk result (λ text. string_bytes text ≡ lease_words file want.now) }
{
    text_of(
        alloc,
        &[
            Part::Text("GETLEASE "),
            Part::Number(file as u64),
            Part::Text(" want "),
            Part::Text(mode_word(want.mode)),
        ],
    )
}

/// A reply in words: its procedure, its status, and the fields that matter.
pub fn reply_words(alloc: Global, reply: &Reply) -> Result<String, NoMemory>
    ensures { IfOk result (λ text. string_bytes text ≡ reply_text reply.now) }
{
    match reply {
        Reply::Null => owned(alloc, "NULL ok"),
        Reply::Attach { .. } => owned(alloc, "ATTACH ok"),
        Reply::Lookup { file, .. } => filed(alloc, "LOOKUP ok", file.0),
        Reply::Create { file, .. } => filed(alloc, "CREATE ok", file.0),
        Reply::GetAttr { blocks, .. } => filed(alloc, "GETATTR ok", *blocks),
        Reply::Read { rev, grant, .. } => granted(alloc, "READ ok", rev.0, *grant),
        Reply::Write { rev, .. } => revised(alloc, "WRITE ok", rev.0),
        Reply::GetLease { grant, .. } => lease_granted(alloc, *grant),
        Reply::Resize { rev, .. } => revised(alloc, "RESIZE ok", rev.0),
        Reply::Remove { .. } => owned(alloc, "REMOVE ok"),
        Reply::Refused { status, .. } => refused(alloc, *status),
    }
}

/// A refusal.
fn refused(alloc: Global, status: Refusal) -> Result<String, NoMemory>
    ensures { IfOk result (λ text. string_bytes text ≡ codes "refused " ++ refusal_word status) }
{
    text_of(
        alloc,
        &[Part::Text("refused "), Part::Text(refusal_word(status))],
    )
}

/// A status and a revision.
#[tactic(auto, using(crate::proofs::Joined::ended), unfolding(crate::specs::Words::revised))]
fn revised(alloc: Global, status: &str, rev: u64) -> Result<String, NoMemory>
    ensures { IfOk result (λ text. string_bytes text ≡ revised status.now rev) }
{
    text_of(
        alloc,
        &[Part::Text(status), Part::Text(" rev "), Part::Number(rev)],
    )
}

/// A status, a revision and a grant, if there is one.
fn granted(alloc: Global, status: &str, rev: u64, grant: Option<Grant>) -> Result<String, NoMemory>
    ensures { IfOk result (λ text. string_bytes text ≡ granted status.now rev grant) }
{
    match grant {
        None => revised(alloc, status, rev),
        Some(grant) => with_grant(alloc, status, rev, grant.mode, grant.term),
    }
}

/// A status, a revision and a grant of so many ticks.
#[tactic(auto, unfolding(crate::specs::Words::with_grant))]
fn with_grant(
    alloc: Global,
    status: &str,
    rev: u64,
    mode: Mode,
    term: u32,
) -> Result<String, NoMemory>
    ensures { IfOk result (λ text. string_bytes text ≡ with_grant status.now rev mode term) }
{
    let word = mode_word(mode);
    Ok(format!(in alloc; "{status} rev {rev}, grant {word} {term}")?)
}

/// The reply to a GETLEASE.
fn lease_granted(alloc: Global, grant: Option<Grant>) -> Result<String, NoMemory>
    ensures { IfOk result (λ text. string_bytes text ≡ lease_granted grant) }
{
    match grant {
        None => owned(alloc, "GETLEASE ok, no grant"),
        Some(grant) => with_grant(alloc, "GETLEASE ok", grant.rev.0, grant.mode, grant.term),
    }
}

/// The word of a status.
fn refusal_word(status: Refusal) -> &'static str
    ensures { result.now ≡ refusal_word status }
{
    match status {
        Refusal::NoEnt => "NOENT",
        Refusal::Exist => "EXIST",
        Refusal::Inval => "INVAL",
        Refusal::NoSpc => "NOSPC",
        Refusal::Stale => "STALE",
        Refusal::TryLater => "TRYLATER",
        Refusal::Fenced => "FENCED",
        Refusal::NotAttached => "NOTATTACHED",
        Refusal::Old => "OLD",
    }
}
