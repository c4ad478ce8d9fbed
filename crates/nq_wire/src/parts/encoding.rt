//! Writing the parts of arguments and results.

ghost use Rattle.std.specs.Prelude.{◌≡◌, ◌+◌, ◌≤◌, ◌++◌, length, IfSome};
ghost use Rattle.nq_base.specs.Block.{filled};
ghost use Rattle.nq_base.specs.Name.{IsName};
ghost use Rattle.nq_xdr.specs.Item.{opaque, opaque_len};
ghost use Rattle.nq_wire.specs.Parts.{head, tag_bytes, mode_number, want_bytes, grant_bytes, base_bytes, optional, optional_len, IsWho, IsTag, IsWant, IsGrant};
ghost use Rattle.nq_wire.specs.Parts.{IsPushBase};

use crate::PushBase;
use nq_base::{Block, Grant, Mode, Name, Seen, Tag, Want, Who};
use nq_xdr::Writer;

/// Writes who asks. There is room.
#[tactic(auto, unfolding(crate::specs::Parts::head))]
pub fn put_who(who: &Who, out: &mut Writer)
    requires { 8 ≤ out.old.spare }
    ensures written { out.new.bytes ≡ out.old.bytes ++ head who.now }
    ensures fits { IsWho who.now }
    ensures spare { out.old.spare ≤ out.new.spare + 8 }
{
    out.put_u32(who.host.0);
    out.put_u32(who.inc.0);
}

/// Writes the tag of a lease. There is room.
#[tactic(auto, unfolding(crate::specs::Parts::tag_bytes))]
pub fn put_tag(tag: &Tag, out: &mut Writer)
    requires { 12 ≤ out.old.spare }
    ensures written { out.new.bytes ≡ out.old.bytes ++ tag_bytes tag.now }
    ensures fits { IsTag tag.now }
    ensures spare { out.old.spare ≤ out.new.spare + 12 }
{
    out.put_u32(tag.boot);
    out.put_u64(tag.number);
}

fn mode_number(mode: Mode) -> u32
    ensures { result ≡ mode_number mode }
{
    match mode {
        Mode::NonCaching => 0,
        Mode::Reading => 1,
        Mode::Writing => 2,
    }
}

#[tactic(auto, unfolding(crate::specs::Parts::want_bytes))]
pub(crate) fn put_want(want: &Want, out: &mut Writer)
    requires { 8 ≤ out.old.spare }
    ensures written { out.new.bytes ≡ out.old.bytes ++ want_bytes want.now }
    ensures fits { IsWant want.now }
    ensures spare { out.old.spare ≤ out.new.spare + 8 }
{
    out.put_u32(mode_number(want.mode));
    out.put_u32(want.term);
}

#[tactic(auto, unfolding(crate::specs::Parts::grant_bytes))]
fn put_grant(grant: &Grant, out: &mut Writer)
    requires { 44 ≤ out.old.spare }
    ensures written { out.new.bytes ≡ out.old.bytes ++ grant_bytes grant.now }
    ensures fits { IsGrant grant.now }
    ensures spare { out.old.spare ≤ out.new.spare + 44 }
{
    out.put_u32(mode_number(grant.mode));
    out.put_u32(grant.term);
    put_tag(&grant.tag, out);
    put_tag(&grant.since, out);
    out.put_u64(grant.rev.0);
    out.put_u32(grant.blocks);
}

/// Writes what a delayed write rests on. There is room.
#[tactic(auto, unfolding(crate::specs::Parts::base_bytes))]
pub fn put_base(push: &PushBase, out: &mut Writer)
    requires { 12 ≤ out.old.spare }
    ensures written { out.new.bytes ≡ out.old.bytes ++ base_bytes push.now }
    ensures fits { IsPushBase push.now }
    ensures spare { out.old.spare ≤ out.new.spare + 12 }
{
    out.put_u32(push.boot);
    out.put_u64(push.base.0);
}

#[tactic(auto, unfolding(crate::specs::Parts::optional))]
pub(crate) fn put_optional_want(want: &Option<Want>, out: &mut Writer)
    requires { optional_len 8 want.now ≤ out.old.spare }
    ensures written { out.new.bytes ≡ out.old.bytes ++ optional want_bytes want.now }
    ensures fits { IfSome want.now IsWant }
    ensures spare { out.old.spare ≤ out.new.spare + optional_len 8 want.now }
{
    match want {
        Some(want) => {
            out.put_boolean(true);
            put_want(want, out);
        }
        None => out.put_boolean(false),
    }
}

/// Writes a grant, or that there is none. There is room.
#[tactic(auto, unfolding(crate::specs::Parts::optional))]
pub fn put_optional_grant(grant: &Option<Grant>, out: &mut Writer)
    requires { optional_len 44 grant.now ≤ out.old.spare }
    ensures written { out.new.bytes ≡ out.old.bytes ++ optional grant_bytes grant.now }
    ensures fits { IfSome grant.now IsGrant }
    ensures spare { out.old.spare ≤ out.new.spare + optional_len 44 grant.now }
{
    match grant {
        Some(grant) => {
            out.put_boolean(true);
            put_grant(grant, out);
        }
        None => out.put_boolean(false),
    }
}

#[tactic(auto, unfolding(crate::specs::Parts::optional))]
pub(crate) fn put_optional_base(push: &Option<PushBase>, out: &mut Writer)
    requires { optional_len 12 push.now ≤ out.old.spare }
    ensures written { out.new.bytes ≡ out.old.bytes ++ optional base_bytes push.now }
    ensures fits { IfSome push.now IsPushBase }
    ensures spare { out.old.spare ≤ out.new.spare + optional_len 12 push.now }
{
    match push {
        Some(push) => {
            out.put_boolean(true);
            put_base(push, out);
        }
        None => out.put_boolean(false),
    }
}

/// How many bytes a name takes.
pub fn name_len(name: &Name) -> usize
    ensures length { result ≡ opaque_len (length name.now) }
    ensures most { result ≤ 68 }
{
    let length = name.as_bytes().len();
    4 + length + (4 - length % 4) % 4
}

/// Writes the name of a file. There is room for as many bytes as [`name_len`] says.
pub fn put_name(name: &Name, out: &mut Writer)
    requires { opaque_len (length name.now) ≤ out.old.spare }
    ensures written { out.new.bytes ≡ out.old.bytes ++ opaque name.now }
    ensures fits { IsName name.now }
    ensures spare { out.old.spare ≤ out.new.spare + opaque_len (length name.now) }
{
    out.put_opaque(name.as_bytes());
}

/// Writes the body of a block. There is room.
pub fn put_body(body: &Block, out: &mut Writer)
    requires { 4100 ≤ out.old.spare }
    ensures written { out.new.bytes ≡ out.old.bytes ++ opaque body.now }
    ensures fits { length body.now ≡ 4096 }
    ensures spare { out.old.spare ≤ out.new.spare + 4100 }
{
    match body.seen() {
        Seen::Filled(value) => put_filled(value, out),
        Seen::Bytes(bytes) => out.put_opaque(bytes),
    }
}

/// Writes the body of a block that repeats a word.
fn put_filled(value: u32, out: &mut Writer)
    requires { 4100 ≤ out.old.spare }
    ensures written { out.new.bytes ≡ out.old.bytes ++ opaque (filled value) }
    ensures spare { out.old.spare ≤ out.new.spare + 4100 }
{
    out.put_opaque_words(value, 1024);
}
