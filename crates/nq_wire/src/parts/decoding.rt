//! Reading the parts of arguments and results.

ghost use Rattle.std.specs.Prelude.{◌≡◌, ◌≤◌, ◌+◌, ◌↔◌, ◌++◌, [], Ok, true, length, IfSome, IfOk, IsOk};
ghost use Rattle.nq_base.specs.Name.{IsName};
ghost use Rattle.nq_xdr.specs.Item.{word, hyper, opaque};
ghost use Rattle.nq_xdr.specs.Reading.{Gives, word_at, hyper_at};
ghost use Rattle.nq_wire.specs.Parts.{head, tag_bytes, mode_number, grant_bytes, optional, IsWho, IsTag, IsGrant};
ghost use Rattle.nq_wire.specs.Reading.{Reads, head_at, tag_at, wanted_mode, want_at, granted_mode, grant_at, base_at, optional_at, name_of, name_at, body_at};

use crate::PushBase;
use crate::fault::Garbage;
use crate::lent::LentBlock;
use nq_base::{Block, Grant, Host, Inc, Mode, Name, Rev, Spare, Tag, Want, Who};
use nq_xdr::Reader;

/// An unsigned integer, whose bytes are left.
pub(crate) fn word(reader: &mut Reader) -> u32
    requires { 4 ≤ length reader.old }
    ensures found { reader.old ≡ word result ++ reader.new }
    ensures step { word_at reader.old ≡ Ok (result, reader.new) }
    ensures left { length reader.old ≡ 4 + length reader.new }
{
    reader.u32().unwrap()
}

/// An unsigned hyper integer, whose bytes are left.
pub(crate) fn hyper(reader: &mut Reader) -> u64
    requires { 8 ≤ length reader.old }
    ensures found { reader.old ≡ hyper result ++ reader.new }
    ensures step { hyper_at reader.old ≡ Ok (result, reader.new) }
    ensures left { length reader.old ≡ 8 + length reader.new }
{
    reader.u64().unwrap()
}

/// Who asks: a host and its incarnation.
///
/// # Errors
///
/// [`Garbage`] where the bytes end before.
#[tactic(auto, unfolding(crate::specs::Reading::head_at, crate::specs::Parts::head))]
pub fn who(reader: &mut Reader) -> Result<Who, Garbage>
    ensures found { Reads head IsWho reader.old reader.new result }
    ensures step { Gives (λ w. (w, reader.new)) result (head_at reader.old) }
{
    if reader.rest().len() < 8 {
        return Err(Garbage);
    }
    let host = word(reader);
    let inc = word(reader);
    Ok(Who {
        host: Host(host),
        inc: Inc(inc),
    })
}

/// The tag of a lease: the boot that granted it, and its number.
///
/// # Errors
///
/// [`Garbage`] where the bytes end before.
pub fn tag(reader: &mut Reader) -> Result<Tag, Garbage>
    ensures found { Reads tag_bytes IsTag reader.old reader.new result }
    ensures step { Gives (λ t. (t, reader.new)) result (tag_at reader.old) }
{
    if reader.rest().len() < 12 {
        return Err(Garbage);
    }
    Ok(tag_there(reader))
}

/// A tag, whose bytes are left.
#[tactic(auto, unfolding(crate::specs::Reading::tag_at, crate::specs::Parts::tag_bytes))]
pub(crate) fn tag_there(reader: &mut Reader) -> Tag
    requires { 12 ≤ length reader.old }
    ensures fits { IsTag result }
    ensures found { reader.old ≡ tag_bytes result ++ reader.new }
    ensures step { tag_at reader.old ≡ Ok (result, reader.new) }
    ensures left { length reader.old ≡ 12 + length reader.new }
{
    let boot = word(reader);
    let number = hyper(reader);
    Tag { boot, number }
}

/// The mode of a lease that is wanted.
#[tactic(auto, unfolding(crate::specs::Reading::wanted_mode))]
fn wanted_mode(number: u32) -> Result<Mode, Garbage>
    ensures { result ≡ wanted_mode number }
{
    match number {
        1 => Ok(Mode::Reading),
        2 => Ok(Mode::Writing),
        _ => Err(Garbage),
    }
}

#[tactic(auto, unfolding(crate::specs::Reading::want_at))]
pub(crate) fn want(reader: &mut Reader) -> Result<Want, Garbage>
    ensures { Gives (λ w. (w, reader.new)) result (want_at reader.old) }
{
    if reader.rest().len() < 8 {
        return Err(Garbage);
    }
    let number = word(reader);
    let mode = wanted_mode(number)?;
    let term = word(reader);
    Ok(Want { mode, term })
}

/// The mode of a lease that is granted.
#[tactic(auto, unfolding(crate::specs::Reading::granted_mode))]
fn granted_mode(number: u32) -> Result<Mode, Garbage>
    ensures number { IfOk result (λ m. number ≡ mode_number m) }
    ensures step { result ≡ granted_mode number }
{
    match number {
        0 => Ok(Mode::NonCaching),
        1 => Ok(Mode::Reading),
        2 => Ok(Mode::Writing),
        _ => Err(Garbage),
    }
}

#[tactic(auto, unfolding(crate::specs::Reading::grant_at, crate::specs::Parts::grant_bytes))]
fn grant(reader: &mut Reader) -> Result<Grant, Garbage>
    ensures found { Reads grant_bytes IsGrant reader.old reader.new result }
    ensures step { Gives (λ g. (g, reader.new)) result (grant_at reader.old) }
{
    if reader.rest().len() < 44 {
        return Err(Garbage);
    }
    let number = word(reader);
    let mode = granted_mode(number)?;
    let term = word(reader);
    let tag = tag_there(reader);
    let since = tag_there(reader);
    let rev = hyper(reader);
    let blocks = word(reader);
    Ok(Grant {
        mode,
        term,
        tag,
        since,
        rev: Rev(rev),
        blocks,
    })
}

#[tactic(auto, unfolding(crate::specs::Reading::base_at))]
fn push_base(reader: &mut Reader) -> Result<PushBase, Garbage>
    ensures { Gives (λ p. (p, reader.new)) result (base_at reader.old) }
{
    if reader.rest().len() < 12 {
        return Err(Garbage);
    }
    let boot = word(reader);
    let base = hyper(reader);
    Ok(PushBase {
        boot,
        base: Rev(base),
    })
}

#[tactic(auto, unfolding(crate::specs::Reading::optional_at))]
pub(crate) fn optional_want(reader: &mut Reader) -> Result<Option<Want>, Garbage>
    ensures { Gives (λ o. (o, reader.new)) result (optional_at want_at reader.old) }
{
    if reader.boolean()? {
        Ok(Some(want(reader)?))
    } else {
        Ok(None)
    }
}

/// A grant, where there is one (RFC 1014 section 3.18).
///
/// # Errors
///
/// [`Garbage`] where the bytes are none of this grammar.
#[tactic(auto, unfolding(crate::specs::Reading::optional_at, crate::specs::Parts::optional))]
pub fn optional_grant(reader: &mut Reader) -> Result<Option<Grant>, Garbage>
    ensures found { Reads (optional grant_bytes) (λ o. IfSome o IsGrant) reader.old reader.new result }
    ensures step { Gives (λ o. (o, reader.new)) result (optional_at grant_at reader.old) }
{
    if reader.boolean()? {
        Ok(Some(grant(reader)?))
    } else {
        Ok(None)
    }
}

#[tactic(auto, unfolding(crate::specs::Reading::optional_at))]
pub(crate) fn optional_push(reader: &mut Reader) -> Result<Option<PushBase>, Garbage>
    ensures { Gives (λ o. (o, reader.new)) result (optional_at base_at reader.old) }
{
    if reader.boolean()? {
        Ok(Some(push_base(reader)?))
    } else {
        Ok(None)
    }
}

/// The name of these bytes.
#[tactic(auto, using(crate::proofs::Names::named))]
fn name_of(bytes: &[u8]) -> Result<Name, Garbage>
    ensures name { IfOk result (λ n. IsName n × (n ≡ bytes.now)) }
    ensures step { result ≡ name_of bytes.now }
{
    match Name::new(bytes) {
        Some(name) => Ok(name),
        None => Err(Garbage),
    }
}

/// The name of a file.
///
/// # Errors
///
/// [`Garbage`] where the bytes are no opaque of the bytes of a name (RFC 1014 section 3.9).
#[tactic(auto, unfolding(crate::specs::Reading::name_at))]
pub fn name(reader: &mut Reader) -> Result<Name, Garbage>
    ensures found { Reads opaque IsName reader.old reader.new result }
    ensures step { Gives (λ n. (n, reader.new)) result (name_at reader.old) }
{
    let bytes = reader.opaque(64)?;
    let name = name_of(bytes)?;
    Ok(name)
}

/// The body of a block, which is lent.
#[tactic(auto, unfolding(crate::specs::Reading::body_at))]
pub(crate) fn lent_body<'a>(reader: &mut Reader<'a>) -> Result<LentBlock<'a>, Garbage>
    ensures { Gives (λ b. (b, reader.new)) result (body_at reader.old) }
{
    let bytes = reader.opaque(4096)?;
    let Some(block) = LentBlock::new(bytes) else {
        return Err(Garbage);
    };
    Ok(block)
}

/// The body of a block, in room that was taken ahead.
pub(crate) fn body(reader: &mut Reader, room: &mut Spare) -> Result<Block, Garbage>
    requires { room.old ≡ true }
    ensures { Gives (λ b. (b, reader.new)) result (body_at reader.old) }
{
    let body = lent_body(reader)?;
    Ok(body.kept(room))
}

/// Ends the reading.
///
/// # Errors
///
/// [`Garbage`] where bytes are left.
pub fn end(reader: Reader) -> Result<(), Garbage>
    ensures { IsOk result ↔ (reader.entry ≡ []) }
{
    reader.end()?;
    Ok(())
}
