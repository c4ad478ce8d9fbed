//! The text of a schedule with asides.

ghost use Rattle.std.specs.Prelude.{◌≡◌, ◌<◌, ◌^◌, ◌+◌, ◌++◌, ◌∷◌, ℕ, List, [], length, IfOk, OnOk};
ghost use Rattle.nq_replay.specs.Text.{FirstBadMixed, IsReadyMixed, MixedLine, SpellsMixed, asides_in, mixed, plain_bytes, plain_line};
ghost use Rattle.nq_script.specs.Faults.{Answers};
ghost use Rattle.nq_script.specs.Heads.{head_lines};
ghost use Rattle.nq_script.specs.Schedule.{FirstBadLine, SpellsSchedule};
ghost use Rattle.nq_script.specs.declared.heads.Head.{Head};

use crate::asides::aside::AsideLine;
use nq_base::NoMemory;
use nq_script::words::cut;
use nq_script::{Script, ScriptFault, parse, parse_head};
use std::alloc::Global;

/// The version in which all is read.
const VERSION: u32 = 2;

/// A schedule with asides as its text gives it.
#[derive(Drop)]
pub struct MixedScript<A> {
    /// The schedule in which a line `flow` stands for each aside.
    pub script: Script,
    /// Of each line what it says, if it is an aside.
    pub asides: Vec<Option<A>>,
}

/// A text in which a line `flow` stands for each aside.
#[derive(Drop)]
struct PlainText<A> {
    bytes: Vec<u8>,
    asides: Vec<Option<A>>,
}

/// Reads a whole text, which is shorter than 2^31 bytes.
///
/// # Errors
///
/// `Bad` with the number of the first line at which the text is outside the grammar: also line 1 of a schedule of version 1,
/// a line without its line feed, the line that is missing where the text ends before `end`, and the one behind `end` where bytes
/// follow.
pub fn read_script<A: AsideLine>(alloc: Global, text: &[u8]) -> Result<MixedScript<A>, ScriptFault>
    requires { length text.now < 2 ^ 31 }
    ensures found { Answers result (λ s. SpellsMixed A.said s.script.head (mixed s.asides.items s.script.lines) text.now)
        (λ number. FirstBadMixed A.said text.now number) }
    ensures only { (head : Head) (lines : List (MixedLine A)) → SpellsMixed A.said head lines text.now
        → Answers result (λ s. (s.script.head ≡ head) × (mixed s.asides.items s.script.lines ≡ lines)) (λ number. ⊥) }
    ensures bad { (number : ℕ) → FirstBadMixed A.said text.now number → Answers result (λ s. ⊥) (λ place. place ≡ number) }
    ensures ready { Answers result (λ s. IsReadyMixed A.fits s.script s.asides.items) (λ number. Unit {0}) }
{
    read_whole(alloc, text)
}

/// Reads the head, and behind it the lines.
fn read_whole<A: AsideLine>(alloc: Global, text: &[u8]) -> Result<MixedScript<A>, ScriptFault>
    requires { length text.now < 2 ^ 31 }
    ensures found { Answers result (λ s. SpellsMixed A.said s.script.head (mixed s.asides.items s.script.lines) text.now)
        (λ number. FirstBadMixed A.said text.now number) }
    ensures ready { Answers result (λ s. IsReadyMixed A.fits s.script s.asides.items) (λ number. Unit {0}) }
{
    let out = parse_head(alloc, text)?;
    if out.head.version != VERSION {
        return Err(ScriptFault::Bad(1));
    }
    let (front, body) = text.split_at(out.bytes);
    let plain = plain_text(alloc, out.head.hosts, front, body)?;
    read_plain(alloc, plain)
}

/// Reads a text in which a line `flow` stands for each aside.
fn read_plain<A: AsideLine>(
    alloc: Global,
    plain: PlainText<A>,
) -> Result<MixedScript<A>, ScriptFault>
    requires { length plain.bytes.items < 2 ^ 31 }
    ensures found { Answers result (λ s. SpellsSchedule s.script.head s.script.lines plain.bytes.items
        × (s.asides.items ≡ plain.asides.items)) (λ number. FirstBadLine plain.bytes.items number) }
    ensures first { Answers result (λ s. s.script.first ≡ length (head_lines s.script.head) + 1) (λ number. Unit {0}) }
{
    let PlainText { bytes, asides } = plain;
    let script = parse(alloc, &bytes)?;
    Ok(MixedScript { script, asides })
}

/// A front, and bytes behind it in which a line `flow` stands for each aside.
fn plain_text<A: AsideLine>(
    alloc: Global,
    hosts: u32,
    front: &[u8],
    body: &[u8],
) -> Result<PlainText<A>, NoMemory>
    ensures plain { IfOk result (λ p. p.bytes.items ≡ front.now ++ plain_bytes (A.said hosts) body.now) }
    ensures asides { IfOk result (λ p. p.asides.items ≡ asides_in (A.said hosts) body.now) }
{
    let mut bytes = Vec::from_slice(alloc, front)?;
    let mut asides = Vec::new(alloc);
    push_lines(&mut bytes, &mut asides, hosts, body)?;
    Ok(PlainText { bytes, asides })
}

/// Appends bytes in which a line `flow` stands for each aside, and of each line what it says, if it is an aside.
fn push_lines<A: AsideLine>(
    bytes: &mut Vec<u8>,
    asides: &mut Vec<Option<A>>,
    hosts: u32,
    body: &[u8],
) -> Result<(), NoMemory>
    ensures plain { OnOk result (bytes.new.items ≡ bytes.old.items ++ plain_bytes (A.said hosts) body.now) }
    ensures asides { OnOk result (asides.new.items ≡ asides.old.items ++ asides_in (A.said hosts) body.now) }
{
    let mut rest = body;
    'lines: loop {
        let Some((line, after)) = cut(rest, b'\n') else {
            bytes.extend_from_slice(rest)?;
            return Ok(());
        };
        push_line(bytes, asides, hosts, line)?;
        rest = after;
    }
}

/// Appends a line as it would stand in a schedule, with its line feed, and what it says, if it is an aside.
fn push_line<A: AsideLine>(
    bytes: &mut Vec<u8>,
    asides: &mut Vec<Option<A>>,
    hosts: u32,
    line: &[u8],
) -> Result<(), NoMemory>
    ensures plain { OnOk result (bytes.new.items ≡ bytes.old.items ++ (plain_line (A.said hosts) line.now ++ 10 ∷ [])) }
    ensures aside { OnOk result (asides.new.items ≡ asides.old.items ++ A.said hosts line.now ∷ []) }
{
    let aside = A::of_line(line, hosts);
    match aside {
        Some(_) => bytes.extend_from_slice(b"flow\n")?,
        None => {
            bytes.extend_from_slice(line)?;
            bytes.push(b'\n')?;
        }
    }
    asides.push(aside)?;
    Ok(())
}
