//! Telling how calls ended.

ghost use Rattle.std.specs.Fmt.{decimal};
ghost use Rattle.std.specs.Prelude.{◌≡◌, ◌<◌, ◌++◌, IfOk, length, string_bytes};
ghost use Rattle.nq_hosts.specs.Answers.{answers_text};
ghost use Rattle.nq_hosts.specs.Telling.{PrintsAll, TellsEnd, TellsSo, bytes_line, events_line, last_line, noanswer_line, script_line};
ghost use Rattle.nq_base.specs.declared.ending.ending.Ending.{Ending};

use crate::answers::ending::Stop;
use crate::answers::lines::answers_text;
use nq_base::ending::{Ending, Fault};
use nq_base::{Journal, NoMemory};
use nq_io::{Put, Sink};
use std::alloc::Global;

/// Tells how calls ended.
#[tactic(auto, unfolding(crate::specs::Telling::events_line, crate::specs::Telling::noanswer_line))]
pub fn tell_end<K: Sink>(
    alloc: Global,
    ended: Result<(), Stop>,
    log: &Journal,
    out: &mut K,
) -> Ending
    ensures { TellsEnd ended log.now.entries result (K.held out.old) (K.held out.new) (K.faults out.old) (K.faults out.new) }
{
    match ended {
        Ok(()) => tell_answers(alloc, log, out),
        Err(stop) => match stop.why {
            Fault::Link => Ending::LinkFault,
            Fault::Keep => Ending::KeepFault,
            Fault::Memory => Ending::Memory,
            Fault::Spent => {
                tell_stop(
                    alloc,
                    log,
                    "limit line ",
                    stop.line,
                    " events\n",
                    Ending::Limit,
                    out,
                )
            }
            Fault::NoAnswer => {
                tell_stop(
                    alloc,
                    log,
                    "noanswer line ",
                    stop.line,
                    "\n",
                    Ending::NoAnswer,
                    out,
                )
            }
        },
    }
}

/// Prints the answers, behind which nothing is told.
fn tell_answers<K: Sink>(alloc: Global, log: &Journal, out: &mut K) -> Ending
    ensures { PrintsAll result (answers_text log.now.entries) (K.held out.old) (K.held out.new) (K.faults out.old) (K.faults out.new) }
{
    match answers_text(alloc, log) {
        Ok(text) => match out.put(&text) {
            Put::All => Ending::Done,
            Put::Failed => Ending::WriteFault,
        },
        Err(_) => Ending::Memory,
    }
}

/// Prints the answers, and behind them a line with this number between two texts.
fn tell_stop<K: Sink>(
    alloc: Global,
    log: &Journal,
    front: &str,
    number: u32,
    back: &str,
    due: Ending,
    out: &mut K,
) -> Ending
    ensures { TellsSo due (answers_text log.now.entries ++ (front.now ++ (decimal number ++ back.now))) result (K.held out.old) (K.held out.new)
        (K.faults out.old) (K.faults out.new) }
{
    match text_behind(alloc, log, front, number, back) {
        Ok(text) => tell_so(out, &text, due),
        Err(_) => Ending::Memory,
    }
}

/// The answers, and a line behind them.
fn text_behind(
    alloc: Global,
    log: &Journal,
    front: &str,
    number: u32,
    back: &str,
) -> Result<Vec<u8>, NoMemory>
    ensures { IfOk result (λ text. text.items ≡ answers_text log.now.entries ++ (front.now ++ (decimal number ++ back.now))) }
{
    let mut text = answers_text(alloc, log)?;
    let line = numbered(alloc, front, number as u64, back)?;
    text.extend_from_slice(line.as_bytes())?;
    Ok(text)
}

/// Prints a text. The end is the one that is due, even where the sink fails.
fn tell_so<K: Sink>(out: &mut K, text: &[u8], due: Ending) -> Ending
    ensures { TellsSo due text.now result (K.held out.old) (K.held out.new) (K.faults out.old) (K.faults out.new) }
{
    match out.put(text) {
        Put::All | Put::Failed => due,
    }
}

/// Tells which line spells no call.
#[tactic(auto, unfolding(crate::specs::Telling::script_line))]
pub fn tell_script<K: Sink>(alloc: Global, number: u32, out: &mut K) -> Ending
    ensures { TellsSo Ending.Script (script_line number) result (K.held out.old) (K.held out.new) (K.faults out.old) (K.faults out.new) }
{
    tell_number(
        alloc,
        "script line ",
        number as u64,
        "\n",
        Ending::Script,
        out,
    )
}

/// Tells in which line the input passes the limit. The bytes are those up to the first beyond it.
pub fn tell_bytes<K: Sink>(alloc: Global, front: &[u8], out: &mut K) -> Ending
    requires { 0 < length front.now }
    ensures { TellsSo Ending.Limit (bytes_line (last_line front.now)) result (K.held out.old) (K.held out.new) (K.faults out.old) (K.faults out.new) }
{
    let number = line_of_last(front);
    tell_number(
        alloc,
        "limit line ",
        number as u64,
        " bytes\n",
        Ending::Limit,
        out,
    )
}

/// Prints a line with this number between two texts. The end is the one that is due, even where the sink fails.
fn tell_number<K: Sink>(
    alloc: Global,
    front: &str,
    number: u64,
    back: &str,
    due: Ending,
    out: &mut K,
) -> Ending
    ensures { TellsSo due (front.now ++ (decimal number ++ back.now)) result (K.held out.old) (K.held out.new) (K.faults out.old) (K.faults out.new) }
{
    match numbered(alloc, front, number, back) {
        Ok(line) => tell_so(out, line.as_bytes(), due),
        Err(_) => Ending::Memory,
    }
}

/// A number between two texts.
fn numbered(alloc: Global, front: &str, number: u64, back: &str) -> Result<String, NoMemory>
    ensures { IfOk result (λ line. string_bytes line ≡ front.now ++ (decimal number ++ back.now)) }
{
    Ok(format!(in alloc; "{front}{number}{back}")?)
}

/// The number of the line in which the last of these bytes stands.
#[tactic(auto, unfolding(crate::specs::Telling::last_line))]
fn line_of_last(bytes: &[u8]) -> usize
    requires { 0 < length bytes.now }
    ensures { result ≡ last_line bytes.now }
{
    let before = &bytes[..bytes.len() - 1];
    before.iter().filter(|byte| **byte == b'\n').count() + 1
}
