//! The program `nqnfs_look`: shows the run of a schedule, which it reads from the standard input. `nqnfs_look picture` draws it as a
//! message sequence chart in SVG, with `--from N` and `--to N` only of some events, `nqnfs_look tell` tells it, a line for each event, and
//! `nqnfs_look why LINE` tells the events that led to the entry in a line of its journal, or `no entry` where none stands there. A faulty
//! schedule is told as `nqnfs replay` tells it, with the same status.
#![tactic(auto)]

mod words;

ghost use Rattle.std.specs.Prelude.{◌<◌, ◌^◌, length};
ghost use Rattle.nqnfs_look.specs.Ends.{EndsOrder, IsPut};

use crate::words::{Order, asked_of};
use nq_base::ending::Ending;
use nq_io::streams::{StdSink, StdSource};
use nq_io::{MemSink, MemSource, Put, Sink, Source, Whole, read_all};
use nq_keeper::ListKeeper;
use nq_observe::{Endless, Shown, Unseen, View, look};
use nq_replay::{read_script, replay};
use nq_words::{Unread, Wrong, args_of};
use std::io;
use std::process::ExitCode;

// Which words there are.
const USAGE: &str = "nqnfs_look picture [--from N] [--to N] | tell | why LINE";

const HELP: &str = "nqnfs_look picture [--from N] [--to N] | tell | why LINE

Shows the run of the schedule on the standard input.
  picture      draws it in SVG, from event N to event N
  tell         tells it, a line for each event
  why LINE     tells the events that led to a line of its journal, newest first
  --help       prints this
  --version    prints the version
";

// The most bytes of a schedule that are read.
const MOST_BYTES: usize = 16_777_216;

// The most bytes of a line that tells a fault.
const FAULT_LINE: usize = 128;

fn main(rt: HostRuntime) -> ExitCode {
    ExitCode::from(obey(&rt).status())
}

/// Does what the words behind the program's name say; how that ends.
fn obey(rt: &HostRuntime) -> Ending {
    let words = match args_of(rt) {
        Ok(words) => words,
        Err(Unread::Memory) => return Ending::Memory,
        Err(Unread::NoText) => {
            let _told = eprintln!(rt; "nqnfs_look: a word is no text; usage: {USAGE}");
            return Ending::Usage;
        }
    };
    answer(rt, asked_of(words.as_slice()))
}

/// Does what is asked for; how that ends.
fn answer(rt: &HostRuntime, order: Result<Order, Wrong<'_>>) -> Ending
    ensures { EndsOrder order.entry result }
{
    match order {
        Ok(Order::Show(view)) => show(rt, view),
        Ok(Order::Help) => print_page(rt, HELP.as_bytes(), Ending::Done),
        Ok(Order::Version) => print_page(rt, b"nqnfs_look 1\n", Ending::Done),
        Err(wrong) => {
            let _told = eprintln!(rt; "nqnfs_look: {wrong}; usage: {USAGE}");
            Ending::Usage
        }
    }
}

/// Reads a schedule and shows its run; how that ends.
fn show(rt: &HostRuntime, view: View) -> Ending {
    let mut input = StdSource::new(rt.reader());
    match read_all(rt.alloc(), &mut input, MOST_BYTES) {
        Whole::All(text) => show_text(rt, &text, view),
        Whole::Over(text) => tell_fault(rt, &text),
        Whole::Failed => Ending::ReadFault,
        Whole::Memory => Ending::Memory,
    }
}

/// Shows the run of a schedule that was read, or tells its fault; how that ends.
fn show_text(rt: &HostRuntime, text: &[u8], view: View) -> Ending
    requires { length text.now < 2 ^ 31 }
{
    let ending = tell_fault(rt, text);
    if !matches!(ending, Ending::Done) {
        return ending;
    }
    let mut page = Vec::new(rt.alloc());
    match look(rt.alloc(), text, view, &mut Endless, &mut page) {
        Ok(Shown::All) => print_page(rt, &page, Ending::Done),
        Ok(Shown::Nothing) => print_page(rt, b"no entry\n", Ending::Usage),
        Err(Unseen::Memory) => Ending::Memory,
        // There is always time.
        Err(Unseen::Time) => Ending::Limit,
    }
}

/// Replays a schedule, and prints the line that tells its fault, if it has one; how that ends.
fn tell_fault(rt: &HostRuntime, text: &[u8]) -> Ending {
    let alloc = rt.alloc();
    let Ok(copy) = text.to_vec(alloc) else {
        return Ending::Memory;
    };
    let Ok(sink) = MemSink::new(alloc, FAULT_LINE, Vec::new(alloc)) else {
        return Ending::Memory;
    };
    let Ok(keeper) = ListKeeper::new(alloc, Vec::new(alloc)) else {
        return Ending::Memory;
    };
    let mut told = sink;
    let mut source = MemSource::new(copy, Vec::new(alloc));
    let end = match read_script(alloc, &mut source, &mut told, MOST_BYTES) {
        Ok(script) => replay(alloc, keeper, &script, &mut told).end,
        Err(end) => end,
    };
    match end {
        // A journal that does not fit is that of a schedule without a fault.
        Ending::Done | Ending::WriteFault => Ending::Done,
        fault => print_page(rt, told.bytes(), fault),
    }
}

/// Puts bytes out; this end, or that of a sink that failed.
fn print_page(rt: &HostRuntime, bytes: &[u8], end: Ending) -> Ending
    ensures { IsPut end result }
{
    let mut out = StdSink::new(io::writer(rt));
    match out.put(bytes) {
        Put::All => end,
        Put::Failed => Ending::WriteFault,
    }
}
