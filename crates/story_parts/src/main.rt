//! Worked stories of the parts: what they read, a server, images of disks, stops, and what no clause can say, since it is the machine's. The
//! expected bytes are written from RFC 1014, from RFC 1057 section 8, from the table of procedures and from the page on images, not from what
//! a part gave.
//!
//! The stories stand in the standard input, a line for each thing that happens; a line behind a `#` is for the reader. Bytes are words in
//! hexadecimal, the highest byte first: `N*WORD` stands for N times a word, and `+XX` for a single byte. Where bytes are printed, `*WORD` is a
//! block that repeats a word.
//!
//! A line that begins with `file`, `message`, `request` or `reply` is read as one, the last two behind the number of a procedure. What was read
//! is written again, and `again` says that this gives the same.
//!
//! A line that begins with `=` begins the story of a server over the image that was kept last. Behind it `tick` or `crash` comes
//! with its time, or a host with the bytes of its datagram, answered by the host and the bytes of each datagram that the server sends, with `|`
//! between two, or by a word where it sends none. Each time the server boots anew, and takes in all that came before.
//!
//! `base NAME` begins an image of no bytes, and `image NAME` one with the bytes that were kept last. `size LENGTH` cuts it, or adds zeros, `put
//! PLACE BYTES` writes bytes, and `keep` keeps them. `open` opens a disk of the image, prints for what it stands, and leaves what the disk has.
//!
//! `stopped migration N` opens a disk of the image, and `stopped boot N` boots a server over one in memory, `stopped boot file` over one in a
//! file. `stopped NAME BYTES` hands that server a datagram of host 5, and `stopped tick-NAME TIME` ticks its clock. Each of these is stopped at
//! each call that it makes of the disk. What a stop may leave is opened again: it keeps what was kept before or what is kept after it, and how
//! often which of them is printed. A file has what was written before the call. Of a disk in memory each subset of the writes since the last sync may have
//! come, each write may be torn, and in place of a single byte there may be any; N of them are tried. Then the image is what the disk has behind it.
//! Where memory is wanting something is left out of what is printed.
//!
//! A line that begins with `machine` says which part of the machine is tried: its clock, what comes over UDP, or a disk in one of its files.
//!
//! A line that begins with `often` says what is done how many times, in the words of `timed`, and is answered by a number that stands on all that
//! came out. Where such words stand behind the program's name, it does that alone, so that it can be timed, and prints the number.
#![tactic(auto)]

mod codecs;
mod kept;
mod machine;
mod noting_disk;
mod page;
mod serving;
mod stops;
mod timed;

use crate::page::{cut, digits, say};
use crate::serving::event_of;
use crate::stops::Bench;
use std::io::Write;
use std::process::ExitCode;
use std::{env, io};

fn main(rt: HostRuntime) -> ExitCode {
    let mut page = Vec::new(rt.alloc());
    if fill(&rt, &mut page).is_some() && io::writer(&rt).write_all(&page).is_ok() {
        ExitCode::from(0)
    } else {
        ExitCode::from(1)
    }
}

/// Does what the words behind the program's name say, or plays the stories where there are none. None where the words say nothing that is here,
/// memory is wanting, or a disk fails.
fn fill(rt: &HostRuntime, page: &mut Vec<u8>) -> Option<()> {
    let mut words = env::args(rt).ok()?;
    words.next();
    let Some(what) = words.next() else {
        play_all(rt, page);
        return Some(());
    };
    let way = words.next()?;
    let times = words.next()?;
    tell_often(rt, what.as_str(), way.as_str(), times.as_str(), page)?;
    say(page, "\n");
    Some(())
}

/// Does one thing so many times, and tells the number that stands on all that came out.
fn tell_often(
    rt: &HostRuntime,
    what: &str,
    way: &str,
    times: &str,
    page: &mut Vec<u8>,
) -> Option<()> {
    let times = u32::from_str_radix(times, 10).ok()?;
    digits(page, timed::often(rt, what, way, times)?, 10);
    Some(())
}

/// Plays the stories of the standard input.
fn play_all(rt: &HostRuntime, page: &mut Vec<u8>) {
    let mut bench = Bench::new(rt.alloc());
    for line in rt.lines(rt.alloc()) {
        if let Ok(line) = line {
            play(rt, &mut bench, &line, page);
        }
    }
}

/// Plays a line, and tells what comes of it.
fn play(rt: &HostRuntime, bench: &mut Bench, line: &str, page: &mut Vec<u8>) {
    let alloc = rt.alloc();
    let (verb, rest) = cut(line, ' ');
    match verb {
        "#" => return,
        "machine" => return machine::try_part(rt, rest, page),
        "base" | "size" | "put" | "keep" => return bench.build(alloc, verb, rest),
        "image" => {
            bench.build(alloc, verb, rest);
            say(page, rest);
        }
        "open" => bench.open(alloc, page),
        "stopped" => bench.stop(rt, rest, page),
        "=" => {
            bench.serve(alloc);
            say(page, line);
        }
        _ => answer(rt, bench, line, page),
    }
    say(page, "\n");
}

/// Tells a line, and behind it what is read again, what is done often, or what a server answers.
fn answer(rt: &HostRuntime, bench: &mut Bench, line: &str, page: &mut Vec<u8>) {
    let alloc = rt.alloc();
    let (verb, rest) = cut(line, ' ');
    say(page, line);
    say(
        page,
        if matches!(verb, "tick" | "crash") {
            ": "
        } else {
            " -> "
        },
    );
    match verb {
        "file" | "message" | "request" | "reply" => codecs::tell(alloc, verb, rest, page),
        "often" => {
            let (what, rest) = cut(rest, ' ');
            let (way, times) = cut(rest, ' ');
            tell_often(rt, what, way, times, page);
        }
        _ => bench.answer(alloc, event_of(alloc, verb, rest), page),
    }
}
