//! Scenes: commands that run in memory, one after another, with ample memory. What each prints is printed, and its status.
//!
//! Each line of the standard input that begins with `=` is printed as it stands. Any other is a scene, words, a colon and an input, in which
//! `|` stands for each line feed, and `N*L` for N lines L. In a scene that ends with `unread` the first read fails, with `unput` the
//! first put, with `unkept` the first call of the disk, and with `unsent` the first call of each link. The disk has no bytes; in a scene
//! that begins with `again` it has those that the scene before left. What is sent is lost. The clock shows 0, and from then on 1.
//!
//! In a scene that begins with `attached` the server's reply waits that attaches host 0 in its incarnation 1. With `answered` nineteen replies
//! wait behind it, to requests 2 to 20, that there is no such file. In one that ends with `asked` twenty hosts ask the server to attach them. Behind these two
//! it is told how many datagrams were sent.
//!
//! Of a scene that begins with `summed` the SHA-256 of what it prints is told. One that begins with `replayed` has to print a schedule, its
//! journal and counts. It is told whether `replay` of that schedule prints that journal, and whether a world has that journal that takes in
//! the schedule event by event; then come the counts, but for packets and losses. In such a scene what is sent arrives, and the clock goes on at each reading.
//!
//! In a scene that begins with `watched` a server takes so many turns over an image, and somebody looks on: what he is told is printed. The clock goes on
//! there too, and the first datagram that is sent is refused.

use crate::again::tell_again;
use crate::parts::{disk_of, failing, links_of, post_of, words_of};
use crate::post::{PostLink, StoryClock};
use crate::top::ran;
use crate::watched::tell_watched;
use nq_base::ending::Ending;
use nq_disk::MemDisk;
use nq_io::{MemSink, MemSource};
use nq_run::{CommandWords, Ended, NoMemory, parties_of, party_of};
use sha2::{Digest, Sha256};
use std::alloc::Global;
use std::cell::RefCell;
use std::rc::Rc;
use std::str;

/// The most bytes that a scene prints.
const MOST_PRINTED: usize = 4_194_304;

/// The last reading of a clock that goes on.
pub(crate) const LAST: u32 = 4_000;

/// What came of a scene: how it ended, and how many datagrams were sent.
#[derive(Drop)]
pub(crate) struct Played {
    ended: Ended<u8, MemDisk>,
    sent: u32,
}

/// Plays the scenes of the standard input to its end, or until a line cannot be read or printed.
pub(crate) fn play_all(rt: &HostRuntime) -> Ending {
    let mut left = Vec::new(rt.alloc());
    for line in rt.lines(rt.alloc()) {
        let Ok(line) = line else {
            return Ending::ReadFault;
        };
        if line.starts_with('=') {
            if println!(rt; "{line}").is_err() {
                return Ending::WriteFault;
            }
        } else {
            match tell(rt, &line, left) {
                Some(bytes) => left = bytes,
                None => return Ending::WriteFault,
            }
        }
    }
    Ending::Done
}

/// Plays a scene over a disk on which these bytes were left, if it goes on with them, and prints what comes of it. Gives the bytes that it
/// leaves, or None where something was not printed.
fn tell(rt: &HostRuntime, line: &str, left: Vec<u8>) -> Option<Vec<u8>> {
    let (told, input) = line.split_once(": ").unwrap_or((line, ""));
    println!(rt; "- {told}").ok()?;
    let (scene, said) = told.split_once(' ').unwrap_or((told, ""));
    if scene.starts_with("watched") {
        tell_watched(rt, scene, said)?;
        return Some(left);
    }
    tell_played(rt, scene, said, input, left)
}

/// Plays a scene in which words are said, and prints what comes of it. Gives the bytes that it leaves on the disk.
fn tell_played(
    rt: &HostRuntime,
    scene: &str,
    said: &str,
    input: &str,
    left: Vec<u8>,
) -> Option<Vec<u8>> {
    let alloc = rt.alloc();
    let words = words_of(alloc, said);
    let mut source = MemSource::new(text_of(alloc, input), failing(alloc, scene, "unread"));
    let mut out = MemSink::new(alloc, MOST_PRINTED, failing(alloc, scene, "unput")).ok()?;
    let played = play(alloc, scene, &words, &mut source, &mut out, left).ok()?;
    tell_printed(rt, scene, out.bytes(), played.sent)?;
    tell_status(rt, played.ended.end)?;
    played.ended.left.bytes().to_vec(alloc).ok()
}

/// Prints the status with which a scene ended.
fn tell_status(rt: &HostRuntime, status: u8) -> Option<()> {
    println!(rt; "status {status}").ok()
}

/// Prints what a scene printed, or what is told in its place.
fn tell_printed(rt: &HostRuntime, scene: &str, printed: &[u8], sent: u32) -> Option<()> {
    if scene.starts_with("summed") {
        return tell_sum(rt, printed);
    }
    let text = str::from_utf8(printed).unwrap_or("no text");
    if scene.starts_with("replayed") {
        return tell_again(rt, text);
    }
    print!(rt; "{text}").ok()?;
    if scene.ends_with("asked") || scene.starts_with("answered") {
        println!(rt; "sent {sent}").ok()?;
    }
    Some(())
}

/// Prints the SHA-256 of these bytes.
fn tell_sum(rt: &HostRuntime, printed: &[u8]) -> Option<()> {
    print!(rt; "sum ").ok()?;
    for byte in Sha256::digest(printed) {
        print!(rt; "{byte:02x}").ok()?;
    }
    println!(rt; "").ok()
}

/// The text whose lines are parted by `|`, where `N*L` stands for N lines L.
fn text_of(alloc: Global, input: &str) -> Vec<u8> {
    let mut text = Vec::new(alloc);
    for line in input.split('|') {
        push_line(&mut text, line);
    }
    text.pop();
    text
}

/// Adds a line, or as many as it stands for.
fn push_line(text: &mut Vec<u8>, line: &str) {
    let (times, line) = line.split_once('*').unwrap_or(("1", line));
    for _ in 0..u32::from_str_radix(times, 10).unwrap_or(0) {
        text.extend_from_slice(line.as_bytes()).ok();
        text.push(b'\n').ok();
    }
}

/// Runs what words say in a scene, over a disk on which these bytes were left, if it goes on with them.
pub(crate) fn play(
    alloc: Global,
    scene: &str,
    words: &CommandWords,
    source: &mut MemSource,
    out: &mut MemSink,
    left: Vec<u8>,
) -> Result<Played, NoMemory> {
    let post = Rc::new(alloc, RefCell::new(post_of(alloc, scene)?))?;
    let fails = scene.ends_with("unsent");
    let parties = parties_of(alloc, words)?;
    let mut links = links_of(alloc, &post, parties.as_slice(), fails)?;
    let mut link = PostLink::new(post.clone()?, party_of(words), fails);
    let last = if scene.starts_with("replayed") {
        LAST
    } else {
        1
    };
    let disk = disk_of(alloc, scene, left)?;
    let ended = ran(
        alloc,
        words,
        source,
        out,
        disk,
        &mut link,
        links.as_mut_slice(),
        &mut StoryClock::to(last),
    )?;
    let sent = match post.try_borrow() {
        Ok(post) => post.sent(),
        Err(_) => 0,
    };
    Ok(Played { ended, sent })
}
