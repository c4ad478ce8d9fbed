//! A server with so many files and lease rows, and the requests of one host that it answers again and again. Requests are spelled here, since
//! only their numbers differ.

use crate::page::{cut, number_of, push_numbers, write_over};
use nq_base::{Host, Journal, Ticks};
use nq_keeper::ListKeeper;
use nq_server::{Received, Server};
use nq_wire::Outbox;
use std::alloc::Global;

/// The longest term, in ticks. No clock ticks here, so all leases run.
const LONGEST: u32 = 60;

/// The length of each file, in blocks.
const LENGTH: u32 = 64;

/// A journal is begun anew after so many requests.
const REQUESTS: u32 = 64;

/// The numbers of procedures.
const ATTACH: u32 = 1;

const LOOKUP: u32 = 2;

const CREATE: u32 = 3;

const READ: u32 = 5;

const WRITE: u32 = 6;

const GETLEASE: u32 = 7;

/// The name of the first file.
const NAME: u32 = 0x6161_0000;

/// The bytes of a WRITE at which the lower half of its sequence stands.
const SEQUENCE: usize = 52;

/// The bytes of a push at which the lower half of the revision stands that it rests on.
const BASE: usize = 92;

/// What host 0 asks again and again: its host and incarnation come first, and then the length of a name and the name; or for READ the number of the call, of
/// two words, the file, the block and the lease that is wanted; or for WRITE the sequence, of two words, the file, the block, the first and the last
/// number of the write, of two words each, what the push rests on, and the length of the block.
fn asked(alloc: Global, ask: &str) -> Option<Vec<u8>> {
    let call = match ask {
        "lookup" => call_of(alloc, LOOKUP, &[0, 1, 2, NAME]),
        "read" => call_of(alloc, READ, &[0, 1, 0, 1, 1, 0, 0]),
        "read-wanted" => call_of(alloc, READ, &[0, 1, 0, 1, 1, 0, 1, 1, LONGEST]),
        "write" => call_of(alloc, WRITE, &[0, 1, 0, 0, 1, 0, 0, 1, 0, 1, 0, 4096]),
        "push" => call_of(
            alloc,
            WRITE,
            &[0, 1, 0, 0, 1, 0, 0, 1, 0, 1, 1, 1, 0, 0, 4096],
        ),
        _ => return None,
    };
    Some(call)
}

/// The datagram of a call.
fn call_of(alloc: Global, procedure: u32, arguments: &[u32]) -> Vec<u8> {
    let mut bytes = Vec::new(alloc);
    push_numbers(
        &mut bytes,
        &[1, 0, 2, 0x2000_4e51, 1, procedure, 0, 0, 0, 0],
    );
    push_numbers(&mut bytes, arguments);
    if procedure == WRITE {
        bytes.extend_from_slice(&[7; 4096]).ok();
    }
    bytes
}

/// A server, with what it is lent, and whether it answered OK each time.
#[derive(Drop)]
struct Desk {
    alloc: Global,
    server: Server<ListKeeper>,
    out: Outbox,
    log: Journal,
    is_well: bool,
}

/// What is asked again and again.
#[derive(Drop)]
struct Question {
    datagram: Vec<u8>,
    is_push: bool,
    is_write: bool,
}

impl Question {
    fn of(alloc: Global, ask: &str) -> Option<Question> {
        let is_push = ask == "push";
        Some(Question {
            datagram: asked(alloc, ask)?,
            is_push,
            is_write: is_push || ask == "write",
        })
    }

    /// Makes it the one of another time: a write has a sequence of its own, and a push rests on the one before.
    fn renew(&mut self, time: u32) {
        if self.is_write {
            let sequence = time.wrapping_add(1000).to_be_bytes();
            write_over(&mut self.datagram, SEQUENCE, &sequence);
        }
        if self.is_push {
            write_over(&mut self.datagram, BASE, &time.to_be_bytes());
        }
    }
}

/// Asks one thing so many times; None where there is no such word, memory is wanting, or the server does not answer OK.
pub(crate) fn often(alloc: Global, ask: &str, way: &str, times: u32) -> Option<u64> {
    let mut question = Question::of(alloc, ask)?;
    let (files, rows) = cut(way, '-');
    let mut desk = Desk::new(alloc)?;
    desk.fill(
        number_of(files),
        number_of(rows),
        if question.is_push { 2 } else { 1 },
    );
    desk.answer(&mut question, times)
}

impl Desk {
    fn new(alloc: Global) -> Option<Desk> {
        let keeper = ListKeeper::new(alloc, Vec::new(alloc)).ok()?;
        Some(Desk {
            alloc,
            server: Server::boot(alloc, keeper, LONGEST, Ticks(0)).ok()?,
            out: Outbox::new(alloc, 0).unwrap(),
            log: Journal::new(alloc).unwrap(),
            is_well: true,
        })
    }

    /// Makes the files and the rows: host 0 has a lease of a mode on the first file, and the rows behind it are reading leases, of 64 hosts on each
    /// of the last files.
    fn fill(&mut self, files: u32, rows: u32, mode: u32) {
        for host in 0..64 {
            self.ask(host, ATTACH, &[host, 1]);
        }
        for number in 0..files {
            let name = NAME + number / 16 % 16 * 0x0100_0000 + number % 16 * 0x0001_0000;
            self.ask(
                0,
                CREATE,
                &[0, 1, 0, number.wrapping_add(1), 2, name, LENGTH],
            );
        }
        self.ask(0, GETLEASE, &[0, 1, 1, mode, LONGEST]);
        for row in 1..rows {
            let (host, file) = (row % 64, files.wrapping_sub(row / 64));
            self.ask(host, GETLEASE, &[host, 1, file, 1, LONGEST]);
        }
    }

    fn ask(&mut self, host: u32, procedure: u32, arguments: &[u32]) {
        let datagram = call_of(self.alloc, procedure, arguments);
        self.take_in(host, &datagram);
    }

    /// How many bytes it answers in all; None where one answer does not say OK.
    fn answer(&mut self, question: &mut Question, times: u32) -> Option<u64> {
        let mut sum: u64 = 0;
        for time in 0..times {
            if time % REQUESTS == 0 {
                self.log = Journal::new(self.alloc).unwrap();
            }
            question.renew(time);
            sum = sum.wrapping_add(self.take_in(0, &question.datagram));
        }
        if self.is_well { Some(sum) } else { None }
    }

    /// How many bytes the server answers that say OK.
    fn take_in(&mut self, host: u32, datagram: &[u8]) -> u64 {
        self.out.cut(0);
        let received = self.server.receive(
            self.alloc,
            Host(host),
            datagram,
            &mut self.out,
            &mut self.log,
        );
        let answered = match self.out.get(0) {
            Some((_, bytes)) if bytes.get(28..32) == Some([0; 4].as_slice()) => bytes.len() as u64,
            _ => 0,
        };
        if received != Received::Done || answered == 0 {
            self.is_well = false;
        }
        answered
    }
}
