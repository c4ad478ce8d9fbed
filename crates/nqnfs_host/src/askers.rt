//! Those who ask a host on this machine.

use mio::net::UnixStream;
use nq_asks::{AnswerKind, push_answer};
use nq_tasks::{Ask, AskTaken, Inbox};
use std::alloc::Global;
use std::io::{ErrorKind, Read, Write};

/// The most parts in which an answer is sent at once.
const MOST_PARTS: u32 = 4096;

/// How many bytes are read at once.
const READ_SIZE: usize = 16384;

/// Somebody who asks.
#[derive(Drop)]
pub(crate) struct Asker {
    stream: UnixStream,
    inbox: Inbox,
    outgoing: Vec<u8>,
    sent: usize,
    /// Whether it is gone, or said what is no ask.
    pub(crate) is_over: bool,
}

impl Asker {
    /// Somebody who has connected.
    pub(crate) fn new(alloc: Global, stream: UnixStream) -> Asker {
        Asker {
            stream,
            inbox: Inbox::new(alloc),
            outgoing: Vec::new(alloc),
            sent: 0,
            is_over: false,
        }
    }

    /// The stream, to wait for it.
    pub(crate) fn stream(&mut self) -> &mut UnixStream {
        &mut self.stream
    }

    /// Takes in what has come. Whether anything has.
    pub(crate) fn read(&mut self) -> bool {
        let mut buffer = [0; READ_SIZE];
        if !self.inbox.has_room() {
            return false;
        }
        match self.stream.read(&mut buffer) {
            Ok(0) => self.is_over = true,
            Ok(count) => {
                if count > READ_SIZE || self.inbox.add(&buffer[..count]).is_err() {
                    self.is_over = true;
                }
                return true;
            }
            Err(error) if error.kind() == ErrorKind::WouldBlock => {}
            Err(_) => self.is_over = true,
        }
        false
    }

    /// The next ask, if all of it has come and the answer to the last one is sent. One whose number is not above all before it is left out.
    pub(crate) fn next_ask(&mut self) -> Option<Ask> {
        if self.is_over || !self.outgoing.is_empty() {
            return None;
        }
        match self.inbox.next() {
            AskTaken::Ask(ask) => Some(ask),
            AskTaken::Nothing => None,
            AskTaken::Wrong => {
                self.is_over = true;
                None
            }
        }
    }

    /// Whether the next ask says that the host is to end.
    pub(crate) fn says_end(&self) -> bool {
        self.inbox.says(b"end")
    }

    /// Sends an answer, with bytes behind the line where the kind says so.
    pub(crate) fn answer(&mut self, number: u32, kind: AnswerKind, text: &[u8], bytes: &[u8]) {
        let told = push_answer(&mut self.outgoing, number, kind, text);
        if told.is_err()
            || self.outgoing.push(b'\n').is_err()
            || self.outgoing.extend_from_slice(bytes).is_err()
        {
            self.is_over = true;
        }
        self.write();
    }

    /// Sends what is left to be sent, as far as it goes.
    pub(crate) fn write(&mut self) {
        for _part in 0..MOST_PARTS {
            if self.sent >= self.outgoing.len() {
                self.outgoing.clear();
                self.sent = 0;
                return;
            }
            match self.stream.write(&self.outgoing[self.sent..]) {
                Ok(count) => self.sent = self.sent.saturating_add(count),
                Err(error) if error.kind() == ErrorKind::WouldBlock => return,
                Err(_) => {
                    self.is_over = true;
                    return;
                }
            }
        }
    }
}
