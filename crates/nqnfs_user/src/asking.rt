//! A connection to a host.

use nq_asks::{AnswerKind, answer_in, push_ask};
use nq_script::words::{cut, number};
use nq_whole::MOST_BYTES;
use std::alloc::Global;
use std::io::{self, ErrorKind, Read, Write};
use std::os::unix::net::UnixStream;
use std::str;
use std::time::Duration;

/// After how many seconds in which the host says nothing it is said that it is waited for. A host that works at the ask says why before.
const QUIETLY: u64 = 4;

/// The most reads for one answer.
const MOST_READS: u64 = 1 << 40;

/// How many bytes are read at once.
const READ_SIZE: usize = 16384;

// What is said once an answer is waited for, where the host does not say why.
const WAITING: &str = "waiting: no server answers the host, or other asks come first";

// What is said behind it.
const GOES_ON: &str = "Ctrl-C ends this program, and the host goes on with what was asked";

/// What a host answers.
#[derive(Drop)]
pub(crate) struct HostAnswer {
    /// Whether it was done, and whether bytes came.
    pub(crate) kind: AnswerKind,
    /// Its words.
    pub(crate) text: Vec<u8>,
    /// The bytes.
    pub(crate) bytes: Vec<u8>,
}

/// A connection to a host, with the number of the last ask.
#[derive(Drop)]
pub(crate) struct Asking<'a> {
    rt: &'a HostRuntime,
    alloc: Global,
    stream: UnixStream,
    last: u32,
    incoming: Vec<u8>,
    is_told: bool,
}

/// That the host is gone.
fn gone() -> io::Error {
    io::Error::from(ErrorKind::UnexpectedEof)
}

impl<'a> Asking<'a> {
    /// A connection over the socket at this path.
    pub(crate) fn open(rt: &'a HostRuntime, path: &str) -> io::Result<Asking<'a>> {
        let stream = UnixStream::connect(rt, path)?;
        stream.set_read_timeout(Some(Duration::from_secs(QUIETLY)))?;
        Ok(Asking {
            rt,
            alloc: rt.alloc(),
            stream,
            last: 0,
            incoming: Vec::new(rt.alloc()),
            is_told: false,
        })
    }

    /// Asks, with bytes behind the line, and waits for the answer.
    pub(crate) fn ask(&mut self, text: &[u8], bytes: &[u8]) -> io::Result<HostAnswer> {
        self.last = self.last.saturating_add(1);
        let mut line = Vec::new(self.alloc);
        if push_ask(&mut line, self.last, text).is_err() {
            return Err(io::Error::from(ErrorKind::OutOfMemory));
        }
        line.push(b'\n')?;
        self.stream.write_all(&line)?;
        self.stream.write_all(bytes)?;
        self.is_told = false;
        self.take_reply()
    }

    /// Waits for the answer. What the host notes before it is told at once.
    fn take_reply(&mut self) -> io::Result<HostAnswer> {
        for _read in 0..MOST_READS {
            match self.reply_in()? {
                Some(reply) if matches!(reply.kind, AnswerKind::Note) => self.tell_note(&reply),
                Some(reply) if matches!(reply.kind, AnswerKind::Wait) => self.tell_wait(
                    &reply.text,
                ),
                Some(reply) => return Ok(reply),
                None => self.read()?,
            }
        }
        Err(gone())
    }

    /// Tells what the host notes.
    fn tell_note(&self, note: &HostAnswer) {
        let words = str::from_utf8(&note.text).unwrap_or("");
        let _told = println!(self.rt; "{words}");
    }

    /// Tells that the answer is waited for, and why.
    fn tell_wait(&mut self, why: &[u8]) {
        let words = str::from_utf8(why).unwrap_or("waiting");
        let _told = eprintln!(self.rt; "{words}; {GOES_ON}");
        self.is_told = true;
    }

    /// The answer, if all of it has come.
    fn reply_in(&mut self) -> io::Result<Option<HostAnswer>> {
        let Some((line, rest)) = cut(&self.incoming, b'\n') else {
            return Ok(None);
        };
        let Some((answered, kind, text)) = answer_in(line) else {
            return Err(gone());
        };
        let size = match kind {
            AnswerKind::Bytes => number(text, MOST_BYTES as u64).unwrap_or(0) as usize,
            _ => 0,
        };
        if answered != self.last {
            return Err(gone());
        }
        if rest.len() < size {
            return Ok(None);
        }
        let reply = HostAnswer {
            kind,
            text: text.to_vec(self.alloc)?,
            bytes: rest[..size].to_vec(self.alloc)?,
        };
        let rest = rest[size..].to_vec(self.alloc)?;
        self.incoming = rest;
        Ok(Some(reply))
    }

    /// Reads what comes next, and says so where that takes long.
    fn read(&mut self) -> io::Result<()> {
        let mut buffer = [0; READ_SIZE];
        match self.stream.read(&mut buffer) {
            Ok(0) => Err(gone()),
            Ok(count) if count <= READ_SIZE => {
                self.incoming.extend_from_slice(&buffer[..count])?;
                Ok(())
            }
            Ok(_) => Err(gone()),
            Err(error) if is_silence(&error) => {
                if !self.is_told {
                    self.tell_wait(WAITING.as_bytes());
                }
                Ok(())
            }
            Err(error) => Err(error),
        }
    }
}

/// Whether an error says only that nothing came in time.
fn is_silence(error: &io::Error) -> bool {
    matches!(
        error.kind(),
        ErrorKind::WouldBlock | ErrorKind::TimedOut | ErrorKind::Interrupted
    )
}
