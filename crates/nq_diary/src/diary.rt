//! A diary in a file.

ghost use Rattle.nq_diary.specs.declared.notes.Noted.{Noted};
ghost use Rattle.std.specs.Prelude.{◌≡◌, false, is_some, IfOk};

use crate::notes::{Noted, note};
use nq_base::{Entry, Journal};
use nq_io::streams::StdSink;
use std::fs::{File, OpenOptions};
use std::io;
use std::marker::Model;

/// A diary in a file, or none: then nothing is noted. Contracts see whether there is one.
#[derive(Drop)]
pub struct Diary {
    rt: HostRuntime,
    file: Option<StdSink<File>>,
}

impl Model for Diary {
    ghost use Rattle.std.specs.Prelude.{Bool, is_some};

    ghost Value = { Bool };

    ghost view = { λ d. is_some d.file };
}

/// A file that grows at its end, which is made where it is not there.
fn open_at_end(rt: &HostRuntime, path: &str) -> io::Result<File> {
    OpenOptions::new().append(true).create(true).open(rt, path)
}

impl Diary {
    /// The diary at this path, if one is told. What stands in the file stays, and notes come behind it.
    ///
    /// # Errors
    ///
    /// That of the machine where the file cannot be opened.
    pub fn open(rt: &HostRuntime, path: Option<&str>) -> io::Result<Diary>
        ensures { IfOk result (λ diary. diary ≡ is_some path.entry) }
    {
        let file = match path {
            Some(path) => Some(StdSink::new(open_at_end(rt, path)?)),
            None => None,
        };
        Ok(Diary {
            rt: rt.clone()?,
            file,
        })
    }

    /// Notes the entries of a turn now, all of them in one piece, before it returns.
    pub fn note(&mut self, log: &Journal) -> Noted
        ensures same { self.new ≡ self.old }
        ensures none { self.old ≡ false → result ≡ Noted.All }
    {
        match &mut self.file {
            Some(file) => note(self.rt.alloc(), &self.rt, log, file),
            None => Noted::All,
        }
    }

    /// Notes one entry now.
    pub fn note_one(&mut self, entry: Entry) -> Noted
        ensures same { self.new ≡ self.old }
    {
        let mut log = Journal::new(self.rt.alloc()).unwrap();
        match log.push(entry) {
            Ok(()) => self.note(&log),
            Err(_) => Noted::Memory,
        }
    }
}
