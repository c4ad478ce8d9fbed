//! What stores have made: a file of lines, each with the name of a file that was made for bytes and the name under which they are stored.

use crate::starts::replace_file;
use nq_base::Name;
use nq_script::words::{WordCursor, cut};
use nq_tasks::Made;
use std::alloc::{AllocError, Global};
use std::fs;
use std::io::ErrorKind;

/// The list of a host, in its folder. It has a line for each name under which this host has stored a file. Where it stores another one under the
/// name, it first looks whether the one before is gone.
#[derive(Drop)]
pub(crate) struct Ledger {
    rt: HostRuntime,
    alloc: Global,
    folder: String,
    kept: Vec<u8>,
    left: Vec<u8>,
    /// Whether the list is another one than that in the folder.
    is_changed: bool,
}

/// What a line tells.
fn made_in(line: &[u8]) -> Option<Made> {
    let mut words = WordCursor::new(line);
    let own = words.name()?;
    let name = words.name()?;
    Some(Made { own, name })
}

/// Adds a line.
fn push_made(text: &mut Vec<u8>, made: &Made) -> Result<(), AllocError> {
    text.extend_from_slice(made.own.as_bytes())?;
    text.push(b' ')?;
    text.extend_from_slice(made.name.as_bytes())?;
    text.push(b'\n')?;
    Ok(())
}

/// Puts the lines of a text behind one of two others: those with this name behind the first.
fn part(
    text: &[u8],
    name: &Name,
    same: &mut Vec<u8>,
    others: &mut Vec<u8>,
) -> Result<(), AllocError> {
    let mut rest = text;
    for _line in 0..text.len() {
        let Some((line, behind)) = cut(rest, b'\n') else {
            return Ok(());
        };
        rest = behind;
        if let Some(made) = made_in(line) {
            if made.name.is(name) {
                push_made(same, &made)?;
            } else {
                push_made(others, &made)?;
            }
        }
    }
    Ok(())
}

impl Ledger {
    /// The list in a folder. What earlier incarnations made is left to be looked after. None where it cannot be read.
    pub(crate) fn open(rt: &HostRuntime, folder: &str) -> Option<Ledger> {
        let alloc = rt.alloc();
        let Ok(path) = format!(in alloc; "{folder}/made") else {
            return None;
        };
        let left = match fs::read(rt, path.as_str()) {
            Ok(text) => text,
            Err(error) if error.kind() == ErrorKind::NotFound => Vec::new(alloc),
            Err(_) => return None,
        };
        let Ok(own) = rt.clone() else {
            return None;
        };
        let Ok(folder) = format!(in alloc; "{folder}") else {
            return None;
        };
        Some(Ledger {
            rt: own,
            alloc,
            folder,
            kept: Vec::new(alloc),
            left,
            is_changed: false,
        })
    }

    /// The next one that has to be looked after. It is off the list, unless it is kept again.
    pub(crate) fn next_left(&mut self) -> Option<Made> {
        let (line, rest) = cut(&self.left, b'\n')?;
        let made = made_in(line);
        let Ok(rest) = rest.to_vec(self.alloc) else {
            return None;
        };
        self.left = rest;
        made
    }

    /// Adds one, and writes the list down. Those of the same name before it are to be looked after. Whether that went well.
    pub(crate) fn add(&mut self, made: &Made) -> bool {
        self.doubt(&made.name) && self.keep(made)
    }

    /// Has those of a name looked after. Whether there was memory for it.
    pub(crate) fn doubt(&mut self, name: &Name) -> bool {
        let mut others = Vec::new(self.alloc);
        if part(&self.kept, name, &mut self.left, &mut others).is_err() {
            return false;
        }
        self.kept = others;
        true
    }

    /// Has all of them looked after. Whether there was memory for it.
    pub(crate) fn doubt_all(&mut self) -> bool {
        if self.left.extend_from_slice(&self.kept).is_err() {
            return false;
        }
        self.kept.clear();
        true
    }

    /// Has the one looked after that was not looked after for the longest time, if there is one. Whether there was memory for it.
    pub(crate) fn doubt_oldest(&mut self) -> bool {
        let Some((line, rest)) = cut(&self.kept, b'\n') else {
            return true;
        };
        let (Some(made), Ok(rest)) = (made_in(line), rest.to_vec(self.alloc)) else {
            return false;
        };
        if push_made(&mut self.left, &made).is_err() {
            return false;
        }
        self.kept = rest;
        true
    }

    /// One was looked after: it is kept again, if it is told. Once none is left the list is written down, where it has changed. Whether that
    /// went well.
    pub(crate) fn looked_after(&mut self, made: Option<Made>) -> bool {
        let kept = match &made {
            Some(made) => push_made(&mut self.kept, made).is_ok(),
            None => {
                self.is_changed = true;
                true
            }
        };
        kept && (!self.left.is_empty() || !self.is_changed || self.put_down())
    }

    /// Keeps one, and writes the list down. Whether that went well.
    fn keep(&mut self, made: &Made) -> bool {
        push_made(&mut self.kept, made).is_ok() && self.put_down()
    }

    /// Writes the list down. Whether that went well.
    fn put_down(&mut self) -> bool {
        let folder = self.folder.as_str();
        let Ok(path) = format!(in self.alloc; "{folder}/made") else {
            return false;
        };
        let Ok(mut all) = self.left.clone() else {
            return false;
        };
        if all.extend_from_slice(&self.kept).is_err() {
            return false;
        }
        let went = replace_file(&self.rt, folder, path.as_str(), &all).is_ok();
        self.is_changed = !went;
        went
    }
}
