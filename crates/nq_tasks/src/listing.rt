//! A list of names that a host asks for, page by page.

ghost use Rattle.std.specs.Prelude.{◌≡◌, ◌++◌, [], None, IfOk, OnOk, OnErr};
ghost use Rattle.nq_directory.specs.Asking.{last_id};
ghost use Rattle.nq_directory.specs.Lent.{answer_of};
ghost use Rattle.nq_directory.specs.Messages.{read_dir_bytes};
ghost use Rattle.nq_tasks.specs.Listing.{asked_for, begun, heard, is_due, is_hidden, is_shown, line_of, lines_of, request_of, taken, turned};

use nq_base::{FileId, NoMemory, Who};
use nq_directory::listing::{Page, PageTold, ReadDir, read_dir_bytes, read_told};
use nq_directory::{FileName, Prefix};
use nq_script::words::{push_bytes, push_digits};
use std::alloc::Global;
use std::marker::Model;
use std::mem;

/// After how many ticks a page is asked for again.
const AGAIN: u64 = 2;

/// What came of a datagram.
#[derive(Clone, Copy)]
pub enum Listed {
    /// The list goes on.
    Goes,
    /// The server recovers, so the list goes on later.
    Later,
    /// The list is whole.
    Whole,
}

/// A request for a page: its number, and when it was sent.
#[derive(Clone, Copy)]
pub(crate) struct AskedPage {
    number: u32,
    sent: u64,
}

/// A list under way. Its pages are not of one moment: a file that is made or removed meanwhile may stand in it or not.
#[derive(Drop)]
pub struct Listing {
    prefix: Prefix,
    after: FileId,
    asked: Option<AskedPage>,
    lines: Vec<u8>,
}

impl Model for Listing {
    ghost use Rattle.nq_tasks.specs.Listing.{Lists};

    ghost Value = { Lists };

    ghost view = { λ l. record { prefix = l.prefix; after = l.after; asked = l.asked; lines = l.lines.items } };
}

/// Whether the file of a name has the bytes of a whole one.
fn is_hidden(name: &[u8]) -> bool
    ensures { result ≡ is_hidden name.now }
{
    match name {
        [first, ..] => *first == b'~',
        [] => false,
    }
}

/// Whether a file is told in a list of the names that begin so.
fn is_shown(prefix: &Prefix, entry: &FileName) -> bool
    ensures { result ≡ is_shown prefix.now entry.now }
{
    is_hidden(prefix.as_bytes()) || !is_hidden(entry.name.as_bytes())
}

/// Adds the line of a file, where it is told.
#[tactic(auto, unfolding(crate::specs::Listing::line_of))]
fn push_line(lines: &mut Vec<u8>, prefix: &Prefix, entry: &FileName) -> Result<(), NoMemory>
    ensures { OnOk result (lines.new.items ≡ lines.old.items ++ line_of prefix.now entry.now) }
{
    if !is_shown(prefix, entry) {
        return Ok(());
    }
    push_bytes(lines, entry.name.as_bytes())?;
    lines.push(b' ')?;
    push_digits(lines, u64::from(entry.file.0))?;
    lines.push(b'\n')?;
    Ok(())
}

/// The lines of files.
fn lines_of(alloc: Global, prefix: &Prefix, names: &[FileName]) -> Result<Vec<u8>, NoMemory>
    ensures { IfOk result (λ text. text.items ≡ lines_of prefix.now names.now) }
{
    let mut text = Vec::new(alloc);
    for entry in names {
        push_line(&mut text, prefix, entry)?;
    }
    Ok(text)
}

/// The file behind which the list goes on.
fn last_id(after: FileId, names: &[FileName]) -> FileId
    ensures { result ≡ last_id after names.now }
{
    match names.last() {
        Some(entry) => entry.file,
        None => after,
    }
}

impl Listing {
    /// The list of the names that begin so, of which nothing came yet.
    pub fn new(alloc: Global, prefix: Prefix) -> Listing
        ensures { result ≡ begun prefix 0 }
    {
        Listing {
            prefix,
            after: FileId(0),
            asked: None,
            lines: Vec::new(alloc),
        }
    }

    /// A list that has no file: only whether the server recovers comes of it.
    pub fn probe(alloc: Global) -> Listing
        ensures { result ≡ begun [] 4294967295 }
    {
        Listing {
            prefix: Prefix::new(b"").unwrap(),
            after: FileId(u32::MAX),
            asked: None,
            lines: Vec::new(alloc),
        }
    }

    /// Whether the next page is to be asked for, now or again.
    pub fn is_due(&self, now: u64) -> bool
        ensures { result ≡ is_due now self.now.asked }
    {
        match &self.asked {
            Some(asked) => now.saturating_sub(asked.sent) >= AGAIN,
            None => true,
        }
    }

    /// Asks for the next page by a request of this number: its bytes.
    ///
    /// # Errors
    ///
    /// Only want of memory; then nothing was asked.
    pub fn ask(
        &mut self,
        alloc: Global,
        who: Who,
        number: u32,
        now: u64,
    ) -> Result<Vec<u8>, NoMemory>
        ensures bytes { IfOk result (λ bytes. bytes.items ≡ read_dir_bytes (request_of who number self.old)) }
        ensures asked { OnOk result (self.new ≡ asked_for number now self.old) }
        ensures err { OnErr result (self.new ≡ self.old) }
    {
        let request = ReadDir {
            xid: number,
            who,
            prefix: self.prefix,
            after: self.after,
            term: 0,
        };
        let bytes = read_dir_bytes(alloc, &request)?;
        self.asked = Some(AskedPage { number, sent: now });
        Ok(bytes)
    }

    /// Takes a datagram of the server, which may be the page that was asked for.
    ///
    /// # Errors
    ///
    /// Only want of memory; then the list can not go on.
    pub fn take_page(
        &mut self,
        alloc: Global,
        who: Who,
        datagram: &[u8],
    ) -> Result<Listed, NoMemory>
        ensures { IfOk result (λ said. taken who datagram.now self.old ≡ record { said = said; lists = self.new }) }
    {
        let Some(asked) = self.asked else {
            return Ok(Listed::Goes);
        };
        match read_told(alloc, asked.number, who.inc.0, datagram)? {
            Some(told) => self.hear(alloc, &told),
            None => Ok(Listed::Goes),
        }
    }

    /// Takes the answer to the request.
    fn hear(&mut self, alloc: Global, told: &PageTold) -> Result<Listed, NoMemory>
        ensures { IfOk result (λ said. heard (answer_of told.now) self.old ≡ record { said = said; lists = self.new }) }
    {
        match told {
            PageTold::Page(page) => self.turn(alloc, page),
            PageTold::Later => Ok(Listed::Later),
        }
    }

    /// Takes a page: the next one is due, if there is one.
    fn turn(&mut self, alloc: Global, page: &Page) -> Result<Listed, NoMemory>
        ensures { IfOk result (λ said. turned page.now.names.items page.now.more self.old ≡ record { said = said; lists = self.new }) }
    {
        let names = page.names.as_slice();
        let lines = lines_of(alloc, &self.prefix, names)?;
        push_bytes(&mut self.lines, &lines)?;
        self.after = last_id(self.after, names);
        self.asked = None;
        if page.more && !names.is_empty() {
            Ok(Listed::Goes)
        } else {
            Ok(Listed::Whole)
        }
    }

    /// Takes the lines out: each has a name and the number of its file.
    pub fn take_lines(&mut self, alloc: Global) -> Vec<u8>
        ensures { result.items ≡ self.old.lines }
    {
        mem::replace(&mut self.lines, Vec::new(alloc))
    }
}
