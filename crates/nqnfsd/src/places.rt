//! The files beside the image: the address book and the diary.

ghost use Rattle.nqnfsd.specs.Statuses.{IsWithoutFiles};
ghost use Rattle.std.specs.Prelude.{◌≢◌, ◌⊎◌, IfErr, None};

use nq_base::ending::Ending;
use nq_book::book_in;
use nq_diary::Diary;
use nq_udp::Book;
use std::fs;

/// Where the parties are, and what is noted of turns.
#[derive(Drop)]
pub(crate) struct Places {
    pub(crate) book: Book,
    pub(crate) diary: Diary,
}

/// The book and the diary in these files; where none is named, the book of this machine, and no diary. Else how the program ends without them.
pub(crate) fn places_of(
    rt: &HostRuntime,
    hosts: Option<&str>,
    journal: Option<&str>,
) -> Result<Places, Ending>
    ensures { IfErr result (λ end. IsWithoutFiles ((hosts.entry ≢ None) ⊎ (journal.entry ≢ None)) end) }
{
    let book = match hosts {
        Some(path) => match book_at(rt, path) {
            Some(book) => book,
            None => return Err(Ending::Usage),
        },
        None => Book::local(),
    };
    match Diary::open(rt, journal) {
        Ok(diary) => Ok(Places { book, diary }),
        Err(_) => Err(without_diary(rt, journal)),
    }
}

/// How the program ends where the diary cannot be opened; where a file is named, this says so.
fn without_diary(rt: &HostRuntime, journal: Option<&str>) -> Ending
    ensures { IsWithoutFiles (journal.entry ≢ None) result }
{
    match journal {
        Some(path) => {
            let _told = eprintln!(rt; "nqnfsd: {path} cannot be opened for a journal");
            Ending::Usage
        }
        None => Ending::Memory,
    }
}

/// The book in a file. None where there is none, which was said.
fn book_at(rt: &HostRuntime, path: &str) -> Option<Book> {
    let Ok(text) = fs::read(rt, path) else {
        let _told = eprintln!(rt; "nqnfsd: {path} cannot be read");
        return None;
    };
    match book_in(&text) {
        Ok(book) => Some(book),
        Err(bad) => {
            let (number, why) = (bad.number, bad.why.words());
            let _told = eprintln!(rt; "nqnfsd: {path}: line {number}: {why}");
            None
        }
    }
}
