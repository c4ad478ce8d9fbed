//! The program `nqnfs_host`: a host that lives until it is told to end. Whoever may use its socket asks it.
#![tactic(auto)]

mod askers;
mod beginning;
mod door;
mod ends;
mod hosting;
mod ledger;
mod link;
mod notes;
mod starts;
mod words;

use crate::beginning::{begin, begin_again};
use crate::door::Door;
use crate::ends::ends_in;
use crate::hosting::Hosting;
use crate::ledger::Ledger;
use crate::link::HostLink;
use crate::notes::Notes;
use crate::starts::{NoStart, let_second_pass, next_inc, pause};
use crate::words::{Files, Order, order_of};
use mio::net::UnixListener;
use nq_base::ending::{Ending, Fault};
use nq_base::{Host, Inc, Who};
use nq_book::book_in;
use nq_client::Client;
use nq_clock::StdClock;
use nq_diary::Diary;
use nq_living::{End, Host as Living, hear};
use nq_udp::Book;
use nq_words::{Unread, args_of};
use std::fs::{self, DirBuilder, Permissions};
use std::io::{self, ErrorKind};
use std::net::SocketAddr;
use std::os::unix::fs::{DirBuilderExt, PermissionsExt};
use std::process::ExitCode;

// What `--version` says.
const VERSION: &str = "nqnfs_host 1";

// Which words there are.
const USAGE: &str = "nqnfs_host HOST [--hosts FILE] [--journal FILE]";

const HELP: &str = "nqnfs_host HOST [--hosts FILE] [--journal FILE]

Is host HOST, 0 to 63, of the server on this machine, or of that in FILE, until `nqnfs_user HOST end` or a signal ends it.
The folder nqnfs-HOST, which it makes in this one, has its socket and its incarnation. Only this user may ask it.

--hosts FILE    where the parties are: lines `server ADDRESS:PORT` and `HOST ADDRESS:PORT`
--journal FILE  appends what each turn did, and when, to FILE
--help          prints this
--version       prints the version
";

/// How often it is looked at most whether the leases are given back.
const FAREWELL: u32 = 400;

fn main(rt: HostRuntime) -> ExitCode {
    ExitCode::from(obey(&rt).status())
}

/// Does what the words behind the program's name say; how that ends.
fn obey(rt: &HostRuntime) -> Ending {
    let words = match args_of(rt) {
        Ok(words) => words,
        Err(Unread::Memory) => return told_memory(rt),
        Err(Unread::NoText) => return told(
            rt,
            Ending::Usage,
            "a word is no text: its bytes are no UTF-8",
        ),
    };
    match order_of(words.as_slice()) {
        Ok(Order::Be { host, files }) => be_host(rt, Host(host), files),
        Ok(Order::Help) => {
            let _told = print!(rt; "{HELP}");
            Ending::Done
        }
        Ok(Order::Version) => {
            let _told = println!(rt; "{VERSION}");
            Ending::Done
        }
        Err(wrong) => {
            let _told = eprintln!(rt; "nqnfs_host: {wrong}; usage: {USAGE}");
            Ending::Usage
        }
    }
}

/// Is this host.
fn be_host(rt: &HostRuntime, host: Host, files: Files<'_>) -> Ending {
    match line_of(rt, host, files) {
        Ok((link, diary)) => begin_host(rt, host, link, diary),
        Err(ending) => ending,
    }
}

/// The link of a host and its diary, or how the program ends without them, which was said.
fn line_of(rt: &HostRuntime, host: Host, files: Files<'_>) -> Result<(HostLink, Diary), Ending> {
    let (home, server) = ends_of(rt, host, files.hosts)?;
    let Ok(diary) = Diary::open(rt, files.journal) else {
        return Err(told(
            rt,
            Ending::Usage,
            "the file of the journal cannot be opened",
        ));
    };
    match HostLink::bind(rt, home, server, files.journal.is_some()) {
        Ok(link) => Ok((link, diary)),
        Err(error) => Err(told_port(rt, host.0, &error)),
    }
}

/// The addresses of a host and of the server, or how the program ends without them, which was said.
fn ends_of(
    rt: &HostRuntime,
    host: Host,
    hosts: Option<&str>,
) -> Result<(SocketAddr, SocketAddr), Ending> {
    let book = match hosts {
        Some(path) => book_at(rt, path)?,
        None => Book::local(),
    };
    match ends_in(&book, host.0) {
        Some(ends) => Ok(ends),
        None => Err(told(
            rt,
            Ending::Usage,
            "the book has to list the host and the server",
        )),
    }
}

/// The book in a file, or how the program ends without it, which was said.
fn book_at(rt: &HostRuntime, path: &str) -> Result<Book, Ending> {
    let Ok(text) = fs::read(rt, path) else {
        return Err(told(rt, Ending::Usage, "the address book cannot be read"));
    };
    match book_in(&text) {
        Ok(book) => Ok(book),
        Err(bad) => {
            let (number, why) = (bad.number, bad.why.words());
            let _told = eprintln!(rt; "nqnfs_host: {path}: line {number}: {why}");
            Err(Ending::Usage)
        }
    }
}

/// Begins as this host over its link.
fn begin_host(rt: &HostRuntime, host: Host, link: HostLink, diary: Diary) -> Ending {
    let number = host.0;
    let Ok(folder) = format!(in rt.alloc(); "nqnfs-{number}") else {
        return Ending::Memory;
    };
    if make_folder(rt, folder.as_str()).is_err() {
        let _told = eprintln!(rt; "nqnfs_host: the folder {folder} cannot be made");
        return Ending::KeepFault;
    }
    let_second_pass(rt);
    let inc = match next_inc(rt, folder.as_str()) {
        Ok(inc) => inc,
        Err(why) => return told_start(rt, folder.as_str(), why),
    };
    match open_door(rt, folder.as_str()) {
        Ok(door) => live(rt, folder.as_str(), Who { host, inc }, link, diary, door),
        Err(_) => {
            let _told = eprintln!(rt; "nqnfs_host: the socket {folder}/asks cannot be made");
            Ending::LinkFault
        }
    }
}

/// Tells why there is no next incarnation.
fn told_start(rt: &HostRuntime, folder: &str, why: NoStart) -> Ending {
    let words = match why {
        NoStart::Memory => return told_memory(rt),
        NoStart::Read => "cannot be read",
        NoStart::Number => "holds no number of a start, or the last one that there is",
        NoStart::Full => "cannot be written: the disk is full",
        NoStart::Write => "cannot be written",
    };
    let _told = eprintln!(rt; "nqnfs_host: the file {folder}/incarnation {words}");
    Ending::KeepFault
}

/// Tells that memory was wanting.
fn told_memory(rt: &HostRuntime) -> Ending {
    let _told = eprintln!(rt; "nqnfs_host: memory was wanting");
    Ending::Memory
}

/// Tells that a port cannot be bound.
fn told_port(rt: &HostRuntime, number: u32, error: &io::Error) -> Ending {
    let _told = match error.kind() {
        ErrorKind::AddrInUse => eprintln!(rt;
            "nqnfs_host: host {number} runs already: its port is taken"
        ),
        _ => eprintln!(rt; "nqnfs_host: the port of host {number} cannot be bound"),
    };
    Ending::LinkFault
}

/// Makes the folder of a host, if it is not there, and sees to it that it is for its user alone.
fn make_folder(rt: &HostRuntime, folder: &str) -> io::Result<()> {
    let mut maker = DirBuilder::new();
    maker.mode(0o700);
    if let Err(error) = maker.create(rt, folder) {
        if error.kind() != ErrorKind::AlreadyExists {
            return Err(error);
        }
    }
    fs::set_permissions(rt, folder, Permissions::from_mode(0o700))
}

/// Makes the socket that askers connect to, in place of one that is left there.
fn open_door(rt: &HostRuntime, folder: &str) -> io::Result<UnixListener> {
    let path = format!(in rt.alloc(); "{folder}/asks")?;
    let _gone = fs::remove_file(rt, path.as_str());
    let door = UnixListener::bind(rt, path.as_str())?;
    fs::set_permissions(rt, path.as_str(), Permissions::from_mode(0o600))?;
    Ok(door)
}

/// Lives until it is told to end.
fn live(
    rt: &HostRuntime,
    folder: &str,
    who: Who,
    link: HostLink,
    diary: Diary,
    door: UnixListener,
) -> Ending {
    let mut link = link;
    let (host, inc) = (who.host, who.inc);
    match hosting_of(rt, folder, who, &mut link, diary, door) {
        Ok(mut hosting) => live_with(rt, folder, Who { host, inc }, &mut link, &mut hosting),
        Err(ending) => ending,
    }
}

/// What a host works with, or how the program ends without it, which was said.
fn hosting_of(
    rt: &HostRuntime,
    folder: &str,
    who: Who,
    link: &mut HostLink,
    diary: Diary,
    door: UnixListener,
) -> Result<Hosting, Ending> {
    let ledger = ledger_of(rt, folder)?;
    let notes = notes_of(rt, diary)?;
    let Ok(door) = Door::open(rt, link, door) else {
        return Err(told(rt, Ending::LinkFault, "its sockets cannot be waited for"));
    };
    match rt.clone() {
        Ok(asked) => Ok(Hosting::new(asked, who, door, notes, ledger)),
        Err(_) => Err(told_memory(rt)),
    }
}

/// The ledger of a host, or how the program ends without it, which was said.
fn ledger_of(rt: &HostRuntime, folder: &str) -> Result<Ledger, Ending> {
    match Ledger::open(rt, folder) {
        Some(ledger) => Ok(ledger),
        None => {
            let _told = eprintln!(rt; "nqnfs_host: the file {folder}/made cannot be read");
            Err(Ending::KeepFault)
        }
    }
}

/// What notes turns in a diary, or how the program ends without it, which was said.
fn notes_of(rt: &HostRuntime, diary: Diary) -> Result<Notes, Ending> {
    match rt.clone() {
        Ok(noting) => Ok(Notes::new(noting, diary)),
        Err(_) => Err(told_memory(rt)),
    }
}

/// Begins, works until it is told to end, and gives the leases back.
fn live_with(
    rt: &HostRuntime,
    folder: &str,
    who: Who,
    link: &mut HostLink,
    hosting: &mut Hosting,
) -> Ending {
    let Ok(watch) = rt.clone() else {
        return told_memory(rt);
    };
    let mut clock = StdClock::new(watch);
    match begin(rt.alloc(), who, link, &mut clock, hosting) {
        Some(client) => {
            tell_begun(rt, folder, client.who());
            attend(rt, folder, client, link, &mut clock, hosting)
        }
        None => told_memory(rt),
    }
}

/// Tells that a host has begun, and where it is asked.
fn tell_begun(rt: &HostRuntime, folder: &str, who: Who) {
    let (number, inc) = (who.host.0, who.inc.0);
    let _told = println!(rt;
        "nqnfs_host 1: host {number}, incarnation {inc}, asked at {folder}/asks"
    );
}

/// Works, and gives the leases back in the end.
fn attend(
    rt: &HostRuntime,
    folder: &str,
    client: Client,
    link: &mut HostLink,
    clock: &mut StdClock<HostRuntime>,
    hosting: &mut Hosting,
) -> Ending {
    let mut host = Living {
        client,
        next: 0,
        halt: None,
    };
    let end = nq_living::live(rt.alloc(), &mut host, link, clock, hosting, u64::MAX);
    let ending = match host.halt {
        Some(Fault::Memory) => told_memory(rt),
        Some(_) => told(
            rt,
            Ending::Limit,
            "a start takes in no more; begin another one",
        ),
        None => told_end(rt, end, hosting),
    };
    if host.client.dirty().pending() > 0 {
        let _lost = told(rt, ending, "delayed writes that were not stored are lost");
    }
    if !give_back(rt, folder, &mut host, link, clock, hosting) {
        let _told = told(
            rt,
            ending,
            "its leases run on, so others may wait for 38 seconds",
        );
    }
    let Living {
        client,
        next: _,
        halt: _,
    } = host;
    client.stop();
    ending
}

/// How the program ends where its client could be asked still.
fn told_end(rt: &HostRuntime, end: End, hosting: &Hosting) -> Ending {
    match end {
        End::Deaf if hosting.notes.is_lacking => told_memory(rt),
        End::Deaf => told(rt, Ending::LinkFault, "its sockets cannot be waited for"),
        End::Told | End::Halted | End::Rounds => Ending::Done,
    }
}

/// Tells words on a line, and ends so.
fn told(rt: &HostRuntime, ending: Ending, words: &str) -> Ending {
    let _told = eprintln!(rt; "nqnfs_host: {words}");
    ending
}

/// Gives all leases back: the host begins one incarnation more, and the server ends the leases of those before as it attaches it. Whether
/// it did.
fn give_back(
    rt: &HostRuntime,
    folder: &str,
    host: &mut Living,
    link: &mut HostLink,
    clock: &mut StdClock<HostRuntime>,
    hosting: &mut Hosting,
) -> bool {
    let number = host.client.who().host.0;
    let Ok(inc) = next_inc(rt, folder) else {
        return false;
    };
    let who = Who {
        host: Host(number),
        inc,
    };
    if !begin_again(rt.alloc(), who, host, link, clock, hosting) {
        return false;
    }
    for _look in 0..FAREWELL {
        hear(rt.alloc(), host, link, clock, hosting);
        if host.client.is_attached() && host.client.call_under_way().is_none() {
            return true;
        }
        pause(rt);
    }
    false
}
