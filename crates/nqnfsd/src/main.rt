//! The program `nqnfsd`: a server to leave running. It serves real hosts over UDP, over an image in a file, until it is
//! killed, which is safe at any moment. Where there is no image it makes one.
#![tactic(auto)]

ghost use Rattle.std.specs.Prelude.{◌≡◌};
ghost use Rattle.nqnfsd.specs.Statuses.{EndsAt, EndsOrder, EndsOver, IsSaid, ServedFile, file_at};

mod memory;
mod places;
mod serving;
mod words;

use crate::memory::Resident;
use crate::places::{Places, places_of};
use crate::serving::{Parts, Teller, parts_of, serve_disk};
use crate::words::{Options, Order, order_of};
use nq_base::ending::Ending;
use nq_diary::Diary;
use nq_io::streams::StdSink;
use nq_serving::traffic::Report;
use nq_words::{Unread, Wrong, args_of};
use std::io;
use std::process::ExitCode;

// What `--version` says.
const VERSION: &str = "nqnfsd 1\n";

// Which words there are.
const USAGE: &str =
    "nqnfsd [IMAGE] [--longest N] [--every S] [--hosts FILE] [--listen ADDRESS:PORT] [--journal FILE]";

const HELP: &str =
    "nqnfsd [IMAGE] [--longest N] [--every S] [--hosts FILE] [--listen ADDRESS:PORT] [--journal FILE]

Serves hosts over UDP until it is killed: those of this machine at port 20560 of 127.0.0.1, or those that FILE lists.

IMAGE           the file with all that is kept; nqnfs.img where it is not said.
                A file that is not there, or is empty, becomes an empty image.
--longest N     the longest lease in seconds, 5 to 600; 60 where it is not said
--every S       prints a line of counts every S seconds
--hosts FILE    where the parties are: lines `server ADDRESS:PORT` and `HOST ADDRESS:PORT`
--listen A:PORT listens there, in place of the server's address in FILE
--journal FILE  appends what each turn did, and when, to FILE
--help          prints this
--version       prints the version
";

fn main(rt: HostRuntime) -> ExitCode {
    let end = match args_of(&rt) {
        Ok(words) => obey(&rt, order_of(words.as_slice())),
        Err(Unread::Memory) => Ending::Memory,
        Err(Unread::NoText) => {
            let _told = eprintln!(&rt; "nqnfsd: a word is no text: its bytes are no UTF-8");
            Ending::Usage
        }
    };
    ExitCode::from(end.status())
}

/// Does what is to be done; how the program ends.
fn obey(rt: &HostRuntime, order: Result<Order<'_>, Wrong<'_>>) -> Ending
    ensures ends { EndsOrder order.entry result }
{
    match order {
        Ok(Order::Serve(options)) => serve_at(rt, options),
        Ok(Order::Help) => say(rt, HELP),
        Ok(Order::Version) => say(rt, VERSION),
        Err(wrong) => {
            let _told = eprintln!(rt; "nqnfsd: {wrong}; usage: {USAGE}");
            Ending::Usage
        }
    }
}

/// Serves, if the files that the options name can be read and written; how the program ends.
fn serve_at(rt: &HostRuntime, options: Options<'_>) -> Ending
    ensures ends { EndsAt options.entry result }
{
    match places_of(rt, options.hosts, options.journal) {
        Ok(places) => serve(rt, options.image, places, options),
        Err(end) => end,
    }
}

/// Serves over an image, if the machine gives what that needs; how the program ends.
fn serve(rt: &HostRuntime, image: &str, places: Places, options: Options<'_>) -> Ending
    ensures ends { EndsOver image.now result }
{
    let Places { book, diary } = places;
    match parts_of(rt, image, book, options.listen) {
        Ok(parts) => serve_with(rt, image, parts, diary, options),
        Err(end) => end,
    }
}

/// Serves over an image with these parts of the machine; how the program ends.
fn serve_with(
    rt: &HostRuntime,
    image: &str,
    parts: Parts,
    diary: Diary,
    options: Options<'_>,
) -> Ending
    requires file { parts.disk ≡ file_at image.now }
    ensures ends { ServedFile image.now result }
{
    let Parts {
        disk,
        link,
        clock,
        address,
    } = parts;
    let (mut link, mut clock) = (link, clock);
    let longest = options.longest.clamp(5, 600);
    let mut teller = Teller {
        rt,
        image,
        address,
        longest,
        diary,
        has_complained: false,
        report: Report::new(
            rt.alloc(),
            StdSink::new(io::writer(rt)),
            Resident::new(rt),
            options.every,
        ),
    };
    let ended = serve_disk(rt, image, disk, longest, &mut link, &mut clock, &mut teller);
    ended.end
}

/// Prints a text.
fn say(rt: &HostRuntime, text: &str) -> Ending
    ensures { IsSaid result }
{
    match print!(rt; "{text}") {
        Ok(()) => Ending::Done,
        Err(_) => Ending::WriteFault,
    }
}
