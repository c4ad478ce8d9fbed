//! The program `nqnfs_lab`: a laboratory of schedules for a browser on this machine. It gives the files of a page, runs the
//! schedules that the page sends, and bends them.
#![tactic(auto)]

ghost use Rattle.nqnfs_lab.specs.Ends.{EndsOrder, IsSaid, IsServed};

mod answers;
mod desk;
mod files;
mod peers;
mod requests;
mod runs;
mod watch;
mod words;

use crate::desk::Desk;
use crate::files::file_of;
use crate::peers::{serve_all, serve_once};
use crate::words::{Options, Order, asked_of};
use nq_base::ending::Ending;
use nq_words::{Unread, Wrong, args_of};
use std::net::TcpListener;
use std::process::ExitCode;

// Which words there are.
const USAGE: &str = "nqnfs_lab [--port N] [--web FOLDER]";

const HELP: &str = "nqnfs_lab [--port N] [--web FOLDER]

Serves a laboratory of schedules at http://127.0.0.1:N/, to browsers on this machine alone, until it is stopped.
  --port N       1 to 65535; 8059 where nothing is said
  --web FOLDER   where the files of the page are; web where nothing is said
  --once         answers the requests on the standard input alone, on the standard output, and uses no port
  --help         prints this
  --version      prints the version
";

fn main(rt: HostRuntime) -> ExitCode {
    ExitCode::from(obey(&rt).status())
}

/// Does what the words behind the program's name say; how that ends.
fn obey(rt: &HostRuntime) -> Ending {
    let words = match args_of(rt) {
        Ok(words) => words,
        Err(Unread::Memory) => return Ending::Memory,
        Err(Unread::NoText) => {
            let _told = eprintln!(rt; "nqnfs_lab: a word is no text; usage: {USAGE}");
            return Ending::Usage;
        }
    };
    answer(rt, asked_of(words.as_slice()))
}

/// Does what is asked for; how that ends.
fn answer(rt: &HostRuntime, order: Result<Order<'_>, Wrong<'_>>) -> Ending
    ensures { EndsOrder order.entry result }
{
    match order {
        Ok(Order::Serve(options)) => serve(rt, options),
        Ok(Order::Once(options)) => once(rt, options),
        Ok(Order::Help) => say(rt, HELP),
        Ok(Order::Version) => say(rt, "nqnfs_lab 1\n"),
        Err(wrong) => {
            let _told = eprintln!(rt; "nqnfs_lab: {wrong}; usage: {USAGE}");
            Ending::Usage
        }
    }
}

/// Prints a text.
fn say(rt: &HostRuntime, text: &str) -> Ending
    ensures { IsSaid result }
{
    match print!(rt; "{text}") {
        Ok(()) => Ending::Done,
        Err(_) => Ending::WriteFault,
    }
}

/// Serves the page until the process is stopped.
fn serve(rt: &HostRuntime, options: Options<'_>) -> Ending
    ensures { IsServed result }
{
    let Options { port, web } = options;
    if file_of(rt, web, "/").is_none() {
        let _told = eprintln!(rt;
            "nqnfs_lab: {web}/index.html cannot be read; --web says where the files of the page are"
        );
        return Ending::ReadFault;
    }
    let Ok(listener) = TcpListener::bind(rt, ("127.0.0.1", port)) else {
        let _told = eprintln!(rt; "nqnfs_lab: port {port} is taken or cannot be bound");
        return Ending::LinkFault;
    };
    let _told = println!(rt; "http://127.0.0.1:{port}/");
    let mut desk = Desk::new(rt, port, web);
    match serve_all(rt, &listener, &mut desk) {
        Ok(()) => Ending::Done,
        Err(_) => Ending::LinkFault,
    }
}

/// Answers the requests on the standard input; how that ends.
fn once(rt: &HostRuntime, options: Options<'_>) -> Ending
    ensures { IsSaid result }
{
    let Options { port, web } = options;
    let mut desk = Desk::new(rt, port, web);
    match serve_once(rt, &mut desk) {
        Ok(()) => Ending::Done,
        Err(_) => Ending::WriteFault,
    }
}
