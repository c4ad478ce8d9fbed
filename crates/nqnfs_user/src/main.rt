//! The program `nqnfs_user`: asks a host on this machine, line by line at a prompt, or once.
#![tactic(auto)]

mod asking;
mod prompting;
mod words;

use crate::asking::Asking;
use crate::prompting::{Did, serve_line, serve_lines};
use crate::words::{Order, order_of};
use nq_base::ending::Ending;
use nq_words::{Unread, args_of};
use std::process::ExitCode;

// What `--version` says.
const VERSION: &str = "nqnfs_user 2";

// Which words there are.
const USAGE: &str = "nqnfs_user HOST [COMMAND]";

const HELP: &str = "nqnfs_user HOST [COMMAND]

Asks host HOST, 0 to 63, which `nqnfs_host HOST` is in this folder. Reads lines and answers each; `help` tells which.
With a COMMAND it does that one line, and ends with status 0 where it was done, and 13 where it was refused.

--help       prints this
--version    prints the version
";

/// The status behind a command that was refused.
const REFUSED: u8 = 13;

fn main(rt: HostRuntime) -> ExitCode {
    ExitCode::from(obey(&rt))
}

/// Does what the words behind the program's name say; the status then.
fn obey(rt: &HostRuntime) -> u8 {
    let words = match args_of(rt) {
        Ok(words) => words,
        Err(Unread::Memory) => return Ending::Memory.status(),
        Err(Unread::NoText) => {
            let _told = eprintln!(rt; "nqnfs_user: a word is no text: its bytes are no UTF-8");
            return Ending::Usage.status();
        }
    };
    match order_of(rt.alloc(), words.as_slice()) {
        Ok(Order::Ask { host, line }) => ask_host(rt, host, line.as_str()),
        Ok(Order::Help) => {
            let _told = print!(rt; "{HELP}");
            Ending::Done.status()
        }
        Ok(Order::Version) => {
            let _told = println!(rt; "{VERSION}");
            Ending::Done.status()
        }
        Ok(Order::Memory) => Ending::Memory.status(),
        Err(wrong) => {
            let _told = eprintln!(rt; "nqnfs_user: {wrong}; usage: {USAGE}");
            Ending::Usage.status()
        }
    }
}

/// Asks a host: one line, or all lines of the input where that one is empty.
fn ask_host(rt: &HostRuntime, host: u32, line: &str) -> u8 {
    let Ok(path) = format!(in rt.alloc(); "nqnfs-{host}/asks") else {
        return Ending::Memory.status();
    };
    let Ok(mut asking) = Asking::open(rt, path.as_str()) else {
        let _told = eprintln!(rt;
            "nqnfs_user: no host answers at {path}; `nqnfs_host {host}` in this folder begins it"
        );
        return Ending::LinkFault.status();
    };
    if line.is_empty() {
        return serve_lines(rt, &mut asking).status();
    }
    match serve_line(rt, &mut asking, line.as_bytes()) {
        Did::Done | Did::Quit => Ending::Done.status(),
        Did::Refused => REFUSED,
        Did::Wrong => Ending::Usage.status(),
        Did::Gone => Ending::LinkFault.status(),
    }
}
