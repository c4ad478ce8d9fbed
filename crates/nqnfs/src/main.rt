//! The program `nqnfs`: runs what its words say, over the standard input and output, and ends with the status of the
//! run. `nqnfs replay` reads a schedule and prints its journal. `nqnfs storm` makes a schedule up and runs it. `nqnfs serve` and
//! `nqnfs client` are real hosts, over UDP, and `nqnfs loop` is a server and its hosts in turns. A server keeps its files in the
//! file `nqnfs.img`, which `nqnfs format` makes an empty image. A run of `replay`, `storm` or `loop` has a disk in memory, so that it
//! touches no file. What a command gets of the machine is said by `nq_run`; here it is made.
#![tactic(auto)]

mod machine;
mod top;

use nq_run::{NoMemory, exit_status, words_of};
use std::env;
use std::io::ErrorKind;
use std::process::ExitCode;

fn main(rt: HostRuntime) -> ExitCode {
    ExitCode::from(exit_status(run_words(&rt)))
}

/// Runs what the words behind the program's name say; the status.
fn run_words(rt: &HostRuntime) -> Result<u8, NoMemory> {
    let args = args_of(rt)?;
    let words = words_of(rt.alloc(), args.as_slice())?;
    machine::run(rt, &words)
}

/// The words that the program was started with; none where one of them is not UTF-8.
fn args_of(rt: &HostRuntime) -> Result<Vec<String>, NoMemory> {
    let mut words = Vec::new(rt.alloc());
    match env::args(rt) {
        Ok(args) => {
            for word in args {
                words.push(word)?;
            }
        }
        Err(error) if error.kind() == ErrorKind::OutOfMemory => return Err(NoMemory::Memory),
        Err(_) => {}
    }
    Ok(words)
}
