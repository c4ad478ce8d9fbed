//! Lines at the prompt, each answered at once.

use crate::asking::{Asking, HostAnswer};
use nq_asks::AnswerKind;
use nq_base::Name;
use nq_base::ending::Ending;
use nq_command::prompt::{PromptLine, Wrong, line_of, wrong_of};
use nq_script::words::{WordCursor, is};
use nq_whole::MOST_BYTES;
use std::fs::{self, File};
use std::io::{self, BufRead, BufReader, ErrorKind, Write};
use std::str;

/// The most lines that are read.
const MOST_LINES: u32 = u32::MAX;

// What is said where memory was wanting.
const NO_MEMORY: &str = "memory: memory was wanting";

// What is said where a path is no text.
const NO_TEXT: &str = "the path is no text: its bytes are no UTF-8";

// What is said of a word too many.
const MANY: &str =
    "there is a word too many; help tells what stands where, with one blank between two words";

// What is said of a prefix that no name has.
const LONG: &str = "no name begins so: it has at most 64 bytes";

/// The most bytes of a prefix.
const MOST_PREFIX: usize = 64;

const HELP: &str =
    "create NAME BLOCKS   make a file            lookup NAME         the number of a file
attr F               how long a file is     resize F BLOCKS     another length
read F B             read a block           fetch F B           read it from the server
write F B VALUE      write a block          put F B VALUE       write it through
sync F               store what is delayed  remove F            take a file away
store PATH NAME      store a whole file of this machine
get NAME PATH        get it again, as a new file of this machine
ls [PREFIX]          the names that begin so
help, quit           what there is to say, and to leave
end                  end the host, once all is stored
";

/// What came of a line.
#[derive(Clone, Copy)]
pub(crate) enum Did {
    /// It was done.
    Done,
    /// The host or this machine refused it.
    Refused,
    /// It says nothing that can be done.
    Wrong,
    /// It says that this was the last one.
    Quit,
    /// The host is gone.
    Gone,
}

/// Reads lines to the end of the input and asks what each says; how that ends. The answer stands behind a line before the next is read.
pub(crate) fn serve_lines(rt: &HostRuntime, asking: &mut Asking<'_>) -> Ending {
    let Ok(mut reader) = BufReader::new(rt.alloc(), rt.reader()) else {
        return Ending::Memory;
    };
    let mut line = Vec::new(rt.alloc());
    for _line in 0..MOST_LINES {
        let _told = eprint!(rt; "nqnfs> ");
        line.clear();
        match reader.read_until(b'\n', &mut line) {
            Ok(0) => return Ending::Done,
            Ok(_) => {}
            Err(_) => {
                let _told = eprintln!(rt; "nqnfs_user: the input cannot be read");
                return Ending::ReadFault;
            }
        }
        match serve_line(rt, asking, line.trim_ascii()) {
            Did::Quit => return Ending::Done,
            Did::Gone => return Ending::LinkFault,
            Did::Done | Did::Refused | Did::Wrong => {}
        }
    }
    Ending::Done
}

/// Does what a line says.
pub(crate) fn serve_line(rt: &HostRuntime, asking: &mut Asking<'_>, text: &[u8]) -> Did {
    match list_of(text) {
        Some(Ok(())) => return serve_list(rt, asking, text),
        Some(Err(why)) => return tell_wrong(rt, why),
        None => {}
    }
    match line_of(rt.alloc(), text) {
        PromptLine::Empty => Did::Done,
        PromptLine::Quit => Did::Quit,
        PromptLine::Help => {
            let _told = print!(rt; "{HELP}");
            Did::Done
        }
        PromptLine::Unknown => tell_wrong(rt, why_not(text)),
        PromptLine::Call(_) | PromptLine::End => serve_call(rt, asking, text),
        PromptLine::Store { path, name } => match str::from_utf8(path) {
            Ok(path) => serve_store(rt, asking, path, name),
            Err(_) => refuse(rt, NO_TEXT),
        },
        PromptLine::Get { name, path } => match str::from_utf8(path) {
            Ok(path) => serve_get(rt, asking, name, path),
            Err(_) => refuse(rt, NO_TEXT),
        },
    }
}

/// What a line says that asks for names, `ls` or `ls PREFIX`: whether it may be asked so, or what is wrong. None where it asks for none.
fn list_of(text: &[u8]) -> Option<Result<(), &'static str>> {
    let mut words = WordCursor::new(text);
    if !is(words.next()?, b"ls") {
        return None;
    }
    let prefix = words.next().unwrap_or(b"");
    if !words.is_empty() {
        return Some(Err(MANY));
    }
    if prefix.len() > MOST_PREFIX {
        return Some(Err(LONG));
    }
    Some(Ok(()))
}

/// Lists names, each with the number of its file.
fn serve_list(rt: &HostRuntime, asking: &mut Asking<'_>, text: &[u8]) -> Did {
    match asking.ask(text, &[]) {
        Ok(reply) => match reply.kind {
            AnswerKind::Bytes => tell_names(rt, &reply.bytes),
            _ => tell(rt, &reply),
        },
        Err(_) => tell_gone(rt),
    }
}

/// Tells the lines of a list.
fn tell_names(rt: &HostRuntime, lines: &[u8]) -> Did {
    let _told = match str::from_utf8(lines) {
        Ok(names) if !names.is_empty() => print!(rt; "{names}"),
        _ => println!(rt; "ok, no file"),
    };
    Did::Done
}

/// Tells words on a line of their own, of what was refused.
fn refuse(rt: &HostRuntime, words: &str) -> Did {
    let _told = println!(rt; "{words}");
    Did::Refused
}

/// What is wrong with a line.
fn why_not(text: &[u8]) -> &'static str {
    match wrong_of(text) {
        None | Some(Wrong::Verb) => "no line begins so; help tells what there is, and quit ends",
        Some(Wrong::Few) =>
            "a word is missing; help tells what stands where, with one blank between two words",
        Some(Wrong::Many) => MANY,
        Some(Wrong::Name) =>
            "that is no name: it has 1 to 64 printable bytes of ASCII, without blanks and without /",
        Some(Wrong::Number) =>
            "that is no number: it is 0 to 4294967295, without a sign and without zeros in front",
    }
}

/// Tells what is wrong with a line.
fn tell_wrong(rt: &HostRuntime, why: &str) -> Did {
    let _told = println!(rt; "{why}");
    Did::Wrong
}

/// Tells an answer without bytes. A host that had no memory for words says none.
fn tell(rt: &HostRuntime, reply: &HostAnswer) -> Did {
    match str::from_utf8(&reply.text) {
        Ok(words) if !words.is_empty() => {
            let _told = println!(rt; "{words}");
        }
        _ => {
            let _told = println!(rt; "{NO_MEMORY}");
        }
    }
    match reply.kind {
        AnswerKind::Refused => Did::Refused,
        _ => Did::Done,
    }
}

/// Tells that the host is gone.
fn tell_gone(rt: &HostRuntime) -> Did {
    let _told = eprintln!(rt;
        "nqnfs_user: the host is gone; what was asked last may have been done, or not"
    );
    Did::Gone
}

/// Asks for a call, and tells its answer.
fn serve_call(rt: &HostRuntime, asking: &mut Asking<'_>, text: &[u8]) -> Did {
    match asking.ask(text, &[]) {
        Ok(reply) => tell(rt, &reply),
        Err(_) => tell_gone(rt),
    }
}

/// Stores a file of the machine.
fn serve_store(rt: &HostRuntime, asking: &mut Asking<'_>, path: &str, name: Name) -> Did {
    match fs::read(rt, path) {
        Ok(bytes) => store_bytes(rt, asking, name, &bytes),
        Err(error) => tell_machine(rt, path, error.kind()),
    }
}

/// Stores these bytes as a file.
fn store_bytes(rt: &HostRuntime, asking: &mut Asking<'_>, name: Name, bytes: &[u8]) -> Did {
    let count = bytes.len();
    if count > MOST_BYTES {
        let _told = println!(rt; "the file has more than {MOST_BYTES} bytes");
        return Did::Refused;
    }
    let name = str::from_utf8(name.as_bytes()).unwrap_or("");
    let Ok(line) = format!(in rt.alloc(); "store {name} {count}") else {
        return refuse(rt, NO_MEMORY);
    };
    match asking.ask(line.as_str().as_bytes(), bytes) {
        Ok(reply) if matches!(reply.kind, AnswerKind::Done) => {
            let _told = println!(rt; "ok, {count} bytes stored");
            Did::Done
        }
        Ok(reply) => tell(rt, &reply),
        Err(_) => tell_gone(rt),
    }
}

/// Gets a file, as a new one of the machine.
fn serve_get(rt: &HostRuntime, asking: &mut Asking<'_>, name: Name, path: &str) -> Did {
    let name = str::from_utf8(name.as_bytes()).unwrap_or("");
    let Ok(line) = format!(in rt.alloc(); "get {name}") else {
        return refuse(rt, NO_MEMORY);
    };
    match asking.ask(line.as_str().as_bytes(), &[]) {
        Ok(reply) => match reply.kind {
            AnswerKind::Bytes => write_new(rt, path, &reply.bytes),
            _ => tell(rt, &reply),
        },
        Err(_) => tell_gone(rt),
    }
}

/// Writes these bytes as a new file of the machine. Where that goes wrong no part of it is left.
fn write_new(rt: &HostRuntime, path: &str, bytes: &[u8]) -> Did {
    let file = match File::create_new(rt, path) {
        Ok(file) => file,
        Err(error) => return tell_machine(rt, path, error.kind()),
    };
    match write_synced(file, bytes) {
        Ok(()) => {
            let count = bytes.len();
            let _told = println!(rt; "ok, {count} bytes");
            Did::Done
        }
        Err(error) => {
            let _gone = fs::remove_file(rt, path);
            tell_machine(rt, path, error.kind())
        }
    }
}

/// Writes a file, and syncs it.
fn write_synced(file: File, bytes: &[u8]) -> io::Result<()> {
    let mut file = file;
    file.write_all(bytes)?;
    file.sync_all()
}

/// Tells why the machine did not do something with a file.
fn tell_machine(rt: &HostRuntime, path: &str, kind: ErrorKind) -> Did {
    let why = match kind {
        ErrorKind::NotFound => "is not there, or its folder is not",
        ErrorKind::AlreadyExists => "is there already, and stays as it is",
        ErrorKind::PermissionDenied => "may not be used",
        ErrorKind::IsADirectory => "is a folder",
        ErrorKind::StorageFull | ErrorKind::QuotaExceeded => "cannot be written: the disk is full",
        _ => "cannot be read or written",
    };
    let _told = println!(rt; "{path} {why}");
    Did::Refused
}
