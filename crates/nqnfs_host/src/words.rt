//! What the words say.

use nq_words::{Args, Next, Wrong, number_in};

/// The greatest number of a host.
const LAST_HOST: u32 = 63;

/// What is to be done.
#[derive(Clone, Copy)]
pub(crate) enum Order<'a> {
    /// Say what words there are.
    Help,
    /// Say which version this is.
    Version,
    /// Be this host, with the files that are named.
    Be { host: u32, files: Files<'a> },
}

/// The files that words name.
#[derive(Clone, Copy)]
pub(crate) struct Files<'a> {
    /// That of the address book.
    pub(crate) hosts: Option<&'a str>,
    /// That of the diary.
    pub(crate) journal: Option<&'a str>,
}

/// What these words say.
///
/// # Errors
///
/// What is wrong with them.
pub(crate) fn order_of(words: &[String]) -> Result<Order<'_>, Wrong<'_>> {
    let mut args = Args::new(words);
    let mut host = None;
    let mut files = Files {
        hosts: None,
        journal: None,
    };
    for _word in 0..words.len() {
        match args.next() {
            Next::End => break,
            Next::Help => return Ok(Order::Help),
            Next::Version => return Ok(Order::Version),
            Next::Flag("--hosts") => match args.value("--hosts") {
                Ok(path) => files.hosts = Some(path),
                Err(wrong) => return Err(wrong),
            },
            Next::Flag("--journal") => match args.value("--journal") {
                Ok(path) => files.journal = Some(path),
                Err(wrong) => return Err(wrong),
            },
            Next::Flag(word) => return Err(Wrong::Flag(word)),
            Next::Plain(word) if host.is_some() => return Err(Wrong::Extra(word)),
            Next::Plain(word) => match number_in(word, 0, LAST_HOST) {
                Ok(number) => host = Some(number),
                Err(wrong) => return Err(wrong),
            },
        }
    }
    match host {
        Some(host) => Ok(Order::Be { host, files }),
        None => Err(Wrong::Missing("HOST")),
    }
}
