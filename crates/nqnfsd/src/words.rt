//! What the words say.

use nq_words::{Args, Next, Wrong};
use std::net::SocketAddr;

/// What is to be done.
#[derive(Clone, Copy)]
pub(crate) enum Order<'a> {
    /// Say what words there are.
    Help,
    /// Say which version this is.
    Version,
    /// Serve.
    Serve(Options<'a>),
}

/// How to serve.
#[derive(Clone, Copy)]
pub(crate) struct Options<'a> {
    /// The file of the image.
    pub(crate) image: &'a str,
    /// The longest term, 5 to 600 seconds.
    pub(crate) longest: u32,
    /// After how many seconds a line of counts is printed, if at all.
    pub(crate) every: Option<u64>,
    /// The file of the address book, if one is told.
    pub(crate) hosts: Option<&'a str>,
    /// The address to listen at, if one is told.
    pub(crate) listen: Option<SocketAddr>,
    /// The file of the diary, if one is told.
    pub(crate) journal: Option<&'a str>,
}

// The image where the words name none.
const IMAGE: &str = "nqnfs.img";

// The longest term where the words tell none.
const LONGEST: u32 = 60;

/// What these words say.
///
/// # Errors
///
/// What is wrong with them.
pub(crate) fn order_of(words: &[String]) -> Result<Order<'_>, Wrong<'_>> {
    let mut args = Args::new(words);
    let mut has_image = false;
    let mut options = Options {
        image: IMAGE,
        longest: LONGEST,
        every: None,
        hosts: None,
        listen: None,
        journal: None,
    };
    for _word in 0..words.len() {
        match args.next() {
            Next::End => break,
            Next::Help => return Ok(Order::Help),
            Next::Version => return Ok(Order::Version),
            Next::Flag(flag) => {
                if let Err(wrong) = take_option(&mut args, flag, &mut options) {
                    return Err(wrong);
                }
            }
            Next::Plain(word) if has_image => return Err(Wrong::Extra(word)),
            Next::Plain(word) => {
                options.image = word;
                has_image = true;
            }
        }
    }
    Ok(Order::Serve(options))
}

/// Takes in an option, with the value behind it.
fn take_option<'a>(
    args: &mut Args<'a>,
    flag: &'a str,
    options: &mut Options<'a>,
) -> Result<(), Wrong<'a>> {
    match flag {
        "--longest" => options.longest = args.number(flag, 5, 600)?,
        "--every" => options.every = Some(u64::from(args.number(flag, 1, 1_000_000)?)),
        "--hosts" => options.hosts = Some(args.value(flag)?),
        "--journal" => options.journal = Some(args.value(flag)?),
        "--listen" => options.listen = Some(address_in(args.value(flag)?)?),
        _ => return Err(Wrong::Flag(flag)),
    }
    Ok(())
}

/// The address that a word writes.
fn address_in(word: &str) -> Result<SocketAddr, Wrong<'_>> {
    match SocketAddr::parse_ascii(word.as_bytes()) {
        Ok(address) => Ok(address),
        Err(_) => Err(Wrong::Word(word)),
    }
}
