//! What the words behind the program's name say.

use nq_words::{Args, Next, Wrong};

/// What is to be done.
#[derive(Clone, Copy)]
pub(crate) enum Order<'a> {
    /// Serve the page.
    Serve(Options<'a>),
    /// Answer the requests that come on the standard input.
    Once(Options<'a>),
    /// Say what words there are.
    Help,
    /// Say which version this is.
    Version,
}

/// How the page is served.
#[derive(Clone, Copy)]
pub(crate) struct Options<'a> {
    /// The port on 127.0.0.1.
    pub(crate) port: u16,
    /// The folder in which the files of the page are.
    pub(crate) web: &'a str,
}

/// What these words say.
///
/// # Errors
///
/// What is wrong with them.
pub(crate) fn asked_of(words: &[String]) -> Result<Order<'_>, Wrong<'_>> {
    let mut args = Args::new(words);
    let mut port = 8059u16;
    let mut web = "web";
    let mut once = false;
    for _word in 0..words.len() {
        match args.next() {
            Next::End => break,
            Next::Help => return Ok(Order::Help),
            Next::Version => return Ok(Order::Version),
            Next::Flag("--once") => once = true,
            Next::Flag("--port") => match args.number("--port", 1, 65_535) {
                Ok(number) => port = u16::try_from(number).unwrap_or(u16::MAX),
                Err(wrong) => return Err(wrong),
            },
            Next::Flag("--web") => match args.value("--web") {
                Ok(folder) => web = folder,
                Err(wrong) => return Err(wrong),
            },
            Next::Flag(word) => return Err(Wrong::Flag(word)),
            Next::Plain(word) => return Err(Wrong::Extra(word)),
        }
    }
    let options = Options { port, web };
    Ok(if once {
        Order::Once(options)
    } else {
        Order::Serve(options)
    })
}
