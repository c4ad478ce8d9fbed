//! The words that this program was started with.

use std::env;
use std::io::ErrorKind;

/// Why the words are not known.
#[derive(Clone, Copy)]
pub enum Unread {
    /// Memory was wanting.
    Memory,
    /// A word is no text: its bytes are no UTF-8.
    NoText,
}

/// The words behind the program's name.
///
/// # Errors
///
/// Want of memory, or that a word is no text. No clause can say what the machine gives.
pub fn args_of(rt: &HostRuntime) -> Result<Vec<String>, Unread> {
    let args = match env::args(rt) {
        Ok(args) => args,
        Err(error) if error.kind() == ErrorKind::OutOfMemory => return Err(Unread::Memory),
        Err(_) => return Err(Unread::NoText),
    };
    let mut words = Vec::new(rt.alloc());
    for word in args.skip(1) {
        if words.push(word).is_err() {
            return Err(Unread::Memory);
        }
    }
    Ok(words)
}
