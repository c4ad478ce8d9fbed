//! What is asked.

ghost use Rattle.std.specs.Prelude.{◌≡◌, IfSome};
ghost use Rattle.nq_tasks.specs.Work.{own_name, stored_name};

use nq_base::{Name, Who};
use nq_script::words::{WordCursor, is, name};
use std::alloc::Global;

/// What somebody asks: the words of a line and, where they say that a whole file is stored, its bytes.
#[derive(Drop)]
pub struct Ask {
    /// Its number.
    pub number: u32,
    /// The words.
    pub text: Vec<u8>,
    /// The bytes.
    pub body: Vec<u8>,
}

/// A file that was made for bytes, and the name under which they were to be stored.
#[derive(Clone, Copy)]
pub struct Made {
    /// The file that was made.
    pub own: Name,
    /// The name.
    pub name: Name,
}

/// The name under which an ask stores a file, if it does.
#[tactic(auto, unfolding(crate::specs::Work::stored_name))]
pub fn name_stored(text: &[u8]) -> Option<Name>
    ensures { result ≡ stored_name text.now }
{
    let mut words = WordCursor::new(text);
    let verb = words.next()?;
    if !is(verb, b"store") {
        return None;
    }
    let word = words.next()?;
    name(word)
}

/// A name for a file with the bytes of a whole one: no host takes it a second time, since an incarnation is taken once. None where memory is
/// wanting.
pub fn own_name(alloc: Global, who: Who, count: u32) -> Option<Name>
    ensures { IfSome result (λ name. name ≡ own_name who count) }
{
    let (host, inc) = (who.host.0, who.inc.0);
    match format!(in alloc; "~{host}.{inc}.{count}") {
        Ok(text) => Name::new(text.as_str().as_bytes()),
        Err(_) => None,
    }
}
