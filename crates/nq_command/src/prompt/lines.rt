//! What a line at a prompt says.

ghost use Rattle.std.specs.Prelude.{◌≡◌, IfSome, IsNone};
ghost use Rattle.nq_command.specs.Lines.{NamesNoFile, Says};

use nq_base::{Call, Name};
use nq_script::parse_call;
use nq_script::words::{WordCursor, is};
use std::alloc::Global;

/// What a line at a prompt says.
#[derive(Drop)]
pub enum PromptLine<'a> {
    /// Nothing stands in it.
    Empty,
    /// Say what there is to say.
    Help,
    /// Leave the prompt.
    Quit,
    /// End the host.
    End,
    /// Make this call.
    Call(Call),
    /// Store the file of the machine at this path under this name.
    Store { path: &'a [u8], name: Name },
    /// Get the file of this name, as a new file of the machine at this path.
    Get { name: Name, path: &'a [u8] },
    /// It says nothing that can be done.
    Unknown,
}

/// What this line says, which has no end of line: the words of a call of version 2, `store PATH NAME`, `get NAME PATH`, `help`, `quit`,
/// `end`, or nothing. One blank stands between two words.
pub fn line_of(alloc: Global, text: &[u8]) -> PromptLine<'_>
    ensures { Says result text.now }
{
    if text.is_empty() {
        PromptLine::Empty
    } else if is(text, b"help") {
        PromptLine::Help
    } else if is(text, b"quit") {
        PromptLine::Quit
    } else if is(text, b"end") {
        PromptLine::End
    } else {
        match parse_call(alloc, text, 2) {
            Ok(call) => PromptLine::Call(call),
            Err(_) => match file_line(text) {
                Some(line) => line,
                None => PromptLine::Unknown,
            },
        }
    }
}

/// What a line says that names a file of the machine.
fn file_line(text: &[u8]) -> Option<PromptLine<'_>>
    ensures says { IfSome result (λ line. Says line text.now) }
    ensures none { IsNone result → NamesNoFile text.now }
{
    let mut words = WordCursor::new(text);
    let verb = words.next()?;
    let first = words.next()?;
    let second = words.next()?;
    if !words.is_empty() {
        None
    } else if is(verb, b"store") {
        Some(PromptLine::Store {
            path: first,
            name: Name::new(second)?,
        })
    } else if is(verb, b"get") {
        Some(PromptLine::Get {
            name: Name::new(first)?,
            path: second,
        })
    } else {
        None
    }
}
