//! The lines of lists and of finds.

ghost use Rattle.std.specs.Prelude.{◌≡◌};
ghost use Rattle.nq_naming.specs.Line.{find_line, host_of, list_line, prefix_of};

use nq_base::{Host, Name};
use nq_directory::Prefix;
use nq_script::words::{cut, is, name, number};

/// The host of a word, below the number of hosts.
fn host_of(word: &[u8], hosts: u32) -> Option<Host>
    ensures { result ≡ host_of hosts word.now }
{
    let most = hosts.checked_sub(1)?;
    match number(word, u64::from(most)) {
        Some(host) => Some(Host(host as u32)),
        None => None,
    }
}

/// The prefix of a word: `/` is the empty one, and the bytes of a name are one.
fn prefix(word: &[u8]) -> Option<Prefix>
    ensures { result ≡ prefix_of word.now }
{
    if is(word, b"/") {
        return Prefix::new(b"");
    }
    let name = name(word)?;
    Prefix::new(name.as_bytes())
}

/// The host and the directory of a line `list H PREFIX`, H below the number of hosts; None exactly where the line is not of that
/// form. PREFIX is `/` for the empty prefix, or the bytes of a name.
#[tactic(auto, unfolding(crate::specs::Line::of_host))]
pub fn parse_list(line: &[u8], hosts: u32) -> Option<(Host, Prefix)>
    ensures { result ≡ list_line hosts line.now }
{
    let rest = line.strip_prefix(b"list ")?;
    let (host, word) = cut(rest, b' ')?;
    let host = host_of(host, hosts)?;
    Some((host, prefix(word)?))
}

/// The host and the name of a line `find H NAME`, H below the number of hosts; None exactly where the line is not of that form.
#[tactic(auto, unfolding(crate::specs::Line::of_host))]
pub fn parse_find(line: &[u8], hosts: u32) -> Option<(Host, Name)>
    ensures { result ≡ find_line hosts line.now }
{
    let rest = line.strip_prefix(b"find ")?;
    let (host, word) = cut(rest, b' ')?;
    let host = host_of(host, hosts)?;
    Some((host, name(word)?))
}
