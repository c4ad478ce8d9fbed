//! What a host does in a line that is none of a schedule.

ghost use Rattle.std.specs.Prelude.{◌≡◌, None};
ghost use Rattle.nq_naming.specs.Line.{find_line};
ghost use Rattle.nq_naming.specs.Text.{IsOfHost, aside_by, aside_of};
ghost use Rattle.nq_naming.specs.TextLaws.{is-long, is-of-host};

use crate::script::lines::{parse_find, parse_list};
use nq_base::{Host, Name};
use nq_directory::Prefix;
use nq_replay::asides::AsideLine;

/// What a host does in a line that is none of a schedule.
#[derive(Clone, Copy)]
pub enum Aside {
    /// It asks for the list of a directory.
    List(Host, Prefix),
    /// It looks a name up in the lists that it has.
    Find(Host, Name),
}

impl AsideLine for Aside {
    ghost said = { aside_of };

    ghost fits = { IsOfHost };

    #[tactic(auto, unfolding(crate::specs::Text::aside_of))]
    fn of_line(line: &[u8], hosts: u32) -> Option<Aside> {
        match parse_list(line, hosts) {
            Some((host, prefix)) => Some(Aside::List(host, prefix)),
            None => find_of(line, hosts),
        }
    }

    ghost is_long = { is-long };

    ghost is_fit = { is-of-host };
}

/// The find of a line that has one.
fn find_of(line: &[u8], hosts: u32) -> Option<Aside>
    ensures { result ≡ aside_by None (find_line hosts line.now) }
{
    match parse_find(line, hosts) {
        Some((host, name)) => Some(Aside::Find(host, name)),
        None => None,
    }
}
