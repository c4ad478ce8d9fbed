//! The line of an offer.

ghost use Rattle.std.specs.Prelude.{◌≡◌};
ghost use Rattle.nq_staged.specs.Line.{stage_line};

use nq_base::Host;
use nq_script::words::number;

/// The host of a line `stage H`, H below the number of hosts; None exactly where the line is not of that form.
#[tactic(auto, unfolding(crate::specs::Line::stage_line))]
pub fn parse_stage(line: &[u8], hosts: u32) -> Option<Host>
    ensures { result ≡ stage_line hosts line.now }
{
    let word = line.strip_prefix(b"stage ")?;
    let most = hosts.checked_sub(1)?;
    match number(word, u64::from(most)) {
        Some(host) => Some(Host(host as u32)),
        None => None,
    }
}
