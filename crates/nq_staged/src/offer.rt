//! The line of an offer.

ghost use Rattle.nq_staged.specs.Text.{IsOfHost, offer_of};
ghost use Rattle.nq_staged.specs.TextLaws.{is-long, is-of-host};

use crate::commit::parse_stage;
use nq_base::Host;
use nq_replay::asides::AsideLine;

/// A host's side offers a body: what a line `stage H` says.
#[derive(Clone, Copy)]
pub struct Offer {
    /// The host.
    pub host: Host,
}

impl AsideLine for Offer {
    ghost said = { offer_of };

    ghost fits = { IsOfHost };

    #[tactic(auto, unfolding(crate::specs::Text::offer_of))]
    fn of_line(line: &[u8], hosts: u32) -> Option<Offer> {
        match parse_stage(line, hosts) {
            Some(host) => Some(Offer { host }),
            None => None,
        }
    }

    ghost is_long = { is-long };

    ghost is_fit = { is-of-host };
}
