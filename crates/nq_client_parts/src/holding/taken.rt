//! What becomes of what is held when a grant comes.

ghost use Rattle.std.specs.Prelude.{◌≡◌, ◌+◌, ◌<◌, ◌^◌, Some, if◌then◌else◌};
ghost use Rattle.nq_client_parts.specs.HoldingLeases.{lease_of};
ghost use Rattle.nq_model.specs.protocol.Hear.{granted_lease};
ghost use Rattle.nq_model.specs.protocol.Table.{tag_below};

use crate::holding::held::Held;
use crate::holding::lease::Lease;
use nq_base::{FileId, Grant, Tag, Ticks};

/// How a grant follows on what was held. It must be looked at: it cannot be dropped.
pub enum Take {
    /// Nothing was held.
    First,
    /// The grant belongs to the chain of the lease that was held.
    Same,
    /// The chain is broken: the server ended the lease that was held, and what was written under it is lost unless it
    /// was stored.
    Broken,
}

/// What is held after a grant, and how it follows on what was held. It must be taken apart: it cannot be dropped.
pub struct GrantTaken {
    /// The lease that was granted.
    pub held: Held,
    /// How it follows on what was held.
    pub how: Take,
}

impl Take {
    ghost use Rattle.nq_client_parts.specs.Takes.{is_broken};

    /// Whether the chain is broken.
    pub fn is_broken(self) -> bool
        ensures { result ≡ is_broken self }
    {
        match self {
            Take::First | Take::Same => false,
            Take::Broken => true,
        }
    }
}

impl Held {
    ghost use Rattle.nq_client_parts.specs.Takes.{taking};

    /// Takes a grant whose request was first sent at `sent`, by the client's clock: from that moment its term counts.
    pub fn take_grant(self, file: FileId, grant: &Grant, sent: Ticks) -> GrantTaken
        requires { sent + grant.now.term < 2 ^ 64 }
        ensures held { lease_of result.held ≡ Some (granted_lease file grant.now sent) }
        ensures how { result.how ≡ taking grant.now (lease_of self) }
    {
        let how = self.follows(grant);
        GrantTaken {
            held: granted(file, grant, sent),
            how,
        }
    }

    /// How a grant follows on what is held.
    fn follows(&self, grant: &Grant) -> Take
        ensures { result ≡ taking grant.now (lease_of self.now) }
    {
        match self {
            Held::Nothing => Take::First,
            Held::NonCaching(lease) | Held::Reading(lease) | Held::Writing(lease) => {
                follows(&lease.tag, &grant.since)
            }
        }
    }
}

/// Whether the chain that began with the tag `since` goes on from the tag `held`.
fn follows(held: &Tag, since: &Tag) -> Take
    ensures { result ≡ (if tag_below held.now since.now then Take.Broken else Take.Same) }
{
    if held < since {
        Take::Broken
    } else {
        Take::Same
    }
}

/// A lease as it is granted.
#[tactic(auto, unfolding(nq_model::specs::protocol::Hear::granted_lease))]
fn granted(file: FileId, grant: &Grant, sent: Ticks) -> Held
    requires { sent + grant.now.term < 2 ^ 64 }
    ensures { lease_of result ≡ Some (granted_lease file grant.now sent) }
{
    let lease = Lease {
        file,
        tag: grant.tag,
        term: grant.term,
        expiry: Ticks(sent.0 + u64::from(grant.term)),
        blocks: grant.blocks,
        used: false,
    };
    Held::of_kind(grant.mode, lease)
}
