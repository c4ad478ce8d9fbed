//! A lease as its holder has it.

ghost use Rattle.std.specs.Prelude.{◌≡◌, ◌+◌, ◌&&◌, nat_lt, nat_le};
ghost use Rattle.nq_model.specs.protocol.Profile.{renewal};

use nq_base::{FileId, Tag, Ticks};

/// From so many ticks before its end a lease is renewed (Macklem 1994).
const RENEWAL: u64 = 3;

/// A lease as its holder has it. Its kind is that of the `Held` in which it stands.
#[derive(Clone, Copy)]
pub struct Lease {
    /// The file.
    pub file: FileId,
    /// The latest tag.
    pub tag: Tag,
    /// The term in ticks, as it was granted.
    pub term: u32,
    /// When the lease is over by the client's clock. The term counts from the moment at which the client first asked.
    pub expiry: Ticks,
    /// The file's length in blocks.
    pub blocks: u32,
    /// Whether the lease was used since it was granted.
    pub used: bool,
}

impl Lease {
    /// Whether the lease runs.
    pub(crate) fn is_live(&self, now: Ticks) -> bool
        ensures { result ≡ nat_lt now self.now.expiry }
    {
        now < self.expiry
    }

    /// Whether the lease was used and is about to end.
    pub(crate) fn is_due(&self, now: Ticks) -> bool
        ensures { result ≡ (self.now.used && nat_le self.now.expiry (now + renewal)) }
    {
        self.used && self.expiry.0.saturating_sub(now.0) <= RENEWAL
    }
}
