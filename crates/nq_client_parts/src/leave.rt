//! What the lease on a file lets its holder do.

ghost use Rattle.std.specs.Prelude.{◌≡◌};
ghost use Rattle.nq_model.specs.protocol.Client.{lease_on};
ghost use Rattle.nq_model.specs.protocol.Hear.{holds_caching};
ghost use Rattle.nq_model.specs.protocol.Send.{boot_of, shares_live};
ghost use Rattle.nq_client_parts.specs.HoldingLeases.{lease_of};
ghost use Rattle.nq_client_parts.specs.Leave.{leave_to_read, leave_to_write, lets_read_block, within};

use crate::holding::Held;
use crate::leases::Leases;
use nq_base::{BlockNo, FileId, Ticks};

/// What the lease on a file lets a call do with a block without a packet.
#[derive(Clone, Copy)]
pub enum Leave {
    /// Nothing: a request goes first.
    None,
    /// The block is not below the file's length.
    PastEnd,
    /// It goes on.
    Granted,
}

/// Whether a block is below a length.
fn within(blocks: u32, block: BlockNo) -> Leave
    ensures { result ≡ within blocks block }
{
    if blocks <= block.0 {
        Leave::PastEnd
    } else {
        Leave::Granted
    }
}

impl Leases {
    /// Whether a block may be read without a packet.
    pub fn leave_to_read(&self, time: Ticks, file: FileId, block: BlockNo) -> Leave
        ensures { result ≡ leave_to_read time block (lease_on file self.now.items) }
    {
        let held = self.on(file);
        match held.lease() {
            Some(lease) if held.caches(time) => within(lease.blocks, block),
            _ => Leave::None,
        }
    }

    /// Whether a write of a block may be delayed.
    pub fn leave_to_write(&self, time: Ticks, file: FileId, block: BlockNo) -> Leave
        ensures { result ≡ leave_to_write time block (lease_on file self.now.items) }
    {
        let held = self.on(file);
        match held.lease() {
            Some(lease) if held.delays(time) => within(lease.blocks, block),
            _ => Leave::None,
        }
    }

    /// Whether a lease is held that runs, lets its holder cache, and has the block.
    pub fn lets_read(&self, time: Ticks, file: FileId, block: BlockNo) -> bool
        ensures { result ≡ lets_read_block time block (lease_on file self.now.items) }
    {
        let held = self.on(file);
        match held.lease() {
            Some(lease) => held.caches(time) && block.0 < lease.blocks,
            None => false,
        }
    }

    /// Whether a non-caching lease is held that runs: the file is shared for writing.
    pub fn shares(&self, file: FileId, time: Ticks) -> bool
        ensures { result ≡ shares_live time (lease_on file self.now.items) }
    {
        shares(&self.on(file), time)
    }

    /// Whether a caching lease is held, live or not.
    pub fn holds_caching(&self, file: FileId) -> bool
        ensures { result ≡ holds_caching (lease_on file self.now.items) }
    {
        holds_caching(&self.on(file))
    }

    /// The boot of the lease under which writes are delayed, or 0.
    pub fn boot(&self, file: FileId) -> u32
        ensures { result ≡ boot_of (lease_on file self.now.items) }
    {
        boot_of(&self.on(file))
    }
}

/// Whether a live non-caching lease is held.
fn shares(held: &Held, now: Ticks) -> bool
    ensures { result ≡ shares_live now (lease_of held.now) }
{
    match held {
        Held::NonCaching(_) => held.live(now),
        Held::Nothing | Held::Reading(_) | Held::Writing(_) => false,
    }
}

/// Whether a caching lease is held, live or not.
fn holds_caching(held: &Held) -> bool
    ensures { result ≡ holds_caching (lease_of held.now) }
{
    match held {
        Held::Reading(_) | Held::Writing(_) => true,
        Held::Nothing | Held::NonCaching(_) => false,
    }
}

/// The boot of a lease.
fn boot_of(held: &Held) -> u32
    ensures { result ≡ boot_of (lease_of held.now) }
{
    match held {
        Held::Nothing => 0,
        Held::NonCaching(lease) | Held::Reading(lease) | Held::Writing(lease) => lease.tag.boot,
    }
}
