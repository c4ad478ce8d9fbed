//! What is held on a file.

ghost use Rattle.std.specs.Prelude.{◌≡◌, Some, option_copied};
ghost use Rattle.nq_model.specs.protocol.Client.{is_live, lets_read, lets_write, renew_due};

use crate::holding::lease::Lease;
use nq_base::{Mode, Ticks};

/// What is held on a file.
#[derive(Drop)]
pub enum Held {
    /// No lease.
    Nothing,
    /// A lease under which nothing is cached.
    NonCaching(Lease),
    /// A lease under which reads are answered from the cache.
    Reading(Lease),
    /// A lease under which writes are delayed as well.
    Writing(Lease),
}

impl Held {
    ghost use Rattle.nq_client_parts.specs.HoldingLeases.{of_kind, lease_of, plain_lease, mode_of, passes};

    /// A lease of a kind, as it is held.
    pub(crate) fn of_kind(mode: Mode, lease: Lease) -> Held
        ensures { lease_of result ≡ Some (of_kind mode lease) }
    {
        match mode {
            Mode::NonCaching => Held::NonCaching(lease),
            Mode::Reading => Held::Reading(lease),
            Mode::Writing => Held::Writing(lease),
        }
    }

    /// The lease, if one is held.
    pub(crate) fn lease(&self) -> Option<&Lease>
        ensures { option_copied result ≡ plain_lease self.now }
    {
        match self {
            Held::Nothing => None,
            Held::NonCaching(lease) | Held::Reading(lease) | Held::Writing(lease) => Some(lease),
        }
    }

    /// The kind of the lease, if one is held.
    pub fn mode(&self) -> Option<Mode>
        ensures { result ≡ mode_of self.now }
    {
        match self {
            Held::Nothing => None,
            Held::NonCaching(_) => Some(Mode::NonCaching),
            Held::Reading(_) => Some(Mode::Reading),
            Held::Writing(_) => Some(Mode::Writing),
        }
    }

    /// Whether a lease is held that runs.
    pub fn live(&self, now: Ticks) -> bool
        ensures { result ≡ passes (is_live now) (lease_of self.now) }
    {
        match self {
            Held::Nothing => false,
            Held::NonCaching(lease) | Held::Reading(lease) | Held::Writing(lease) => {
                lease.is_live(now)
            }
        }
    }

    /// Whether a lease is held that runs and lets its holder cache.
    pub(crate) fn caches(&self, now: Ticks) -> bool
        ensures { result ≡ passes (lets_read now) (lease_of self.now) }
    {
        match self {
            Held::Nothing | Held::NonCaching(_) => false,
            Held::Reading(lease) | Held::Writing(lease) => lease.is_live(now),
        }
    }

    /// Whether a lease is held that runs and lets its holder delay writes.
    pub(crate) fn delays(&self, now: Ticks) -> bool
        ensures { result ≡ passes (lets_write now) (lease_of self.now) }
    {
        match self {
            Held::Nothing | Held::NonCaching(_) | Held::Reading(_) => false,
            Held::Writing(lease) => lease.is_live(now),
        }
    }

    /// Whether the lease is to be renewed: it caches, runs, was used and is about to end.
    pub(crate) fn renew_due(&self, now: Ticks) -> bool
        ensures { result ≡ passes (renew_due now) (lease_of self.now) }
    {
        match self {
            Held::Nothing | Held::NonCaching(_) => false,
            Held::Reading(lease) | Held::Writing(lease) => lease.is_live(now) && lease.is_due(now),
        }
    }
}
