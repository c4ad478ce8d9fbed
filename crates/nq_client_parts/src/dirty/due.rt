//! Which leases are about to end.

ghost use Rattle.std.specs.Prelude.{◌≡◌, ◌<◌, ◌^◌, map, true, IfSome};
ghost use Rattle.nq_client_parts.specs.ByFile.{Ascends};
ghost use Rattle.nq_client_parts.specs.Leases.{lease_in, file_of_row};
ghost use Rattle.nq_model.specs.protocol.Client.{lease_on};
ghost use Rattle.nq_model.specs.protocol.Hear.{holds_caching};
ghost use Rattle.nq_model.specs.protocol.Send.{ending_in, is_to_push_in, is_to_renew_in, renewed_in};

use crate::dirty::dirty::Dirty;
use crate::holding::Held;
use crate::leases::{HeldLease, Leases};
use crate::notices::Notices;
use nq_base::{FileId, Mode, Ticks};

/// From so many ticks before a writing lease ends its delayed writes are pushed (Macklem 1994).
const RENEWAL: u64 = 3;

/// Whether a lease is a writing one that is about to end over a file with delayed writes.
fn is_to_push(row: &HeldLease, now: Ticks, dirty: &Dirty) -> bool
    requires { now < 2 ^ 62 }
    ensures { result ≡ is_to_push_in now dirty.now.dirty dirty.now.push (lease_in row.now) }
{
    match row.mode {
        Mode::Writing => {
            // Few leases are about to end, so the time is looked at first.
            row.lease.expiry.0 <= now.0 + RENEWAL && !dirty.is_clean(row.lease.file)
        }
        Mode::NonCaching | Mode::Reading => false,
    }
}

/// Whether a lease is to be renewed: its file is clean and no notice waits for it.
fn is_to_renew(row: &HeldLease, now: Ticks, notices: &Notices, dirty: &Dirty) -> bool
    ensures { result ≡ is_to_renew_in now notices.now.items dirty.now.dirty dirty.now.push (lease_in row.now) }
{
    let file = row.lease.file;
    Held::of_kind(row.mode, row.lease).renew_due(now)
        && dirty.is_clean(file)
        && !notices.waits(file)
}

/// The least file whose delayed writes are to be pushed before its lease ends.
fn ending(rows: &[HeldLease], now: Ticks, dirty: &Dirty) -> Option<FileId>
    requires ascends { Ascends file_of_row rows.now }
    requires time { now < 2 ^ 62 }
    ensures { result ≡ ending_in now (map lease_in rows.now) dirty.now.dirty dirty.now.push }
{
    for row in rows {
        if is_to_push(row, now, dirty) {
            return Some(row.lease.file);
        }
    }
    None
}

/// The least file whose lease is to be renewed.
fn renewed(rows: &[HeldLease], now: Ticks, notices: &Notices, dirty: &Dirty) -> Option<FileId>
    requires { Ascends file_of_row rows.now }
    ensures { result ≡ renewed_in now (map lease_in rows.now) notices.now.items dirty.now.dirty dirty.now.push }
{
    for row in rows {
        if is_to_renew(row, now, notices, dirty) {
            return Some(row.lease.file);
        }
    }
    None
}

impl Dirty {
    /// The least file whose delayed writes are to be pushed before its lease ends.
    pub fn ending(&self, now: Ticks, leases: &Leases) -> Option<FileId>
        requires { now < 2 ^ 62 }
        ensures { result ≡ ending_in now leases.now.items self.now.dirty self.now.push }
    {
        ending(leases.rows(), now, self)
    }

    /// The least file whose lease is to be renewed.
    pub fn renewed(&self, now: Ticks, leases: &Leases, notices: &Notices) -> Option<FileId>
        ensures file { result ≡ renewed_in now leases.now.items notices.now.items self.now.dirty self.now.push }
        ensures caches { IfSome result (λ file. holds_caching (lease_on file leases.now.items) ≡ true) }
    {
        renewed(leases.rows(), now, notices, self)
    }
}
