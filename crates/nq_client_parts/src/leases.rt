//! The leases that a client holds, in order of files.

ghost use Rattle.std.specs.Prelude.{◌≡◌, ◌≤◌, ◌<◌, ◌+◌, ◌-◌, [], map, slice_get, slice_set, option_map, vec_len, vec_capacity, Some, IsSome, IsOk, OnOk, OnErr};
ghost use Rattle.std.specs.Prelude.{true};
ghost use Rattle.std.specs.List.{insert, remove};
ghost use Rattle.nq_client_parts.specs.HoldingLeases.{lease_of, of_kind};
ghost use Rattle.nq_model.specs.protocol.Client.{lease_on, drop_lease, put_lease, used_lease};
ghost use Rattle.nq_client_parts.specs.ByFile.{Ascends, IsPlace, of_file};
ghost use Rattle.nq_client_parts.specs.Leases.{lease_in, file_of_row};

use crate::holding::{Held, Lease};
use nq_base::{FileId, Mode, NoMemory};
use std::alloc::Global;
use std::marker::Model;

/// A lease with its kind.
#[derive(Clone, Copy)]
pub(crate) struct HeldLease {
    /// Its kind.
    pub(crate) mode: Mode,
    /// The lease.
    pub(crate) lease: Lease,
}

/// The leases that a client holds, one for a file. Clauses see them in order of files, and for how many more files there
/// is room before memory is wanted.
#[derive(Drop)]
pub struct Leases {
    rows: Vec<HeldLease>,
}

impl Model for Leases {
    ghost use Rattle.std.specs.Prelude.{◌-◌, map, vec_len, vec_capacity};
    ghost use Rattle.nq_client_parts.specs.ByFile.{Ascends};
    ghost use Rattle.nq_client_parts.specs.Leases.{LeaseList, lease_in, file_of_row};

    ghost Value = { LeaseList };

    ghost view = { λ l. record { items = map lease_in l.rows.items; spare = vec_capacity l.rows - vec_len l.rows } };

    ghost invariant = { λ l. Ascends file_of_row l.rows.items };
}

impl Leases {
    /// No leases. It takes no memory.
    pub fn new(alloc: Global) -> Leases
        ensures { result.items ≡ [] }
    {
        Leases {
            rows: Vec::new(alloc),
        }
    }

    /// What is held on a file.
    pub fn on(&self, file: FileId) -> Held
        ensures { lease_of result ≡ lease_on file self.now.items }
    {
        held(find(&self.rows, file))
    }

    /// The leases with their kinds, in order of files.
    pub(crate) fn rows(&self) -> &[HeldLease]
        ensures rows { map lease_in result.now ≡ self.now.items }
        ensures ascends { Ascends file_of_row result.now }
    {
        &self.rows
    }

    /// Makes room for the leases of `files` files on which none is held.
    pub fn reserve(&mut self, files: usize) -> Result<(), NoMemory>
        ensures items { self.new.items ≡ self.old.items }
        ensures room { OnOk result (files ≤ self.new.spare) }
        ensures refused { OnErr result (self.new ≡ self.old) }
        ensures succeeds { files ≤ self.old.spare → IsOk result }
        ensures spare { self.old.spare ≤ self.new.spare }
    {
        self.rows.try_reserve(files)?;
        Ok(())
    }

    /// Puts a lease in the place of another of its file, or where none is held.
    ///
    /// # Errors
    ///
    /// Only want of memory, and then nothing changed. A file on which a lease is held wants none, nor does another where
    /// room is reserved.
    pub fn put_lease(&mut self, mode: Mode, lease: Lease) -> Result<(), NoMemory>
        ensures put { OnOk result (self.new.items ≡ put_lease (of_kind mode lease) self.old.items) }
        ensures refused { OnErr result (self.new ≡ self.old) }
        ensures there { IsSome (lease_on lease.file self.old.items) → IsOk result }
        ensures kept { IsSome (lease_on lease.file self.old.items) → self.new.spare ≡ self.old.spare }
        ensures succeeds { 1 ≤ self.old.spare → IsOk result }
        ensures spare { self.old.spare ≤ self.new.spare + 1 }
    {
        put_lease(&mut self.rows, &HeldLease { mode, lease })
    }

    /// Takes the lease on a file out, if one is held.
    pub fn remove(&mut self, file: FileId)
        ensures items { self.new.items ≡ drop_lease file self.old.items }
        ensures spare { self.old.spare ≤ self.new.spare }
    {
        take_lease(&mut self.rows, file);
    }

    /// Notes that the lease on a file was used, if one is held.
    pub fn mark_used(&mut self, file: FileId)
        ensures items { self.new.items ≡ used_lease file self.old.items }
        ensures spare { self.new.spare ≡ self.old.spare }
    {
        mark(&mut self.rows, file);
    }
}

/// A row as it is held.
fn held(row: Option<HeldLease>) -> Held
    ensures { lease_of result ≡ option_map lease_in row }
{
    match row {
        Some(row) => Held::of_kind(row.mode, row.lease),
        None => Held::Nothing,
    }
}

/// Where the row of a file stands, or would stand.
fn place_of(rows: &[HeldLease], file: FileId) -> usize
    requires { Ascends file_of_row rows.now }
    ensures { IsPlace file_of_row file rows.now result }
{
    rows.partition_point(|row| row.lease.file < file)
}

/// What stands at the place of a file, if that is of the file.
fn at(rows: &[HeldLease], place: usize, file: FileId) -> Option<HeldLease>
    ensures { result ≡ of_file file_of_row file (slice_get rows.now place) }
{
    match rows.get(place) {
        Some(row) if row.lease.file == file => Some(*row),
        _ => None,
    }
}

/// The row of a file.
fn find(rows: &[HeldLease], file: FileId) -> Option<HeldLease>
    requires { Ascends file_of_row rows.now }
    ensures { option_map lease_in result ≡ lease_on file (map lease_in rows.now) }
{
    at(rows, place_of(rows, file), file)
}

/// Puts a row in the place of another.
fn replace(rows: &mut Vec<HeldLease>, place: usize, row: HeldLease)
    requires { place < vec_len rows.old }
    ensures items { rows.new.items ≡ slice_set rows.old.items place row }
    ensures len { vec_len rows.new ≡ vec_len rows.old }
    ensures capacity { vec_capacity rows.new ≡ vec_capacity rows.old }
{
    rows[place] = row;
}

/// Notes that the lease of a file was used.
fn mark(rows: &mut Vec<HeldLease>, file: FileId)
    requires { Ascends file_of_row rows.old.items }
    ensures marked { map lease_in rows.new.items ≡ used_lease file (map lease_in rows.old.items) }
    ensures ascends { Ascends file_of_row rows.new.items }
    ensures len { vec_len rows.new ≡ vec_len rows.old }
    ensures capacity { vec_capacity rows.new ≡ vec_capacity rows.old }
{
    let place = place_of(rows, file);
    match at(rows, place, file) {
        Some(row) => replace(rows, place, used(row)),
        None => {}
    }
}

/// A row whose lease was used.
fn used(row: HeldLease) -> HeldLease
    ensures { result ≡ record row { lease = record row.lease { used = true } } }
{
    HeldLease {
        mode: row.mode,
        lease: Lease {
            used: true,
            ..row.lease
        },
    }
}

/// Puts a row that is not there at a place, without memory.
fn insert(rows: &mut Vec<HeldLease>, place: usize, row: HeldLease)
    requires within { place ≤ vec_len rows.old }
    requires room { vec_len rows.old < vec_capacity rows.old }
    ensures items { rows.new.items ≡ insert rows.old.items place row }
    ensures len { vec_len rows.new ≡ vec_len rows.old + 1 }
    ensures capacity { vec_capacity rows.old ≤ vec_capacity rows.new }
{
    rows.insert(place, row).unwrap();
}

/// Puts a row at the place of its file.
fn put_lease(rows: &mut Vec<HeldLease>, row: &HeldLease) -> Result<(), NoMemory>
    requires { Ascends file_of_row rows.old.items }
    ensures put { OnOk result (map lease_in rows.new.items ≡ put_lease (lease_in row.now) (map lease_in rows.old.items)) }
    ensures ascends { Ascends file_of_row rows.new.items }
    ensures refused { OnErr result ((rows.new.items ≡ rows.old.items) × (vec_len rows.new ≡ vec_len rows.old)
        × (vec_capacity rows.new ≡ vec_capacity rows.old)) }
    ensures there { IsSome (lease_on row.now.lease.file (map lease_in rows.old.items)) → IsOk result }
    ensures kept { IsSome (lease_on row.now.lease.file (map lease_in rows.old.items)) → (vec_len rows.new ≡ vec_len rows.old)
        × (vec_capacity rows.new ≡ vec_capacity rows.old) }
    ensures room { vec_len rows.old < vec_capacity rows.old → IsOk result }
    ensures len { vec_len rows.new ≤ vec_len rows.old + 1 }
    ensures capacity { vec_capacity rows.old ≤ vec_capacity rows.new }
{
    let file = row.lease.file;
    let place = place_of(rows, file);
    match at(rows, place, file) {
        Some(_) => {
            replace(rows, place, *row);
            Ok(())
        }
        None => {
            rows.try_reserve(1)?;
            insert(rows, place, *row);
            Ok(())
        }
    }
}

/// Takes the row at a place out.
fn take_at(rows: &mut Vec<HeldLease>, place: usize)
    requires { place < vec_len rows.old }
    ensures items { rows.new.items ≡ remove rows.old.items place }
    ensures len { vec_len rows.new ≤ vec_len rows.old }
    ensures capacity { vec_capacity rows.new ≡ vec_capacity rows.old }
{
    rows.remove(place);
}

/// Takes the row of a file out.
fn take_lease(rows: &mut Vec<HeldLease>, file: FileId)
    requires { Ascends file_of_row rows.old.items }
    ensures taken { map lease_in rows.new.items ≡ drop_lease file (map lease_in rows.old.items) }
    ensures ascends { Ascends file_of_row rows.new.items }
    ensures len { vec_len rows.new ≤ vec_len rows.old }
    ensures capacity { vec_capacity rows.new ≡ vec_capacity rows.old }
{
    let place = place_of(rows, file);
    match at(rows, place, file) {
        Some(_) => take_at(rows, place),
        None => {}
    }
}
