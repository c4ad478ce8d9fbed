//! A disk in memory.

ghost use Rattle.std.specs.Prelude.{◌≡◌, ◌+◌, ◌-◌, ◌<◌, ◌≤◌, ◌==◌, ◌||◌, max, [], ◌++◌, length, take, drop, Some, IfOk, OnOk, Ok, is_err, IsFalse};
ghost use Rattle.std.specs.Prelude.{vec_capacity};
ghost use Rattle.std.specs.List.{list_any};
ghost use Rattle.std.specs.Option.{ForSome};
ghost use Rattle.nq_io.specs.Faults.{Rose};
ghost use Rattle.nq_disk.specs.Bytes.{AreBytes, padded, written};
ghost use Rattle.nq_disk.specs.Calling.{Counts, LeavesNoMore, LeavesTorn, ReadsFront, IsAllThatIsLeft, Writes};
ghost use Rattle.nq_disk.specs.MemDisk.{GoesOn, Image, Left, after_call, after_fault, after_reading, after_refusal, after_syncing, after_writing, is_refused};
ghost use Rattle.nq_disk.specs.MemDisk.{is_stopped, passes_room, reads};
ghost use Rattle.nq_disk.specs.MemLaws.{goes-on-itself, goes-on-further, never-silent, reads-may-stay, left-now, left-ends, left-parts, left-joins};

use crate::copying::copy_in;
use crate::history::{Deed, History};
use crate::{Disk, DiskFault, NoMemory};
use std::alloc::Global;
use std::marker::Model;
use std::snapshot::Snapshot;

/// How much a disk in memory takes: the most bytes that it has, the most calls, and the most bytes written in all.
#[derive(Clone, Copy)]
pub struct Room {
    pub size: u64,
    pub calls: u32,
    pub written: u64,
}

/// A disk in memory, which tells its bytes. It fails exactly the calls whose numbers are listed, counted from 0, every call
/// from the number of its stop on, and a call that would pass its room. A call that fails changes no byte. Contracts see the
/// bytes that it had at first and what was done since, so that they can say what a stop at each moment leaves. Neither takes memory.
#[derive(Drop)]
pub struct MemDisk {
    first: Snapshot<Vec<u8>>,
    history: History,
    bytes: Vec<u8>,
    written: u64,
    room: Room,
    made: u32,
    failing: Vec<u32>,
    stop: Option<u32>,
    faults: u64,
}

impl Model for MemDisk {
    ghost use Rattle.std.specs.Prelude.{◌≡◌, ◌≤◌, length, vec_capacity};
    ghost use Rattle.nq_disk.specs.MemDisk.{StoredDisk, bytes_of, all_written};

    ghost Value = { StoredDisk };

    ghost view = { λ d. record {
      first = d.first.value.items;
      events = d.history.events;
      room = d.room;
      made = d.made;
      failing = d.failing.items;
      stop = d.stop;
      faults = d.faults;
    } };

    ghost invariant = { λ d. record {
      reads : d.bytes.items ≡ bytes_of d.first.value.items d.history.events;
      fits : length d.bytes.items ≤ d.room.size;
      space : d.room.size ≤ vec_capacity d.bytes;
      all : d.written ≡ all_written d.history.events;
      short : d.written ≤ d.room.written;
    } };
}

/// Adds zeros up to a length.
fn lengthen(disk: &mut Vec<u8>, len: usize)
    requires { len ≤ vec_capacity disk.old }
    ensures items { disk.new.items ≡ padded len disk.old.items }
    ensures capacity { vec_capacity disk.old ≤ vec_capacity disk.new }
{
    if disk.len() < len {
        disk.resize(len, 0).unwrap();
    }
}

/// Writes bytes over others, and past their end.
fn write_over(disk: &mut Vec<u8>, place: usize, bytes: &[u8])
    requires { place + length bytes.now ≤ vec_capacity disk.old }
    ensures items { disk.new.items ≡ written place bytes.now disk.old.items }
    ensures short { length disk.new.items ≤ max (length disk.old.items) (place + length bytes.now) }
    ensures capacity { vec_capacity disk.old ≤ vec_capacity disk.new }
{
    if bytes.is_empty() {
        return;
    }
    lengthen(disk, place + bytes.len());
    copy_in(disk, place, bytes);
}

/// How many bytes these are.
fn count_of(bytes: &[u8]) -> u64
    ensures size { result ≡ length bytes.now }
    ensures bytes { AreBytes bytes.now }
{
    bytes.len() as u64
}

/// Whether a call's number is at the stop, or past it.
fn is_stopped(made: u32, stop: Option<u32>) -> bool
    ensures { result ≡ is_stopped made stop }
{
    match stop {
        None => false,
        Some(stop) => stop <= made,
    }
}

/// Whether a call's number is among these.
fn is_listed(made: u32, numbers: &[u32]) -> bool
    ensures { result ≡ list_any (λ number. number == made) numbers.now }
{
    numbers.iter().any(|number| *number == made)
}

impl MemDisk {
    /// A disk of these bytes, with room for what is to come, for which it takes the memory. The calls whose numbers are listed
    /// are to fail, counted from 0, and every call from number `stop` on.
    ///
    /// # Errors
    ///
    /// Only want of memory.
    pub fn new(
        alloc: Global,
        bytes: Vec<u8>,
        room: Room,
        failing: Vec<u32>,
        stop: Option<u32>,
    ) -> Result<MemDisk, NoMemory>
        requires { length bytes.items ≤ room.size }
        ensures { IfOk result (λ disk. disk
            ≡ record { first = bytes.items; events = []; room = room; made = 0; failing = failing.items; stop = stop; faults = 0 }) }
    {
        let mut held = Vec::with_capacity(alloc, room.size as usize)?;
        held.extend_from_slice(&bytes)?;
        Ok(MemDisk {
            first: Snapshot::of(&bytes),
            history: History::new(),
            bytes: held,
            written: 0,
            room,
            made: 0,
            failing,
            stop,
            faults: 0,
        })
    }

    /// The bytes as they read.
    pub fn bytes(&self) -> &[u8]
        ensures { result.now ≡ reads self.now }
    {
        &self.bytes
    }

    /// How many bytes it has.
    fn len(&self) -> u64
        ensures size { result ≡ length (reads self.now) }
        ensures bytes { AreBytes (reads self.now) }
    {
        count_of(self.bytes())
    }

    /// How many calls were made, those that failed included. The count stands still at `u32::MAX`.
    pub fn calls(&self) -> u32
        ensures { result ≡ self.now.made }
    {
        self.made
    }

    /// Whether the next call fails by its number.
    fn is_refused(&self) -> bool
        ensures { result ≡ is_refused self.now }
    {
        self.made >= self.room.calls
            || is_stopped(self.made, self.stop)
            || is_listed(self.made, &self.failing)
    }

    /// Whether a write passes the room.
    fn passes_room(&self, place: u64, count: usize) -> bool
        ensures { result ≡ passes_room self.now place count }
    {
        let count = count as u64;
        self.room.size < place
            || self.room.size - place < count
            || self.room.written - self.written < count
    }

    /// Writes, and notes and counts it.
    fn take_write(&mut self, place: u64, bytes: &[u8])
        requires taken { IsFalse (is_refused self.old) }
        requires fits { IsFalse (passes_room self.old place (length bytes.now)) }
        ensures { self.new ≡ after_writing (Ok tt) place bytes.now self.old }
    {
        write_over(&mut self.bytes, place as usize, bytes);
        self.history = self.history.with(&Deed::Wrote { place, bytes });
        self.written += bytes.len() as u64;
        self.made += 1;
    }

    /// Counts a write that fails, and notes it where there is room.
    fn refuse_write(&mut self, place: u64, count: usize) -> DiskFault
        ensures counted { self.new ≡ after_refusal place count self.old }
        ensures rose { Rose self.old.faults self.new.faults }
    {
        if self.made < self.room.calls {
            self.history = self.history.with(&Deed::Tore { place, count });
        }
        self.made = self.made.saturating_add(1);
        self.faults = self.faults.saturating_add(1);
        DiskFault::Failed
    }

    /// Notes a sync, and counts it.
    fn take_sync(&mut self)
        requires { IsFalse (is_refused self.old) }
        ensures { self.new ≡ after_syncing (Ok tt) self.old }
    {
        self.history = self.history.with(&Deed::Synced);
        self.made += 1;
    }

    /// Counts a call that does not fail.
    fn count_call(&mut self)
        ensures { self.new ≡ after_call self.old }
    {
        self.made = self.made.saturating_add(1);
    }

    /// Counts a call that fails, and its fault.
    fn fail(&mut self) -> DiskFault
        ensures counted { self.new ≡ after_fault self.old }
        ensures rose { Rose self.old.faults self.new.faults }
    {
        self.made = self.made.saturating_add(1);
        self.faults = self.faults.saturating_add(1);
        DiskFault::Failed
    }
}

/// Reads the bytes from a place on, as many as there are and fit, and says how many.
fn copy_out(disk: &[u8], place: u64, into: &mut [u8]) -> usize
    ensures told { ReadsFront result place disk.now into.new }
    ensures within { result ≤ length into.old }
    ensures rest { drop result into.new ≡ drop result into.old }
{
    let len = disk.len();
    if len as u64 <= place {
        return 0;
    }
    let left = &disk[place as usize..];
    let count = left.len().min(into.len());
    into[..count].copy_from_slice(&left[..count]);
    count
}

impl Disk for MemDisk {
    ghost told = { λ disk. Some (reads disk) };

    ghost faults = { λ disk. disk.faults };

    ghost may_leave = { λ disk. Image disk.first disk.events };

    ghost follows = { GoesOn };

    ghost leaves = { Left };

    ghost follows_itself = { goes-on-itself };

    ghost follows_on = { goes-on-further };

    ghost rises = { λ first last goes. goes.rises };

    ghost silent = { never-silent };

    ghost told_may_stay = { reads-may-stay };

    ghost leaves_now = { left-now };

    ghost leaves_ends = { left-ends };

    ghost parts = { left-parts };

    ghost joins = { left-joins };

    fn size(&mut self) -> Result<u64, DiskFault>
        // As of any disk.
        ensures told { ForSome (Some (reads self.old)) (λ disk. IfOk result (λ size. size ≡ length disk)) }
        ensures bytes { OnOk result (ForSome (Some (reads self.old)) AreBytes) }
        ensures same { Some (reads self.new) ≡ Some (reads self.old) }
        ensures cause { Counts result self.old.faults self.new.faults }
        ensures follows { GoesOn self.old self.new }
        ensures leaves { LeavesNoMore (Image self.old.first self.old.events) (Left self.old self.new) }

        // Of this one.
        ensures fails { is_err result ≡ is_refused self.old }
        ensures disk { self.new ≡ after_reading result self.old }
    {
        if self.is_refused() {
            return Err(self.fail());
        }
        self.count_call();
        Ok(self.len())
    }

    fn read(&mut self, place: u64, into: &mut [u8]) -> Result<usize, DiskFault>
        // As of any disk.
        ensures told { ForSome (Some (reads self.old)) (λ disk. IfOk result (λ count. ReadsFront count place disk into.new)) }
        ensures within { IfOk result (λ count. count ≤ length into.old) }
        ensures rest { IfOk result (λ count. drop count into.new ≡ drop count into.old) }
        ensures same { Some (reads self.new) ≡ Some (reads self.old) }
        ensures cause { Counts result self.old.faults self.new.faults }
        ensures follows { GoesOn self.old self.new }
        ensures leaves { LeavesNoMore (Image self.old.first self.old.events) (Left self.old self.new) }

        // Of this one.
        ensures fails { is_err result ≡ is_refused self.old }
        ensures disk { self.new ≡ after_reading result self.old }
    {
        if self.is_refused() {
            return Err(self.fail());
        }
        self.count_call();
        Ok(copy_out(&self.bytes, place, into))
    }

    fn write_at(&mut self, place: u64, bytes: &[u8]) -> Result<(), DiskFault>
        // As of any disk.
        ensures writes { Writes result place bytes.now (Some (reads self.old)) (Some (reads self.new)) }
        ensures cause { Counts result self.old.faults self.new.faults }
        ensures follows { GoesOn self.old self.new }
        ensures leaves { LeavesTorn place (length bytes.now) (Image self.old.first self.old.events) (Left self.old self.new) }

        // Of this one.
        ensures fails { is_err result ≡ (is_refused self.old || passes_room self.old place (length bytes.now)) }
        ensures disk { self.new ≡ after_writing result place bytes.now self.old }
    {
        if self.is_refused() || self.passes_room(place, bytes.len()) {
            return Err(self.refuse_write(place, bytes.len()));
        }
        self.take_write(place, bytes);
        Ok(())
    }

    fn sync(&mut self) -> Result<(), DiskFault>
        // As of any disk.
        ensures settles { OnOk result (IsAllThatIsLeft (Some (reads self.old)) (Image self.new.first self.new.events)) }
        ensures same { Some (reads self.new) ≡ Some (reads self.old) }
        ensures cause { Counts result self.old.faults self.new.faults }
        ensures follows { GoesOn self.old self.new }
        ensures leaves { LeavesNoMore (Image self.old.first self.old.events) (Left self.old self.new) }

        // Of this one.
        ensures fails { is_err result ≡ is_refused self.old }
        ensures disk { self.new ≡ after_syncing result self.old }
    {
        if self.is_refused() {
            return Err(self.fail());
        }
        self.take_sync();
        Ok(())
    }
}
