//! A disk that notes what is written.

ghost use Rattle.std.specs.Prelude.{◌≡◌, Some};
ghost use Rattle.nq_disk.specs.MemDisk.{GoesOn, Image, Left, reads};
ghost use Rattle.nq_disk.specs.MemLaws.{goes-on-itself, goes-on-further, never-silent, reads-may-stay, left-now, left-ends, left-parts, left-joins};

use crate::page::copy_of;
use nq_disk::{Disk, DiskFault, MemDisk};
use std::alloc::Global;
use std::marker::Model;

/// What was written by a call.
#[derive(Drop)]
pub(crate) struct Write {
    pub(crate) place: usize,
    pub(crate) bytes: Vec<u8>,
}

/// The moment of a call: how many writes a sync settled before it, how many came before it, and how many with it.
#[derive(Clone, Copy)]
pub(crate) struct Moment {
    pub(crate) settled: usize,
    pub(crate) before: usize,
    pub(crate) with_it: usize,
}

/// A disk in memory that notes its writes, and the moment of each call. Contracts see the disk alone.
#[derive(Drop)]
pub(crate) struct NotingDisk {
    disk: MemDisk,
    alloc: Global,
    pub(crate) writes: Vec<Write>,
    pub(crate) moments: Vec<Moment>,
    settled: usize,
}

impl Model for NotingDisk {
    ghost use Rattle.nq_disk.specs.MemDisk.{StoredDisk};

    ghost Value = { StoredDisk };

    ghost view = { λ d. d.disk };
}

impl NotingDisk {
    /// A disk that was not asked yet.
    pub(crate) fn new(alloc: Global, disk: MemDisk) -> NotingDisk {
        NotingDisk {
            disk,
            alloc,
            writes: Vec::new(alloc),
            moments: Vec::new(alloc),
            settled: 0,
        }
    }

    /// The bytes as they read.
    pub(crate) fn bytes(&self) -> &[u8] {
        self.disk.bytes()
    }

    /// Notes the moment of a call, of which so many writes were noted.
    fn note(&mut self, came: usize)
        ensures { self.new ≡ self.old }
    {
        let with_it = self.writes.len();
        let moment = Moment {
            settled: self.settled,
            before: with_it.saturating_sub(came),
            with_it,
        };
        self.moments.push(moment).ok();
    }
}

impl Disk for NotingDisk {
    ghost told = { λ disk. Some (reads disk) };

    ghost faults = { λ disk. disk.faults };

    ghost may_leave = { λ disk. Image disk.first disk.events };

    ghost follows = { GoesOn };

    ghost leaves = { Left };

    ghost follows_itself = { goes-on-itself };

    ghost follows_on = { goes-on-further };

    ghost rises = { λ first last goes. goes.rises };

    ghost silent = { never-silent };

    ghost told_may_stay = { reads-may-stay };

    ghost leaves_now = { left-now };

    ghost leaves_ends = { left-ends };

    ghost parts = { left-parts };

    ghost joins = { left-joins };

    fn size(&mut self) -> Result<u64, DiskFault> {
        self.note(0);
        self.disk.size()
    }

    fn read(&mut self, place: u64, into: &mut [u8]) -> Result<usize, DiskFault> {
        self.note(0);
        self.disk.read(place, into)
    }

    fn write_at(&mut self, place: u64, bytes: &[u8]) -> Result<(), DiskFault> {
        let write = Write {
            place: place as usize,
            bytes: copy_of(self.alloc, bytes),
        };
        self.writes.push(write).ok();
        self.note(1);
        self.disk.write_at(place, bytes)
    }

    fn sync(&mut self) -> Result<(), DiskFault> {
        self.note(0);
        self.settled = self.writes.len();
        self.disk.sync()
    }
}
