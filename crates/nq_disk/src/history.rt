//! What was done to a disk in memory, as contracts alone see it.

ghost use Rattle.std.specs.Prelude.{◌≡◌, List, [], ◌∷◌};
ghost use Rattle.std.specs.Borrow.{ftrue};
ghost use Rattle.nq_disk.specs.MemDisk.{Event};

use std::marker::Model;

/// One thing that was done.
#[derive(Clone, Copy, Drop)]
pub(crate) enum Deed<'a> {
    Wrote { place: u64, bytes: &'a [u8] },
    Tore { place: u64, count: usize },
    Synced,
}

/// What was done to a disk in memory, the newest first. Contracts alone see it, so it takes no memory and no time.
#[derive(Drop)]
pub(crate) struct History {
    ghost events: { List Event },
}

impl Model for History {
    ghost also_owns = { λ _. ftrue };
}

impl History {
    ghost use Rattle.nq_disk.specs.History.{event_of};

    /// Nothing was done yet.
    pub(crate) fn new() -> History
        ensures { result.events ≡ [] }
    {
        History {}
    }

    /// And then this was done.
    pub(crate) fn with(&self, _deed: &Deed<'_>) -> History
        ensures { result.events ≡ event_of _deed.now ∷ self.now.events }
    {
        History {}
    }
}
