//! Who looks on while a server serves.

ghost use Rattle.std.specs.Prelude.{None, false};

use crate::extending::Extension;
use nq_base::{Host, Journal, Ticks};
use nq_keeper::{KeepFault, Keeper};
use nq_server::Server;
use nq_wire::Outbox;
use std::alloc::Global;

/// Somebody who is told of each turn: who counts, keeps a journal, or looks on. No contract speaks of what a watcher does with that.
pub trait Watcher<L> {
    /// A turn has taken in all that it takes in, and sent nothing of what came of it. It has left these entries so far, and what they tell
    /// is kept. It is not told where the tick of the turn failed.
    fn entered(&mut self, log: &Journal);

    /// A turn was taken over this link. The clock of the server shows this time, its table has so many rows, and the turn left these
    /// entries.
    fn turned(&mut self, link: &L, now: Ticks, rows: usize, log: &Journal);
}

/// A watcher who does nothing, and answers nothing.
#[derive(Clone, Copy)]
pub struct Nobody;

impl<L> Watcher<L> for Nobody {
    fn entered(&mut self, _log: &Journal) {}

    fn turned(&mut self, _link: &L, _now: Ticks, _rows: usize, _log: &Journal) {}
}

impl Extension for Nobody {
    ghost owns = { λ _. false };

    ghost replies = { λ _ _ _. None };

    fn is_own(&self, _datagram: &[u8]) -> bool {
        false
    }

    fn answer<K: Keeper>(
        &self,
        _alloc: Global,
        server: &mut Server<K>,
        _host: Host,
        _datagram: &[u8],
        _out: &mut Outbox,
    ) -> Result<(), KeepFault> {
        server.pause();
        Ok(())
    }
}
