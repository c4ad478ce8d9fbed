//! The time that an answer may take.

use nq_observe::{Patience, Unseen};
use std::alloc::Global;
use std::time::Instant;

/// After so many seconds nothing more is begun, so that an answer takes at most five.
const MOST_SECONDS: u64 = 2;

/// The time since a request was read.
#[derive(Drop)]
pub(crate) struct Watch<'a> {
    rt: &'a HostRuntime,
    began: Option<Instant>,
}

impl Watch<'_> {
    /// A watch that begins now.
    pub(crate) fn new(rt: &HostRuntime) -> Watch<'_> {
        Watch {
            rt,
            began: Instant::now(rt).ok(),
        }
    }

    /// The memory of which answers are made.
    pub(crate) fn alloc(&self) -> Global {
        self.rt.alloc()
    }

    /// Whether there is time for one thing more.
    pub(crate) fn check(&mut self) -> Result<(), Unseen> {
        if self.is_over() {
            Err(Unseen::Time)
        } else {
            Ok(())
        }
    }
}

impl Patience for Watch<'_> {
    fn is_over(&mut self) -> bool {
        let Some(began) = self.began else {
            return false;
        };
        match began.elapsed(self.rt) {
            Ok(gone) => gone.as_secs() >= MOST_SECONDS,
            Err(_) => false,
        }
    }
}
