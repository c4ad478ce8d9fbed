//! A boot that recovers, and one that serves.

ghost use Rattle.std.specs.Prelude.{◌≡◌, ◌<◌, ◌≤◌, ◌^◌, ℕ};
ghost use Rattle.nq_keeper.specs.Recovery.{IsTerm, after_write};

use nq_base::Ticks;
use std::marker::Model;

/// How long a recovery goes on after a write was heard, in ticks (Macklem 1994).
const WRITE_SLACK: u64 = 5;

/// A boot that recovers: it has to wait for the leases of the boot that served last. Its own longest term is 5 to 600 ticks.
#[derive(Drop)]
pub struct Recovering {
    boot: u32,
    opened: u32,
    longest: u32,
    until: Ticks,
    heard: Ticks,
}

impl Model for Recovering {
    ghost use Rattle.nq_keeper.specs.Recovery.{IsTerm, Recovery};

    ghost Value = { Recovery };

    ghost view = { λ r. record { boot = r.boot; opened = r.opened; longest = r.longest; until = r.until; heard = r.heard } };

    ghost invariant = { λ r. IsTerm r.longest };
}

/// A boot that serves.
#[derive(Drop)]
pub struct Serving {
    boot: u32,
}

impl Model for Serving {
    ghost use Rattle.std.specs.Prelude.{ℕ};

    ghost Value = { ℕ };

    ghost view = { λ s. s.boot };
}

impl Serving {
    /// A boot that may serve.
    pub(crate) fn new(boot: u32) -> Serving
        ensures { result ≡ boot }
    {
        Serving { boot }
    }

    /// The number of the boot.
    pub fn boot(&self) -> u32
        ensures { result ≡ self.now }
    {
        self.boot
    }
}

impl Recovering {
    /// A boot that has to wait until this time at least.
    pub(crate) fn new(
        boot: u32,
        opened: u32,
        longest: u32,
        until: Ticks,
        heard: Ticks,
    ) -> Recovering
        requires { IsTerm longest }
        ensures { result ≡ record { boot = boot; opened = opened; longest = longest; until = until; heard = heard } }
    {
        Recovering {
            boot,
            opened,
            longest,
            until,
            heard,
        }
    }

    /// The number of the boot.
    pub fn boot(&self) -> u32
        ensures { result ≡ self.now.boot }
    {
        self.boot
    }

    /// The boot that served last.
    pub fn opened(&self) -> u32
        ensures { result ≡ self.now.opened }
    {
        self.opened
    }

    /// The longest term of this boot, in ticks.
    pub fn longest(&self) -> u32
        ensures longest { result ≡ self.now.longest }
        ensures term { IsTerm result }
    {
        self.longest
    }

    /// When the recovery is over at the earliest.
    pub fn until(&self) -> Ticks
        ensures { result ≡ self.now.until }
    {
        self.until
    }

    /// When a write was last heard; when the boot began, where none was.
    pub fn heard(&self) -> Ticks
        ensures { result ≡ self.now.heard }
    {
        self.heard
    }

    /// A write was heard now: the recovery goes on for the write slack at least.
    #[tactic(auto, unfolding(crate::specs::Recovery::after_write))]
    pub fn wrote(&mut self, now: Ticks)
        requires { now < 2 ^ 62 }
        ensures { self.new ≡ after_write self.old now }
    {
        self.until = Ticks(self.until.0.max(now.0 + WRITE_SLACK));
        self.heard = now;
    }
}

/// How a recovery goes on.
#[derive(Drop)]
pub enum Finish {
    /// It is over, and the boot serves.
    Opened(Serving),
    /// It is not over yet.
    Wait(Recovering),
    /// The keeper failed; nothing was kept.
    Fault(Recovering),
    /// Memory was wanting; nothing was kept.
    Memory(Recovering),
}
