//! The calls of an object in memory, which fails those that a test lists.

ghost use Rattle.std.specs.Prelude.{◌≡◌};
ghost use Rattle.nq_io.specs.Calls.{fresh, is_next_listed, after_call, after_fault};
ghost use Rattle.nq_io.specs.Faults.{Rose};

use std::marker::Model;

/// Which calls an object in memory was given, which of them are to fail, and how many faults it met. Its counts stand still
/// at the end of their type.
#[derive(Drop)]
pub struct Calls {
    made: u64,
    failing: Vec<u32>,
    faults: u64,
}

impl Model for Calls {
    ghost use Rattle.nq_io.specs.Calls.{CallCounts};

    ghost Value = { CallCounts };

    ghost view = { λ c. record { made = c.made; failing = c.failing.items; faults = c.faults } };
}

impl Calls {
    /// Before the first call. The calls whose numbers are listed are to fail, counted from 0.
    pub fn new(failing: Vec<u32>) -> Calls
        ensures { result ≡ fresh failing.items }
    {
        Calls {
            made: 0,
            failing,
            faults: 0,
        }
    }

    /// Whether the next call is to fail.
    pub fn is_next_listed(&self) -> bool
        ensures { result ≡ is_next_listed self.now }
    {
        self.failing
            .iter()
            .any(|number| u64::from(*number) == self.made)
    }

    /// Counts a call that does not fail.
    pub fn count_call(&mut self)
        ensures { self.new ≡ after_call self.old }
    {
        self.made = self.made.saturating_add(1);
    }

    /// Counts a call that fails, and its fault.
    pub fn count_fault(&mut self)
        ensures counted { self.new ≡ after_fault self.old }
        ensures rose { Rose self.old.faults self.new.faults }
    {
        self.made = self.made.saturating_add(1);
        self.faults = self.faults.saturating_add(1);
    }
}
