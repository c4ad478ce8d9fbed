//! What a clock is.

ghost use Rattle.std.specs.Prelude.{◌≡◌, ℕ, ◌<◌, ◌≤◌, ◌^◌, List, Option};
ghost use Rattle.nq_io.specs.Faults.{count_up};
ghost use Rattle.nq_clock.specs.Clock.{Reads};

use nq_base::Ticks;

/// A clock. It never falls, and its readings are below 2^62.
pub trait Clock {
    /// No later reading is below this.
    ghost floor: { Self → ℕ };

    /// The readings to come, where the clock tells them. The last of them stays.
    ghost readings: { Self → Option (List ℕ) };

    /// How many readings it was asked for: a count that stands still at the end of its type.
    ghost reads: { Self → ℕ };

    /// The time.
    fn now(&mut self) -> Ticks
        ensures rises { floor self.old ≤ result }
        ensures floor { result ≤ floor self.new }
        ensures below { result < 2 ^ 62 }
        ensures told { Reads result (readings self.old) (readings self.new) }
        ensures reads { reads self.new ≡ count_up (reads self.old) };
}
