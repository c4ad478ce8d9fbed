//! A clock in memory.

ghost use Rattle.std.specs.Prelude.{◌≡◌, ◌<◌, length, Some};
ghost use Rattle.nq_clock.specs.Clock.{AreRising, first_of_readings};

use crate::clock::Clock;
use nq_base::Ticks;
use std::marker::Model;

/// A clock that gives the readings that it is told, and then the last of them for ever. Contracts see the readings to
/// come, and how many were asked for.
#[derive(Drop)]
pub struct MemClock {
    readings: Vec<Ticks>,
    place: usize,
    reads: u64,
}

impl Model for MemClock {
    ghost use Rattle.std.specs.Prelude.{◌<◌, drop, length};
    ghost use Rattle.nq_clock.specs.Clock.{AreRising, StoredClock};

    ghost Value = { StoredClock };

    ghost view = { λ c. record { readings = drop c.place c.readings.items; reads = c.reads } };

    ghost invariant = { λ c. (c.place < length c.readings.items) × AreRising 0 (drop c.place c.readings.items) };
}

impl MemClock {
    /// A clock with these readings. There is one at least, and none is below the one before it or from 2^62 on.
    pub fn new(readings: Vec<Ticks>) -> MemClock
        requires some { 0 < length readings.items }
        requires rising { AreRising 0 readings.items }
        ensures { result ≡ record { readings = readings.items; reads = 0 } }
    {
        MemClock {
            readings,
            place: 0,
            reads: 0,
        }
    }
}

impl Clock for MemClock {
    ghost floor = { λ clock. first_of_readings clock.readings };

    ghost readings = { λ clock. Some clock.readings };

    ghost reads = { λ clock. clock.reads };

    fn now(&mut self) -> Ticks {
        self.reads = self.reads.saturating_add(1);
        let reading = self.readings[self.place];
        if self.place + 1 < self.readings.len() {
            self.place += 1;
        }
        reading
    }
}
