//! The machine's clock.

ghost use Rattle.std.specs.Prelude.{◌≡◌, ◌<◌, ◌≤◌, ◌^◌, ◌-◌, None};
ghost use Rattle.std.specs.Time.{instant_nanos};
ghost use Rattle.nq_io.specs.Faults.{count_up};
ghost use Rattle.nq_clock.specs.Clock.{Reads};
ghost use Rattle.nq_clock.specs.StdClock.{after_reading, begun, seconds_between};

use crate::clock::Clock;
use nq_base::Ticks;
use std::marker::Model;
use std::rt::Clock as MachineClock;
use std::time::Instant;

/// One more than the last reading that a clock gives.
const READINGS_END: u64 = 0x4000_0000_0000_0000;

/// The machine's clock, in whole seconds since this was made, or since the machine's clock was first read where that
/// failed then. Where the machine's clock fails, it gives its last reading again. It stands still at 2^62 - 1.
/// Contracts see the first moment that the machine gave, the one that it gave at the last reading, that reading, and how
/// many were asked for.
#[derive(Drop)]
pub struct StdClock<R> {
    machine: R,
    began: Option<Instant>,
    moment: Option<Instant>,
    last: Ticks,
    reads: u64,
}

impl<R> Model for StdClock<R> {
    ghost use Rattle.std.specs.Prelude.{◌<◌, ◌^◌, option_map};
    ghost use Rattle.std.specs.Time.{instant_nanos};
    ghost use Rattle.nq_clock.specs.StdClock.{SeenClock};

    ghost Value = { SeenClock };

    ghost view = { λ c. record {
      began = option_map instant_nanos c.began;
      machine = option_map instant_nanos c.moment;
      last = c.last;
      reads = c.reads;
    } };

    ghost invariant = { λ c. c.last < 2 ^ 62 };
}

impl<R: MachineClock> StdClock<R> {
    /// A clock that begins now, at 0.
    pub fn new(machine: R) -> StdClock<R>
        ensures { result ≡ begun result.machine }
    {
        let moment = Instant::now(&machine).ok();
        StdClock {
            machine,
            began: moment,
            moment,
            last: Ticks(0),
            reads: 0,
        }
    }
}

/// Whole seconds from one moment to another, below the end of readings.
fn seconds_between(began: Instant, now: Instant) -> u64
    ensures { result ≡ seconds_between (instant_nanos began) (instant_nanos now) }
{
    now.duration_since(began).as_secs().min(READINGS_END - 1)
}

impl<R: MachineClock> Clock for StdClock<R> {
    ghost floor = { λ clock. clock.last };

    ghost readings = { λ _. None };

    ghost reads = { λ clock. clock.reads };

    fn now(&mut self) -> Ticks
        // As of any clock.
        ensures rises { self.old.last ≤ result }
        ensures floor { result ≤ self.new.last }
        ensures below { result < 2 ^ 62 }
        ensures told { Reads result None None }
        ensures reads { self.new.reads ≡ count_up self.old.reads }

        // Of this one.
        ensures reading { self.new ≡ after_reading self.new.machine self.old }
        ensures last { result ≡ self.new.last }
    {
        self.reads = self.reads.saturating_add(1);
        self.moment = Instant::now(&self.machine).ok();
        if let Some(instant) = self.moment {
            let began = self.began.unwrap_or(instant);
            self.began = Some(began);
            self.last = self.last.max(Ticks(seconds_between(began, instant)));
        }
        self.last
    }
}
