//! By how much the server's clock leads one host's.

ghost use Rattle.std.specs.Prelude.{◌≡◌, ◌≤◌, IfOk, IfSome};
ghost use Rattle.nq_clock.specs.Counts.{no_counts, after_server_tick, after_host_tick, one_on};

use circular_buffer::HeapCircularBuffer;
use nq_base::NoMemory;
use std::alloc::Global;
use std::marker::Model;

/// By how many ticks more than a host's clock the server's may run: so many counts are kept.
const SKEW: usize = 3;

/// For one host the fewest ticks of its clock in which the server's clock gained one, two and three ticks.
#[derive(Drop)]
pub(crate) struct Leads {
    counts: HeapCircularBuffer<Option<u32>>,
}

impl Model for Leads {
    ghost use Rattle.std.specs.Prelude.{◌≡◌, length};
    ghost use Rattle.nq_clock.specs.Counts.{Counts, counts_of, AreAtMost};

    ghost Value = { Counts };

    ghost view = { λ l. counts_of l.counts.items };

    ghost invariant = { λ l. (l.counts.capacity ≡ 3) × (length l.counts.items ≡ 3) × AreAtMost 600 l.counts.items };
}

/// One tick of the host's clock more, within the window.
fn one_on(count: Option<u32>, window: u32) -> Option<u32>
    ensures { result ≡ one_on window count }
{
    match count {
        Some(ticks) if ticks < window => Some(ticks + 1),
        _ => None,
    }
}

impl Leads {
    /// Before any tick.
    pub(crate) fn new(alloc: Global) -> Result<Leads, NoMemory>
        ensures { IfOk result (λ leads. leads ≡ no_counts) }
    {
        let Ok(mut counts) = HeapCircularBuffer::with_capacity(alloc, SKEW) else {
            return Err(NoMemory::Memory);
        };
        counts.push_back(None);
        counts.push_back(None);
        counts.push_back(None);
        Ok(Leads { counts })
    }

    /// The server's clock ticks.
    pub(crate) fn server_tick(&mut self)
        ensures { self.new ≡ after_server_tick self.old }
    {
        self.counts.push_front(Some(0));
    }

    /// The host's clock ticks.
    pub(crate) fn host_tick(&mut self, window: u32)
        requires { window ≤ 600 }
        ensures { self.new ≡ after_host_tick window self.old }
    {
        self.counts.pop_front();
        let two_more = self.counts.pop_front().flatten();
        let three_more = self.counts.pop_front().flatten();
        self.counts.push_back(one_on(two_more, window));
        self.counts.push_back(one_on(three_more, window));
        self.counts.push_back(None);
    }

    /// The fewest ticks of the host's clock in which the server's clock gained all that it may.
    pub(crate) fn three_more(&self) -> Option<u32>
        ensures is { result ≡ self.now.three_more }
        ensures few { IfSome result (λ ticks. ticks ≤ 600) }
    {
        self.counts.back().copied().flatten()
    }
}
