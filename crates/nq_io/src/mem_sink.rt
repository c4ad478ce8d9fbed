//! A sink in memory.

ghost use Rattle.std.specs.Prelude.{◌≡◌, [], Some, IfOk};
ghost use Rattle.nq_io.specs.Calls.{fresh};
ghost use Rattle.nq_io.specs.MemSink.{answer_of, sink_after};
ghost use Rattle.nq_io.specs.Sink.{Puts, CountsPut};

use crate::calls::Calls;
use crate::{NoMemory, Put, Sink};
use std::alloc::Global;
use std::marker::Model;

/// A sink in memory, which tells its bytes. It fails exactly the calls that it is told to fail and those whose bytes
/// do not fit in its room, and a call that fails appends nothing.
#[derive(Drop)]
pub struct MemSink {
    held: Vec<u8>,
    room: usize,
    calls: Calls,
}

impl Model for MemSink {
    ghost use Rattle.std.specs.Prelude.{◌≤◌, length, vec_capacity};
    ghost use Rattle.nq_io.specs.MemSink.{StoredSink};

    ghost Value = { StoredSink };

    ghost view = { λ s. record { held = s.held.items; room = s.room; calls = s.calls } };

    ghost invariant = { λ s. (length s.held.items ≤ s.room) × (s.room ≤ vec_capacity s.held) };
}

impl MemSink {
    /// An empty sink with room for this many bytes, for which it takes the memory. It fails the calls whose numbers
    /// are listed, counted from 0.
    pub fn new(alloc: Global, room: usize, failing: Vec<u32>) -> Result<MemSink, NoMemory>
        ensures { IfOk result (λ sink. sink ≡ record { held = []; room = room; calls = fresh failing.items }) }
    {
        let held = Vec::with_capacity(alloc, room)?;
        Ok(MemSink {
            held,
            room,
            calls: Calls::new(failing),
        })
    }

    /// The bytes that were put into it.
    pub fn bytes(&self) -> &[u8]
        ensures { result.now ≡ self.now.held }
    {
        &self.held
    }
}

impl Sink for MemSink {
    ghost held = { λ sink. Some sink.held };

    ghost faults = { λ sink. sink.calls.faults };

    fn put(&mut self, bytes: &[u8]) -> Put
        // As of any sink.
        ensures puts { Puts result bytes.now (Some self.old.held) (Some self.new.held) }
        ensures cause { CountsPut result self.old.calls.faults self.new.calls.faults }

        // Of this one.
        ensures answer { result ≡ answer_of self.old bytes.now }
        ensures sink { self.new ≡ sink_after self.old bytes.now result }
    {
        if self.calls.is_next_listed() || bytes.len() > self.room - self.held.len() {
            self.calls.count_fault();
            return Put::Failed;
        }
        self.calls.count_call();
        self.held.extend_from_slice(bytes).unwrap();
        Put::All
    }
}
