//! A source in memory.

ghost use Rattle.std.specs.Prelude.{◌≡◌, ◌<◌, ◌++◌, length, take, drop, min, Some};
ghost use Rattle.nq_io.specs.Calls.{fresh};
ghost use Rattle.nq_io.specs.MemSource.{answer_of, source_after, buffer_after};
ghost use Rattle.nq_io.specs.Source.{Reads, CountsRead};

use crate::calls::Calls;
use crate::{Got, Source};
use std::marker::Model;

/// A source in memory, which tells its bytes. It fails exactly the calls that it is told to fail.
#[derive(Drop)]
pub struct MemSource {
    bytes: Vec<u8>,
    place: usize,
    calls: Calls,
}

impl Model for MemSource {
    ghost use Rattle.std.specs.Prelude.{◌≤◌, length, drop};
    ghost use Rattle.nq_io.specs.MemSource.{StoredSource};

    ghost Value = { StoredSource };

    ghost view = { λ s. record { left = drop s.place s.bytes.items; calls = s.calls } };

    ghost invariant = { λ s. s.place ≤ length s.bytes.items };
}

impl MemSource {
    /// A source of these bytes. It fails the calls whose numbers are listed, counted from 0.
    pub fn new(bytes: Vec<u8>, failing: Vec<u32>) -> MemSource
        ensures { result ≡ record { left = bytes.items; calls = fresh failing.items } }
    {
        MemSource {
            bytes,
            place: 0,
            calls: Calls::new(failing),
        }
    }

    // Moves as many bytes as there are and fit, and says how many.
    fn move_front(&mut self, out: &mut [u8]) -> usize
        ensures count { result ≡ min (length self.old.left) (length out.old) }
        ensures copied { out.new ≡ take result self.old.left ++ drop result out.old }
        ensures moved { self.new ≡ record self.old { left = drop result self.old.left } }
    {
        let left = &self.bytes[self.place..];
        let count = left.len().min(out.len());
        out[..count].copy_from_slice(&left[..count]);
        self.place += count;
        count
    }
}

impl Source for MemSource {
    ghost left = { λ source. Some source.left };

    ghost faults = { λ source. source.calls.faults };

    fn read(&mut self, out: &mut [u8]) -> Got
        requires { 0 < length out.old }

        // As of any source.
        ensures reads { Reads result out.old out.new (Some self.old.left) (Some self.new.left) }
        ensures cause { CountsRead result self.old.calls.faults self.new.calls.faults }

        // Of this one.
        ensures answer { result ≡ answer_of self.old (length out.old) }
        ensures source { self.new ≡ source_after self.old result }
        ensures buffer { out.new ≡ buffer_after self.old result out.old }
    {
        if self.calls.is_next_listed() {
            self.calls.count_fault();
            return Got::Failed;
        }
        self.calls.count_call();
        match self.move_front(out) {
            0 => Got::End,
            count => Got::Bytes(count),
        }
    }
}
