//! A std writer as a sink.

ghost use Rattle.std.specs.Prelude.{◌≡◌, Option, true, false, IsSome};
ghost use Rattle.nq_io.specs.Faults.{Rose, count_up};
ghost use Rattle.nq_io.specs.Sink.{Puts, CountsPut, faults_after};
ghost use Rattle.nq_io.specs.Known.{told_where};
ghost use Rattle.nq_io.specs.StdSink.{Writes};

use crate::{Put, Sink};
use std::io::Write;
use std::marker::Model;

/// A std writer as a sink. Each error of the writer is a fault, and so is a write that takes no byte. The count of faults
/// stands still at `u64::MAX`.
#[derive(Drop)]
pub struct StdSink<W: Write> {
    writer: W,
    tells: bool,
    faults: u64,
}

impl<W: Write> Model for StdSink<W> {
    ghost use Rattle.nq_io.specs.Known.{TellsKnown};
    ghost use Rattle.nq_io.specs.StdSink.{CountedWriter};

    ghost Value = { CountedWriter W };

    ghost view = { λ s. record { writer = s.writer; tells = s.tells; faults = s.faults } };

    ghost invariant = { λ s. TellsKnown s.tells (W.contents s.writer) };
}

impl<W: Write> StdSink<W> {
    /// A sink to the writer. It tells nothing of its bytes.
    pub fn new(writer: W) -> StdSink<W>
        ensures { result ≡ record { writer = writer; tells = false; faults = 0 } }
    {
        StdSink {
            writer,
            tells: false,
            faults: 0,
        }
    }

    /// A sink to a writer in memory. It tells the bytes that the writer holds.
    pub fn in_memory(writer: W) -> StdSink<W>
        requires { IsSome (W.contents writer) }
        ensures { result ≡ record { writer = writer; tells = true; faults = 0 } }
    {
        StdSink {
            writer,
            tells: true,
            faults: 0,
        }
    }

    /// The writer.
    pub fn into_writer(self) -> W
        ensures { result ≡ self.writer }
    {
        self.writer
    }

    // Counts a fault.
    fn fail(&mut self) -> Put
        ensures answer { result ≡ Put.Failed }
        ensures counted { self.new ≡ record self.old { faults = count_up self.old.faults } }
        ensures rose { Rose self.old.faults self.new.faults }
    {
        self.faults = self.faults.saturating_add(1);
        Put::Failed
    }
}

impl<W: Write> Sink for StdSink<W> {
    ghost held = { λ sink. told_where sink.tells (W.contents sink.writer) };

    ghost faults = { λ sink. sink.faults };

    /// Writes these bytes and flushes the writer, so that an error that a buffer holds back is counted here.
    #[tactic(auto, using(crate::proofs::Writing::appends_more, crate::proofs::Telling::told_more, crate::proofs::Telling::told_failed))]
    fn put(&mut self, bytes: &[u8]) -> Put
        // As of any sink.
        ensures puts { Puts result bytes.now (told_where self.old.tells (W.contents self.old.writer)) (told_where self.new.tells (W.contents self.new.writer)) }
        ensures cause { CountsPut result self.old.faults self.new.faults }

        // Of this one.
        ensures faults { self.new.faults ≡ faults_after result self.old.faults }
        ensures tells { self.new.tells ≡ self.old.tells }
        ensures bytes { Writes result bytes.now (W.contents self.old.writer) (W.contents self.new.writer) }
    {
        let mut written = 0;
        while written < bytes.len() {
            match self.writer.write(&bytes[written..]) {
                Ok(0) | Err(_) => return self.fail(),
                Ok(count) => written += count,
            }
        }
        match self.writer.flush() {
            Ok(()) => Put::All,
            Err(_) => self.fail(),
        }
    }
}
