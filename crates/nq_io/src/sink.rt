//! A sink of bytes.

ghost use Rattle.std.specs.Prelude.{ℕ, List, Option};
ghost use Rattle.nq_io.specs.Sink.{CountsPut, PrintsLine, Puts};

/// What a put answers.
#[derive(Clone, Copy, Debug, PartialEq, Eq)]
pub enum Put {
    /// All the bytes were appended.
    All,
    /// A fault, which the sink has counted. Some of the bytes, from the first on, may have been appended.
    Failed,
}

/// Where bytes go.
pub trait Sink {
    /// The bytes that it holds, where the sink tells them.
    ghost held: { Self → Option (List ℕ) };

    /// How many faults it has met: a count that never falls, and may stand still at the end of its type.
    ghost faults: { Self → ℕ };

    /// Appends these bytes.
    fn put(&mut self, bytes: &[u8]) -> Put
        ensures puts { Puts result bytes.now (held self.old) (held self.new) }
        ensures cause { CountsPut result (faults self.old) (faults self.new) };
}

/// Prints a line. A failing sink may print a front of it.
pub fn put_line<K: Sink>(out: &mut K, line: &[u8])
    ensures { PrintsLine line.now (K.held out.old) (K.held out.new) (K.faults out.old) (K.faults out.new) }
{
    match out.put(line) {
        Put::All | Put::Failed => {}
    }
}
