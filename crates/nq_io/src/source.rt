//! A source of bytes.

ghost use Rattle.std.specs.Prelude.{◌<◌, ℕ, List, Option, length};
ghost use Rattle.nq_io.specs.Source.{Reads, CountsRead};

/// What a read gives.
#[derive(Clone, Copy, Debug, PartialEq, Eq)]
pub enum Got {
    /// So many bytes, at least one, in the front of the buffer.
    Bytes(usize),
    /// No byte is left.
    End,
    /// A fault, which the source has counted.
    Failed,
}

/// Where bytes come from.
pub trait Source {
    /// The bytes left to be read, where the source tells them.
    ghost left: { Self → Option (List ℕ) };

    /// How many faults it has met: a count that never falls, and may stand still at the end of its type.
    ghost faults: { Self → ℕ };

    /// Moves bytes from the source to the front of the buffer. Each answer but `End` and `Failed` moves at least one,
    /// so a loop that reads to the end takes no more reads than there are bytes.
    fn read(&mut self, out: &mut [u8]) -> Got
        requires { 0 < length out.old }
        ensures reads { Reads result out.old out.new (left self.old) (left self.new) }
        ensures cause { CountsRead result (faults self.old) (faults self.new) };
}
