//! Printing a journal between two texts.

ghost use Rattle.std.specs.Prelude.{◌++◌};
ghost use Rattle.nq_journal.specs.Text.{IsVersion, journal_text};
ghost use Rattle.nq_replay.specs.Ending.{CountsSink};
ghost use Rattle.nq_replay.specs.Schedules.{PrintsBytes};

use nq_base::Journal;
use nq_base::ending::Ending;
use nq_io::{Put, Sink};
use nq_journal::{Printed, is_in, print};
use std::alloc::Global;

/// Prints a text, a journal in a version of its text, 1 or 2, and another text. How it ends:
///
/// - `Done`: all of that was printed.
/// - `WriteFault`: the sink failed, which it has counted; a front of that is printed.
/// - `Memory`: memory was wanting, or the version lacks an entry; a front of that is printed.
pub fn print_parts<K: Sink>(
    alloc: Global,
    version: u32,
    before: &[u8],
    journal: &Journal,
    after: &[u8],
    out: &mut K,
) -> Ending
    requires { IsVersion version }
    ensures prints { PrintsBytes result (before.now ++ (journal_text version journal.now.entries ++ after.now))
        (K.held out.old) (K.held out.new) (K.faults out.old) (K.faults out.new) }
    ensures sink { CountsSink result (K.faults out.old) (K.faults out.new) }
{
    if !is_in(journal, version) {
        return Ending::Memory;
    }
    match out.put(before) {
        Put::All => {}
        Put::Failed => return Ending::WriteFault,
    }
    match print(alloc, journal, version, out) {
        Printed::All => {}
        Printed::Failed => return Ending::WriteFault,
        Printed::Memory => return Ending::Memory,
    }
    match out.put(after) {
        Put::All => Ending::Done,
        Put::Failed => Ending::WriteFault,
    }
}
