//! Words that say nothing that can be run.

ghost use Rattle.std.specs.Prelude.{◌≡◌};
ghost use Rattle.nq_base.specs.Status.{status_of};
ghost use Rattle.nq_base.specs.declared.ending.ending.Ending.{Ending};
ghost use Rattle.nq_replay.specs.Lines.{usage_line};
ghost use Rattle.nq_io.specs.Sink.{PrintsLine};

use nq_base::ending::Ending;
use nq_io::{Sink, put_line};

/// Prints that nothing can be run; the status.
pub(crate) fn usage<K: Sink>(out: &mut K) -> u8
    ensures usage { result ≡ status_of Ending.Usage }
    ensures printed { PrintsLine usage_line (K.held out.old) (K.held out.new) (K.faults out.old) (K.faults out.new) }
{
    put_line(out, b"usage\n");
    Ending::Usage.status()
}
