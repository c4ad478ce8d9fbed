//! The command `check`.

ghost use Rattle.std.specs.Prelude.{◌<◌, ◌^◌};
ghost use Rattle.nq_run.specs.Checking.{ChecksFor};

use nq_io::{Sink, Source};
use nq_judge::judge;
use std::alloc::Global;

/// Judges a journal of at most so many bytes; the status.
pub(crate) fn checked<S: Source, K: Sink>(
    alloc: Global,
    input: &mut S,
    out: &mut K,
    limit: usize,
) -> u8
    requires { limit < 2 ^ 31 }
    ensures { ChecksFor limit result (S.left input.old) (S.left input.new) (K.held out.old) (K.held out.new)
        (S.faults input.old) (S.faults input.new) (K.faults out.old) (K.faults out.new) }
{
    judge(alloc, input, out, limit).status()
}
