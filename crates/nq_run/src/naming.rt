//! The command `names`.

ghost use Rattle.std.specs.Prelude.{◌≡◌, ◌<◌, ◌^◌};
ghost use Rattle.nq_run.specs.Naming.{NamesFor};

use nq_io::{Sink, Source};
use nq_naming::script::Aside;
use nq_played::run_played;
use std::alloc::Global;

/// Runs a schedule with lists of at most so many bytes; the status.
pub(crate) fn named<S: Source, K: Sink>(
    alloc: Global,
    input: &mut S,
    out: &mut K,
    limit: usize,
) -> u8
    requires { limit < 2 ^ 31 }
    ensures { NamesFor limit result (S.left input.old) (S.left input.new) (K.held out.old) (K.held out.new)
        (S.faults input.old) (S.faults input.new) (K.faults out.old) (K.faults out.new) }
{
    run_played::<Aside, S, K>(alloc, input, out, limit).status()
}
