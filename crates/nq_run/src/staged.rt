//! The command `staged`.

ghost use Rattle.std.specs.Prelude.{◌≡◌, ◌<◌, ◌^◌};
ghost use Rattle.nq_run.specs.Staging.{StagesFor};

use nq_io::{Sink, Source};
use nq_played::run_played;
use nq_staged::Offer;
use std::alloc::Global;

/// Runs a staged schedule of at most so many bytes; the status.
pub(crate) fn staged<S: Source, K: Sink>(
    alloc: Global,
    input: &mut S,
    out: &mut K,
    limit: usize,
) -> u8
    requires { limit < 2 ^ 31 }
    ensures { StagesFor limit result (S.left input.old) (S.left input.new) (K.held out.old) (K.held out.new)
        (S.faults input.old) (S.faults input.new) (K.faults out.old) (K.faults out.new) }
{
    run_played::<Offer, S, K>(alloc, input, out, limit).status()
}
