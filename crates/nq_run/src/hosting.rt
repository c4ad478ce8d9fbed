//! The command `client`.

ghost use Rattle.std.specs.Prelude.{◌<◌, ◌^◌};
ghost use Rattle.nq_clock.specs.Clocks.{clock_told};
ghost use Rattle.nq_link.specs.Links.{link_told};
ghost use Rattle.nq_run.specs.Hosting.{Attends};

use nq_base::{Host, Inc, Who};
use nq_clock::Clock;
use nq_hosts::user::{UsePlan, client};
use nq_io::{Sink, Source};
use nq_link::Link;
use std::alloc::Global;

/// How the command `client` calls: which incarnation of a host, for how many turns at most, and with how many bytes of input.
#[derive(Clone, Copy)]
pub(crate) struct ClientPlan {
    pub(crate) host: u32,
    pub(crate) inc: u32,
    pub(crate) turns: u32,
    pub(crate) limit: usize,
}

/// Runs the calls of this incarnation of a host, from input of at most so many bytes; the status.
pub(crate) fn attended<S: Source, K: Sink, L: Link, C: Clock>(
    alloc: Global,
    plan: ClientPlan,
    input: &mut S,
    out: &mut K,
    link: &mut L,
    clock: &mut C,
) -> u8
    requires { plan.limit < 2 ^ 31 }
    ensures { Attends plan.turns (record { host = plan.host; inc = plan.inc }) plan.limit result
        (S.left input.old) (S.left input.new) (S.faults input.old) (S.faults input.new)
        (K.held out.old) (K.held out.new) (K.faults out.old) (K.faults out.new) (clock_told C.floor C.readings C.reads clock.old)
        (clock_told C.floor C.readings C.reads clock.new)
        (link_told L.sent L.waiting L.faults L.receives link.old)
        (link_told L.sent L.waiting L.faults L.receives link.new) }
{
    let whole = UsePlan {
        who: Who {
            host: Host(plan.host),
            inc: Inc(plan.inc),
        },
        turns: plan.turns,
        limit: plan.limit,
    };
    client(alloc, whole, input, out, link, clock).status()
}
