//! Each request is decided once at most.

ghost use Rattle.nq_keeper.specs.Repeats.{AtMostOnce, KeptIsSaid, RepeatsAreMet};

/// Of any list of requests, with repeats, each host, incarnation and sequence is executed once at most. One that comes
/// again is not executed, whatever it asks then, and what is answered again is the verdict and the value that were kept
/// of it.
pub fn requests_are_decided_once()
    ensures { AtMostOnce }
{}

/// What is answered again is what is kept of the host, and the request is of the incarnation that is kept.
pub fn what_is_kept_is_said()
    ensures { KeptIsSaid }
{}

/// These laws speak of something: a host whose requests come again, and are answered again.
pub fn repeats_are_met()
    ensures { RepeatsAreMet }
{}
