//! Requests that are decided once.

ghost use Rattle.std.specs.Prelude.{◌≡◌, ◌<◌, IfNone, IfSome, Some, None, true};
ghost use Rattle.std.specs.Option.{ForSome};
ghost use Rattle.nq_base.specs.declared.Request.{Request as Asked};
ghost use Rattle.nq_model.specs.protocol.Change.{Fits, IsChangeWithin};
ghost use Rattle.nq_model.specs.protocol.Decided.{decided, decided_before, no_effect, change_of, change_with, fresh_decided, is_decided_once, sequence_decided};
ghost use Rattle.nq_model.specs.protocol.Decided.{attach_decided, if_fresh, effect_of, row_with};
ghost use Rattle.nq_model.specs.protocol.Kept.{can_be_kept, host_row};
ghost use Rattle.nq_model.specs.protocol.Message.{asker};
ghost use Rattle.nq_model.specs.protocol.Profile.{most_hosts};
ghost use Rattle.nq_keeper.specs.RequestsCapped.{capped};
ghost use Rattle.nq_keeper.specs.Deciding.{Decides, IsOfHost, IsOfSequence, Gives, LeavesGiven};

use crate::requests::for_proofs::has_text;
use crate::requests::{asking, effects};
use crate::{KeepFault, Keeper, can_be_kept};
use nq_base::{Decided, Effect, Gate, Request, Seq, Verdict, Who};

/// Keeps an effect with the row of the host that asked, in one change, where that row can be kept.
fn conclude<K: Keeper>(
    keeper: &mut K,
    who: Who,
    seq: Seq,
    effect: Effect,
) -> Result<Decided, KeepFault>
    requires host { who.host < most_hosts }
    requires fits { ForSome (K.content keeper.old) (λ kept. Fits kept (change_with who seq effect)) }
    requires within { ForSome (K.content keeper.old) (λ kept. can_be_kept (row_with who seq effect) ≡ true → IsChangeWithin kept (change_with who seq effect)) }
    ensures { Decides (λ kept. fresh_decided who seq effect) (λ kept. if_fresh (fresh_decided who seq effect) (change_with who seq effect)) result
        (K.content keeper.old) (K.content keeper.new) (K.faults keeper.old) (K.faults keeper.new) (K.follows keeper.old keeper.new)
        (K.leaves keeper.old keeper.new) }
{
    let row = effects::row_after(&who, seq, &effect);
    if !can_be_kept(&row) {
        keeper.pause();
        return Ok(Decided::OutOfBounds);
    }
    let decided = Decided::Fresh {
        verdict: effect.verdict,
        value: effect.value,
    };
    let change = effects::change_of(who, seq, effect);
    keeper.commit(change)?;
    Ok(decided)
}

/// Decides a fresh request, and keeps it.
fn decide_fresh<K: Keeper>(
    keeper: &mut K,
    request: Request,
    gate: Gate,
    who: Who,
    seq: Seq,
) -> Result<Decided, KeepFault>
    requires host { who.host < most_hosts }
    requires asked { IsOfSequence who seq request }
    requires later { ForSome (K.content keeper.old) (λ kept. decided_before who seq (host_row kept who.host) ≡ None) }
    ensures { Decides (λ kept. fresh_decided who seq (effect_of kept gate request))
        (λ kept. if_fresh (fresh_decided who seq (effect_of kept gate request)) (change_with who seq (effect_of kept gate request))) result
        (K.content keeper.old) (K.content keeper.new) (K.faults keeper.old) (K.faults keeper.new) (K.follows keeper.old keeper.new)
        (K.leaves keeper.old keeper.new) }
{
    has_text(&request);
    let effect = asking::effect(keeper, request, gate)?;
    conclude(keeper, who, seq, effect)
}

/// Decides a request of this sequence.
fn decide_sequence<K: Keeper>(
    keeper: &mut K,
    gate: Gate,
    who: Who,
    seq: Seq,
    request: Request,
) -> Result<Decided, KeepFault>
    requires host { who.host < most_hosts }
    requires asked { IsOfSequence who seq request }
    ensures { Decides (λ kept. sequence_decided who seq (host_row kept who.host) (effect_of kept gate request))
        (λ kept. if_fresh (sequence_decided who seq (host_row kept who.host) (effect_of kept gate request))
        (change_with who seq (effect_of kept gate request))) result (K.content keeper.old) (K.content keeper.new) (K.faults keeper.old) (K.faults keeper.new)
        (K.follows keeper.old keeper.new) (K.leaves keeper.old keeper.new) }
{
    let line = keeper.host(who.host)?;
    match effects::said_before(&who, seq, &line) {
        Some(said) => Ok(said),
        None => decide_fresh(keeper, request, gate, who, seq),
    }
}

/// Decides an ATTACH: a later incarnation begins the row of its host anew.
fn attach<K: Keeper>(keeper: &mut K, who: Who) -> Result<Decided, KeepFault>
    requires { who.host < most_hosts }
    ensures { Decides (λ kept. attach_decided who (host_row kept who.host))
        (λ kept. if_fresh (attach_decided who (host_row kept who.host)) (change_with who 0 (no_effect Verdict.Done))) result (K.content keeper.old)
        (K.content keeper.new) (K.faults keeper.old) (K.faults keeper.new) (K.follows keeper.old keeper.new) (K.leaves keeper.old keeper.new) }
{
    let line = keeper.host(who.host)?;
    if effects::is_later(&who, &line) {
        conclude(keeper, who, Seq(0), effects::none(Verdict::Done))
    } else if who.inc < line.inc {
        Ok(Decided::OldIncarnation)
    } else {
        Ok(Decided::Again {
            verdict: line.verdict,
            value: line.value,
        })
    }
}

/// The incarnation that asks, and the sequence of its request; none of an ATTACH.
fn asked_by(request: &Request) -> (Who, Option<Seq>)
    requires { is_decided_once request.now ≡ true }
    ensures who { asker request.now ≡ Some result.0 }
    ensures attach { IfNone result.1 (request.now ≡ Asked.Attach result.0) }
    ensures sequence { IfSome result.1 (λ seq. IsOfSequence result.0 seq request.now) }
{
    match request {
        Request::Attach { who } => (*who, None),
        Request::Create { who, seq, .. } => (*who, Some(*seq)),
        Request::Write { who, seq, .. } => (*who, Some(*seq)),
        Request::Resize { who, seq, .. } => (*who, Some(*seq)),
        Request::Remove { who, seq, .. } => (*who, Some(*seq)),
        _ => unreachable!(),
    }
}

/// Decides an ATTACH, CREATE, WRITE, RESIZE or REMOVE of a host below 64. A fresh one is kept with its effect in one change;
/// the others change nothing. What would leave a row of its host that can not be kept is out of bounds, and changes nothing.
pub fn decide<K: Keeper>(keeper: &mut K, request: Request, gate: Gate) -> Result<Decided, KeepFault>
    requires once { is_decided_once request ≡ true }
    requires host { IsOfHost request }
    ensures gives { Gives (λ kept. decided kept gate request) (λ kept. change_of kept gate request) result (K.content keeper.old) (K.content keeper.new)
        (K.faults keeper.old) (K.faults keeper.new) }
    ensures follows { K.follows keeper.old keeper.new }
    ensures leaves { LeavesGiven (λ kept. change_of kept gate request) (K.content keeper.old) (K.leaves keeper.old keeper.new) }
{
    let (who, seq) = asked_by(&request);
    match seq {
        None => attach(keeper, who),
        Some(seq) => decide_sequence(keeper, gate, who, seq, request),
    }
}
