//! What a client knows.

ghost use Rattle.std.specs.Prelude.{◌≡◌, IfOk};
ghost use Rattle.nq_model.specs.protocol.ClientStep.{fresh_client};
ghost use Rattle.nq_client.specs.State.{client_of};

use crate::asked::AskedRequest;
use nq_base::{Call, NoMemory, Number, Seq, Ticks, Who};
use nq_cache::Cache;
use nq_client_parts::dirty::Dirty;
use nq_client_parts::{Leases, Notices, Unreported};
use std::alloc::Global;

/// The call under way.
#[derive(Drop)]
pub(crate) struct UnderWay {
    /// Its number, from 1 in each incarnation.
    pub(crate) q: u64,
    pub(crate) call: Call,
    /// Whether its write is to go through.
    pub(crate) through: bool,
    /// Whether its write was delayed already.
    pub(crate) written: bool,
}

/// What a client knows. Times are in ticks of its clock.
pub(crate) struct State {
    pub(crate) who: Who,
    /// The term that it wants, in ticks.
    pub(crate) term: u32,
    pub(crate) time: Ticks,
    pub(crate) attached: bool,
    /// The number of its last call.
    pub(crate) calls: u64,
    pub(crate) call: Option<UnderWay>,
    pub(crate) asked: Option<AskedRequest>,
    /// Until when it makes no request.
    pub(crate) pause: Ticks,
    /// The sequence of its next request that is decided once.
    pub(crate) seq: Seq,
    /// The number of its next request.
    pub(crate) xid: u32,
    /// The number of its next write.
    pub(crate) number: Number,
    pub(crate) leases: Leases,
    pub(crate) notices: Notices,
    /// Losses that no answer named yet, in order of files.
    pub(crate) losses: Unreported,
    pub(crate) dirty: Dirty,
    pub(crate) cache: Cache,
    /// Where memory comes from.
    pub(crate) alloc: Global,
}

impl State {
    /// A client that knows nothing.
    #[tactic(auto, unfolding(nq_model::specs::protocol::ClientStep::fresh_client))]
    pub(crate) fn fresh(alloc: Global, who: Who, term: u32, time: Ticks) -> Result<State, NoMemory>
        ensures { IfOk result (λ s. client_of s ≡ fresh_client who term time) }
    {
        let cache = Cache::new(alloc)?;
        let dirty = Dirty::new(alloc).unwrap();
        Ok(State {
            who,
            term,
            time,
            attached: false,
            calls: 0,
            call: None,
            asked: None,
            pause: Ticks(0),
            seq: Seq(1),
            xid: 1,
            number: Number(1),
            leases: Leases::new(alloc),
            notices: Notices::new(alloc),
            losses: Unreported::new(alloc),
            dirty,
            cache,
            alloc,
        })
    }

    /// Ends the client: what it has under way and what waits is forgotten.
    pub(crate) fn stop(self) {
        let State {
            who: _,
            term: _,
            time: _,
            attached: _,
            calls: _,
            call: _call,
            asked,
            pause: _,
            seq: _,
            xid: _,
            number: _,
            leases: _leases,
            notices,
            losses: _losses,
            dirty: _dirty,
            cache: _cache,
            alloc: _,
        } = self;
        if let Some(asked) = asked {
            asked.spent();
        }
        notices.forgotten();
    }
}
