//! Why an ask waits.

ghost use Rattle.std.specs.Prelude.{◌≡◌, None, Some, IfOk, IsSome, option_map, true};
ghost use Rattle.nq_tasks.specs.Waiting.{asks_at, begun, heard, is_unknown, reason_of, told_at};

use crate::listing::{Listed, Listing};
use nq_base::{NoMemory, Who};
use std::alloc::Global;
use std::marker::Model;

/// After how many ticks the server is asked whether it recovers.
const ASKS: u64 = 1;

/// After how many ticks it is told why an ask waits.
const TELLS: u64 = 3;

/// What is known of the server since an ask began to wait.
#[derive(Clone, Copy)]
pub(crate) enum KnownServer {
    /// Nothing came.
    Nothing,
    /// It serves.
    Serves,
    /// It recovers.
    Recovers,
}

/// An ask that waits: since when, what is known of the server, and whether it was told why. Contracts see these.
#[derive(Drop)]
pub struct Waiting {
    since: u64,
    known: KnownServer,
    is_told: bool,
    probe: Listing,
}

impl Model for Waiting {
    ghost use Rattle.nq_tasks.specs.Waiting.{Waits};

    ghost Value = { Waits };

    ghost view = { λ w. record { since = w.since; known = w.known; told = w.is_told } };
}

/// Why an ask waits, in words.
fn reason_of(known: KnownServer) -> &'static [u8]
    ensures { result.now ≡ reason_of known }
{
    match known {
        KnownServer::Nothing => b"waiting: no server answers",
        KnownServer::Serves => b"waiting: another host may have a lease on the file",
        KnownServer::Recovers => b"waiting: the server recovers",
    }
}

/// Whether nothing is known yet.
fn is_unknown(known: KnownServer) -> bool
    ensures { result ≡ is_unknown known }
{
    match known {
        KnownServer::Nothing => true,
        KnownServer::Serves | KnownServer::Recovers => false,
    }
}

impl Waiting {
    /// It begins to wait.
    pub fn new(alloc: Global, now: u64) -> Waiting
        ensures { result ≡ begun now }
    {
        Waiting {
            since: now,
            known: KnownServer::Nothing,
            is_told: false,
            probe: Listing::probe(alloc),
        }
    }

    /// A list came, or its server says that it recovers.
    pub fn hear(&mut self, listed: Listed)
        ensures { self.new ≡ heard listed self.old }
    {
        match listed {
            Listed::Goes => {}
            Listed::Later => self.known = KnownServer::Recovers,
            Listed::Whole => self.known = KnownServer::Serves,
        }
    }

    /// Whether the server is asked at this time.
    fn asks_at(&self, now: u64) -> bool
        ensures { result ≡ asks_at now self.now }
    {
        is_unknown(self.known) && !self.is_told && now.saturating_sub(self.since) >= ASKS
    }

    /// The request of this number that asks whether the server recovers, where that is due at this time.
    ///
    /// # Errors
    ///
    /// Only want of memory.
    pub fn asks(
        &mut self,
        alloc: Global,
        who: Who,
        number: u32,
        now: u64,
    ) -> Result<Option<Vec<u8>>, NoMemory>
        ensures same { self.new ≡ self.old }
        ensures asks { IfOk result (λ request. IsSome request → asks_at now self.old ≡ true) }
    {
        if !self.asks_at(now) {
            return Ok(None);
        }
        if !self.probe.is_due(now) {
            return Ok(None);
        }
        let request = self.probe.ask(alloc, who, number, now)?;
        Ok(Some(request))
    }

    /// Takes a datagram, which may answer that request. Where memory is wanting it is lost.
    pub fn take_page(&mut self, alloc: Global, who: Who, datagram: &[u8]) {
        if let Ok(listed) = self.probe.take_page(alloc, who, datagram) {
            self.hear(listed);
        }
    }

    /// Why it waits, once it has waited for 3 ticks; None before, and where it was told.
    #[tactic(auto, unfolding(crate::specs::Waiting::told_at))]
    pub fn tells(&mut self, now: u64) -> Option<&'static [u8]>
        ensures { (option_map (λ words. words.now) result, self.new) ≡ told_at now self.old }
    {
        if self.is_told || now.saturating_sub(self.since) < TELLS {
            return None;
        }
        self.is_told = true;
        Some(reason_of(self.known))
    }
}
