//! The stager.

ghost use Rattle.std.specs.Prelude.{◌≡◌, OnErr, IfOk};
ghost use Rattle.std.specs.Option.{option_map};
ghost use Rattle.nq_stage.specs.Hearing.{Hears, acknowledging, again_from};
ghost use Rattle.nq_stage.specs.Offering.{Offers, first_unknown, offered};
ghost use Rattle.nq_stage.specs.Shortening.{Shortens, shortened};
ghost use Rattle.nq_stage.specs.Staged.{new_stager};

use crate::stager::acknowledged::{Acknowledged, find, note};
use crate::{Pushed, Written, commit_bytes, is_unstaged, read_push, read_verifier, stage_bytes};
use nq_base::{Block, Loss, NoMemory, Who};
use nq_client_parts::dirty::Dirty;
use nq_xdr::rpc::Bytes;
use std::alloc::Global;
use std::marker::Model;

/// The number of the first STAGE of an incarnation: above all that its client counts to.
const FIRST_XID: u32 = 0x8000_0000;

/// What a client's side keeps of staged bodies, for one incarnation. Clauses see it as the definitions do.
#[derive(Drop)]
pub struct Stager {
    who: Who,
    next: u32,
    offered: Option<Offered>,
    shortened: Option<Shortened>,
    acknowledged: Acknowledged,
}

/// The latest STAGE.
#[derive(Clone, Copy)]
struct Offered {
    xid: u32,
    written: Written,
}

/// The latest push that was shortened: its number, and the WRITE whole.
#[derive(Drop)]
struct Shortened {
    xid: u32,
    write: Bytes,
}

impl Model for Stager {
    ghost use Rattle.nq_stage.specs.Staged.{Staged};

    ghost Value = { Staged };

    ghost view = { λ s. record {
      who = s.who;
      next = s.next;
      offered = s.offered;
      shortened = s.shortened;
      acknowledged = s.acknowledged.entries;
    } };
}

/// What a datagram that came to a client's side is.
#[derive(Drop)]
pub enum HeardStage {
    /// The reply to the latest STAGE: the server has the body.
    Acknowledged,
    /// The server has not the body of the latest push that was shortened; this datagram is that push whole, to be sent now.
    Again(Vec<u8>),
    /// Neither.
    Other,
    /// Memory was wanting.
    Memory,
}

impl Stager {
    /// The stager of an incarnation: nothing was offered. It takes no memory.
    pub fn new(alloc: Global, who: Who) -> Stager
        ensures { result ≡ new_stager who }
    {
        Stager {
            who,
            next: FIRST_XID,
            offered: None,
            shortened: None,
            acknowledged: Acknowledged::new(alloc),
        }
    }

    /// The STAGE of the first delayed write, in their order, of which the server did not acknowledge the body; None exactly
    /// where it acknowledged all.
    ///
    /// # Errors
    ///
    /// `NoMemory` where memory is wanting; then nothing was offered.
    pub fn offer(&mut self, alloc: Global, dirty: &Dirty) -> Result<Option<Vec<u8>>, NoMemory>
        ensures offers { Offers dirty.now.dirty dirty.now.push result self.old self.new }
    {
        let Some(written) = self.first_unknown(dirty) else {
            return Ok(None);
        };
        let Some(body) = dirty.get(written.file, written.block) else {
            unreachable!()
        };
        Ok(Some(self.stage(alloc, written, body)?))
    }

    /// The COMMIT of a push of which the server acknowledged the body, with the verifier of the latest reply that did; None
    /// exactly where the datagram is no such push. The push is kept whole.
    ///
    /// # Errors
    ///
    /// `NoMemory` where memory is wanting; then nothing was shortened.
    pub fn shorten(&mut self, alloc: Global, datagram: &[u8]) -> Result<Option<Vec<u8>>, NoMemory>
        ensures { Shortens datagram.now result self.old self.new }
    {
        let Some(pushed) = read_push(datagram) else {
            return Ok(None);
        };
        let Some(verifier) = find(&self.acknowledged, &pushed.written()) else {
            return Ok(None);
        };
        Ok(Some(self.commit(alloc, &pushed, verifier, datagram)?))
    }

    /// Takes in a datagram that came from the server.
    ///
    /// `Acknowledged` exactly for a reply to the latest STAGE of this incarnation, `Again` exactly for an UNSTAGED of this
    /// incarnation to the latest push that was shortened: then no body counts as acknowledged any more. `Other` exactly
    /// otherwise. After `Other` and `Memory` the stager is as before.
    pub fn heard(&mut self, alloc: Global, datagram: &[u8]) -> HeardStage
        ensures { Hears datagram.now result self.old self.new }
    {
        if let Some((written, verifier)) = self.acknowledges(datagram) {
            return match note(&mut self.acknowledged, written, verifier) {
                Ok(()) => HeardStage::Acknowledged,
                Err(_) => HeardStage::Memory,
            };
        }
        match self.sends_again(alloc, datagram) {
            Ok(Some(write)) => {
                self.acknowledged = Acknowledged::new(alloc);
                HeardStage::Again(write)
            }
            Ok(None) => HeardStage::Other,
            Err(_) => HeardStage::Memory,
        }
    }

    /// The first delayed write, in their order, of which the body is not acknowledged.
    fn first_unknown(&self, dirty: &Dirty) -> Option<Written>
        ensures { result ≡ first_unknown self.now.who self.now.acknowledged dirty.now.dirty }
    {
        for place in 0..dirty.pending() {
            let Some(loss) = dirty.nth(place) else {
                return None;
            };
            let written = self.written(&loss);
            if find(&self.acknowledged, &written).is_none() {
                return Some(written);
            }
        }
        None
    }

    /// The last of these delayed writes, as this incarnation's.
    fn written(&self, loss: &Loss) -> Written
        ensures { result ≡ record { host = self.now.who.host; inc = self.now.who.inc; file = loss.now.file; block = loss.now.block; last = loss.now.last } }
    {
        Written {
            host: self.who.host,
            inc: self.who.inc.0,
            file: loss.file,
            block: loss.block,
            last: loss.last.0,
        }
    }

    /// The STAGE of a write, which is the latest then.
    fn stage(&mut self, alloc: Global, written: Written, body: &Block) -> Result<Vec<u8>, NoMemory>
        ensures offered { IfOk result (λ v. (v.items, self.new) ≡ offered self.old written body.now) }
        ensures refused { OnErr result (self.new ≡ self.old) }
    {
        let xid = self.next;
        let datagram = stage_bytes(alloc, xid, &written, body)?;
        self.next = xid.saturating_add(1);
        self.offered = Some(Offered { xid, written });
        Ok(datagram)
    }

    /// The COMMIT that stands for a push, which is the latest shortened one then.
    fn commit(
        &mut self,
        alloc: Global,
        pushed: &Pushed,
        verifier: u32,
        datagram: &[u8],
    ) -> Result<Vec<u8>, NoMemory>
        ensures shortened { IfOk result (λ v. (v.items, self.new) ≡ shortened self.old pushed.now verifier datagram.now) }
        ensures refused { OnErr result (self.new ≡ self.old) }
    {
        let write = Vec::from_slice(alloc, datagram)?;
        let commit = commit_bytes(alloc, pushed, verifier)?;
        self.shortened = Some(Shortened {
            xid: pushed.xid,
            write: Bytes::new(write),
        });
        Ok(commit)
    }

    /// The write whose body a datagram acknowledges, and the verifier: it is a reply to the latest STAGE.
    fn acknowledges(&self, datagram: &[u8]) -> Option<(Written, u32)>
        ensures { result ≡ acknowledging self.now.who.inc self.now.offered datagram.now }
    {
        let offered = self.offered?;
        let verifier = read_verifier(offered.xid, self.who.inc.0, datagram)?;
        Some((offered.written, verifier))
    }

    /// The push to be sent whole, where a datagram is an UNSTAGED to it.
    fn sends_again(&self, alloc: Global, datagram: &[u8]) -> Result<Option<Vec<u8>>, NoMemory>
        ensures { IfOk result (λ v. option_map (λ w. w.items) v ≡ again_from self.now.who.inc self.now.shortened datagram.now) }
    {
        match &self.shortened {
            Some(push) if is_unstaged(push.xid, self.who.inc.0, datagram) => {
                Ok(Some(Vec::from_slice(alloc, push.write.as_bytes())?))
            }
            _ => Ok(None),
        }
    }
}
