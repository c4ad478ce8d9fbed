//! The pool.

ghost use Rattle.std.specs.Prelude.{◌≡◌, [], length, option_copied, IfOk, IfSome, OnOk, OnErr};
ghost use Rattle.nq_stage.specs.Answering.{Answers, Rebuilds, Stages, answered_as, body_for, own_commit, own_stage, staged};
ghost use Rattle.nq_stage.specs.Bodies.{most_bodies};
ghost use Rattle.nq_stage.specs.Lent.{lent_stage, lent_stages};

use crate::pool::entries::{Entries, MOST, clear, put_body, read};
use crate::{
    Commit, LentStage, read_commit, read_stage, staged_bytes, unstaged_bytes, write_bytes,
};
use nq_base::{Block, Host, NoMemory};
use std::alloc::Global;
use std::marker::Model;
use std::num::NonZeroUsize;

/// The bodies that were staged in a boot: at most 1024. Clauses see the boot, and the bodies with the writes that they are of,
/// the newest first.
#[derive(Drop)]
pub struct Pool {
    boot: u32,
    entries: Entries,
}

impl Model for Pool {
    ghost use Rattle.std.specs.Prelude.{◌≡◌};
    ghost use Rattle.nq_stage.specs.Bodies.{Bodies, most_bodies};

    ghost Value = { Bodies };

    ghost view = { λ p. record { boot = p.boot; bodies = p.entries.entries } };

    ghost invariant = { λ p. p.entries.cap ≡ most_bodies };
}

/// What a STAGE gives.
#[derive(Drop)]
pub enum Staging {
    /// The body is kept; this datagram is the reply.
    Reply(Vec<u8>),
    /// The datagram is no STAGE of this host.
    NotStage,
    /// Memory was wanting.
    Memory,
}

/// What a COMMIT gives.
#[derive(Drop)]
pub enum Rebuilt {
    /// The body is there; this datagram is the WRITE for which the COMMIT stands.
    Write(Vec<u8>),
    /// The body is not there; this datagram is the reply.
    Unstaged(Vec<u8>),
    /// The datagram is no COMMIT of this host.
    NotCommit,
    /// Memory was wanting.
    Memory,
}

impl Pool {
    /// The empty pool of a boot.
    ///
    /// # Errors
    ///
    /// `NoMemory` where memory is wanting.
    pub fn new(alloc: Global, boot: u32) -> Result<Pool, NoMemory>
        ensures { IfOk result (λ p. p ≡ record { boot = boot; bodies = [] }) }
    {
        let places = NonZeroUsize::new(MOST).unwrap();
        let entries = Entries::sparse(alloc, places)?;
        Ok(Pool { boot, entries })
    }

    /// The server booted, and this is the new boot: the pool is empty. It takes no memory.
    pub fn reboot(&mut self, boot: u32)
        ensures { self.new ≡ record { boot = boot; bodies = [] } }
    {
        clear(&mut self.entries);
        self.boot = boot;
    }

    /// Takes the body of a STAGE that came from this host. An older body of the same write goes; so does the oldest of all
    /// where there would be more than 1024.
    ///
    /// `NotStage` exactly where the datagram is no STAGE of this host. After `NotStage` and `Memory` the pool is as before.
    #[tactic(auto, using(crate::proofs::Answered::stages_by))]
    pub fn stage(&mut self, alloc: Global, sender: Host, datagram: &[u8]) -> Staging
        ensures { Stages sender datagram.now result self.old self.new }
    {
        let Some(stage) = stage_from(sender, datagram) else {
            return Staging::NotStage;
        };
        match self.take_stage(alloc, stage) {
            Ok(reply) => Staging::Reply(reply),
            Err(_) => Staging::Memory,
        }
    }

    /// What a COMMIT that came from this host gives.
    ///
    /// `Write` exactly where it is a COMMIT of this host with this boot as its verifier and the pool has the body of the last
    /// write of its push; `Unstaged` exactly where it is another COMMIT of this host; `NotCommit` exactly where it is none.
    #[tactic(auto, using(crate::proofs::Answered::rebuilds_by))]
    pub fn rebuild(&self, alloc: Global, sender: Host, datagram: &[u8]) -> Rebuilt
        ensures { Rebuilds sender datagram.now result self.now }
    {
        let Some(commit) = commit_from(sender, datagram) else {
            return Rebuilt::NotCommit;
        };
        match self.answer(alloc, &commit) {
            Ok(rebuilt) => rebuilt,
            Err(_) => Rebuilt::Memory,
        }
    }

    /// Keeps the body of a STAGE, and gives the reply.
    fn take_stage(&mut self, alloc: Global, stage: LentStage<'_>) -> Result<Vec<u8>, NoMemory>
        requires { length stage.body.now ≡ 4096 }
        ensures taken { IfOk result (λ v. (v.items, self.new) ≡ staged self.old (lent_stage stage.entry)) }
        ensures refused { OnErr result (self.new ≡ self.old) }
    {
        let reply = staged_bytes(alloc, stage.xid, stage.written.inc, self.boot)?;
        let body = Block::from_bytes(alloc, stage.body)?.unwrap();
        put_body(&mut self.entries, stage.written, body)?;
        Ok(reply)
    }

    /// The answer to a COMMIT.
    fn answer(&self, alloc: Global, commit: &Commit) -> Result<Rebuilt, NoMemory>
        ensures { IfOk result (λ r. Answers (answered_as commit.now (body_for self.now commit.now)) r) }
    {
        match self.body_for(commit) {
            Some(body) => Ok(Rebuilt::Write(write_bytes(alloc, &commit.pushed, body)?)),
            None => {
                let pushed = &commit.pushed;
                Ok(Rebuilt::Unstaged(unstaged_bytes(alloc, pushed.xid, pushed.who.inc.0)?))
            }
        }
    }

    /// The body that a COMMIT asks for, if it was staged in this boot and is there.
    fn body_for(&self, commit: &Commit) -> Option<&Block>
        ensures { option_copied result ≡ body_for self.now commit.now }
    {
        if commit.verifier != self.boot {
            return None;
        }
        read(&self.entries, &commit.pushed.written())
    }
}

/// The STAGE of this host that a datagram is.
fn stage_from(sender: Host, datagram: &[u8]) -> Option<LentStage<'_>>
    ensures stage { lent_stages result ≡ own_stage sender datagram.now }
    ensures body { IfSome result (λ s. length s.body.now ≡ 4096) }
{
    match read_stage(datagram) {
        Some(stage) if stage.written.host == sender => Some(stage),
        _ => None,
    }
}

/// The COMMIT of this host that a datagram is.
fn commit_from(sender: Host, datagram: &[u8]) -> Option<Commit>
    ensures { result ≡ own_commit sender datagram.now }
{
    match read_commit(datagram) {
        Some(commit) if commit.pushed.who.host == sender => Some(commit),
        _ => None,
    }
}
