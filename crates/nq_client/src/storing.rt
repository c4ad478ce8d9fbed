//! Replies to writes.

ghost use Rattle.std.specs.Prelude.{◌≡◌, is_some, IsTrue, OnOk, OnErr, if◌then◌else◌};
ghost use Rattle.nq_model.specs.protocol.Client.{dirty_at, is_push_of, push_passes, put_clean};
ghost use Rattle.nq_model.specs.protocol.Hear.{push_done, write_done};
ghost use Rattle.nq_client.specs.Prepared.{Comes, IsPrepared};
ghost use Rattle.nq_client.specs.Step.{step_of};

use crate::step::Step;
use nq_base::{Block, BlockNo, FileId, NoMemory, Rev, Value};
use nq_cache::{Cache, caches_written};
use nq_client_parts::dirty::Dirty;
use std::alloc::Global;

/// Caches the block of a push that was stored, unless it is dirty again.
fn caches_stored(
    dirty: &Dirty,
    cache: &mut Cache,
    alloc: Global,
    file: FileId,
    block: BlockNo,
    body: &Block,
) -> Result<(), NoMemory>
    ensures cached { OnOk result (cache.new
        ≡ record cache.old {
          clean = (if is_some
              (dirty_at file block dirty.now.dirty) then cache.old.clean else put_clean file block body.now cache.old.clean);
        }) }
    ensures refused { OnErr result (cache.new ≡ cache.old) }
{
    if dirty.holds(file, block) {
        return Ok(());
    }
    cache.put_block(file, block, body.copied(alloc)?)
}

impl Step {
    /// A WRITE that goes through was done: the call under way is answered.
    ///
    /// # Errors
    ///
    /// Only want of memory, and then nothing changed.
    #[tactic(auto, unfolding(nq_model::specs::protocol::Hear::caches_block, nq_model::specs::protocol::Hear::purges, nq_model::specs::protocol::Hear::knows_revision))]
    pub(crate) fn write_done(
        &mut self,
        file: FileId,
        block: BlockNo,
        body: &Block,
        rev: Rev,
    ) -> Result<(), NoMemory>
        requires { IsPrepared file self.old }
        ensures { Comes result (write_done (step_of self.old) file block body.now rev) self.old self.new }
    {
        let holds = self.state.leases.holds_caching(file);
        let alloc = self.state.alloc;
        caches_written(&mut self.state.cache, alloc, file, block, body, rev, holds)?;
        self.state.cache.retag(file, rev).unwrap();
        self.answers_value(Value::Nothing, None);
        Ok(())
    }

    /// A push was stored. Where its file is now clean and a notice waits for it, the lease is given up.
    ///
    /// # Errors
    ///
    /// Only want of memory, and then nothing changed.
    #[tactic(auto, unfolding(nq_model::specs::protocol::Hear::caches_block, nq_model::specs::protocol::Hear::knows_revision, nq_model::specs::protocol::Hear::ends_push))]
    pub(crate) fn push_done(
        &mut self,
        file: FileId,
        block: BlockNo,
        body: &Block,
        rev: Rev,
    ) -> Result<(), NoMemory>
        requires prepared { IsPrepared file self.old }
        requires push { IsTrue (push_passes (is_push_of file) self.old.state.dirty.push) }
        ensures { Comes result (push_done (step_of self.old) file block body.now rev) self.old self.new }
    {
        caches_stored(
            &self.state.dirty,
            &mut self.state.cache,
            self.state.alloc,
            file,
            block,
            body,
        )?;
        self.state.dirty.stored(file);
        self.state.cache.retag(file, rev).unwrap();
        self.vacates_if_clean(file);
        Ok(())
    }
}
