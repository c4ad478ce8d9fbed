//! Requests of the call under way that were done.

ghost use Rattle.std.specs.Prelude.{◌≡◌, ◌≤◌, ◌<◌, ◌^◌, None};
ghost use Rattle.nq_base.specs.declared.Answer.TheVariants.{Ok as ok};
ghost use Rattle.nq_base.specs.declared.Value.{Value};
ghost use Rattle.nq_model.specs.protocol.Hear.{answers_call, done_for_call, knows_revision, lease_done, read_done};
ghost use Rattle.nq_client.specs.Done.{brought, changes};
ghost use Rattle.nq_client.specs.Prepared.{Comes, IsPrepared, Leaves};
ghost use Rattle.nq_client_parts.specs.Calls.{file_at_stake};
ghost use Rattle.nq_client.specs.Step.{step_of};

use crate::step::Step;
use nq_base::{Block, BlockNo, FileId, Grant, NoMemory, Reply, Request, Rev, Ticks, Value};
use nq_cache::lets_cache;

/// What answers the call under way where its request brings a value alone.
fn brought(request: &Request, reply: &Reply) -> Option<Value>
    ensures { result ≡ brought request.now reply.now }
{
    match request {
        Request::Lookup { .. } => match reply {
            Reply::Lookup { file, .. } => Some(Value::File(*file)),
            _ => None,
        },
        Request::Create { .. } => match reply {
            Reply::Create { file, .. } => Some(Value::File(*file)),
            _ => None,
        },
        Request::GetAttr { .. } => match reply {
            Reply::GetAttr { blocks, .. } => Some(Value::Blocks(*blocks)),
            _ => None,
        },
        Request::Remove { .. } => match reply {
            Reply::Remove { .. } => Some(Value::Nothing),
            _ => None,
        },
        Request::Null
        | Request::Attach { .. }
        | Request::Read { .. }
        | Request::Write { .. }
        | Request::GetLease { .. }
        | Request::Vacated { .. }
        | Request::Evicted { .. }
        | Request::Resize { .. } => None,
    }
}

impl Step {
    /// READ of a block was done: a grant that came with it is taken, the block is cached under it, and the call is answered.
    fn read_done(
        &mut self,
        file: FileId,
        block: BlockNo,
        body: &Block,
        grant: &Option<Grant>,
        sent: Ticks,
        packet: u64,
    ) -> Result<(), NoMemory>
        requires prepared { IsPrepared file self.old }
        requires sent { sent < 2 ^ 62 }
        ensures { Comes result (read_done (step_of self.old) file block body.now grant.now sent packet) self.old self.new }
    {
        let answer = body.copied(self.state.alloc)?;
        self.takes_read(file, block, body, grant, sent)?;
        self.answers_value(Value::Body(answer), Some(packet));
        Ok(())
    }

    /// GETLEASE of a call was done: a grant is taken; without a caching one the write is to go through.
    fn lease_done(
        &mut self,
        file: FileId,
        grant: &Option<Grant>,
        sent: Ticks,
    ) -> Result<(), NoMemory>
        requires prepared { IsPrepared file self.old }
        requires sent { sent < 2 ^ 62 }
        ensures { Comes result (lease_done (step_of self.old) file grant.now sent) self.old self.new }
    {
        self.takes_optional(file, grant, sent)?;
        if !lets_cache(grant) {
            self.marks_through(true);
        }
        Ok(())
    }

    /// RESIZE was done: the file has this revision, and the call is answered.
    #[tactic(auto, unfolding(nq_model::specs::protocol::Hear::knows_revision))]
    fn resized(&mut self, file: FileId, rev: Rev)
        requires entries { 1 ≤ self.old.entries.spare }
        requires revision { 1 ≤ self.old.state.cache.spare }
        ensures step { step_of self.new ≡ answers_call (knows_revision (step_of self.old) file rev) (ok Value.Nothing) None }
        ensures left { Leaves 1 self.old self.new }
    {
        self.state.cache.retag(file, rev).unwrap();
        self.answers_value(Value::Nothing, None);
    }

    /// The request of the call under way was done. It was first sent at `sent`, and its reply is the packet of this number.
    ///
    /// # Errors
    ///
    /// Only want of memory, and then nothing changed.
    #[tactic(auto, using(crate::proofs::Brought::with_value, crate::proofs::Brought::without))]
    pub(crate) fn done_for_call(
        &mut self,
        request: &Request,
        sent: Ticks,
        packet: u64,
        reply: &Reply,
    ) -> Result<(), NoMemory>
        requires prepared { IsPrepared (file_at_stake request.now) self.old }
        requires sent { sent < 2 ^ 62 }
        ensures { Comes result (done_for_call (step_of self.old) packet sent request.now reply.now) self.old self.new }
    {
        match brought(request, reply) {
            Some(value) => {
                self.answers_value(value, None);
                Ok(())
            }
            None => self.changes(request, sent, packet, reply),
        }
    }

    /// Likewise, where the call is not answered by a value alone.
    fn changes(
        &mut self,
        request: &Request,
        sent: Ticks,
        packet: u64,
        reply: &Reply,
    ) -> Result<(), NoMemory>
        requires prepared { IsPrepared (file_at_stake request.now) self.old }
        requires sent { sent < 2 ^ 62 }
        ensures { Comes result (changes (step_of self.old) packet sent request.now reply.now) self.old self.new }
    {
        match request {
            Request::Resize { file, .. } => match reply {
                Reply::Resize { rev, .. } => {
                    self.resized(*file, *rev);
                    Ok(())
                }
                _ => Ok(()),
            },
            Request::Read { file, block, .. } => match reply {
                Reply::Read { body, grant, .. } => {
                    self.read_done(*file, *block, body, grant, sent, packet)
                }
                _ => Ok(()),
            },
            Request::GetLease { file, .. } => match reply {
                Reply::GetLease { grant, .. } => self.lease_done(*file, grant, sent),
                _ => Ok(()),
            },
            Request::Write {
                file,
                block,
                body,
                ..
            } => match reply {
                Reply::Write { rev, .. } => self.write_done(*file, *block, body, *rev),
                _ => Ok(()),
            },
            _ => Ok(()),
        }
    }
}
