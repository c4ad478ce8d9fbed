//! Grants that are taken.

ghost use Rattle.std.specs.Prelude.{◌<◌, ◌^◌, IfOk};
ghost use Rattle.nq_model.specs.protocol.Hear.{takes_optional, then_caches};
ghost use Rattle.nq_client.specs.Prepared.{Comes, IsPrepared, Takes};
ghost use Rattle.nq_client.specs.Step.{step_of};
ghost use Rattle.nq_client.specs.Taking.{IsTaking};

use crate::losing::ready_to_lose;
use crate::state::State;
use crate::step::Step;
use nq_base::{Block, BlockNo, FileId, Grant, NoMemory, Ticks};
use nq_cache::caches_read;
use nq_client_parts::Losing;
use nq_client_parts::holding::{GrantTaken, Held};

/// A grant that is to be taken, and what this needs, made before anything changes.
#[derive(Drop)]
pub(crate) struct Taking {
    /// The lease as it is held then.
    pub(crate) held: Held,
    /// What a loss needs, where the grant brings one.
    pub(crate) losing: Option<Losing>,
}

/// Makes what a grant needs whose request was first sent at `sent`.
#[tactic(auto, using(crate::proofs::Grants::broken_as))]
fn ready_to_take(
    state: &State,
    file: FileId,
    grant: &Grant,
    sent: Ticks,
) -> Result<Taking, NoMemory>
    requires { sent < 2 ^ 62 }
    ensures { IfOk result (λ t. IsTaking t file grant.now sent state.now) }
{
    // Once it is read, the term is known to be within its field.
    let _term = grant.term;
    let GrantTaken { held, how } = state.leases.on(file).take_grant(file, grant, sent);
    if how.is_broken() && !state.dirty.is_clean(file) {
        let losing = ready_to_lose(state, file)?;
        return Ok(Taking {
            held,
            losing: Some(losing),
        });
    }
    Ok(Taking { held, losing: None })
}

impl Step {
    /// Takes a grant, if there is one, whose request was first sent at `sent`. Where it breaks the chain of a lease over delayed
    /// writes, these are lost.
    ///
    /// # Errors
    ///
    /// Only want of memory, and then nothing changed.
    pub(crate) fn takes_optional(
        &mut self,
        file: FileId,
        grant: &Option<Grant>,
        sent: Ticks,
    ) -> Result<(), NoMemory>
        requires prepared { IsPrepared file self.old }
        requires sent { sent < 2 ^ 62 }
        ensures { Comes result (takes_optional (step_of self.old) file grant.now sent) self.old self.new }
    {
        let Some(given) = grant else {
            return Ok(());
        };
        let Taking { held, losing } = ready_to_take(&self.state, file, given, sent)?;
        self.breaks_chain(file, losing);
        self.holds(file, given, sent, held);
        Ok(())
    }

    /// Takes the grant that came with a block, if there is one; then the block is cached under it.
    ///
    /// # Errors
    ///
    /// Only want of memory, and then nothing changed.
    pub(crate) fn takes_read(
        &mut self,
        file: FileId,
        block: BlockNo,
        body: &Block,
        grant: &Option<Grant>,
        sent: Ticks,
    ) -> Result<(), NoMemory>
        requires prepared { IsPrepared file self.old }
        requires sent { sent < 2 ^ 62 }
        ensures { Takes result (then_caches (takes_optional (step_of self.old) file grant.now sent) file block body.now grant.now) self.old self.new }
    {
        match grant {
            Some(given) => {
                let Taking { held, losing } = ready_to_take(&self.state, file, given, sent)?;
                let alloc = self.state.alloc;
                caches_read(&mut self.state.cache, alloc, file, block, body, grant)?;
                self.breaks_chain(file, losing);
                self.keeps(file, given, sent, held);
                Ok(())
            }
            None => Ok(()),
        }
    }
}
