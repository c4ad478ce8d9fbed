//! What a client holds and caches by a reply.

ghost use Rattle.std.specs.Prelude.{◌≡◌, ◌≤◌, Some, IfSome};
ghost use Rattle.nq_client_parts.specs.HoldingLeases.{lease_of};
ghost use Rattle.nq_model.specs.protocol.Client.{put_lease};
ghost use Rattle.nq_model.specs.protocol.Hear.{granted_lease, holds};
ghost use Rattle.nq_client.specs.Granting.{keeps};
ghost use Rattle.nq_client.specs.Step.{step_of};

use crate::step::Step;
use nq_base::{FileId, Grant, Mode, Ticks};
use nq_cache::cleans;
use nq_client_parts::Leases;
use nq_client_parts::holding::Held;

/// Puts what is held in the place of another lease of its file, in room that is there.
fn put_held(leases: &mut Leases, held: Held)
    requires { 1 ≤ leases.old.spare }
    ensures { IfSome (lease_of held) (λ l. leases.new.items ≡ put_lease l leases.old.items) }
{
    match held {
        Held::Nothing => {}
        Held::NonCaching(lease) => leases.put_lease(Mode::NonCaching, lease).unwrap(),
        Held::Reading(lease) => leases.put_lease(Mode::Reading, lease).unwrap(),
        Held::Writing(lease) => leases.put_lease(Mode::Writing, lease).unwrap(),
    }
}

impl Step {
    /// Holds a lease whose request was first sent at `sent`. Clean blocks of another revision go.
    #[tactic(auto, unfolding(nq_model::specs::protocol::Hear::holds))]
    pub(crate) fn holds(&mut self, file: FileId, grant: &Grant, sent: Ticks, held: Held)
        requires held { lease_of held ≡ Some (granted_lease file grant.now sent) }
        requires lease { 1 ≤ self.old.state.leases.spare }
        requires revision { 1 ≤ self.old.state.cache.spare }
        ensures step { step_of self.new ≡ holds (step_of self.old) file grant.now sent }
        ensures entries { self.new.entries ≡ self.old.entries }
        ensures dirty { self.new.state.dirty ≡ self.old.state.dirty }
    {
        cleans(&mut self.state.cache, file, grant.rev);
        self.keeps(file, grant, sent, held);
    }

    /// Holds a lease whose request was first sent at `sent`, over the clean blocks that are there.
    pub(crate) fn keeps(&mut self, file: FileId, grant: &Grant, sent: Ticks, held: Held)
        requires held { lease_of held ≡ Some (granted_lease file grant.now sent) }
        requires lease { 1 ≤ self.old.state.leases.spare }
        requires revision { 1 ≤ self.old.state.cache.spare }
        ensures step { step_of self.new ≡ keeps (step_of self.old) file grant.now sent }
        ensures entries { self.new.entries ≡ self.old.entries }
        ensures dirty { self.new.state.dirty ≡ self.old.state.dirty }
    {
        self.state.cache.retag(file, grant.rev).unwrap();
        put_held(&mut self.state.leases, held);
    }
}
