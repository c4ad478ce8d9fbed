//! Delayed writes that are lost.

ghost use Rattle.std.specs.Prelude.{◌≡◌, ◌≤◌, length, is_some, option_map, if◌then◌else◌, IsTrue, IfOk};
ghost use Rattle.std.specs.Option.{ForSome};
ghost use Rattle.nq_model.specs.protocol.Client.{is_clean_in, losses_of, notice_on};
ghost use Rattle.nq_model.specs.protocol.Hear.{all_dirty_in, breaks_chain, loses, push_refused, reports, vacates_noticed};
ghost use Rattle.nq_client.specs.Hearing.{IsSilent};
ghost use Rattle.nq_client.specs.Losing.{IsReadyFor, Keeps, SendsNothing, Uses};
ghost use Rattle.nq_client_parts.specs.Lost.{waiting};
ghost use Rattle.nq_client.specs.Prepared.{Comes, IsPrepared};
ghost use Rattle.nq_client.specs.State.{under_way};
ghost use Rattle.nq_client.specs.Step.{step_of};

use crate::state::{State, UnderWay};
use crate::step::Step;
use nq_base::{FileId, NoMemory};
use nq_client_parts::{Losing, Named, waits_for};

/// The number of the call under way, where it waits until a file is clean.
pub(crate) fn waiting(call: &Option<UnderWay>, file: FileId) -> Option<u64>
    ensures { result ≡ waiting file (option_map under_way call.now) }
{
    match call {
        Some(u) if waits_for(&u.call, u.written, file) => Some(u.q),
        _ => None,
    }
}

/// Makes what the loss of all delayed writes of a file needs.
pub(crate) fn ready_to_lose(state: &State, file: FileId) -> Result<Losing, NoMemory>
    ensures { IfOk result (λ l. IsReadyFor l file state.now) }
{
    let found = state.dirty.losses(state.alloc, file)?;
    state.losses.losing(state.alloc, file, found)
}

impl Step {
    /// All delayed writes of a file are lost; no answer named them yet. What a call that waits is told comes back.
    #[tactic(auto, using(nq_client_parts::proofs::Found::told_all, crate::proofs::Reported::clean_after), unfolding(nq_model::specs::protocol::Hear::loses))]
    fn loses(&mut self, file: FileId, ready: Losing) -> Named
        requires ready { IsReadyFor ready file self.old.state }
        requires entries { length (all_dirty_in file self.old.state.dirty.dirty self.old.state.dirty.push) ≤ self.old.entries.spare }
        ensures step { step_of self.new ≡ loses (step_of self.old) file }
        ensures quiet { SendsNothing self.old self.new }
        ensures clean { IsTrue (is_clean_in file self.new.state.dirty.dirty self.new.state.dirty.push) }
        ensures named { result ≡ losses_of file self.new.state.losses.items }
        ensures left { Uses (length (all_dirty_in file self.old.state.dirty.dirty self.old.state.dirty.push)) self.old self.new }
    {
        let Losing { found, after, told } = ready;
        self.state.dirty.lose(file);
        self.entries.note_losses(&self.state.who, &found);
        self.state.losses = after;
        told
    }

    /// What follows the loss of all delayed writes of a file: a notice is answered, and a call that waits is told.
    fn follows_loss(&mut self, file: FileId, named: Named)
        requires room { 1 ≤ self.old.entries.spare }
        requires named { named ≡ losses_of file self.old.state.losses.items }
        requires silent { IsSilent self.old }
        requires clean { IsTrue (is_clean_in file self.old.state.dirty.dirty self.old.state.dirty.push) }
        ensures step { step_of self.new ≡ reports (vacates_noticed (step_of self.old) file (notice_on file self.old.state.notices.items)) file }
        ensures left { Uses 1 self.old self.new }
    {
        self.vacates_noticed(file);
        match waiting(&self.state.call, file) {
            Some(q) => self.names_losses(q, file, named),
            None => {}
        }
    }

    /// A push was refused: its file's delayed writes are lost, and no lease is held on it any more; a notice is answered,
    /// and a call that waits is told.
    ///
    /// # Errors
    ///
    /// Only want of memory, and then nothing changed.
    #[tactic(auto, unfolding(nq_model::specs::protocol::Hear::without_lease))]
    pub(crate) fn push_refused(&mut self, file: FileId) -> Result<(), NoMemory>
        requires { IsPrepared file self.old }
        ensures { Comes result (push_refused (step_of self.old) file) self.old self.new }
    {
        let ready = ready_to_lose(&self.state, file)?;
        let named = self.loses(file, ready);
        self.state.leases.remove(file);
        self.follows_loss(file, named);
        Ok(())
    }

    /// Where a grant broke the chain of a lease, the delayed writes of its file are lost; a notice is answered, and a call that
    /// waits is told.
    pub(crate) fn breaks_chain(&mut self, file: FileId, losing: Option<Losing>)
        requires prepared { IsPrepared file self.old }
        requires ready { ForSome losing (λ r. IsReadyFor r file self.old.state) }
        ensures step { step_of self.new ≡ (if is_some losing then breaks_chain (step_of self.old) file else step_of self.old) }
        ensures spare { 3 ≤ self.new.entries.spare }
        ensures block { 1 ≤ self.new.state.dirty.spare }
        ensures kept { Keeps self.old self.new }
    {
        if let Some(ready) = losing {
            let named = self.loses(file, ready);
            self.follows_loss(file, named);
        }
    }
}
