//! What the call under way needs no packet for: cached reads, delayed writes, and syncs of clean files.

ghost use Rattle.std.specs.Prelude.{◌≡◌, ◌≤◌, ◌<◌, ◌+◌, ◌^◌, true, false, Some, option_map};
ghost use Rattle.nq_base.specs.Plain.{plain_answer, plain_said};
ghost use Rattle.nq_base.specs.declared.Answer.{Answer};
ghost use Rattle.nq_base.specs.declared.Answer.TheVariants.{Ok as ok};
ghost use Rattle.nq_base.specs.declared.Value.{Value};
ghost use Rattle.nq_model.specs.protocol.Client.{lease_on};
ghost use Rattle.nq_model.specs.protocol.Settle.{body_in, delays, is_full_in, settle, ticket_is_for_call};
ghost use Rattle.nq_client.specs.Losing.{Uses};
ghost use Rattle.nq_client.specs.Settling.{called_body, ended, goes_on_delayed, settles_body, settles_put, settles_read, settles_sync, settles_write, writes};
ghost use Rattle.nq_client.specs.State.{under_way};
ghost use Rattle.nq_client.specs.Step.{HasNumbers, HasRoom, step_of};

use crate::asked::AskedRequest;
use crate::reading::read_held;
use crate::state::UnderWay;
use crate::step::Step;
use nq_base::{Answer, Block, BlockNo, Call, Entry, FileId, Number, Said, Spare, Value};
use nq_client_parts::{Job, Leave, body_of_call};

/// Whether the request under way is the call's own.
fn is_for_call(asked: &Option<AskedRequest>) -> bool
    ensures { result ≡ ticket_is_for_call asked.now }
{
    match asked {
        Some(asked) => match asked.job() {
            Job::ForCall => true,
            Job::Attaching | Job::Renewing | Job::Pushing => false,
        },
        None => false,
    }
}

/// A copy of the block that the call under way writes, in room that is there; zeros where it writes none.
pub(crate) fn called_body(call: &Option<UnderWay>, room: &mut Spare) -> Block
    requires { room.old ≡ true }
    ensures { result ≡ called_body (option_map under_way call.now) }
{
    match call {
        Some(u) => body_of_call(&u.call, room),
        None => Block::fill(0),
    }
}

impl Step {
    /// An answer, as a journal tells it, ends the call under way.
    pub(crate) fn ends_call(&mut self, q: u64, answer: Answer, said: Said)
        requires { 1 ≤ self.old.entries.spare }
        ensures step { step_of self.new ≡ ended (step_of self.old) q (plain_answer answer) (plain_said said) }
        ensures left { Uses 1 self.old self.new }
    {
        self.state.call = None;
        self.entries.note(Entry::A {
            who: self.state.who,
            q,
            said,
        });
        self.answer = Some(answer);
    }

    /// What the call under way needs no packet for, unless the request under way is its own.
    pub(crate) fn settle(&mut self, room: &mut Spare)
        requires room { HasRoom self.old }
        requires block { room.old ≡ true }
        requires numbers { HasNumbers 1 self.old.state }
        ensures { step_of self.new ≡ settle (step_of self.old) }
    {
        if is_for_call(&self.state.asked) {
            return;
        }
        match &self.state.call {
            Some(u) => match &u.call {
                Call::Read { file, block } | Call::Fetch { file, block } => {
                    let (q, file, block) = (u.q, *file, *block);
                    self.settle_read(q, file, block, room);
                }
                Call::Write { file, block, .. } => {
                    let (q, through, file, block) = (u.q, u.through, *file, *block);
                    self.settle_write(q, through, false, file, block, room);
                }
                Call::Put { file, block, .. } => {
                    let (q, through, written) = (u.q, u.through, u.written);
                    let (file, block) = (*file, *block);
                    self.settle_put(q, written, through, file, block, room);
                }
                Call::Sync { file } => {
                    let (q, file) = (u.q, *file);
                    self.settle_sync(q, file);
                }
                Call::Create { .. }
                | Call::Lookup { .. }
                | Call::Attr { .. }
                | Call::Resize { .. }
                | Call::Remove { .. } => {}
            },
            None => {}
        }
    }

    /// A read, by the lease that is held.
    #[tactic(auto, unfolding(nq_model::specs::protocol::Settle::answers))]
    fn settle_read(&mut self, q: u64, file: FileId, block: BlockNo, room: &mut Spare)
        requires room { HasRoom self.old }
        requires block { room.old ≡ true }
        ensures { step_of self.new ≡ settles_read (step_of self.old) q file block (lease_on file self.old.state.leases.items) }
    {
        match self
            .state
            .leases
            .leave_to_read(self.state.time, file, block)
        {
            Leave::None => {}
            Leave::PastEnd => self.ends_call(q, Answer::Range, Said::Range),
            Leave::Granted => self.settle_body(q, file, block, room),
        }
    }

    /// A read under a lease that lets it: it is answered with the block, if the client has it, and the lease was used.
    #[tactic(auto, unfolding(nq_model::specs::protocol::Settle::answers, nq_model::specs::protocol::Settle::after_read))]
    fn settle_body(&mut self, q: u64, file: FileId, block: BlockNo, room: &mut Spare)
        requires room { HasRoom self.old }
        requires block { room.old ≡ true }
        ensures { step_of self.new ≡ settles_body (step_of self.old) q file block
            (body_in file block self.old.state.dirty.dirty self.old.state.dirty.push self.old.state.cache.clean) }
    {
        let state = &mut self.state;
        let Some(body) = read_held(&state.dirty, &mut state.cache, file, block, room) else {
            return;
        };
        let value = body.value();
        state.leases.mark_used(file);
        self.entries.note(Entry::R {
            who: self.state.who,
            q,
            file,
            block,
            value,
            served: None,
        });
        self.ends_call(q, Answer::Ok(Value::Body(body)), Said::OkValue(value));
        self.cached = true;
    }

    /// A put: its write is delayed, or waits until it is stored.
    fn settle_put(
        &mut self,
        q: u64,
        written: bool,
        through: bool,
        file: FileId,
        block: BlockNo,
        room: &mut Spare,
    )
        requires room { HasRoom self.old }
        requires block { room.old ≡ true }
        requires numbers { HasNumbers 1 self.old.state }
        ensures { step_of self.new ≡ settles_put (step_of self.old) q written through file block (called_body (step_of self.old).client.call) }
    {
        if written {
            self.settle_sync(q, file);
        } else {
            self.settle_write(q, through, true, file, block, room);
        }
    }

    /// A write, by the lease that is held: it is delayed, unless it is to go through or a notice waits.
    #[tactic(auto, unfolding(nq_model::specs::protocol::Settle::answers))]
    fn settle_write(
        &mut self,
        q: u64,
        through: bool,
        sync: bool,
        file: FileId,
        block: BlockNo,
        room: &mut Spare,
    )
        requires room { HasRoom self.old }
        requires block { room.old ≡ true }
        requires numbers { HasNumbers 1 self.old.state }
        ensures { step_of self.new ≡ settles_write (step_of self.old) q through sync file block (called_body (step_of self.old).client.call)
            (lease_on file self.old.state.leases.items) }
    {
        if through || self.state.notices.waits(file) {
            return;
        }
        match self
            .state
            .leases
            .leave_to_write(self.state.time, file, block)
        {
            Leave::None => {}
            Leave::PastEnd => self.ends_call(q, Answer::Range, Said::Range),
            Leave::Granted => self.writes(q, sync, file, block, room),
        }
    }

    /// A write under a lease that lets it, where there is room for it.
    #[tactic(auto, unfolding(nq_model::specs::protocol::Settle::answers))]
    fn writes(&mut self, q: u64, sync: bool, file: FileId, block: BlockNo, room: &mut Spare)
        requires room { HasRoom self.old }
        requires block { room.old ≡ true }
        requires numbers { HasNumbers 1 self.old.state }
        ensures { step_of self.new ≡ writes (step_of self.old) q sync file block (called_body (step_of self.old).client.call) }
    {
        if self.state.dirty.is_full(file, block) {
            self.ends_call(q, Answer::DirtyFull, Said::DirtyFull);
        } else {
            self.delays(file, block, room);
            self.after_delay(q, sync);
        }
    }

    /// Delays the write of the call under way.
    #[tactic(auto, unfolding(nq_model::specs::protocol::Settle::after_write))]
    fn delays(&mut self, file: FileId, block: BlockNo, room: &mut Spare)
        requires room { HasRoom self.old }
        requires block { room.old ≡ true }
        requires numbers { HasNumbers 1 self.old.state }
        requires place { is_full_in file block self.old.state.dirty.dirty self.old.state.dirty.push ≡ false }
        ensures step { step_of self.new ≡ delays (step_of self.old) file block (called_body (step_of self.old).client.call) }
        ensures spare { self.old.entries.spare ≡ self.new.entries.spare + 1 }
    {
        let body = called_body(&self.state.call, room);
        let value = body.value();
        let number = self.state.number;
        self.state.dirty.write(file, block, number, body).unwrap();
        self.state.number = Number(number.0 + 1);
        self.state.leases.mark_used(file);
        self.state.cache.remove(file, block);
        self.entries.note(Entry::W {
            who: self.state.who,
            file,
            block,
            number,
            value,
            through: false,
        });
    }

    /// What comes after the write of the call under way was delayed: a write is answered, a put waits until it is stored.
    #[tactic(auto, unfolding(nq_model::specs::protocol::Settle::answers))]
    fn after_delay(&mut self, q: u64, sync: bool)
        requires { 1 ≤ self.old.entries.spare }
        ensures { step_of self.new ≡ goes_on_delayed (step_of self.old) q sync }
    {
        if !sync {
            self.ends_call(q, Answer::Ok(Value::Nothing), Said::Ok);
            return;
        }
        match &mut self.state.call {
            Some(u) => u.written = true,
            None => {}
        }
    }

    /// A sync, or a put whose write was delayed: it is answered once the file is clean.
    #[tactic(auto, unfolding(nq_model::specs::protocol::Settle::answers))]
    fn settle_sync(&mut self, q: u64, file: FileId)
        requires room { HasRoom self.old }
        ensures { step_of self.new ≡ settles_sync (step_of self.old) q file }
    {
        if self.state.dirty.is_clean(file) {
            self.ends_call(q, Answer::Ok(Value::Nothing), Said::Ok);
        }
    }
}
