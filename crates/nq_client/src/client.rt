//! The client of one host.

ghost use Rattle.std.specs.Prelude.{◌≡◌, ◌≤◌, ◌<◌, ◌+◌, ◌^◌, ◌∷◌, ◌++◌, ◌↔◌, [], All, is_some, map, option_copied, option_map, true, IfOk, OnErr, OnOk};
ghost use Rattle.std.specs.Prelude.{if◌then◌else◌};
ghost use Rattle.nq_base.specs.Plain.{plain_answer};
ghost use Rattle.nq_datagrams.specs.Incoming.{hears_in};
ghost use Rattle.nq_datagrams.specs.Messages.{FitsMessage};
ghost use Rattle.nq_client_parts.specs.HoldingLeases.{lease_of};
ghost use Rattle.nq_model.specs.laws.CachedAtOnce.{has_cached};
ghost use Rattle.nq_model.specs.protocol.Client.{lease_on};
ghost use Rattle.nq_model.specs.protocol.ClientStep.{attached_client, client_call, client_tick, starts};
ghost use Rattle.nq_model.specs.protocol.Profile.{most_taken_by_client};
ghost use Rattle.nq_model.specs.protocol.Settle.{after_read};
ghost use Rattle.nq_client.specs.Finishing.{to_server};
ghost use Rattle.nq_client.specs.Outcome.{Called, Heeded, Received};
ghost use Rattle.nq_client.specs.State.{call_of};

use crate::finishing::Letters;
use crate::reaction::Reaction;
use crate::reading::read_cached;
use crate::receiving::read;
use crate::starting::begin;
use crate::state::State;
use crate::step::Step;
use crate::stepping::{hear, make_call, make_tick, reserve, room_for_call};
use nq_base::{
    Answer, Block, BlockNo, Call, FileId, Host, Inc, Journal, KeptCall, NoMemory, Spare, Ticks, Who,
};
use nq_client_parts::dirty::Dirty;
use nq_client_parts::holding::Held;
use nq_wire::Outbox;
use std::alloc::Global;
use std::marker::Model;

/// Why no client was made.
#[derive(Clone, Copy)]
pub enum StartClient {
    /// Memory was wanted and refused.
    Memory,
}

/// The client of one incarnation of a host (Macklem 1994). Clauses see the client of the protocol, and how many calls,
/// datagrams and ticks it took in. It has to be stopped in the end.
pub struct Client {
    step: Step,
    letters: Letters,
    taken: u64,
}

impl Model for Client {
    ghost use Rattle.nq_client.specs.Counted.{Counted, IsWithin, counted};
    ghost use Rattle.nq_client.specs.Step.{IsBegun};

    ghost Value = { Counted };

    ghost view = { λ c. counted c.step.state c.taken };

    ghost invariant = { λ c. IsBegun c.step × IsWithin c.step.state c.taken };
}

impl Client {
    /// The most calls, datagrams and ticks that a client takes in.
    pub const MOST_TAKEN: u64 = 1_073_741_824;

    /// A client that is attached from the start, and sends nothing. `term` is the term, in ticks, that it wants.
    ///
    /// # Errors
    ///
    /// Only want of memory.
    #[tactic(auto, unfolding(nq_model::specs::protocol::ClientStep::attached_client, nq_model::specs::protocol::ClientStep::fresh_client))]
    pub fn attached(
        alloc: Global,
        host: Host,
        inc: Inc,
        term: u32,
        time: Ticks,
    ) -> Result<Client, StartClient>
        requires { time < 2 ^ 62 }
        ensures client { IfOk result (λ c. c.client ≡ attached_client (record { host = host; inc = inc }) term time) }
        ensures taken { IfOk result (λ c. c.taken ≡ 0) }
    {
        match State::fresh(alloc, Who { host, inc }, term, time) {
            Ok(mut state) => {
                state.attached = true;
                Ok(Client {
                    step: Step::begun(state),
                    letters: Letters::new(alloc),
                    taken: 0,
                })
            }
            Err(NoMemory::Memory) => Err(StartClient::Memory),
        }
    }

    /// A client that begins this incarnation: it asks the server to attach it. `term` is the term, in ticks, that it wants.
    ///
    /// # Errors
    ///
    /// Only want of memory. Then nothing is sent.
    pub fn start(
        alloc: Global,
        host: Host,
        inc: Inc,
        term: u32,
        time: Ticks,
        out: &mut Outbox,
    ) -> Result<Client, StartClient>
        requires { time < 2 ^ 62 }
        ensures client { IfOk result (λ c. c.client ≡ (starts (record { host = host; inc = inc }) term time).client) }
        ensures taken { IfOk result (λ c. c.taken ≡ 0) }
        ensures first { out.new.first ≡ out.old.first }
        ensures sent { OnOk result (out.new.datagrams ≡ out.old.datagrams ++ map to_server (starts (record { host = host; inc = inc }) term time).sends) }
        ensures fit { OnOk result (All FitsMessage (starts (record { host = host; inc = inc }) term time).sends) }
        ensures refused { OnErr result (out.new.datagrams ≡ out.old.datagrams) }
    {
        let mut letters = Letters::new(alloc);
        match begin(alloc, Who { host, inc }, term, time, &mut letters, out) {
            Ok(step) => Ok(Client {
                step,
                letters,
                taken: 0,
            }),
            Err(NoMemory::Memory) => Err(StartClient::Memory),
        }
    }

    /// Takes in a call of a user. It is answered at once, or `Pending`: then a later datagram or tick brings the answer.
    ///
    /// # Errors
    ///
    /// `Busy` where another call is under way or the client is not attached, and the other call goes on. `Spent` exactly
    /// where the client has taken in 2^30 calls, datagrams and ticks. After `Spent` and `Memory` the client, the outbox
    /// and the journal are as before.
    pub fn call(&mut self, call: &Call, out: &mut Outbox, log: &mut Journal) -> Answer
        ensures spent { (result ≡ Answer.Spent) ↔ (self.old.taken ≡ most_taken_by_client) }
        ensures called { Called result (client_call self.old.client call.now) self.old self.new out.old out.new log.old log.new }
    {
        if self.taken == Client::MOST_TAKEN {
            return Answer::Spent;
        }
        let Ok(own) = call.copied(self.step.state.alloc) else {
            return Answer::Memory;
        };
        let Ok(kept) = KeptCall::new(self.step.state.alloc, &call.told()) else {
            return Answer::Memory;
        };
        let Ok(named) = room_for_call(&mut self.step, &mut self.letters, call, out, log) else {
            return Answer::Memory;
        };
        self.taken += 1;
        make_call(
            &mut self.step,
            &mut self.letters,
            own,
            kept,
            named,
            out,
            log,
        );
        self.step.gives_answer()
    }

    /// Takes in a tick of its clock, which shows this time now, in ticks. A request that waits for its reply for 2 ticks is
    /// sent again.
    ///
    /// # Errors
    ///
    /// `Spent` exactly where the client has taken in 2^30 calls, datagrams and ticks. After `Spent` and `Memory` the
    /// client, the outbox and the journal are as before. It is never `Ignored`.
    pub fn tick(&mut self, now: Ticks, out: &mut Outbox, log: &mut Journal) -> Reaction
        requires early { now < 2 ^ 62 }
        requires later { self.old.client.now ≤ now }
        ensures spent { (result ≡ Reaction.Spent) ↔ (self.old.taken ≡ most_taken_by_client) }
        ensures heeded { Heeded result (client_tick self.old.client now) self.old self.new out.old out.new log.old log.new }
    {
        if self.taken == Client::MOST_TAKEN {
            return Reaction::Spent;
        }
        let Ok(()) = reserve(&mut self.step, &mut self.letters, 2, out, log) else {
            return Reaction::Memory;
        };
        self.taken += 1;
        make_tick(&mut self.step, &mut self.letters, now, out, log);
        self.step.gives_heard()
    }

    /// Takes in a datagram of the server, which is the packet of this number: the reply to the request under way, or a
    /// notice of a lease. It is `Ignored` exactly where the protocol ignores it, and then it is counted and changes nothing
    /// else. Want of memory never hinders that.
    ///
    /// # Errors
    ///
    /// `Spent` exactly where the client has taken in 2^30 calls, datagrams and ticks. After `Spent` and `Memory` the
    /// client, the outbox and the journal are as before.
    pub fn receive(
        &mut self,
        packet: u64,
        datagram: &[u8],
        out: &mut Outbox,
        log: &mut Journal,
    ) -> Reaction
        ensures spent { (result ≡ Reaction.Spent) ↔ (self.old.taken ≡ most_taken_by_client) }
        ensures received { Received result (hears_in self.old.client packet datagram.now) self.old self.new out.old out.new log.old log.new }
    {
        if self.taken == Client::MOST_TAKEN {
            return Reaction::Spent;
        }
        let Some(heard) = read(&self.step.state, datagram) else {
            self.taken += 1;
            return Reaction::Ignored;
        };
        let room = &mut self.letters.rooms.kept;
        let Ok(()) = room.reserve(self.step.state.alloc) else {
            return Reaction::Memory;
        };
        let heard = heard.kept(room);
        let Ok(()) = hear(&mut self.step, &mut self.letters, packet, &heard, out, log) else {
            return Reaction::Memory;
        };
        self.taken += 1;
        self.step.gives_heard()
    }

    /// Reads a block from what the client has: a delayed one, else the one under way, else a clean one. The copy is made in
    /// room that the caller has, so it wants no memory.
    /// It does so exactly where no call is under way, the client is attached, and a caching lease runs under which it has
    /// the block.
    #[tactic(auto, unfolding(nq_model::specs::protocol::Settle::after_read))]
    pub fn read_cached(&mut self, file: FileId, block: BlockNo, room: &mut Spare) -> Option<Block>
        requires { room.old ≡ true }
        ensures body { result ≡ has_cached self.old.client file block }
        ensures client { self.new ≡ (if is_some result then record self.old { client = after_read self.old.client file block } else self.old) }
    {
        read_cached(&mut self.step.state, file, block, room)
    }

    /// The host and its incarnation.
    pub fn who(&self) -> Who
        ensures { result ≡ self.now.client.who }
    {
        self.step.state.who
    }

    /// The term that it wants, in ticks.
    pub fn term(&self) -> u32
        ensures { result ≡ self.now.client.term }
    {
        self.step.state.term
    }

    /// The call under way, if there is one.
    pub fn call_under_way(&self) -> Option<&Call>
        ensures { option_copied result ≡ option_map call_of self.now.client.call }
    {
        match &self.step.state.call {
            Some(u) => Some(&u.call),
            None => None,
        }
    }

    /// Whether the server knows this incarnation.
    pub fn is_attached(&self) -> bool
        ensures { result ≡ self.now.client.attached }
    {
        self.step.state.attached
    }

    /// The client's time, in ticks.
    pub fn time(&self) -> Ticks
        ensures { result ≡ self.now.client.now }
    {
        self.step.state.time
    }

    /// The delayed writes.
    pub fn dirty(&self) -> &Dirty
        ensures dirty { result.now.dirty ≡ self.now.client.dirty }
        ensures push { result.now.push ≡ self.now.client.push }
    {
        &self.step.state.dirty
    }

    /// What it holds on a file.
    pub fn held(&self, file: FileId) -> Held
        ensures { lease_of result ≡ lease_on file self.now.client.leases }
    {
        self.step.state.leases.on(file)
    }

    /// Ends the client: what it has under way and what waits is forgotten, and so are its delayed writes.
    pub fn stop(self) {
        let Client {
            step,
            letters: _letters,
            taken: _,
        } = self;
        let Step {
            state,
            vacated: _vacated,
            asks: _,
            entries: _entries,
            answer: _answer,
            cached: _,
        } = step;
        state.stop();
    }
}
