//! The server.

ghost use Rattle.std.specs.Prelude.{◌≡◌, ◌<◌, ◌≤◌, ◌^◌, ◌↔◌, IfOk, IsTrue};
ghost use Rattle.std.specs.Option.{ForSome};
ghost use Rattle.nq_keeper.specs.Booting.{LeavesThen};
ghost use Rattle.nq_datagrams.specs.Incoming.{datagram_in};
ghost use Rattle.nq_keeper.specs.Keeping.{LeavesOne, Reads};
ghost use Rattle.nq_model.specs.protocol.Change.{file_after, row_of_found};
ghost use Rattle.nq_model.specs.protocol.Kept.{host_row};
ghost use Rattle.nq_model.specs.protocol.Profile.{most_hosts, most_taken_by_server};
ghost use Rattle.nq_model.specs.protocol.Server.{serving};
ghost use Rattle.nq_model.specs.protocol.ServerStep.{booted, receive as received, tick as ticked};
ghost use Rattle.nq_server.specs.Booting.{after_fault};
ghost use Rattle.nq_server.specs.Holding.{Boots, IsTaken, IsUntouched, Reboots, keeper_in};
ghost use Rattle.nq_server.specs.State.{server_of};
ghost use Rattle.nq_server.specs.Stepping.{LeavesStep, done_of, halted_of, next_of};

use crate::booting::{begin, replace_state, state_after, tell_crash};
use crate::reading::take_datagram;
use crate::received::{EventTaken, Received};
use crate::state::{Phase, State};
use crate::ticks::tick;
use nq_base::{FileId, FileRow, Host, Inc, Journal, Spare, Ticks};
use nq_datagrams::read_incoming;
use nq_keeper::requests::boot::StartFault;
use nq_keeper::{KeepFault, Keeper};
use nq_lease::Table;
use nq_wire::Outbox;
use std::alloc::Global;
use std::marker::Model;

/// A server over a keeper. Contracts see the keeper, what the server holds beside it, and how many datagrams and ticks it has
/// taken in since it booted.
#[derive(Drop)]
pub struct Server<K> {
    pub(crate) keeper: K,
    pub(crate) state: State,
    pub(crate) taken: u64,
    /// Room for the body of the next WRITE, taken before its datagram is read.
    pub(crate) room: Spare,
}

impl<K> Model for Server<K> {
    ghost use Rattle.nq_server.specs.Holding.{Holding};
    ghost use Rattle.nq_server.specs.Sound.{IsSoundAfter};
    ghost use Rattle.nq_server.specs.State.{beside_of};

    ghost Value = { Holding K };

    ghost view = { λ s. record { keeper = s.keeper; beside = beside_of s.state; taken = s.taken } };

    ghost invariant = { λ s. IsSoundAfter s.taken s.state };
}

/// Why no boot begins. The keeper is handed back.
#[derive(Drop)]
pub enum BootFault<K> {
    /// The keeper failed.
    Failed(K),
    /// Memory was wanting; what is kept is as before.
    Memory(K),
    /// The last number of a boot is taken; what is kept is as before.
    Spent(K),
}

/// What a boot that did not begin means for an event.
fn received_of(fault: StartFault) -> Received
    ensures { result ≡ after_fault fault }
{
    match fault {
        StartFault::Failed => Received::Fault,
        StartFault::Memory => Received::Memory,
        StartFault::Spent => Received::Spent,
    }
}

/// How an event was taken in, for those who sent it.
fn done(taken: EventTaken) -> Received
    ensures { result ≡ done_of taken }
{
    match taken {
        EventTaken::Done => Received::Done,
        EventTaken::Dropped(reason) => Received::Dropped(reason),
    }
}

/// Why an event was not taken in, for those who sent it.
fn halted(fault: KeepFault) -> Received
    ensures { result ≡ halted_of fault }
{
    match fault {
        KeepFault::Failed => Received::Fault,
        KeepFault::Memory => Received::Memory,
    }
}

/// The most datagrams and ticks that a boot takes in.
const MOST_TAKEN: u64 = 1 << 61;

impl<K: Keeper> Server<K> {
    /// Boots over a keeper at this time, which is below 2^62; the longest term that the boot grants is 5 to 600 ticks. Where a
    /// boot served before, it recovers first (Macklem 1994). The boot's number is kept in one commit, before which all memory is
    /// taken.
    pub fn boot(
        alloc: Global,
        keeper: K,
        longest: u32,
        now: Ticks,
    ) -> Result<Server<K>, BootFault<K>>
        requires long { 5 ≤ longest }
        requires short { longest ≤ 600 }
        requires early { now < 2 ^ 62 }
        ensures boots { Boots longest now result (K.content keeper) (K.content (keeper_in result)) (K.faults keeper) (K.faults (keeper_in result)) }
        ensures follows { K.follows keeper (keeper_in result) }
        ensures leaves { LeavesThen (λ kept. booted kept longest) (K.content keeper) (K.leaves keeper (keeper_in result)) }
    {
        let mut keeper = keeper;
        match begin(alloc, &mut keeper, longest, now) {
            Ok(begun) => Ok(Server {
                keeper,
                state: state_after(begun, longest, now),
                taken: 0,
                room: Spare::none(),
            }),
            Err(StartFault::Failed) => Err(BootFault::Failed(keeper)),
            Err(StartFault::Memory) => Err(BootFault::Memory(keeper)),
            Err(StartFault::Spent) => Err(BootFault::Spent(keeper)),
        }
    }

    /// Takes in a datagram from a host, whatever its bytes are, and adds to the outbox what is due: notices stand before the reply
    /// (Macklem 1994). One that names another host than its sender, or none that there can be, is dropped. At most one change is
    /// kept, and all memory is taken before it.
    ///
    /// # Errors
    ///
    /// `Fault` only where the keeper counted a fault, `Memory` where memory was refused, `Spent` exactly where 2^61 datagrams
    /// and ticks were taken in since the boot. Then the server, the outbox and the journal are as before.
    pub fn receive(
        &mut self,
        alloc: Global,
        sender: Host,
        datagram: &[u8],
        out: &mut Outbox,
        log: &mut Journal,
    ) -> Received
        ensures takes { IsTaken (λ kept. received (server_of self.old.beside kept) sender (next_of out.old) (datagram_in datagram.now)) result
            (K.content self.old.keeper) (K.content self.new.keeper) (K.faults self.old.keeper)
            (K.faults self.new.keeper) self.old self.new out.old out.new log.old log.new }
        ensures spent { (result ≡ Received.Spent) ↔ (self.old.taken ≡ most_taken_by_server) }
        ensures follows { K.follows self.old.keeper self.new.keeper }
        ensures leaves { LeavesStep (λ kept. received (server_of self.old.beside kept) sender (next_of out.old) (datagram_in datagram.now))
            (K.content self.old.keeper) (K.leaves self.old.keeper self.new.keeper) }
    {
        self.keeper.pause();
        if self.taken == MOST_TAKEN {
            return Received::Spent;
        }
        if self.room.reserve(alloc).is_err() {
            return Received::Memory;
        }
        let incoming = read_incoming(datagram, &mut self.room);
        let keeper = &mut self.keeper;
        match take_datagram(alloc, keeper, &mut self.state, sender, incoming, out, log) {
            Ok(taken) => {
                self.taken += 1;
                done(taken)
            }
            Err(fault) => halted(fault),
        }
    }

    /// Takes in a tick of the server's clock, which now shows this time: not below the last one, and below 2^62. It sends
    /// nothing. At most one change is kept, and all memory is taken before it.
    ///
    /// # Errors
    ///
    /// `Fault` only where the keeper counted a fault, `Memory` where memory was refused, `Spent` exactly where 2^61 datagrams
    /// and ticks were taken in since the boot. Then the server, the outbox and the journal are as before.
    pub fn tick(&mut self, now: Ticks, out: &mut Outbox, log: &mut Journal) -> Received
        requires later { self.old.beside.time ≤ now }
        requires early { now < 2 ^ 62 }
        ensures takes { IsTaken (λ kept. ticked (server_of self.old.beside kept) now) result (K.content self.old.keeper) (K.content self.new.keeper)
            (K.faults self.old.keeper) (K.faults self.new.keeper) self.old self.new out.old out.new log.old log.new }
        ensures spent { (result ≡ Received.Spent) ↔ (self.old.taken ≡ most_taken_by_server) }
        ensures follows { K.follows self.old.keeper self.new.keeper }
        ensures leaves { LeavesStep (λ kept. ticked (server_of self.old.beside kept) now) (K.content self.old.keeper)
            (K.leaves self.old.keeper self.new.keeper) }
    {
        self.keeper.pause();
        if self.taken == MOST_TAKEN {
            return Received::Spent;
        }
        if log.reserve(1).is_err() {
            return Received::Memory;
        }
        match tick(&mut self.keeper, &mut self.state, now, log) {
            Ok(taken) => {
                self.taken += 1;
                done(taken)
            }
            Err(fault) => halted(fault),
        }
    }

    /// Takes in a crash: all but the keeper is lost, and the server boots over it as [`boot`](Server::boot) does, at this time,
    /// which is not below the last one. A server that recovers then remembers the table with which it last served.
    ///
    /// # Errors
    ///
    /// `Fault` only where the keeper counted a fault, `Memory` where memory was refused, `Spent` exactly where the last number of
    /// a boot is taken. Then the server and the journal are as before.
    pub fn reboot(&mut self, alloc: Global, longest: u32, now: Ticks, log: &mut Journal) -> Received
        requires long { 5 ≤ longest }
        requires short { longest ≤ 600 }
        requires later { self.old.beside.time ≤ now }
        requires early { now < 2 ^ 62 }
        ensures reboots { Reboots longest now result (K.content self.old.keeper) (K.content self.new.keeper) (K.faults self.old.keeper)
            (K.faults self.new.keeper) self.old self.new log.old log.new }
        ensures follows { K.follows self.old.keeper self.new.keeper }
        ensures leaves { LeavesThen (λ kept. booted kept longest) (K.content self.old.keeper) (K.leaves self.old.keeper self.new.keeper) }
    {
        self.keeper.pause();
        if log.reserve(1).is_err() {
            return Received::Memory;
        }
        match begin(alloc, &mut self.keeper, longest, now) {
            Err(fault) => received_of(fault),
            Ok(begun) => {
                tell_crash(&begun, now, log);
                replace_state(&mut self.state, begun, longest, now);
                self.taken = 0;
                Received::Done
            }
        }
    }

    /// A moment between two calls: a stop in it leaves exactly what is kept.
    pub fn pause(&self)
        ensures leaves { LeavesOne (K.content self.now.keeper) (K.leaves self.now.keeper self.now.keeper) }
    {
        self.keeper.pause();
    }

    /// The keeper, which a later boot finds as it is now.
    pub fn into_keeper(self) -> K
        ensures { result ≡ self.keeper }
    {
        let Server {
            keeper,
            state: _,
            taken: _,
            room: _,
        } = self;
        keeper
    }

    /// The server's time, in ticks.
    pub fn time(&self) -> Ticks
        ensures { result ≡ self.now.beside.time }
    {
        self.state.time
    }

    /// The lease table of the boot.
    pub fn table(&self) -> &Table
        ensures { result.now ≡ self.now.beside.table }
    {
        &self.state.table
    }

    /// The longest term that the boot grants, in ticks.
    pub fn longest(&self) -> u32
        ensures { result ≡ self.now.beside.longest }
    {
        self.state.longest
    }

    /// Whether the boot serves; else it recovers.
    pub fn is_serving(&self) -> bool
        ensures { IsTrue result ↔ (self.now.beside.phase ≡ serving) }
    {
        matches!(self.state.phase, Phase::Serving(_))
    }

    /// The row of the file with the least id above this one; None where there is none.
    pub fn next_file(&mut self, after: FileId) -> Result<Option<FileRow>, KeepFault>
        ensures told { ForSome (K.content self.old.keeper) (λ kept. IfOk result (λ row. row ≡ row_of_found (file_after after kept.files))) }
        ensures untouched { IsUntouched self.old self.new }
        ensures reads { Reads result (K.content self.old.keeper) (K.content self.new.keeper) (K.faults self.old.keeper) (K.faults self.new.keeper) }
        ensures follows { K.follows self.old.keeper self.new.keeper }
        ensures leaves { LeavesOne (K.content self.old.keeper) (K.leaves self.old.keeper self.new.keeper) }
    {
        self.keeper.next_file(after)
    }

    /// The incarnation that is kept for a host.
    pub fn kept_inc(&mut self, host: Host) -> Result<Inc, KeepFault>
        requires { host < most_hosts }
        ensures told { ForSome (K.content self.old.keeper) (λ kept. IfOk result (λ inc. inc ≡ (host_row kept host).inc)) }
        ensures untouched { IsUntouched self.old self.new }
        ensures reads { Reads result (K.content self.old.keeper) (K.content self.new.keeper) (K.faults self.old.keeper) (K.faults self.new.keeper) }
        ensures follows { K.follows self.old.keeper self.new.keeper }
        ensures leaves { LeavesOne (K.content self.old.keeper) (K.leaves self.old.keeper self.new.keeper) }
    {
        let row = self.keeper.host(host)?;
        Ok(row.inc)
    }
}
