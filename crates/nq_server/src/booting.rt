//! The boot of a server over a keeper: at its beginning, and after a crash.

ghost use Rattle.std.specs.Prelude.{◌≡◌, ◌<◌, ◌≤◌, ◌^◌, ◌+◌, [], ◌∷◌, ◌++◌, IfOk, None};
ghost use Rattle.nq_keeper.specs.Booting.{LeavesThen, start_fault, started_of};
ghost use Rattle.nq_model.specs.protocol.Change.{heads_of};
ghost use Rattle.nq_model.specs.protocol.Kept.{Kept};
ghost use Rattle.nq_model.specs.protocol.Server.{last_in};
ghost use Rattle.nq_model.specs.protocol.ServerStep.{boot as booted_server, booted};
ghost use Rattle.nq_model.specs.protocol.Table.{empty_table};
ghost use Rattle.nq_server.specs.Booting.{Begins, IsFitToBegin, phase_begun, with_last};
ghost use Rattle.nq_server.specs.Sound.{IsSoundAfter};
ghost use Rattle.nq_server.specs.State.{beside, beside_of, phase_of};

use crate::state::{Phase, State};
use nq_base::{Entry, Heads, Journal, Ticks};
use nq_keeper::requests::boot::{LAST_BOOT, StartFault, Started, start};
use nq_keeper::{KeepFault, Keeper};
use nq_lease::Table;
use std::alloc::Global;
use std::mem;

/// A boot that began.
#[derive(Drop)]
pub(crate) struct Begun {
    /// Whether it serves.
    pub(crate) started: Started,
    /// Its lease table, which is empty.
    pub(crate) table: Table,
    /// The longest term for whose leases a recovery waits, in ticks; that of the boot itself where it serves at once.
    pub(crate) waits: u32,
}

/// What a keeper's fault means for a boot.
fn fault_of(fault: KeepFault) -> StartFault
    ensures { result ≡ start_fault fault }
{
    match fault {
        KeepFault::Failed => StartFault::Failed,
        KeepFault::Memory => StartFault::Memory,
    }
}

/// The longest term that is kept with the boot that served last, once a boot began over these numbers.
fn waits_for(heads: &Heads, longest: u32) -> u32
    ensures { (kept : Kept) → heads.now ≡ heads_of kept → result ≡ (booted kept longest).longest }
{
    if heads.opened == 0 {
        longest
    } else {
        heads.longest
    }
}

/// Begins a boot over a keeper, with an empty table. All memory is taken before its number is kept.
pub(crate) fn begin<K: Keeper>(
    alloc: Global,
    keeper: &mut K,
    longest: u32,
    now: Ticks,
) -> Result<Begun, StartFault>
    requires long { 5 ≤ longest }
    requires short { longest ≤ 600 }
    requires now { now < 2 ^ 62 }
    ensures begins { Begins longest now result (K.content keeper.old) (K.content keeper.new) (K.faults keeper.old) (K.faults keeper.new) }
    ensures fit { IfOk result (IsFitToBegin longest now) }
    ensures follows { K.follows keeper.old keeper.new }
    ensures leaves { LeavesThen (λ kept. booted kept longest) (K.content keeper.old) (K.leaves keeper.old keeper.new) }
{
    let heads = match keeper.heads() {
        Ok(heads) => heads,
        Err(fault) => return Err(fault_of(fault)),
    };
    if heads.boot >= LAST_BOOT {
        return Err(StartFault::Spent);
    }
    let Ok(table) = Table::new(alloc, heads.boot + 1) else {
        return Err(StartFault::Memory);
    };
    let started = start(keeper, longest, now)?;
    Ok(Begun {
        started,
        table,
        waits: waits_for(&heads, longest),
    })
}

/// The phase of a boot that began, and that knows no table with which the last boot served.
fn phase_after(started: Started) -> Phase
    ensures { result ≡ phase_begun started None }
{
    match started {
        Started::Serving(serving) => Phase::Serving(serving),
        Started::Recovering(recovery) => Phase::Recovering {
            recovery: Some(recovery),
            last: None,
        },
    }
}

/// What a server holds once a boot began.
pub(crate) fn state_after(begun: Begun, longest: u32, now: Ticks) -> State
    requires { IsFitToBegin longest now begun }
    ensures boots { (kept : Kept) → begun.started ≡ started_of kept longest now → begun.table ≡ empty_table (kept.boot + 1)
        → beside_of result ≡ beside (booted_server kept longest now None) }
    ensures sound { IsSoundAfter 0 result }
{
    let Begun {
        started,
        table,
        waits: _,
    } = begun;
    State {
        phase: phase_after(started),
        table,
        longest,
        notice: 1,
        time: now,
    }
}

/// Tells of a crash after which a boot began.
pub(crate) fn tell_crash(begun: &Begun, now: Ticks, log: &mut Journal)
    requires { 1 ≤ log.old.spare }
    ensures { log.new.entries ≡ log.old.entries ++ Entry.X begun.now.table.boot now begun.now.waits ∷ [] }
{
    log.push(Entry::X {
        boot: begun.table.boot(),
        now,
        longest: begun.waits,
    })
    .unwrap();
}

/// The table with which a server served last, where it knows it.
fn last_of(phase: Phase, table: Table) -> Option<Table>
    ensures { result ≡ last_in (phase_of phase) table }
{
    match phase {
        Phase::Serving(_) => Some(table),
        Phase::Recovering { last, .. } => last,
    }
}

/// Remembers the table with which the last boot served, where this one recovers.
fn remember(phase: &mut Phase, table: Option<Table>)
    ensures { phase.new ≡ with_last phase.old table }
{
    if let Phase::Recovering { last, .. } = phase {
        *last = table;
    }
}

/// Puts what a boot begins with in place of what a server held when it crashed.
pub(crate) fn replace_state(state: &mut State, begun: Begun, longest: u32, now: Ticks)
    requires { IsFitToBegin longest now begun }
    ensures boots { (kept : Kept) → begun.started ≡ started_of kept longest now → begun.table ≡ empty_table (kept.boot + 1)
        → beside_of state.new ≡ beside (booted_server kept longest now (last_in (phase_of state.old.phase) state.old.table)) }
    ensures sound { IsSoundAfter 0 state.new }
{
    let fresh = state_after(begun, longest, now);
    let State { phase, table, .. } = mem::replace(state, fresh);
    remember(&mut state.phase, last_of(phase, table));
}
