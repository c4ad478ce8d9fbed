//! Ticks of a server's clock.

ghost use Rattle.std.specs.Prelude.{◌≡◌, ◌<◌, ◌≤◌, ◌^◌, [], ◌++◌, ◌∷◌, IsSome, find, reverse};
ghost use Rattle.std.specs.Option.{ForSome};
ghost use Rattle.nq_keeper.specs.Booting.{LeavesThen, ended_at};
ghost use Rattle.nq_model.specs.protocol.Profile.{shortest_term, longest_term};
ghost use Rattle.nq_model.specs.protocol.Server.{serving};
ghost use Rattle.nq_model.specs.protocol.ServerStep.{is_due, tick as ticked};
ghost use Rattle.nq_server.specs.Sound.{IsSound, StaysSound};
ghost use Rattle.nq_server.specs.State.{beside_of, phase_of, server_of};
ghost use Rattle.nq_server.specs.Stepping.{LeavesStep, Takes};
ghost use Rattle.nq_server.specs.Ticking.{EndsFirst, LeavesEnded, OpensAt, at_tick_opened, fence_entries, left_of};
ghost use Rattle.nq_wire.specs.Outbox.{Datagrams};

use crate::received::EventTaken;
use crate::state::{Phase, State};
use nq_base::{Entry, Journal, Ticks};
use nq_keeper::requests::boot::{Finish, Recovering, Serving};
use nq_keeper::{KeepFault, Keeper};
use nq_lease::Table;
use nq_lease::expire::{Fence, due, end_reading, end_writing};

/// Ends the writing row that is due first, if one is and the revision of its file can rise.
fn end_first<K: Keeper>(
    keeper: &mut K,
    table: &mut Table,
    now: Ticks,
) -> Result<Option<Fence>, KeepFault>
    ensures ends { EndsFirst now (find (is_due now) table.old.rows) result table.old table.new (K.content keeper.old) (K.content keeper.new)
        (K.faults keeper.old) (K.faults keeper.new) }
    ensures follows { K.follows keeper.old keeper.new }
    ensures leaves { LeavesEnded (find (is_due now) table.old.rows) (K.content keeper.old) (K.leaves keeper.old keeper.new) }
{
    match due(table, now) {
        None => {
            keeper.pause();
            Ok(None)
        }
        Some(key) => end_writing(table, keeper, key, now),
    }
}

/// The entry of a writing lease that ended in silence.
fn fence_entry(fence: Fence) -> Entry
    ensures { result ≡ Entry.F fence.who fence.file fence.until fence.heard fence.now }
{
    Entry::F {
        who: fence.who,
        file: fence.file,
        until: fence.until,
        heard: fence.heard,
        now: fence.now,
    }
}

/// A recovery that ended.
#[derive(Drop)]
pub(crate) struct Opened {
    /// The boot, which serves now.
    serving: Serving,
    /// What a journal tells of it.
    entry: Entry,
}

/// Ends a recovery whose time has come; None where it has to wait. It is there again unless it ended.
fn open<K: Keeper>(
    keeper: &mut K,
    recovery: &mut Option<Recovering>,
    now: Ticks,
) -> Result<Option<Opened>, KeepFault>
    requires { IsSome recovery.old }
    ensures opens { ForSome recovery.old (λ r. OpensAt r now result (K.content keeper.old) (K.content keeper.new) (K.faults keeper.old) (K.faults keeper.new)) }
    ensures left { recovery.new ≡ left_of recovery.old result }
    ensures follows { K.follows keeper.old keeper.new }
    ensures leaves { ForSome recovery.old (λ r. LeavesThen (ended_at r now) (K.content keeper.old) (K.leaves keeper.old keeper.new)) }
{
    let heads = keeper.heads()?;
    let held = recovery.take().unwrap();
    let until = held.until();
    let heard = held.heard();
    match held.finish(keeper, now) {
        Finish::Opened(serving) => Ok(Some(Opened {
            serving,
            entry: Entry::O {
                boot: heads.boot,
                until,
                heard,
                now,
            },
        })),
        Finish::Wait(held) => {
            *recovery = Some(held);
            Ok(None)
        }
        Finish::Fault(held) => {
            *recovery = Some(held);
            Err(KeepFault::Failed)
        }
        Finish::Memory(held) => {
            *recovery = Some(held);
            Err(KeepFault::Memory)
        }
    }
}

/// Tells of a writing lease that ended, if one did.
fn tell_fence(fence: Option<Fence>, log: &mut Journal)
    requires { 1 ≤ log.old.spare }
    ensures { log.new.entries ≡ log.old.entries ++ reverse (fence_entries fence) }
{
    if let Some(fence) = fence {
        log.push(fence_entry(fence)).unwrap();
    }
}

/// Ends leases that are over at this time, while the server serves: all reading and non-caching ones, and the writing one that
/// is due first.
fn end_leases<K: Keeper>(
    keeper: &mut K,
    state: &mut State,
    now: Ticks,
    log: &mut Journal,
) -> Result<EventTaken, KeepFault>
    requires serves { phase_of state.old.phase ≡ serving }
    requires room { 1 ≤ log.old.spare }
    requires sound { IsSound state.old }
    requires later { state.old.time ≤ now }
    requires early { now < 2 ^ 62 }
    ensures takes { (out : Datagrams)
        → Takes (λ kept. ticked (server_of (beside_of state.old) kept) now) result (K.content keeper.old) (K.content keeper.new) (K.faults keeper.old)
        (K.faults keeper.new) (beside_of state.old) (beside_of state.new) out out log.old log.new }
    ensures stays { StaysSound state.old state.new }
    ensures follows { K.follows keeper.old keeper.new }
    ensures leaves { LeavesStep (λ kept. ticked (server_of (beside_of state.old) kept) now) (K.content keeper.old) (K.leaves keeper.old keeper.new) }
{
    let fence = end_first(keeper, &mut state.table, now)?;
    end_reading(&mut state.table, now);
    state.time = now;
    tell_fence(fence, log);
    Ok(EventTaken::Done)
}

/// Serves from now on, as the recovery has ended.
fn begin_serving(state: &mut State, opened: Opened, now: Ticks, log: &mut Journal)
    requires room { 1 ≤ log.old.spare }
    requires long { shortest_term ≤ state.old.longest }
    requires short { state.old.longest ≤ longest_term }
    requires empty { state.old.table.rows ≡ [] }
    requires early { now < 2 ^ 62 }
    ensures holds { beside_of state.new ≡ at_tick_opened (beside_of state.old) now }
    ensures entries { log.new.entries ≡ log.old.entries ++ opened.entry ∷ [] }
    ensures stays { StaysSound state.old state.new }
{
    let Opened { serving, entry } = opened;
    state.time = now;
    state.phase = Phase::Serving(serving);
    log.push(entry).unwrap();
}

/// Takes in a tick of the server's clock, which now shows this time. At most one change is kept, and no memory is taken.
pub(crate) fn tick<K: Keeper>(
    keeper: &mut K,
    state: &mut State,
    now: Ticks,
    log: &mut Journal,
) -> Result<EventTaken, KeepFault>
    requires room { 1 ≤ log.old.spare }
    requires sound { IsSound state.old }
    requires later { state.old.time ≤ now }
    requires early { now < 2 ^ 62 }
    ensures takes { (out : Datagrams)
        → Takes (λ kept. ticked (server_of (beside_of state.old) kept) now) result (K.content keeper.old) (K.content keeper.new) (K.faults keeper.old)
        (K.faults keeper.new) (beside_of state.old) (beside_of state.new) out out log.old log.new }
    ensures stays { StaysSound state.old state.new }
    ensures follows { K.follows keeper.old keeper.new }
    ensures leaves { LeavesStep (λ kept. ticked (server_of (beside_of state.old) kept) now) (K.content keeper.old) (K.leaves keeper.old keeper.new) }
{
    match &mut state.phase {
        Phase::Serving(_) => end_leases(keeper, state, now, log),
        Phase::Recovering { recovery, .. } => match open(keeper, recovery, now)? {
            None => {
                state.time = now;
                Ok(EventTaken::Done)
            }
            Some(opened) => {
                begin_serving(state, opened, now, log);
                Ok(EventTaken::Done)
            }
        },
    }
}
