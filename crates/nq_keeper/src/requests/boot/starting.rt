//! The start of a boot, and the end of a recovery.

ghost use Rattle.std.specs.Prelude.{◌≡◌, ◌<◌, ◌≤◌, ◌^◌, ℕ, IfOk};
ghost use Rattle.std.specs.Option.{ForSome};
ghost use Rattle.nq_keeper.specs.Booting.{Opens, Starts, Finishes, LeavesThen, IsOfTerm, ended_at, heads_after_boot, last_boot, started_of, opened_by};
ghost use Rattle.nq_keeper.specs.Booting.{start_fault};
ghost use Rattle.nq_keeper.specs.Recovery.{IsTerm};
ghost use Rattle.nq_keeper.specs.Keeping.{Commits, LeavesTwo};
ghost use Rattle.nq_model.specs.protocol.Change.{AreHeadsWithin, Fits, IsChangeWithin, change_of_heads, heads_of};
ghost use Rattle.nq_model.specs.protocol.Kept.{Kept};
ghost use Rattle.nq_model.specs.protocol.ServerStep.{booted};

use crate::requests::boot::recovering::{Finish, Recovering, Serving};
use crate::{KeepFault, Keeper};
use nq_base::{Change, Heads, Ticks};

/// How long a recovery goes on beyond the longest term of the boot that served last, in ticks: the skew, and the write
/// slack (Macklem 1994).
const BEYOND: u64 = 8;

/// The number of the last boot that a server can have.
pub const LAST_BOOT: u32 = 0x7fff_ffff;

/// How a boot begins.
#[derive(Drop)]
pub enum Started {
    /// A boot served before: this one recovers first.
    Recovering(Recovering),
    /// None served before: this one serves at once.
    Serving(Serving),
}

/// Why no boot begins.
#[derive(Clone, Copy, Debug, PartialEq, Eq)]
pub enum StartFault {
    /// The keeper failed.
    Failed,
    /// Memory was wanting.
    Memory,
    /// The last number of a boot is taken.
    Spent,
}

/// The change of the server's numbers alone.
#[tactic(auto, unfolding(nq_model::specs::protocol::Change::change_of_heads))]
fn change_to(heads: Heads) -> Change
    ensures { result ≡ change_of_heads heads }
{
    Change {
        file: None,
        block: None,
        host: None,
        heads: Some(heads),
        removed: None,
    }
}

/// What a keeper's fault means for a boot.
fn fault_of(fault: KeepFault) -> StartFault
    ensures { result ≡ start_fault fault }
{
    match fault {
        KeepFault::Failed => StartFault::Failed,
        KeepFault::Memory => StartFault::Memory,
    }
}

/// The server's numbers after a boot.
fn after_boot(heads: &Heads, longest: u32) -> Heads
    requires { heads.now.boot < last_boot }
    ensures { result ≡ heads_after_boot heads.now longest }
{
    let boot = heads.boot + 1;
    if heads.opened == 0 {
        Heads {
            boot,
            opened: boot,
            longest,
            next: heads.next,
        }
    } else {
        Heads {
            boot,
            opened: heads.opened,
            longest: heads.longest,
            next: heads.next,
        }
    }
}

/// How a boot begins, by the numbers that were kept before it.
#[tactic(auto, unfolding(crate::specs::Booting::recovery_of))]
fn begun(heads: &Heads, longest: u32, now: Ticks) -> Started
    requires boot { heads.now.boot < last_boot }
    requires longest { IsTerm longest }
    requires now { now < 2 ^ 62 }
    ensures begun { (kept : Kept) → heads.now ≡ heads_of kept → result ≡ started_of kept longest now }
    ensures term { IsOfTerm longest result }
{
    let boot = heads.boot + 1;
    if heads.opened == 0 {
        return Started::Serving(Serving::new(boot));
    }
    let until = Ticks(now.0 + u64::from(heads.longest) + BEYOND);
    Started::Recovering(Recovering::new(boot, heads.opened, longest, until, now))
}

/// Keeps the server's numbers.
fn keep_heads<K: Keeper>(keeper: &mut K, heads: Heads) -> Result<(), KeepFault>
    requires { ForSome (K.content keeper.old) (λ kept. AreHeadsWithin kept.next heads) }
    ensures commits { Commits result (change_of_heads heads) (K.content keeper.old) (K.content keeper.new) (K.faults keeper.old) (K.faults keeper.new) }
    ensures follows { K.follows keeper.old keeper.new }
    ensures leaves { LeavesTwo (change_of_heads heads) (K.content keeper.old) (K.leaves keeper.old keeper.new) }
{
    let change = change_to(heads);
    keeper.commit(change)
}

/// Begins a boot, whose longest term is `longest` ticks, 5 to 600: it serves exactly where none served before. Its number
/// is kept in one change; it is Spent exactly where the last number is taken.
pub fn start<K: Keeper>(keeper: &mut K, longest: u32, now: Ticks) -> Result<Started, StartFault>
    requires long { 5 ≤ longest }
    requires short { longest ≤ 600 }
    requires now { now < 2 ^ 62 }
    ensures starts { Starts longest now result (K.content keeper.old) (K.content keeper.new) (K.faults keeper.old) (K.faults keeper.new) }
    ensures term { IfOk result (IsOfTerm longest) }
    ensures follows { K.follows keeper.old keeper.new }
    ensures leaves { LeavesThen (λ kept. booted kept longest) (K.content keeper.old) (K.leaves keeper.old keeper.new) }
{
    let heads = match keeper.heads() {
        Ok(heads) => heads,
        Err(fault) => return Err(fault_of(fault)),
    };
    if heads.boot >= LAST_BOOT {
        return Err(StartFault::Spent);
    }
    match keep_heads(keeper, after_boot(&heads, longest)) {
        Ok(()) => Ok(begun(&heads, longest, now)),
        Err(fault) => Err(fault_of(fault)),
    }
}

impl Recovering {
    /// Ends the recovery once its time has come: the boot is kept as the last one that served, with its longest term.
    /// Before that it waits.
    pub fn finish<K: Keeper>(self, keeper: &mut K, now: Ticks) -> Finish
        ensures finishes { Finishes self now result (K.content keeper.old) (K.content keeper.new) (K.faults keeper.old) (K.faults keeper.new) }
        ensures follows { K.follows keeper.old keeper.new }
        ensures leaves { LeavesThen (ended_at self now) (K.content keeper.old) (K.leaves keeper.old keeper.new) }
    {
        if now < self.until() {
            keeper.pause();
            return Finish::Wait(self);
        }
        match open(keeper, self.longest()) {
            Ok(()) => Finish::Opened(Serving::new(self.boot())),
            Err(KeepFault::Failed) => Finish::Fault(self),
            Err(KeepFault::Memory) => Finish::Memory(self),
        }
    }
}

/// Keeps the last boot as one that served, with its longest term.
fn open<K: Keeper>(keeper: &mut K, longest: u32) -> Result<(), KeepFault>
    requires { IsTerm longest }
    ensures opens { Opens longest result (K.content keeper.old) (K.content keeper.new) (K.faults keeper.old) (K.faults keeper.new) }
    ensures follows { K.follows keeper.old keeper.new }
    ensures leaves { LeavesThen (λ kept. opened_by kept longest) (K.content keeper.old) (K.leaves keeper.old keeper.new) }
{
    let heads = keeper.heads()?;
    let opened = Heads {
        boot: heads.boot,
        opened: heads.boot,
        longest,
        next: heads.next,
    };
    keep_heads(keeper, opened)
}
