//! A keeper in memory.

ghost use Rattle.std.specs.Prelude.{◌≡◌, ◌<◌, ◌↔◌, Some, Err, IfOk, IsErr, IsTrue, length, slice_get, unwrap_or, vec_len};
ghost use Rattle.std.specs.Option.{ForSome};
ghost use Rattle.nq_io.specs.Calls.{fresh, is_next_listed};
ghost use Rattle.nq_io.specs.Faults.{Rose};
ghost use Rattle.nq_keeper.specs.Keeping.{Reads, Commits, LeavesOne, LeavesTwo, NamesHost, body_at};
ghost use Rattle.nq_keeper.specs.StoredKeeper.{GoesOn, LeavesEither, after_commit, after_reading, answer_of, asked, empty_kept, told_of};
ghost use Rattle.nq_model.specs.protocol.Change.{Fits, HasBlock, IsChangeWithin, file_after, heads_of, heads_with, hosts_with, row_of_found, space_of};
ghost use Rattle.nq_model.specs.protocol.Kept.{find_file, find_name, fresh_row, host_row};
ghost use Rattle.nq_model.specs.protocol.Profile.{most_hosts};
ghost use Rattle.nq_keeper.specs.KeeperLaws.{told-is-within, goes-on-itself, goes-on-further, faults-rise, may-leave, leaves-parts};

use crate::files::Files;
use crate::keeper::{KeepFault, Keeper};
use nq_base::{
    Block, BlockNo, Change, FileId, FileRow, Heads, Host, HostChange, HostRow, Inc, Name, NoMemory,
    Seq, Space, Verdict,
};
use nq_io::Calls;
use std::alloc::Global;
use std::marker::Model;

/// How many hosts there can be.
const MOST_HOSTS: usize = 64;

/// The longest term in ticks before any boot served.
const FIRST_LONGEST: u32 = 60;

/// The row of a host of which nothing was heard.
const FRESH_ROW: HostRow = HostRow {
    inc: Inc(0),
    seq: Seq(0),
    verdict: Verdict::Done,
    value: 0,
};

/// A keeper in memory, which always tells what it keeps. It fails exactly the calls that it is told to fail. Files are
/// looked up by halving. A block moves in, and is copied once on its way out.
#[derive(Drop)]
pub struct ListKeeper {
    alloc: Global,
    files: Files,
    hosts: Vec<HostRow>,
    heads: Heads,
    calls: Calls,
}

impl Model for ListKeeper {
    ghost use Rattle.nq_keeper.specs.StoredKeeper.{StoredKeeper};
    ghost use Rattle.nq_model.specs.protocol.Change.{IsWithinBounds, kept_as};

    ghost Value = { StoredKeeper };

    ghost view = { λ k. record { kept = kept_as k.files k.hosts.items k.heads; calls = k.calls } };

    ghost invariant = { λ k. IsWithinBounds (kept_as k.files k.hosts.items k.heads) };
}

impl From<NoMemory> for KeepFault {
    ghost use Rattle.std.specs.Prelude.{◌≡◌};
    ghost use Rattle.nq_keeper.specs.declared.keeper.KeepFault.TheVariants.{Memory};

    ghost from_gives = { λ _ fault. fault ≡ Memory };

    fn from(_: NoMemory) -> KeepFault {
        KeepFault::Memory
    }
}

/// Counts a call, which fails where it is listed.
fn ask(calls: &mut Calls) -> Result<(), KeepFault>
    ensures answer { result ≡ answer_of calls.old tt }
    ensures calls { calls.new ≡ asked calls.old }
    ensures rose { IsErr result → Rose calls.old.faults calls.new.faults }
{
    if calls.is_next_listed() {
        calls.count_fault();
        return Err(KeepFault::Failed);
    }
    calls.count_call();
    Ok(())
}

/// Answers a call that reads, which is counted, and fails where it is listed.
fn answered<X: Copy>(calls: &mut Calls, found: X) -> Result<X, KeepFault>
    ensures answer { result ≡ answer_of calls.old found }
    ensures calls { calls.new ≡ asked calls.old }
    ensures rose { IsErr result → Rose calls.old.faults calls.new.faults }
{
    match ask(calls) {
        Ok(()) => Ok(found),
        Err(fault) => Err(fault),
    }
}

/// Writes the row of a host, if one is given.
fn set_row(hosts: &mut Vec<HostRow>, change: &Option<HostChange>)
    requires { ForSome change.now (λ h. h.host < vec_len hosts.old) }
    ensures { hosts.new.items ≡ hosts_with change.now hosts.old.items }
{
    match change {
        Some(change) => hosts[change.host.0 as usize] = change.row,
        None => {}
    }
}

/// The row of a host.
fn row_of(hosts: &[HostRow], host: Host) -> HostRow
    requires { host < length hosts.now }
    ensures { result ≡ unwrap_or (slice_get hosts.now host) fresh_row }
{
    hosts[host.0 as usize]
}

/// The numbers of the server after a change.
fn heads_after(heads: &Heads, change: &Option<Heads>) -> Heads
    ensures { result ≡ heads_with change.now heads.now }
{
    match change {
        Some(changed) => *changed,
        None => *heads,
    }
}

impl ListKeeper {
    /// A keeper before the first boot: it keeps no file, and has heard of no host. The calls whose numbers are listed are
    /// to fail, counted from 0.
    ///
    /// # Errors
    ///
    /// Only want of memory.
    pub fn new(alloc: Global, failing: Vec<u32>) -> Result<ListKeeper, NoMemory>
        ensures keeper { IfOk result (λ k. k ≡ record { kept = empty_kept; calls = fresh failing.items }) }
        ensures tells { IfOk result (λ k. told_of k.kept ≡ empty_kept) }
    {
        let hosts = vec![in alloc; FRESH_ROW; MOST_HOSTS]?;
        Ok(ListKeeper {
            alloc,
            files: Files::new(alloc),
            hosts,
            heads: Heads {
                boot: 0,
                opened: 0,
                longest: FIRST_LONGEST,
                next: 1,
            },
            calls: Calls::new(failing),
        })
    }
}

#[tactic(auto, unfolding(nq_model::specs::protocol::Change::kept_as))]
impl Keeper for ListKeeper {
    ghost content = { λ k. Some (told_of k.kept) };

    ghost faults = { λ k. k.calls.faults };

    ghost follows = { GoesOn };

    ghost leaves = { LeavesEither };

    fn file(&mut self, id: FileId) -> Result<Option<FileRow>, KeepFault>
        // As of any keeper.
        ensures told { ForSome (Some (told_of self.old.kept)) (λ kept. IfOk result (λ row. row ≡ row_of_found (find_file id kept.files))) }
        ensures reads { Reads result (Some (told_of self.old.kept)) (Some (told_of self.new.kept)) self.old.calls.faults self.new.calls.faults }
        ensures follows { GoesOn self.old self.new }
        ensures leaves { LeavesOne (Some (told_of self.old.kept)) (LeavesEither self.old self.new) }

        // Of this one.
        ensures answer { result ≡ answer_of self.old.calls (row_of_found (find_file id self.old.kept.files)) }
        ensures keeper { self.new ≡ after_reading self.old }
    {
        let found = self.files.row(id);
        answered(&mut self.calls, found)
    }

    fn by_name(&mut self, name: &Name) -> Result<Option<FileRow>, KeepFault>
        // As of any keeper.
        ensures told { ForSome (Some (told_of self.old.kept)) (λ kept. IfOk result (λ row. row ≡ row_of_found (find_name name.now kept.files))) }
        ensures reads { Reads result (Some (told_of self.old.kept)) (Some (told_of self.new.kept)) self.old.calls.faults self.new.calls.faults }
        ensures follows { GoesOn self.old self.new }
        ensures leaves { LeavesOne (Some (told_of self.old.kept)) (LeavesEither self.old self.new) }

        // Of this one.
        ensures answer { result ≡ answer_of self.old.calls (row_of_found (find_name name.now self.old.kept.files)) }
        ensures keeper { self.new ≡ after_reading self.old }
    {
        let found = self.files.row_of_name(name);
        answered(&mut self.calls, found)
    }

    fn next_file(&mut self, after: FileId) -> Result<Option<FileRow>, KeepFault>
        // As of any keeper.
        ensures told { ForSome (Some (told_of self.old.kept)) (λ kept. IfOk result (λ row. row ≡ row_of_found (file_after after kept.files))) }
        ensures reads { Reads result (Some (told_of self.old.kept)) (Some (told_of self.new.kept)) self.old.calls.faults self.new.calls.faults }
        ensures follows { GoesOn self.old self.new }
        ensures leaves { LeavesOne (Some (told_of self.old.kept)) (LeavesEither self.old self.new) }

        // Of this one.
        ensures answer { result ≡ answer_of self.old.calls (row_of_found (file_after after self.old.kept.files)) }
        ensures keeper { self.new ≡ after_reading self.old }
    {
        let found = self.files.row_after(after);
        answered(&mut self.calls, found)
    }

    fn host(&mut self, host: Host) -> Result<HostRow, KeepFault>
        requires { host < most_hosts }

        // As of any keeper.
        ensures told { ForSome (Some (told_of self.old.kept)) (λ kept. IfOk result (λ row. row ≡ host_row kept host)) }
        ensures reads { Reads result (Some (told_of self.old.kept)) (Some (told_of self.new.kept)) self.old.calls.faults self.new.calls.faults }
        ensures follows { GoesOn self.old self.new }
        ensures leaves { LeavesOne (Some (told_of self.old.kept)) (LeavesEither self.old self.new) }

        // Of this one.
        ensures answer { result ≡ answer_of self.old.calls (host_row self.old.kept host) }
        ensures keeper { self.new ≡ after_reading self.old }
    {
        let found = row_of(self.hosts.as_slice(), host);
        answered(&mut self.calls, found)
    }

    fn heads(&mut self) -> Result<Heads, KeepFault>
        // As of any keeper.
        ensures told { ForSome (Some (told_of self.old.kept)) (λ kept. IfOk result (λ heads. heads ≡ heads_of kept)) }
        ensures reads { Reads result (Some (told_of self.old.kept)) (Some (told_of self.new.kept)) self.old.calls.faults self.new.calls.faults }
        ensures follows { GoesOn self.old self.new }
        ensures leaves { LeavesOne (Some (told_of self.old.kept)) (LeavesEither self.old self.new) }

        // Of this one.
        ensures answer { result ≡ answer_of self.old.calls (heads_of self.old.kept) }
        ensures keeper { self.new ≡ after_reading self.old }
    {
        answered(&mut self.calls, self.heads)
    }

    fn space(&mut self) -> Result<Space, KeepFault>
        // As of any keeper.
        ensures told { ForSome (Some (told_of self.old.kept)) (λ kept. IfOk result (λ space. space ≡ space_of kept)) }
        ensures reads { Reads result (Some (told_of self.old.kept)) (Some (told_of self.new.kept)) self.old.calls.faults self.new.calls.faults }
        ensures follows { GoesOn self.old self.new }
        ensures leaves { LeavesOne (Some (told_of self.old.kept)) (LeavesEither self.old self.new) }

        // Of this one.
        ensures answer { result ≡ answer_of self.old.calls (space_of self.old.kept) }
        ensures keeper { self.new ≡ after_reading self.old }
    {
        let found = self.files.space();
        answered(&mut self.calls, found)
    }

    fn block(&mut self, id: FileId, block: BlockNo) -> Result<Block, KeepFault>
        requires { ForSome (Some (told_of self.old.kept)) (λ kept. HasBlock block (find_file id kept.files)) }

        // As of any keeper.
        ensures told { ForSome (Some (told_of self.old.kept)) (λ kept. IfOk result (λ body. Some body ≡ body_at block (find_file id kept.files))) }
        ensures reads { Reads result (Some (told_of self.old.kept)) (Some (told_of self.new.kept)) self.old.calls.faults self.new.calls.faults }
        ensures follows { GoesOn self.old self.new }
        ensures leaves { LeavesOne (Some (told_of self.old.kept)) (LeavesEither self.old self.new) }

        // Of this one.
        ensures failed { (result ≡ Err KeepFault.Failed) ↔ IsTrue (is_next_listed self.old.calls) }
        ensures body { IfOk result (λ body. Some body ≡ body_at block (find_file id self.old.kept.files)) }
        ensures keeper { self.new ≡ after_reading self.old }
    {
        ask(&mut self.calls)?;
        Ok(self.files.read(self.alloc, id, block)?)
    }

    fn commit(&mut self, change: Change) -> Result<(), KeepFault>
        requires host { NamesHost change }
        requires fits { ForSome (Some (told_of self.old.kept)) (λ kept. Fits kept change) }
        requires within { ForSome (Some (told_of self.old.kept)) (λ kept. IsChangeWithin kept change) }

        // As of any keeper.
        ensures commits { Commits result change (Some (told_of self.old.kept)) (Some (told_of self.new.kept)) self.old.calls.faults self.new.calls.faults }
        ensures follows { GoesOn self.old self.new }
        ensures leaves { LeavesTwo change (Some (told_of self.old.kept)) (LeavesEither self.old self.new) }

        // Of this one.
        ensures failed { (result ≡ Err KeepFault.Failed) ↔ IsTrue (is_next_listed self.old.calls) }
        ensures keeper { self.new ≡ after_commit self.old change result }
    {
        ask(&mut self.calls)?;
        let Change { host, heads, .. } = change;
        self.files.change(self.alloc, change)?;
        set_row(&mut self.hosts, &host);
        self.heads = heads_after(&self.heads, &heads);
        Ok(())
    }

    fn pause(&self)
        ensures leaves { LeavesOne (Some (told_of self.now.kept)) (LeavesEither self.now self.now) }
    {}

    ghost within = { told-is-within };

    ghost follows_itself = { goes-on-itself };

    ghost follows_on = { goes-on-further };

    ghost faults_rise = { faults-rise };

    ghost may_leave = { may-leave };

    ghost parts = { leaves-parts };
}

/// A keeper in memory tells all that it keeps.
pub fn list_keeper_tells_all(keeper: &ListKeeper)
    ensures { told_of keeper.now.kept ≡ keeper.now.kept }
{
    let _files = &keeper.files;
}
