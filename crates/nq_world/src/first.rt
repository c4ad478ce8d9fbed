//! What is kept before the first boot of a world.

ghost use Rattle.std.specs.Prelude.{◌≡◌, ◌≤◌, ◌<◌, ◌^◌, ◌+◌, ℕ, List, [], length, take, OnOk};
ghost use Rattle.nq_keeper.specs.StoredKeeper.{empty_kept};
ghost use Rattle.nq_model.specs.protocol.Profile.{most_hosts, shortest_term, longest_term};
ghost use Rattle.nq_model.specs.protocol.World.{first_kept};
ghost use Rattle.nq_world.specs.First.{AreFirstFiles, Counts, Tells, file_change, heads_change, host_change, kept_first, told_as};

use nq_base::{
    Change, FileId, FileList, FileRow, Heads, Host, HostChange, HostRow, Inc, Name, Rev, Seq,
    Verdict,
};
use nq_keeper::{KeepFault, Keeper};

/// The row of a host whose first incarnation is attached.
const FIRST_ROW: HostRow = HostRow {
    inc: Inc(1),
    seq: Seq(0),
    verdict: Verdict::Done,
    value: 0,
};

/// The change of the server's numbers alone, before any boot.
fn heads_change(longest: u32, next: u32) -> Change
    ensures { result ≡ heads_change longest next }
{
    Change {
        file: None,
        block: None,
        host: None,
        heads: Some(Heads {
            boot: 0,
            opened: 0,
            longest,
            next,
        }),
        removed: None,
    }
}

/// The change by which a file is kept that gets the next id.
fn file_change(longest: u32, next: u32, name: &Name, blocks: u32) -> Change
    requires { next + 1 < 2 ^ 32 }
    ensures { result ≡ file_change longest next (name.now, blocks) }
{
    Change {
        file: Some(FileRow {
            id: FileId(next),
            name: *name,
            blocks,
            rev: Rev(0),
        }),
        block: None,
        host: None,
        heads: Some(Heads {
            boot: 0,
            opened: 0,
            longest,
            next: next + 1,
        }),
        removed: None,
    }
}

/// The change by which the first incarnation of a host is attached.
fn host_change(host: u32) -> Change
    ensures { result ≡ host_change host }
{
    Change {
        file: None,
        block: None,
        host: Some(HostChange {
            host: Host(host),
            row: FIRST_ROW,
        }),
        heads: None,
        removed: None,
    }
}

/// Keeps the longest term.
fn keep_longest<K: Keeper>(keeper: &mut K, longest: u32) -> Result<(), KeepFault>
    requires long { shortest_term ≤ longest }
    requires short { longest ≤ longest_term }
    requires told { Tells (kept_first 60 [] 0) (K.content keeper.old) }
    ensures told { OnOk result (K.content keeper.new ≡ told_as (kept_first longest [] 0) (K.content keeper.old)) }
    ensures counts { Counts result (K.faults keeper.old) (K.faults keeper.new) }
    ensures follows { K.follows keeper.old keeper.new }
{
    let change = heads_change(longest, 1);
    keeper.commit(change)
}

/// Keeps the file at a place, behind those before it.
fn keep_file<K: Keeper>(
    keeper: &mut K,
    longest: u32,
    files: &FileList,
    place: usize,
) -> Result<(), KeepFault>
    requires long { shortest_term ≤ longest }
    requires short { longest ≤ longest_term }
    requires below { place < length files.now }
    requires fine { AreFirstFiles files.now }
    requires told { Tells (kept_first longest (take place files.now) 0) (K.content keeper.old) }
    ensures told { OnOk result (K.content keeper.new ≡ told_as (kept_first longest (take (place + 1) files.now) 0) (K.content keeper.old)) }
    ensures counts { Counts result (K.faults keeper.old) (K.faults keeper.new) }
    ensures follows { K.follows keeper.old keeper.new }
{
    match files.get(place) {
        Some((name, blocks)) => {
            let change = file_change(longest, place as u32 + 1, name, blocks);
            keeper.commit(change)
        }
        None => unreachable!(),
    }
}

/// Keeps the files of a head.
fn keep_files<K: Keeper>(keeper: &mut K, longest: u32, files: &FileList) -> Result<(), KeepFault>
    requires long { shortest_term ≤ longest }
    requires short { longest ≤ longest_term }
    requires fine { AreFirstFiles files.now }
    requires told { Tells (kept_first longest [] 0) (K.content keeper.old) }
    ensures told { OnOk result (K.content keeper.new ≡ told_as (kept_first longest files.now 0) (K.content keeper.old)) }
    ensures counts { Counts result (K.faults keeper.old) (K.faults keeper.new) }
    ensures follows { K.follows keeper.old keeper.new }
{
    for place in 0..files.len() {
        keep_file(keeper, longest, files, place)?;
    }
    Ok(())
}

/// Keeps that the first incarnation of each host is attached.
fn keep_hosts<K: Keeper>(keeper: &mut K, hosts: u32) -> Result<(), KeepFault>
    requires { hosts ≤ most_hosts }
    ensures told { (longest : ℕ) (files : List (List ℕ × ℕ)) → Tells (kept_first longest files 0) (K.content keeper.old)
        → OnOk result (K.content keeper.new ≡ told_as (kept_first longest files hosts) (K.content keeper.old)) }
    ensures counts { Counts result (K.faults keeper.old) (K.faults keeper.new) }
    ensures follows { K.follows keeper.old keeper.new }
{
    for host in 0..hosts {
        let change = host_change(host);
        keeper.commit(change)?;
    }
    Ok(())
}

/// Keeps what the first boot of a world finds: the files, with ids from 1 on, and for each host that its first incarnation
/// is attached. The keeper keeps nothing before. There are at most 64 hosts, and the longest term is 5 to 600 ticks.
///
/// # Errors
///
/// `Failed` only where the keeper counted a fault, else want of memory. A part may be kept then.
pub(crate) fn keep_head<K: Keeper>(
    keeper: &mut K,
    hosts: u32,
    longest: u32,
    files: &FileList,
) -> Result<(), KeepFault>
    requires hosts { hosts ≤ most_hosts }
    requires long { shortest_term ≤ longest }
    requires short { longest ≤ longest_term }
    requires fine { AreFirstFiles files.now }
    requires empty { Tells empty_kept (K.content keeper.old) }
    ensures told { (term : ℕ) → OnOk result (K.content keeper.new
        ≡ told_as (first_kept (record { hosts = hosts; term = term; longest = longest; files = files.now })) (K.content keeper.old)) }
    ensures counts { Counts result (K.faults keeper.old) (K.faults keeper.new) }
    ensures follows { K.follows keeper.old keeper.new }
{
    keep_longest(keeper, longest)?;
    keep_files(keeper, longest, files)?;
    keep_hosts(keeper, hosts)
}
