//! The beginning of a world.

ghost use Rattle.std.specs.Prelude.{◌≡◌, ◌≤◌, ℕ, List, [], Some, length, IfOk, IfErr};
ghost use Rattle.nq_keeper.specs.StoredKeeper.{empty_kept};
ghost use Rattle.nq_model.specs.protocol.Profile.{longest_term, most_hosts, shortest_term};
ghost use Rattle.nq_model.specs.protocol.World.{first_clients, first_kept};
ghost use Rattle.nq_script.specs.Heads.{FitsHead};
ghost use Rattle.nq_world.specs.Beginning.{CountsBegin, NeverFails, beginning};
ghost use Rattle.nq_world.specs.Counting.{TookIn};
ghost use Rattle.nq_world.specs.First.{AreFirstFiles, Tells};
ghost use Rattle.nq_world.specs.Moving.{clients_in};
ghost use Rattle.nq_world.specs.Playing.{Begins, HasSettings, IsNew, Plays, keeper_in};
ghost use Rattle.nq_world.specs.declared.starting.NewFault.{NewFault};

use crate::first::keep_head;
use crate::world::World;
use nq_base::{FileList, Host, Inc, Journal, NoMemory, Ticks};
use nq_client::{Client, StartClient};
use nq_clock::Skew;
use nq_keeper::{KeepFault, Keeper};
use nq_link::net::Packets;
use nq_script::Head;
use nq_server::{BootFault, Server};
use std::alloc::Global;

/// Why no world begins. The keeper is handed back; a part of what a world begins with may be kept then.
#[derive(Drop)]
pub enum NewFault<K> {
    /// The keeper failed.
    Failed(K),
    /// Memory was wanting. So is a keeper answered that tells nothing of what it keeps, and has the last number of a boot
    /// where none was kept.
    Memory(K),
}

/// Ends clients.
pub(crate) fn stop_all(clients: Vec<Client>) {
    let mut clients = clients;
    while let Some(client) = clients.pop() {
        client.stop();
    }
    clients.destroy_empty();
}

/// The clients of so many hosts, each attached with its first incarnation.
fn first_clients(alloc: Global, hosts: u32, term: u32) -> Result<Vec<Client>, NoMemory>
    ensures clients { IfOk result (λ clients. clients_in clients.items ≡ first_clients term 0 hosts) }
    ensures taken { IfOk result (λ clients. TookIn 0 clients.items) }
    ensures hosts { IfOk result (λ clients. length clients.items ≡ hosts) }
{
    let Ok(mut clients) = Vec::with_capacity(alloc, hosts as usize) else {
        return Err(NoMemory::Memory);
    };
    for host in 0..hosts {
        match Client::attached(alloc, Host(host), Inc(1), term, Ticks(0)) {
            Ok(client) => clients.push(client).unwrap(),
            Err(StartClient::Memory) => {
                stop_all(clients);
                return Err(NoMemory::Memory);
            }
        }
    }
    Ok(clients)
}

/// A world before its first event, over a server that booted.
fn over<K: Keeper>(
    alloc: Global,
    hosts: u32,
    term: u32,
    server: Server<K>,
    skew: Skew,
) -> Result<World<K>, NewFault<K>>
    requires { length skew.hosts ≡ hosts }
    ensures new { IfOk result (λ w. IsNew (first_clients term 0 hosts) server skew term w) }
    ensures refused { IfErr result (λ fault. fault ≡ NewFault.Memory server.keeper) }
{
    match first_clients(alloc, hosts, term) {
        Ok(clients) => Ok(World {
            alloc,
            server,
            clients,
            packets: Packets::new(alloc).unwrap(),
            journal: Journal::new(alloc).unwrap(),
            skew,
            events: 0,
            term,
        }),
        Err(NoMemory::Memory) => Err(NewFault::Memory(server.into_keeper())),
    }
}

/// Boots over a keeper that keeps what a world begins with.
fn boot<K: Keeper>(
    alloc: Global,
    hosts: u32,
    term: u32,
    longest: u32,
    keeper: K,
) -> Result<World<K>, NewFault<K>>
    requires some { 1 ≤ hosts }
    requires hosts { hosts ≤ most_hosts }
    requires long { shortest_term ≤ longest }
    requires short { longest ≤ longest_term }
    ensures begins { (files : List (List ℕ × ℕ)) → AreFirstFiles files
        → Begins (record { hosts = hosts; term = term; longest = longest; files = files })
        (first_kept (record { hosts = hosts; term = term; longest = longest; files = files })) result (K.content keeper) (K.content (keeper_in result))
        (K.faults keeper) (K.faults (keeper_in result)) }
    ensures follows { K.follows keeper (keeper_in result) }
{
    let Ok(skew) = Skew::new(alloc, hosts, longest) else {
        return Err(NewFault::Memory(keeper));
    };
    match Server::boot(alloc, keeper, longest, Ticks(0)) {
        Ok(server) => over(alloc, hosts, term, server, skew),
        Err(BootFault::Failed(keeper)) => Err(NewFault::Failed(keeper)),
        Err(BootFault::Memory(keeper) | BootFault::Spent(keeper)) => Err(NewFault::Memory(keeper)),
    }
}

impl<K: Keeper> World<K> {
    /// The world at the start: the files are kept with ids from 1 on, the server serves its first boot, and each client is
    /// attached with its first incarnation. There are 1 to 64 hosts; clients want leases of `term` ticks, and `longest` is
    /// the longest term that a boot grants, 5 to 600 ticks. The keeper keeps nothing before.
    pub fn new(
        alloc: Global,
        hosts: u32,
        term: u32,
        longest: u32,
        files: &FileList,
        keeper: K,
    ) -> Result<World<K>, NewFault<K>>
        requires some { 1 ≤ hosts }
        requires hosts { hosts ≤ most_hosts }
        requires long { shortest_term ≤ longest }
        requires short { longest ≤ longest_term }
        requires fine { AreFirstFiles files.now }
        requires empty { Tells empty_kept (K.content keeper) }
        ensures begins { Begins (record { hosts = hosts; term = term; longest = longest; files = files.now }) empty_kept result (K.content keeper)
            (K.content (keeper_in result)) (K.faults keeper) (K.faults (keeper_in result)) }
        ensures follows { K.follows keeper (keeper_in result) }
    {
        let mut keeper = keeper;
        match keep_head(&mut keeper, hosts, longest, files) {
            Ok(()) => boot(alloc, hosts, term, longest, keeper),
            Err(KeepFault::Failed) => Err(NewFault::Failed(keeper)),
            Err(KeepFault::Memory) => Err(NewFault::Memory(keeper)),
        }
    }
}

/// The world before the first event of a schedule with this head, over a keeper that keeps nothing yet. The keeper is handed back
/// where it failed, which it has counted, and where memory was wanting.
pub fn begin<K: Keeper>(alloc: Global, head: &Head, keeper: K) -> Result<World<K>, NewFault<K>>
    requires fits { FitsHead head.now }
    requires empty { K.content keeper ≡ Some empty_kept }
    ensures plays { IfOk result (λ w. Plays (beginning head.now) [] w (K.content w.server.keeper)) }
    ensures settings { IfOk result (λ w. HasSettings head.now.hosts head.now.longest head.now.term w) }
    ensures faults { CountsBegin result (K.faults keeper) (K.faults (keeper_in result)) }
    ensures follows { K.follows keeper (keeper_in result) }
{
    World::new(
        alloc,
        head.hosts,
        head.term,
        head.longest,
        &head.files,
        keeper,
    )
}

/// The world before the first event of a schedule with this head, over a keeper that keeps nothing yet and never fails.
///
/// # Errors
///
/// Only want of memory.
pub fn begin_surely<K: Keeper + Drop>(
    alloc: Global,
    head: &Head,
    keeper: K,
) -> Result<World<K>, NoMemory>
    requires fits { FitsHead head.now }
    requires empty { K.content keeper ≡ Some empty_kept }
    requires never { NeverFails K.faults K.follows keeper }
    ensures plays { IfOk result (λ w. Plays (beginning head.now) [] w (K.content w.server.keeper)) }
    ensures settings { IfOk result (λ w. HasSettings head.now.hosts head.now.longest head.now.term w) }
    ensures never { IfOk result (λ w. NeverFails K.faults K.follows w.server.keeper) }
{
    match begin(alloc, head, keeper) {
        Ok(world) => Ok(world),
        Err(NewFault::Memory(_keeper)) => Err(NoMemory::Memory),
        Err(NewFault::Failed(_keeper)) => unreachable!(),
    }
}
