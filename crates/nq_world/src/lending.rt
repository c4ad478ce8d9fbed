//! What a world lends and tells.

ghost use Rattle.std.specs.Prelude.{◌≡◌, ◌<◌, ◌↔◌, ◌∷◌, ℕ, List, Option, Some, length, slice_get, map, option_map, IfOk, IfSome, IsTrue};
ghost use Rattle.std.specs.Option.{ForSome, option_copied};
ghost use Rattle.nq_base.specs.declared.Event.{Event};
ghost use Rattle.nq_client.specs.State.{call_of};
ghost use Rattle.nq_keeper.specs.Keeping.{Reads};
ghost use Rattle.nq_model.specs.protocol.Change.{file_after, row_of_found};
ghost use Rattle.nq_model.specs.protocol.Kept.{Kept, host_row};
ghost use Rattle.nq_model.specs.protocol.Profile.{most_hosts};
ghost use Rattle.nq_model.specs.protocol.Server.{serving};
ghost use Rattle.nq_model.specs.protocol.Skew.{IsWithinSkew};
ghost use Rattle.nq_model.specs.protocol.World.{Head};
ghost use Rattle.nq_world.specs.Playing.{IsAsBefore, IsThere, IsTimeOf, Plays};

use crate::starting::stop_all;
use crate::world::World;
use nq_base::{Call, FileId, FileRow, Host, Inc, Journal, Party, Ticks};
use nq_client::Client;
use nq_client_parts::dirty::Dirty;
use nq_keeper::{KeepFault, Keeper};
use nq_link::net::Packets;
use nq_server::Server;

impl<K: Keeper> World<K> {
    /// The journal.
    pub fn journal(&self) -> &Journal
        ensures { result.now.entries ≡ self.now.entries }
    {
        &self.journal
    }

    /// The packets that were sent, in their order.
    pub fn packets(&self) -> &Packets
        ensures { result.now.datagrams ≡ self.now.datagrams }
    {
        &self.packets
    }

    /// The server.
    pub fn server(&self) -> &Server<K>
        ensures { result.now ≡ self.now.server }
    {
        &self.server
    }

    /// The client of a host that is there.
    pub fn client(&self, host: Host) -> &Client
        requires { host < length self.now.clients }
        ensures { slice_get self.now.clients host ≡ Some result.now }
    {
        &self.clients[host.0 as usize]
    }

    /// Whether the server's clock may tick now (Macklem 1994).
    pub fn lawful_server_tick(&self) -> bool
        ensures { (head : Head) (events : List Event) (told : Option Kept) → Plays head events self.now told
            → IsTrue result ↔ IsWithinSkew head.hosts head.longest (Event.ServerTick ∷ events) }
    {
        self.skew.lawful()
    }

    /// The server's time, in ticks.
    pub fn server_time(&self) -> Ticks
        ensures { result ≡ self.now.server.beside.time }
    {
        self.server.time()
    }

    /// Ends the world. A later boot finds the keeper as it is now.
    pub fn into_keeper(self) -> K
        ensures { result ≡ self.server.keeper }
    {
        let World {
            alloc: _,
            server,
            clients,
            packets: _packets,
            journal: _journal,
            skew: _skew,
            events: _,
            term: _,
        } = self;
        stop_all(clients);
        server.into_keeper()
    }

    /// The delayed writes of the client of a host that is there.
    pub fn dirty(&self, host: Host) -> &Dirty
        requires { host < length self.now.clients }
        ensures dirty { IfSome (slice_get self.now.clients host) (λ c. result.now.dirty ≡ c.client.dirty) }
        ensures push { IfSome (slice_get self.now.clients host) (λ c. result.now.push ≡ c.client.push) }
    {
        self.client(host).dirty()
    }

    /// The number of the server's boot.
    pub fn boot(&self) -> u32
        ensures { result ≡ self.now.server.beside.table.boot }
    {
        self.server.table().boot()
    }

    /// The term that clients want, in ticks.
    pub fn term(&self) -> u32
        ensures { result ≡ self.now.term }
    {
        self.term
    }

    /// The longest term that the server's boot grants, in ticks.
    pub fn longest(&self) -> u32
        ensures { result ≡ self.now.server.beside.longest }
    {
        self.server.longest()
    }

    /// The row of the file with the least id above this one; None where there is none.
    pub fn next_file(&mut self, after: FileId) -> Result<Option<FileRow>, KeepFault>
        ensures told { ForSome (K.content self.old.server.keeper) (λ kept. IfOk result (λ row. row ≡ row_of_found (file_after after kept.files))) }
        ensures unchanged { IsAsBefore self.old self.new }
        ensures reads { Reads result (K.content self.old.server.keeper) (K.content self.new.server.keeper) (K.faults self.old.server.keeper)
            (K.faults self.new.server.keeper) }
        ensures follows { K.follows self.old.server.keeper self.new.server.keeper }
    {
        self.server.next_file(after)
    }

    /// The incarnation that is kept for a host.
    pub fn kept_inc(&mut self, host: Host) -> Result<Inc, KeepFault>
        requires { host < most_hosts }
        ensures told { ForSome (K.content self.old.server.keeper) (λ kept. IfOk result (λ inc. inc ≡ (host_row kept host).inc)) }
        ensures unchanged { IsAsBefore self.old self.new }
        ensures reads { Reads result (K.content self.old.server.keeper) (K.content self.new.server.keeper) (K.faults self.old.server.keeper)
            (K.faults self.new.server.keeper) }
        ensures follows { K.follows self.old.server.keeper self.new.server.keeper }
    {
        self.server.kept_inc(host)
    }

    /// Whether the server serves; else it recovers.
    pub fn serving(&self) -> bool
        ensures { IsTrue result ↔ (self.now.server.beside.phase ≡ serving) }
    {
        self.server.is_serving()
    }

    /// The time of the server, in ticks of its clock, or of a host that is there, in ticks of that host's.
    pub fn time(&self, party: Party) -> Ticks
        requires { IsThere (length self.now.clients) party }
        ensures { IsTimeOf self.now party result }
    {
        match party {
            Party::Server => self.server.time(),
            Party::Client(host) => self.client(host).time(),
        }
    }

    /// Whether the server knows the incarnation of a host that is there.
    pub fn attached(&self, host: Host) -> bool
        requires { host < length self.now.clients }
        ensures { IfSome (slice_get self.now.clients host) (λ c. result ≡ c.client.attached) }
    {
        self.client(host).is_attached()
    }

    /// The call that is under way at a host that is there, if one is.
    pub fn under_way(&self, host: Host) -> Option<&Call>
        requires { host < length self.now.clients }
        ensures { IfSome (slice_get self.now.clients host) (λ c. option_copied result ≡ option_map call_of c.client.call) }
    {
        self.client(host).call_under_way()
    }
}
