//! The leases on directories, as events change them.

ghost use Rattle.std.specs.Prelude.{◌≡◌, ◌<◌, ◌≤◌, ◌^◌, ◌↔◌, [], ◌∷◌, List, IfOk, IsTrue, OnErr, OnOk};
ghost use Rattle.nq_base.specs.declared.Event.{Event};
ghost use Rattle.nq_directory.specs.Reading.{dir_vacated_in};
ghost use Rattle.nq_model.specs.protocol.World.{World};
ghost use Rattle.nq_name_server.specs.Around.{IsHeldUp, once_sent, over, served_by};
ghost use Rattle.nq_name_server.specs.Outside.{served_vacated};
ghost use Rattle.nq_name_server.specs.Serving.{holds_up, puts_off, reads_dir, ticks, vacates};

use crate::around::around::Around;
use crate::change::DirChange;
use crate::server::{NUMBERS_END, NameServer};
use nq_base::{Host, NoMemory, Party, Ticks};
use nq_directory::BegunLeaf;
use nq_directory::listing::{DirTag, ReadDir, later_bytes, read_dir_vacated};

impl Around {
    /// Whether there is a number for one lease more.
    fn may_lease(&self) -> bool
        ensures { IsTrue result ↔ (self.now.served.table.drawn < 2 ^ 62) }
    {
        self.server.table().drawn() < NUMBERS_END
    }

    /// Whether the server's clock can show this time next: it is not below the last one, and below 2^62.
    pub fn may_tick(&self, time: Ticks) -> bool
        ensures { IsTrue result ↔ ((self.now.served.time ≤ time) × (time < 2 ^ 62)) }
    {
        self.time.0 <= time.0 && time.0 < NUMBERS_END
    }

    /// Answers a READDIRLOOK of an attached incarnation while the server serves, with this page of the directory behind the id that it
    /// names.
    ///
    /// # Errors
    ///
    /// `NoMemory` where memory is wanting, or a number for a lease; nothing is changed then.
    #[tactic(auto, using(crate::proofs::Timing::time_read))]
    pub fn read_dir(&mut self, request: &ReadDir, leaf: &BegunLeaf) -> Result<(), NoMemory>
        requires { self.old.due ≡ [] }
        ensures reads { OnOk result (self.new ≡ served_by self.old (reads_dir self.old.served request.now leaf.now.leaf)) }
        ensures refused { OnErr result (self.new ≡ self.old) }
    {
        if !self.may_lease() {
            return Err(NoMemory::Memory);
        }
        self.server.read_dir(
            self.alloc,
            request,
            leaf.names(),
            leaf.more(),
            &mut self.due,
        )?;
        self.sender = Party::Server;
        Ok(())
    }

    /// Answers a READDIRLOOK while the server recovers: the client is to ask again later.
    ///
    /// # Errors
    ///
    /// `NoMemory` where memory is wanting; nothing is changed then.
    pub fn put_off(&mut self, request: &ReadDir) -> Result<(), NoMemory>
        requires { self.old.due ≡ [] }
        ensures puts { OnOk result (self.new ≡ served_by self.old (record { served = self.old.served; sends = puts_off request.now ∷ [] })) }
        ensures refused { OnErr result (self.new ≡ self.old) }
    {
        let reply = later_bytes(self.alloc, request.xid, request.who.inc.0)?;
        self.due.push(Party::Client(request.who.host), reply)?;
        self.sender = Party::Server;
        Ok(())
    }

    /// A request is about to create or remove a file of a directory. Says whether it is held up, since another host reads the directory;
    /// the notices to those who do are due then.
    ///
    /// # Errors
    ///
    /// `NoMemory` where memory is wanting, or a number for a lease; nothing is changed then.
    #[tactic(auto, using(crate::proofs::Timing::time_held))]
    pub fn hold_up(&mut self, change: &DirChange) -> Result<bool, NoMemory>
        requires { self.old.due ≡ [] }
        ensures held { IfOk result (λ held. IsHeldUp held (holds_up self.old.served change.now.who change.now.prefix) self.old self.new) }
        ensures refused { OnErr result (self.new ≡ self.old) }
    {
        if !self.may_lease() {
            return Err(NoMemory::Memory);
        }
        let held = self
            .server
            .hold_up(self.alloc, change.who, &change.prefix, &mut self.due)?;
        if held {
            self.sender = Party::Server;
        }
        Ok(held)
    }

    /// A host's packet that is no READDIRLOOK and none of the inner world: where it is a DIRVACATED of the host's own, it gives a list up.
    pub fn give_up(&mut self, host: Host, datagram: &[u8])
        requires { self.old.due ≡ [] }
        ensures gives { (w : World) (ran : List Event) → once_sent w ran self.new ≡ served_vacated (over w ran self.old) host (dir_vacated_in datagram.now) }
        ensures gone { self.new.gone ≡ self.old.gone }
    {
        if let Some(vacated) = read_dir_vacated(datagram) {
            if vacated.who.host == host {
                self.vacated(&vacated);
            }
        }
    }

    /// A list is given up.
    #[tactic(auto, using(crate::proofs::Timing::time_vacated))]
    fn vacated(&mut self, said: &DirTag)
        ensures { self.new ≡ record self.old { served = vacates self.old.served said.now } }
    {
        self.server.vacated(said);
    }

    /// The server's clock shows this time, which is not below the last one, and below 2^62.
    pub fn tick(&mut self, time: Ticks)
        requires later { self.old.served.time ≤ time }
        requires early { time < 2 ^ 62 }
        ensures { self.new ≡ record self.old { served = ticks self.old.served time } }
    {
        self.server.tick(time);
        self.time = time;
    }

    /// The server booted, with these leases at this time of its clock.
    pub fn reboot(&mut self, server: NameServer, time: Ticks)
        requires { server.time ≡ time }
        ensures { self.new ≡ record self.old { served = server } }
    {
        self.server = server;
        self.time = time;
    }
}
