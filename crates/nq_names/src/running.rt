//! Events of the inner world, and what they change around it.

ghost use Rattle.std.specs.Prelude.{◌≡◌, ◌<◌, ◌≤◌, ◌+◌, ◌^◌, length, reverse, IfOk, IfSome};
ghost use Rattle.nq_base.specs.declared.Event.{Event};
ghost use Rattle.nq_model.specs.protocol.World.{Head, World as Model};
ghost use Rattle.nq_name_server.specs.Served.{new_served};
ghost use Rattle.nq_names.specs.Playing.{RunsInner, RunsTo, renewed_around};
ghost use Rattle.nq_names.specs.Taking.{LeavesLeases};
ghost use Rattle.nq_world.specs.Moving.{clients_in};
ghost use Rattle.nq_world.specs.Playing.{CanCome, GoesOn, Plays};

use crate::copying::copied;
use crate::world::NameWorld;
use nq_base::{Event, NoMemory, Ticks};
use nq_keeper::Keeper;
use nq_name_server::NameServer;
use nq_world::Stepped;

impl<K: Keeper> NameWorld<K> {
    /// Runs an event of the inner world that leaves the leases on directories.
    pub(crate) fn run(&mut self, event: &Event) -> Stepped
        requires can { CanCome (length self.old.inner.clients) self.old.inner.skew.window event.now }
        requires leaves { LeavesLeases event.now }
        ensures ran { (head : Head) → Plays head (reverse self.old.ran) self.old.inner (K.content self.old.inner.server.keeper)
            → RunsInner head event.now result self.old self.new (K.content self.old.inner.server.keeper) (K.content self.new.inner.server.keeper) }
        ensures goes { GoesOn K.faults K.follows result self.old.inner self.new.inner }
        ensures count { self.new.events ≡ self.old.events }
    {
        match self.run_inside(event) {
            Stepped::Done => {
                self.renew(event);
                Stepped::Done
            }
            refused => refused,
        }
    }

    /// Runs an event of the inner world, and leaves what stands around it.
    fn run_inside(&mut self, event: &Event) -> Stepped
        requires { CanCome (length self.old.inner.clients) self.old.inner.skew.window event.now }
        ensures ran { (head : Head) → Plays head (reverse self.old.ran) self.old.inner (K.content self.old.inner.server.keeper)
            → RunsTo head event.now result self.old self.new (K.content self.old.inner.server.keeper) (K.content self.new.inner.server.keeper) self.old.around }
        ensures goes { GoesOn K.faults K.follows result self.old.inner self.new.inner }
        ensures around { self.new.around ≡ self.old.around }
        ensures count { self.new.events ≡ self.old.events }
    {
        let Ok(own) = copied(self.alloc, event) else {
            return Stepped::Memory;
        };
        let Ok(()) = self.ran.push(own) else {
            return Stepped::Memory;
        };
        match self.world.step(event) {
            Stepped::Done => Stepped::Done,
            refused => {
                self.ran.drop_last();
                refused
            }
        }
    }

    /// A restart forgets the host's names, and a call those that it is about to change.
    fn renew(&mut self, event: &Event)
        requires can { CanCome (length self.old.inner.clients) self.old.inner.skew.window event.now }
        requires leaves { LeavesLeases event.now }
        ensures renewed { (w : Model) → w.clients ≡ clients_in self.old.inner.clients → self.new.around ≡ renewed_around event.now w self.old.around }
        ensures inner { self.new.inner ≡ self.old.inner }
        ensures ran { self.new.ran ≡ self.old.ran }
        ensures count { self.new.events ≡ self.old.events }
    {
        match event {
            Event::Restart(host) => self.around.restart(*host, self.world.client(*host).who()),
            Event::Call { host, call } => self.around.before_call(*host, call),
            Event::Deliver(_) => {}
            Event::ServerTick => {}
            Event::ClientTick(_) => {}
            Event::Crash { .. } => {}
        }
    }

    /// The server's clock ticks: the leases on directories that are over end.
    pub(crate) fn tick(&mut self) -> Stepped
        ensures ran { (head : Head) → Plays head (reverse self.old.ran) self.old.inner (K.content self.old.inner.server.keeper)
            → RunsInner head Event.ServerTick result self.old self.new (K.content self.old.inner.server.keeper) (K.content self.new.inner.server.keeper) }
        ensures goes { GoesOn K.faults K.follows result self.old.inner self.new.inner }
        ensures count { self.new.events ≡ self.old.events }
    {
        let Some(time) = self.next_time() else {
            return Stepped::Memory;
        };
        match self.run_inside(&Event::ServerTick) {
            Stepped::Done => {
                self.around.tick(time);
                Stepped::Done
            }
            refused => refused,
        }
    }

    /// The time of the server's clock behind a tick, if it shows that.
    fn next_time(&self) -> Option<Ticks>
        ensures next { IfSome result (λ time. time ≡ self.now.inner.server.beside.time + 1) }
        ensures later { IfSome result (λ time. self.now.around.served.time ≤ time) }
        ensures early { IfSome result (λ time. time < 2 ^ 62) }
    {
        let time = Ticks(self.world.server_time().0.checked_add(1)?);
        if self.around.may_tick(time) {
            Some(time)
        } else {
            None
        }
    }

    /// The server crashes, and boots with this longest term: no directory is leased then.
    pub(crate) fn crash(&mut self, longest: u32) -> Stepped
        requires { CanCome (length self.old.inner.clients) self.old.inner.skew.window (Event.Crash longest) }
        ensures ran { (head : Head) → Plays head (reverse self.old.ran) self.old.inner (K.content self.old.inner.server.keeper)
            → RunsInner head (Event.Crash longest) result self.old self.new (K.content self.old.inner.server.keeper) (K.content self.new.inner.server.keeper) }
        ensures goes { GoesOn K.faults K.follows result self.old.inner self.new.inner }
        ensures count { self.new.events ≡ self.old.events }
    {
        let time = self.world.server_time();
        let Ok(server) = self.next_leases(longest, time) else {
            return Stepped::Memory;
        };
        match self.run_crash(longest) {
            Stepped::Done => {
                self.around.reboot(server, time);
                Stepped::Done
            }
            refused => refused,
        }
    }

    /// Runs a crash of the inner world, and leaves what stands around it.
    fn run_crash(&mut self, longest: u32) -> Stepped
        requires { CanCome (length self.old.inner.clients) self.old.inner.skew.window (Event.Crash longest) }
        ensures ran { (head : Head) → Plays head (reverse self.old.ran) self.old.inner (K.content self.old.inner.server.keeper)
            → RunsTo head (Event.Crash longest) result self.old self.new (K.content self.old.inner.server.keeper)
            (K.content self.new.inner.server.keeper) self.old.around }
        ensures goes { GoesOn K.faults K.follows result self.old.inner self.new.inner }
        ensures around { self.new.around ≡ self.old.around }
        ensures count { self.new.events ≡ self.old.events }
    {
        let event = Event::Crash { longest };
        self.run_inside(&event)
    }

    /// The leases on directories of the next boot.
    fn next_leases(&self, longest: u32, time: Ticks) -> Result<NameServer, NoMemory>
        ensures { IfOk result (λ s. s ≡ new_served (self.now.inner.server.beside.table.boot + 1) longest time) }
    {
        let Some(boot) = self.world.boot().checked_add(1) else {
            return Err(NoMemory::Memory);
        };
        NameServer::new(self.alloc, boot, longest, time)
    }
}
