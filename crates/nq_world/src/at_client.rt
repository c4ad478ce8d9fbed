//! Events at the clients of a world.

ghost use Rattle.std.specs.Prelude.{◌≡◌, ◌<◌, Some, length, slice_get};
ghost use Rattle.nq_base.specs.declared.Event.{Event};
ghost use Rattle.nq_base.specs.declared.Party.{Party};
ghost use Rattle.nq_model.specs.protocol.Stepped.{most_events};
ghost use Rattle.nq_world.specs.Playing.{GoesOn, TakesIn};

use crate::clients::{call, hear, restart, tick};
use crate::ending::{finish, outbox};
use crate::stepped::Stepped;
use crate::world::World;
use nq_base::{Call, Host, Party};
use nq_keeper::Keeper;

impl<K: Keeper> World<K> {
    /// A user at a host calls.
    pub(crate) fn call(&mut self, host: Host, op: &Call) -> Stepped
        requires few { self.old.events < most_events }
        requires there { host < length self.old.clients }
        ensures takes { TakesIn K.content (Event.Call host op.now) result self.old self.new }
        ensures goes { GoesOn K.faults K.follows result self.old self.new }
    {
        let Ok(mut out) = outbox(self.alloc, &mut self.packets) else {
            return Stepped::Memory;
        };
        let made = call(&mut self.clients, host, op, &mut out, &mut self.journal);
        finish(
            made,
            &mut self.packets,
            &mut self.events,
            Party::Client(host),
            &out,
        )
    }

    /// The client of a host takes in a datagram, which is the packet of this number.
    pub(crate) fn deliver_to_client(
        &mut self,
        number: u64,
        sender: Party,
        host: Host,
        datagram: &[u8],
    ) -> Stepped
        requires few { self.old.events < most_events }
        requires is { slice_get self.old.datagrams number ≡ Some (record { sender = sender; to = Party.Client host; bytes = datagram.now }) }
        ensures takes { TakesIn K.content (Event.Deliver number) result self.old self.new }
        ensures goes { GoesOn K.faults K.follows result self.old self.new }
    {
        let Ok(mut out) = outbox(self.alloc, &mut self.packets) else {
            return Stepped::Memory;
        };
        let made = hear(
            &mut self.clients,
            host,
            number,
            datagram,
            &mut out,
            &mut self.journal,
        );
        finish(
            made,
            &mut self.packets,
            &mut self.events,
            Party::Client(host),
            &out,
        )
    }

    /// The clock of a host ticks.
    pub(crate) fn tick_client(&mut self, host: Host) -> Stepped
        requires few { self.old.events < most_events }
        requires there { host < length self.old.clients }
        ensures takes { TakesIn K.content (Event.ClientTick host) result self.old self.new }
        ensures goes { GoesOn K.faults K.follows result self.old self.new }
    {
        let Ok(mut out) = outbox(self.alloc, &mut self.packets) else {
            return Stepped::Memory;
        };
        let made = tick(
            &mut self.clients,
            &mut self.skew,
            host,
            &mut out,
            &mut self.journal,
        );
        finish(
            made,
            &mut self.packets,
            &mut self.events,
            Party::Client(host),
            &out,
        )
    }

    /// A host starts again, as the next incarnation.
    pub(crate) fn restart(&mut self, host: Host) -> Stepped
        requires few { self.old.events < most_events }
        requires there { host < length self.old.clients }
        ensures takes { TakesIn K.content (Event.Restart host) result self.old self.new }
        ensures goes { GoesOn K.faults K.follows result self.old self.new }
    {
        let alloc = self.alloc;
        let Ok(mut out) = outbox(alloc, &mut self.packets) else {
            return Stepped::Memory;
        };
        let made = restart(&mut self.clients, alloc, host, &mut out, &mut self.journal);
        finish(
            made,
            &mut self.packets,
            &mut self.events,
            Party::Client(host),
            &out,
        )
    }
}
