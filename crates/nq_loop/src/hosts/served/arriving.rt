//! What comes to a server.

ghost use Rattle.nq_loop.specs.Serving.{CanCome, Does, coming_of};

use nq_base::{Host, Journal, Ticks};
use nq_keeper::Keeper;
use nq_server::{Received, Server};
use nq_wire::Outbox;
use std::alloc::Global;

/// What may come to a server.
#[derive(Drop)]
pub enum Arrival {
    /// A datagram of any bytes, from any host.
    Datagram {
        /// The host.
        sender: Host,
        /// The bytes.
        bytes: Vec<u8>,
    },
    /// A tick of its clock, which then shows this time.
    Tick(Ticks),
    /// A crash, after which it boots at this time.
    Crash {
        /// The longest term that the boot grants, in ticks.
        longest: u32,
        /// The time.
        now: Ticks,
    },
}

/// Hands a server what comes, and says how it was taken.
pub fn hand<K: Keeper>(
    alloc: Global,
    server: &mut Server<K>,
    came: &Arrival,
    out: &mut Outbox,
    log: &mut Journal,
) -> Received
    requires { CanCome server.old.beside.time (coming_of came.now) }
    ensures { Does K.content K.faults (coming_of came.now) result out.old out.new log.old log.new server.old server.new }
{
    match came {
        Arrival::Datagram { sender, bytes } => {
            server.receive(alloc, *sender, bytes.as_slice(), out, log)
        }
        Arrival::Tick(now) => server.tick(*now, out, log),
        Arrival::Crash { longest, now } => server.reboot(alloc, *longest, *now, log),
    }
}
