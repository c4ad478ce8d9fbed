//! What stands beside a server and answers datagrams that are none of the protocol proper.

ghost use Rattle.std.specs.Prelude.{◌≡◌, ℕ, Bool, List, Option};
ghost use Rattle.nq_model.specs.protocol.Server.{Server as Protocol};
ghost use Rattle.nq_server.specs.State.{server_of};
ghost use Rattle.nq_serving.specs.Extending.{AddsReply, ReadsOnly};

use nq_base::Host;
use nq_keeper::{KeepFault, Keeper};
use nq_server::Server;
use nq_wire::Outbox;
use std::alloc::Global;

/// Who answers some datagrams in place of a server, by what the server is and keeps. It changes nothing of either, and sends nothing
/// but a reply to the host that asks.
pub trait Extension {
    /// Which datagrams are its own.
    ghost owns: { List ℕ → Bool };

    /// What it replies to one of a host, if anything, by the server that it stands beside.
    ghost replies: { Protocol → ℕ → List ℕ → Option (List ℕ) };

    /// Whether a datagram is its own.
    fn is_own(&self, datagram: &[u8]) -> bool
        ensures own { result ≡ owns datagram.now };

    /// Answers a datagram of a host: adds the reply to the outbox, if the host gets one.
    ///
    /// # Errors
    ///
    /// `Failed` only where the keeper counted a fault, and `Memory` where memory was refused. The outbox is as before then.
    fn answer<K: Keeper>(
        &self,
        alloc: Global,
        server: &mut Server<K>,
        host: Host,
        datagram: &[u8],
        out: &mut Outbox,
    ) -> Result<(), KeepFault>
        ensures first { out.new.first ≡ out.old.first }
        ensures replies { AddsReply result (K.content server.old.keeper) (λ kept. replies (server_of server.old.beside kept) host datagram.now) host
            out.old.datagrams out.new.datagrams }
        ensures reads { ReadsOnly K.content K.faults K.follows K.leaves result server.old server.new };
}
