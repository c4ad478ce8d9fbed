//! What a link is.

ghost use Rattle.std.specs.Prelude.{◌≡◌, ℕ, Option};
ghost use Rattle.nq_base.specs.declared.Party.{Party};
ghost use Rattle.nq_io.specs.Faults.{count_up};
ghost use Rattle.nq_link.specs.Link.{Letters, Sends, CountsSend, Comes, CountsReceive};

use crate::Party;

/// What a send answers.
#[derive(Clone, Copy, PartialEq, Eq)]
pub enum Sent {
    /// The datagram was sent. Nobody says that it will arrive.
    All,
    /// A fault, which the link has counted. Nothing was sent.
    Failed,
}

/// What a receive answers.
#[derive(Clone, Copy, PartialEq, Eq)]
pub enum Came {
    /// A datagram came. So many of its bytes stand at the front of the buffer: all, or as many as the buffer holds.
    Datagram { length: usize, sender: Party },
    /// Nothing came.
    Nothing,
    /// A fault, which the link has counted. The buffer may hold anything.
    Failed,
}

/// A party's way to the others: datagrams, which may be lost, repeated and reordered.
pub trait Link {
    /// The datagrams that were sent, each with its receiver, where the link tells them.
    ghost sent: { Self → Option Letters };

    /// The datagrams that wait to be received, each with its sender, where the link tells them.
    ghost waiting: { Self → Option Letters };

    /// How many faults it has met: a count that never falls, and may stand still at the end of its type.
    ghost faults: { Self → ℕ };

    /// How many receives it was asked for: a count that stands still at the end of its type.
    ghost receives: { Self → ℕ };

    /// Sends a datagram to a party.
    fn send(&mut self, to: Party, bytes: &[u8]) -> Sent
        ensures sends { Sends result to bytes.now (sent self.old) (sent self.new) }
        ensures waiting { waiting self.new ≡ waiting self.old }
        ensures receives { receives self.new ≡ receives self.old }
        ensures cause { CountsSend result (faults self.old) (faults self.new) };

    /// Receives the datagram that came first, cut to the length of the buffer. A link may wait a little for one.
    fn receive(&mut self, into: &mut [u8]) -> Came
        ensures comes { Comes result (waiting self.old) (waiting self.new) into.old into.new }
        ensures sent { sent self.new ≡ sent self.old }
        ensures receives { receives self.new ≡ count_up (receives self.old) }
        ensures cause { CountsReceive result (faults self.old) (faults self.new) };
}
