//! Packets that travel.

ghost use Rattle.std.specs.Prelude.{◌≡◌, [], ◌∷◌, ◌++◌, Some, length, slice_get, IfSome, OnErr, OnOk};
ghost use Rattle.nq_name_server.specs.Around.{travelling};

use nq_base::{NoMemory, Party};
use nq_link::net::Packets;
use std::marker::Model;

/// A packet that travels, as it is taken in. Clauses see it as the definitions do.
#[derive(Drop)]
pub struct Travelling {
    pub(crate) sender: Party,
    pub(crate) to: Party,
    pub(crate) bytes: Vec<u8>,
    /// The number of the inner packet that it is.
    pub(crate) inner: Option<u64>,
}

impl Model for Travelling {
    ghost use Rattle.nq_name_server.specs.Outer.{Outer};

    ghost Value = { Outer };

    ghost view = { λ p. record { sender = p.sender; to = p.to; bytes = p.bytes.items; is = p.inner } };
}

impl Travelling {
    /// Who sent it.
    pub fn sender(&self) -> Party
        ensures { result ≡ self.now.sender }
    {
        self.sender
    }

    /// Whom it is for.
    pub fn to(&self) -> Party
        ensures { result ≡ self.now.to }
    {
        self.to
    }

    /// Its bytes.
    pub fn bytes(&self) -> &[u8]
        ensures { result.now ≡ self.now.bytes }
    {
        &self.bytes
    }

    /// The number of the packet of the inner world that it is; None where it is none.
    pub fn inner(&self) -> Option<u64>
        ensures { result ≡ self.now.is }
    {
        self.inner
    }
}

/// Which packet of the inner world the packet of a number is.
pub(crate) fn inner_at(inner: &Vec<Option<u64>>, number: u64) -> Option<&Option<u64>>
    ensures { IfSome result (λ s. slice_get inner.now.items number ≡ Some s.now) }
{
    inner.get(number as usize)
}

/// Adds a packet to those that travel: the inner packet of this number, or none of the inner world.
#[tactic(auto, using(crate::proofs::Together::travelling_more))]
pub(crate) fn push(
    packets: &mut Packets,
    inner: &mut Vec<Option<u64>>,
    sender: Party,
    to: Party,
    bytes: &[u8],
    is: Option<u64>,
) -> Result<(), NoMemory>
    requires { length packets.old.datagrams ≡ length inner.old.items }
    ensures sent { OnOk result (travelling packets.new.datagrams inner.new.items ≡ travelling packets.old.datagrams inner.old.items
        ++ record { sender = sender; to = to; bytes = bytes.now; is = is } ∷ []) }
    ensures refused { OnErr result ((packets.new.datagrams ≡ packets.old.datagrams) × (inner.new.items ≡ inner.old.items)) }
    ensures together { length packets.new.datagrams ≡ length inner.new.items }
{
    inner.reserve(1)?;
    packets.push(sender, to, bytes)?;
    inner.push(is).unwrap();
    Ok(())
}
