//! Memory for the bytes of what a step sends.

ghost use Rattle.std.specs.Prelude.{◌≡◌, ◌≤◌, OnOk};
ghost use Rattle.nq_datagrams.specs.Messages.{FitsMessage, bytes_of};
ghost use Rattle.nq_model.specs.protocol.Message.{call};
ghost use Rattle.nq_wire.specs.Request.{HasSpelling};
ghost use Rattle.nq_client.specs.Finishing.{longest_call};

use nq_base::{NoMemory, Request};
use nq_datagrams::{LONGEST_CALL, write_call};
use nq_xdr::Writer;
use std::alloc::Global;
use std::marker::Model;
use std::mem;

/// Memory for the bytes of one call. Clauses see for how many bytes there is room.
#[derive(Drop)]
pub(crate) struct Letter {
    writer: Writer,
}

impl Model for Letter {
    ghost use Rattle.std.specs.Prelude.{◌≡◌, ℕ, []};

    ghost Value = { ℕ };

    ghost view = { λ l. l.writer.spare };

    ghost invariant = { λ l. l.writer.bytes ≡ [] };
}

impl Letter {
    /// No room. It takes no memory.
    pub(crate) fn new(alloc: Global) -> Letter {
        Letter {
            writer: Writer::new(alloc).unwrap(),
        }
    }

    /// Makes room for any call.
    pub(crate) fn reserve(&mut self) -> Result<(), NoMemory>
        ensures { OnOk result (longest_call ≤ self.new) }
    {
        self.writer.reserve(LONGEST_CALL)
    }

    /// The bytes of a call, in the room that is there. No room is left.
    pub(crate) fn spell(&mut self, alloc: Global, xid: u32, request: &Request) -> Vec<u8>
        requires room { longest_call ≤ self.old }
        requires spelled { HasSpelling request.now }
        ensures spelled { result.items ≡ bytes_of (call xid request.now) }
        ensures fits { FitsMessage (call xid request.now) }
    {
        let mut writer = mem::replace(&mut self.writer, Writer::new(alloc).unwrap());
        write_call(xid, request, &mut writer).unwrap();
        writer.into_bytes()
    }
}
