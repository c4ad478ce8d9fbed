//! What stands in a datagram and is lent.

ghost use Rattle.std.specs.Prelude.{◌≡◌, ◌↔◌, true, length, IfSome, IsSome};
ghost use Rattle.nq_wire.specs.Lent.{lent_reply};

use crate::Reply;
use nq_base::{Block, Grant, Inc, Rev, Spare};
use std::marker::Model;

/// The body of a block as it stands in a datagram: 4096 bytes.
#[derive(Drop)]
pub struct LentBlock<'a> {
    bytes: &'a [u8],
}

/// A reply as it stands in a datagram, which lends the body that it brings.
#[derive(Drop)]
pub enum LentReply<'a> {
    /// The reply to a READ, the only one that brings a body.
    Read {
        inc: Inc,
        rev: Rev,
        body: LentBlock<'a>,
        grant: Option<Grant>,
    },
    /// Any other reply.
    Plain(Reply),
}

impl<'a> Model for LentBlock<'a> {
    ghost use Rattle.std.specs.Prelude.{◌≡◌, List, length, ℕ};

    ghost Value = { List ℕ };

    ghost view = { λ b. b.bytes.now };

    ghost invariant = { λ b. length b.bytes.now ≡ 4096 };
}

impl<'a> LentBlock<'a> {
    /// The body of these bytes; None where there are not 4096.
    pub fn new(bytes: &'a [u8]) -> Option<LentBlock<'a>>
        ensures size { IsSome result ↔ (length bytes.now ≡ 4096) }
        ensures block { IfSome result (λ b. b ≡ bytes.now) }
    {
        if bytes.len() != Block::SIZE {
            return None;
        }
        Some(LentBlock { bytes })
    }

    /// The block of its own, in room that was taken ahead.
    pub fn kept(self, room: &mut Spare) -> Block
        requires { room.old ≡ true }
        ensures block { result ≡ self.entry }
        ensures size { length self.entry ≡ 4096 }
    {
        Block::from_bytes_in(self.bytes, room).unwrap()
    }
}

impl LentReply<'_> {
    /// The reply with a block of its own, in room that was taken ahead.
    pub fn kept(self, room: &mut Spare) -> Reply
        requires { room.old ≡ true }
        ensures { result ≡ lent_reply self.entry }
    {
        match self {
            LentReply::Read {
                inc,
                rev,
                body,
                grant,
            } => Reply::Read {
                inc,
                rev,
                body: body.kept(room),
                grant,
            },
            LentReply::Plain(reply) => reply,
        }
    }
}
