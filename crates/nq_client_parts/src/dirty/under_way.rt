//! The push under way.

ghost use Rattle.std.specs.Prelude.{◌≡◌, ◌≤◌, ◌+◌, ◌++◌, length, map, option_copied, true};
ghost use Rattle.nq_model.specs.protocol.Client.{is_push_of, push_passes};
ghost use Rattle.nq_model.specs.protocol.Hear.{push_of, loss_of};
ghost use Rattle.nq_model.specs.protocol.Settle.{pushed_body};

use crate::dirty::entries::Key;
use nq_base::{Block, FileId, Loss, Losses, Push, Spare};

/// Whether the push under way, if there is one, is of this file.
pub(crate) fn is_of(push: &Option<Push>, file: FileId) -> bool
    ensures { result ≡ push_passes (is_push_of file) push.now }
{
    match push {
        Some(push) => push.file == file,
        None => false,
    }
}

/// The body of a block, if it is under way.
pub(crate) fn read<'a>(push: &'a Option<Push>, key: &Key) -> Option<&'a Block>
    ensures { option_copied result ≡ pushed_body key.now.file key.now.block push.now }
{
    match push {
        Some(push) if push.file == key.file && push.block == key.block => Some(&push.body),
        _ => None,
    }
}

/// Adds the push under way, if it is of this file, to losses that have room for it.
pub(crate) fn add_loss(push: &Option<Push>, file: FileId, into: &mut Losses)
    requires { length (push_of file push.now) ≤ into.old.spare }
    ensures lost { into.new.items ≡ into.old.items ++ map loss_of (push_of file push.now) }
    ensures spare { into.old.spare ≤ into.new.spare + length (push_of file push.now) }
{
    match push {
        Some(lost) if lost.file == file => {
            let loss = Loss {
                file: lost.file,
                block: lost.block,
                first: lost.first,
                last: lost.last,
            };
            into.push(loss).unwrap();
        }
        _ => {}
    }
}

/// A copy of delayed writes, in room that is there.
pub(crate) fn copied(push: &Push, room: &mut Spare) -> Push
    requires { room.old ≡ true }
    ensures { result ≡ push.now }
{
    Push {
        file: push.file,
        block: push.block,
        first: push.first,
        last: push.last,
        body: push.body.copied_in(room),
    }
}
