//! Blocks that were read.

ghost use Rattle.std.specs.Prelude.{◌≡◌, ◌<◌, ◌≤◌, Option, IfSome, length};
ghost use Rattle.nq_model.specs.protocol.Kept.{Kept};
ghost use Rattle.nq_service.specs.Recent.{AreBodies, AreRecent, IsBody, most_pieces};

use nq_base::{Block, BlockNo, FileId};
use std::alloc::Global;

/// The body of a block that was read.
#[derive(Drop)]
pub(crate) struct Piece {
    pub(crate) file: FileId,
    pub(crate) block: BlockNo,
    pub(crate) body: Block,
}

/// How many blocks are kept at most.
const MOST: usize = 64;

/// Adds a piece, where there is memory for it. Where there are as many as may be, the others go before.
pub(crate) fn add(pieces: &mut Vec<Piece>, piece: Piece)
    requires few { length pieces.old.items ≤ most_pieces }
    ensures { (told : Option Kept) → AreRecent told pieces.old.items → IsBody told piece.file piece.block piece.body → AreRecent told pieces.new.items }
{
    make_room(pieces);
    let _kept = pieces.push(piece);
}

/// Makes room for one more piece.
fn make_room(pieces: &mut Vec<Piece>)
    requires few { length pieces.old.items ≤ most_pieces }
    ensures room { length pieces.new.items < most_pieces }
    ensures bodies { (told : Option Kept) → AreBodies told pieces.old.items → AreBodies told pieces.new.items }
{
    if pieces.len() == MOST {
        pieces.clear();
    }
}

/// A copy of the body of a block, if it is among these and there is memory for it.
pub(crate) fn copy_of(
    alloc: Global,
    pieces: &[Piece],
    file: FileId,
    block: BlockNo,
) -> Option<Block>
    ensures { IfSome result (λ body. (told : Option Kept) → AreBodies told pieces.now → IsBody told file block body) }
{
    match piece_at(pieces, file, block) {
        Some(piece) => piece.body.copied(alloc).ok(),
        None => None,
    }
}

/// The piece of a block, if it is among these.
fn piece_at(pieces: &[Piece], file: FileId, block: BlockNo) -> Option<&Piece>
    ensures file { IfSome result (λ piece. piece.now.file ≡ file) }
    ensures block { IfSome result (λ piece. piece.now.block ≡ block) }
    ensures among { IfSome result (λ piece. (told : Option Kept) → AreBodies told pieces.now → IsBody told piece.now.file piece.now.block piece.now.body) }
{
    for piece in pieces {
        if piece.file == file && piece.block == block {
            return Some(piece);
        }
    }
    None
}
