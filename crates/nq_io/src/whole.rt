//! Reading a source to its end.

ghost use Rattle.std.specs.Prelude.{◌≡◌, ◌≢◌, ◌+◌, ◌<◌, ◌≤◌, [], length, vec_len, vec_capacity, IfOk};
ghost use Rattle.nq_io.specs.Whole.{ReadsWhole, CountsWhole};

use crate::{Got, Source};
use std::alloc::{AllocError, Global};

// How many bytes are asked for at once.
const PIECE: usize = 16_384;

/// What reading a source to its end gives.
#[derive(Debug, Drop)]
pub enum Whole {
    /// All the bytes, no more than the limit.
    All(Vec<u8>),
    /// The source has more bytes than the limit: the first of them, one more than the limit.
    Over(Vec<u8>),
    /// The source failed. It may have given some bytes, which are gone.
    Failed,
    /// Memory is wanting. Nothing was read.
    Memory,
}

/// Reads to the end of the source, but no further than one byte past the limit. The memory for all that may be read, one
/// byte more than the limit, is taken before the first read, so that want of memory leaves the source as it was.
pub fn read_all<S: Source>(alloc: Global, source: &mut S, limit: usize) -> Whole
    ensures reads { ReadsWhole result limit (S.left source.old) (S.left source.new) }
    ensures cause { CountsWhole result (S.faults source.old) (S.faults source.new) }
    ensures memory { result ≡ Whole.Memory → source.new ≡ source.old }
{
    let Some(most) = limit.checked_add(1) else {
        return Whole::Memory;
    };
    match (Vec::with_capacity(alloc, most), zeros(alloc, PIECE)) {
        (Ok(bytes), Ok(mut piece)) => read_most(source, bytes, &mut piece, limit),
        _ => Whole::Memory,
    }
}

// A buffer of this length.
fn zeros(alloc: Global, len: usize) -> Result<Vec<u8>, AllocError>
    ensures { IfOk result (λ buffer. vec_len buffer ≡ len) }
{
    vec![in alloc; 0; len]
}

// Reads into a vector that has the room, piece by piece.
fn read_most<S: Source>(source: &mut S, mut bytes: Vec<u8>, piece: &mut [u8], limit: usize) -> Whole
    requires empty { bytes.items ≡ [] }
    requires room { limit + 1 ≤ vec_capacity bytes }
    requires some { 0 < length piece.old }
    ensures reads { ReadsWhole result limit (S.left source.old) (S.left source.new) }
    ensures cause { CountsWhole result (S.faults source.old) (S.faults source.new) }
    ensures memory { result ≢ Whole.Memory }
{
    while bytes.len() <= limit {
        let asked = piece.len().min(limit - bytes.len() + 1);
        match source.read(&mut piece[..asked]) {
            Got::Bytes(count) => bytes.extend_from_slice(&piece[..count]).unwrap(),
            Got::End => return Whole::All(bytes),
            Got::Failed => return Whole::Failed,
        }
    }
    Whole::Over(bytes)
}
