//! What runs for proofs alone: it changes nothing and answers nothing. Its contracts tell a caller what a type already
//! promises of the bytes of a request.

ghost use Rattle.std.specs.Prelude.{◌<◌, All};
ghost use Rattle.nq_base.specs.Block.{filled};
ghost use Rattle.nq_model.specs.protocol.Change.{IsBody};
ghost use Rattle.nq_model.specs.protocol.Decided.{HasText};

use nq_base::{Block, Request, Seen};

/// Bytes are numbers below 256.
fn are_bytes(bytes: &[u8])
    ensures { All (λ byte. byte < 256) bytes.now }
{
    let _count = bytes.len();
}

/// So are those of a block that repeats a word.
fn is_fill(_value: u32)
    ensures { All (λ byte. byte < 256) (filled _value) }
{}

/// A block has 4096 bytes.
fn is_body(block: &Block)
    ensures { IsBody block.now }
{
    match block.seen() {
        Seen::Filled(value) => is_fill(value),
        Seen::Bytes(bytes) => are_bytes(bytes),
    }
}

/// The name and the body of a request are such as there can be.
pub(crate) fn has_text(request: &Request)
    ensures { HasText request.now }
{
    match request {
        Request::Create { name, .. } => {
            let _bytes = name.as_bytes();
        }
        Request::Write { body, .. } => is_body(body),
        _ => {}
    }
}
