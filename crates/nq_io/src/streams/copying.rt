//! Copying bytes in memory.

ghost use Rattle.std.specs.Prelude.{◌≡◌, IfSome};

use crate::streams::{StdSink, StdSource};
use crate::{Put, Sink, Whole, read_all};
use std::alloc::Global;

/// A copy of these bytes, which are read from a source over them and put to a sink over a vector; none where memory is wanting.
pub fn copied(alloc: Global, bytes: &[u8]) -> Option<Vec<u8>>
    ensures { IfSome result (λ copy. copy.items ≡ bytes.now) }
{
    let mut source = StdSource::in_memory(bytes);
    let mut sink = StdSink::in_memory(Vec::new(alloc));
    let Whole::All(text) = read_all(alloc, &mut source, bytes.len()) else {
        return None;
    };
    match sink.put(&text) {
        Put::All => Some(sink.into_writer()),
        Put::Failed => None,
    }
}
