//! Bodies on an `LruCache` of as many places as there may be bodies. They are looked at without a change of their order, so
//! the one that goes from a full cache is the one that was staged first.

ghost use Rattle.std.specs.Prelude.{◌≡◌, [], option_copied, OnOk, OnErr};
ghost use Rattle.nq_stage.specs.Bodies.{body_of, most_bodies, with_body};

use crate::Written;
use lru::LruCache;
use nq_base::{Block, NoMemory};

/// The most bodies that are kept.
pub(crate) const MOST: usize = 1024;

/// The bodies by the writes that they are of.
pub(crate) type Entries = LruCache<Written, Block>;

/// Puts a body in front. An older one of its write goes, and the oldest where there would be too many.
pub(crate) fn put_body(entries: &mut Entries, written: Written, body: Block) -> Result<(), NoMemory>
    requires { entries.old.cap ≡ most_bodies }
    ensures put { OnOk result (entries.new.entries ≡ with_body written body entries.old.entries) }
    ensures refused { OnErr result (entries.new ≡ entries.old) }
    ensures places { entries.new.cap ≡ entries.old.cap }
{
    let _distinct = entries.len();
    entries.put(written, body)?;
    Ok(())
}

/// Takes all bodies away. It takes no memory.
pub(crate) fn clear(entries: &mut Entries)
    ensures gone { entries.new.entries ≡ [] }
    ensures places { entries.new.cap ≡ entries.old.cap }
{
    entries.clear();
}

/// The body of a write, if it is there.
pub(crate) fn read<'a>(entries: &'a Entries, written: &Written) -> Option<&'a Block>
    ensures { option_copied result ≡ body_of written.now entries.now.entries }
{
    entries.peek(written)
}
