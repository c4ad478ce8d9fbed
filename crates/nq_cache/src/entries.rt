//! Clean blocks on an `LruCache`: it has room for one more than there may be, so that a block can be put in before
//! another goes.

ghost use Rattle.std.specs.Prelude.{◌≡◌, ◌≤◌, ◌<◌, ◌+◌, ◌-◌, ◌∷◌, ◌++◌, [], false, true, length, take, drop, filter, option_copied, option_map, IsSome, IsOk};
ghost use Rattle.std.specs.Prelude.{OnOk, OnErr, IfOk, IsTrue, if◌then◌else◌};
ghost use Rattle.nq_model.specs.protocol.Client.{clean_at, drop_clean, purge, put_clean};
ghost use Rattle.nq_model.specs.protocol.Profile.{most_clean, at_most};
ghost use Rattle.nq_model.specs.protocol.Settle.{clean_body, looked_up};
ghost use Rattle.nq_cache.specs.Entries.{clean_blocks, walked, Turns, StaysFirst};
ghost use Rattle.lru.specs.LruCache.{last_entry};

use lru::LruCache;
use nq_base::{Block, BlockNo, FileId, NoMemory};
use std::num::NonZeroUsize;

/// The most clean blocks that a client keeps.
pub(crate) const MOST: usize = 512;

/// What tells blocks apart.
#[derive(Clone, Copy, PartialEq, Eq, Hash)]
pub(crate) struct Key {
    pub(crate) file: FileId,
    pub(crate) block: BlockNo,
}

/// The blocks by their keys.
pub(crate) type Entries = LruCache<Key, Block>;

/// Puts a block in front. There may then be one too many.
pub(crate) fn put_first(entries: &mut Entries, key: &Key, body: Block) -> Result<(), NoMemory>
    requires room { entries.old.cap ≡ 513 }
    requires few { length entries.old.entries ≤ 512 }
    ensures put { OnOk result (clean_blocks entries.new.entries
        ≡ record { file = key.now.file; block = key.now.block; body = body } ∷ drop_clean key.now.file key.now.block (clean_blocks entries.old.entries)) }
    ensures refused { OnErr result (entries.new ≡ entries.old) }
    ensures succeeds { IsSome (clean_at key.now.file key.now.block (clean_blocks entries.old.entries)) → IsOk result }
    ensures room { entries.new.cap ≡ entries.old.cap }
{
    let _distinct = entries.len();
    entries.put(*key, body)?;
    Ok(())
}

/// Brings a block to the front, if it is there.
pub(crate) fn bring_forward(entries: &mut Entries, key: &Key)
    ensures order { clean_blocks entries.new.entries ≡ looked_up key.now.file key.now.block (clean_blocks entries.old.entries) }
    ensures count { length entries.new.entries ≡ length entries.old.entries }
    ensures room { entries.new.cap ≡ entries.old.cap }
{
    let _distinct = entries.len();
    entries.promote(key);
}

/// Takes a block out, if it is there.
pub(crate) fn take_out(entries: &mut Entries, key: &Key)
    ensures taken { clean_blocks entries.new.entries ≡ drop_clean key.now.file key.now.block (clean_blocks entries.old.entries) }
    ensures count { length entries.new.entries ≤ length entries.old.entries }
    ensures room { entries.new.cap ≡ entries.old.cap }
{
    let _distinct = entries.len();
    drop(entries.pop(key));
}

/// The body of a block, if it is there.
pub(crate) fn read<'a>(entries: &'a Entries, key: &Key) -> Option<&'a Block>
    ensures { option_copied result ≡ clean_body (clean_at key.now.file key.now.block (clean_blocks entries.now.entries)) }
{
    entries.peek(key)
}

/// Takes the last block out.
fn evict(entries: &mut Entries)
    ensures evicted { entries.new.entries ≡ take (length entries.old.entries - 1) entries.old.entries }
    ensures room { entries.new.cap ≡ entries.old.cap }
{
    drop(entries.pop_lru());
}

/// Takes the last block out where there is one too many.
pub(crate) fn cut(entries: &mut Entries)
    requires { entries.old.cap ≡ 513 }
    ensures cut { clean_blocks entries.new.entries ≡ at_most most_clean (clean_blocks entries.old.entries) }
    ensures few { length entries.new.entries ≤ 512 }
    ensures room { entries.new.cap ≡ entries.old.cap }
{
    if entries.len() > MOST {
        evict(entries);
    }
}

/// The key of the last entry.
fn last_key(entries: &Entries) -> Option<Key>
    ensures { result ≡ option_map (λ e. e.0) (last_entry entries.now.entries) }
{
    match entries.peek_lru() {
        Some((key, _)) => Some(*key),
        None => None,
    }
}

/// Looks at the last entry: it goes to the front, or goes if it is of the file.
fn turn(entries: &mut Entries, file: FileId)
    ensures turns { Turns file entries.old.entries entries.new.entries }
    ensures room { entries.new.cap ≡ entries.old.cap }
{
    let _distinct = entries.len();
    let Some(key) = last_key(entries) else {
        return;
    };
    if key.file == file {
        evict(entries);
    } else {
        entries.promote(&key);
    }
}

/// Looks at the last entries, so many of them. Those of the file go, and the others stand in front, in their order.
fn walk(entries: &mut Entries, file: FileId, times: usize)
    requires { times ≤ length entries.old.entries }
    ensures walked { entries.new.entries ≡ walked file (length entries.old.entries - times) entries.old.entries }
    ensures room { entries.new.cap ≡ entries.old.cap }
{
    for _ in 0..times {
        turn(entries, file);
    }
}

/// Takes the blocks of a file out.
pub(crate) fn take_file(entries: &mut Entries, file: FileId)
    ensures taken { clean_blocks entries.new.entries ≡ purge file (clean_blocks entries.old.entries) }
    ensures count { length entries.new.entries ≤ length entries.old.entries }
    ensures room { entries.new.cap ≡ entries.old.cap }
{
    let count = entries.len();
    walk(entries, file, count);
}

/// Takes the blocks of a file out, but for the one with this key, which stands first.
pub(crate) fn leave_first(entries: &mut Entries, key: &Key)
    requires { 0 < length entries.old.entries }
    ensures left { StaysFirst key.now.file key.now.block (clean_blocks entries.old.entries) (clean_blocks entries.new.entries) }
    ensures room { entries.new.cap ≡ entries.old.cap }
{
    let others = entries.len() - 1;
    walk(entries, key.file, others);
    bring_forward(entries, key);
}
