//! Delayed writes on an `IndexMap`: it keeps the order in which blocks became dirty.

ghost use Rattle.std.specs.Prelude.{◌≡◌, ◌≤◌, ◌<◌, ◌+◌, ◌==◌, ◌++◌, not, false, length, filter, map, is_some, slice_get, option_copied, IsTrue, IsSome, IsNone};
ghost use Rattle.std.specs.Prelude.{IsOk, OnOk, IfSome, IfNone};
ghost use Rattle.std.specs.List.{find};
ghost use Rattle.std.specs.Option.{option_map};
ghost use Rattle.indexmap.specs.IndexMap.{keys, spare};
ghost use Rattle.nq_model.specs.protocol.Client.{is_push_of, dirty_at, first_dirty, drop_dirty, other_dirty};
ghost use Rattle.nq_model.specs.protocol.Hear.{loss_of};
ghost use Rattle.nq_model.specs.protocol.Settle.{write_in};
ghost use Rattle.nq_client_parts.specs.DirtyEntries.{delayed};

use indexmap::IndexMap;
use nq_base::{Block, BlockNo, FileId, Loss, Losses, NoMemory, Number, Push};

/// What tells blocks apart.
#[derive(Clone, Copy, PartialEq, Eq, Hash)]
pub(crate) struct Key {
    pub(crate) file: FileId,
    pub(crate) block: BlockNo,
}

/// The delayed writes of a block, from the first to the last, with the body of the last one.
#[derive(Drop)]
pub(crate) struct Writes {
    pub(crate) first: Number,
    pub(crate) last: Number,
    pub(crate) body: Block,
}

/// The delayed writes by their blocks.
pub(crate) type Entries = IndexMap<Key, Writes>;

/// Makes room for so many more blocks.
pub(crate) fn reserve(entries: &mut Entries, blocks: usize) -> Result<(), NoMemory>
    ensures entries { entries.new.entries ≡ entries.old.entries }
    ensures places { OnOk result (blocks ≤ spare entries.new) }
    ensures succeeds { blocks ≤ spare entries.old → IsOk result }
    ensures more_places { spare entries.old ≤ spare entries.new }
{
    entries.reserve(blocks)?;
    Ok(())
}

/// Gives a block that is there another last write, with its body. Where it is not there the body comes back.
pub(crate) fn overwrite(
    entries: &mut Entries,
    key: &Key,
    number: Number,
    body: Block,
) -> Option<Block>
    ensures found { is_some (dirty_at key.now.file key.now.block (delayed entries.old.entries)) ≡ not (is_some result) }
    ensures written { IsNone result → delayed entries.new.entries ≡ write_in key.now.file key.now.block number body (delayed entries.old.entries) }
    ensures body { IfSome result (λ b. b ≡ body) }
    ensures absent { IsSome result → entries.new ≡ entries.old }
    ensures count { length entries.new.entries ≡ length entries.old.entries }
    ensures room { spare entries.new ≡ spare entries.old }
{
    let _distinct = entries.len();
    match entries.get_mut(key) {
        Some(writes) => {
            writes.last = number;
            writes.body = body;
            None
        }
        None => Some(body),
    }
}

/// Puts a block that is not there at the end.
pub(crate) fn add(entries: &mut Entries, key: Key, number: Number, body: Block)
    requires absent { is_some (dirty_at key.file key.block (delayed entries.old.entries)) ≡ false }
    requires places { 0 < spare entries.old }
    ensures added { delayed entries.new.entries ≡ write_in key.file key.block number body (delayed entries.old.entries) }
    ensures count { length entries.new.entries ≡ length entries.old.entries + 1 }
    ensures places { spare entries.old ≤ spare entries.new + 1 }
{
    let writes = Writes {
        first: number,
        last: number,
        body,
    };
    let _none = entries.insert(key, writes).unwrap();
}

/// Whether a block is there.
pub(crate) fn holds(entries: &Entries, key: &Key) -> bool
    ensures { result ≡ is_some (dirty_at key.now.file key.now.block (delayed entries.now.entries)) }
{
    entries.contains_key(key)
}

/// The body of a block, if it is there.
pub(crate) fn read<'a>(entries: &'a Entries, key: &Key) -> Option<&'a Block>
    ensures { option_copied result ≡ option_map (λ p. p.body) (dirty_at key.now.file key.now.block (delayed entries.now.entries)) }
{
    match entries.get(key) {
        Some(writes) => Some(&writes.body),
        None => None,
    }
}

/// The delayed writes at a place, without their body.
pub(crate) fn nth(entries: &Entries, place: usize) -> Option<Loss>
    ensures { result ≡ option_map loss_of (slice_get (delayed entries.now.entries) place) }
{
    match entries.get_index(place) {
        Some((key, writes)) => Some(Loss {
            file: key.file,
            block: key.block,
            first: writes.first,
            last: writes.last,
        }),
        None => None,
    }
}

/// How many blocks of a file have delayed writes.
pub(crate) fn count(entries: &Entries, file: FileId) -> usize
    ensures { result ≡ length (filter (λ k. k.file == file) (keys entries.now)) }
{
    entries.keys().filter(|key| key.file == file).count()
}

/// The first block of a file that has delayed writes.
fn first_of(entries: &Entries, file: FileId) -> Option<Key>
    ensures { result ≡ find (λ k. k.file == file) (keys entries.now) }
{
    entries.keys().copied().find(|key| key.file == file)
}

/// Whether a file has delayed writes.
pub(crate) fn has_file(entries: &Entries, file: FileId) -> bool
    ensures { result ≡ is_some (find (λ k. k.file == file) (keys entries.now)) }
{
    first_of(entries, file).is_some()
}

/// Takes the first delayed writes of a file out.
pub(crate) fn take_first(entries: &mut Entries, file: FileId) -> Option<Push>
    ensures first { result ≡ first_dirty file (delayed entries.old.entries) }
    ensures others { IfSome result (λ p. delayed entries.new.entries ≡ drop_dirty p.file p.block (delayed entries.old.entries)) }
    ensures count { IfSome result (λ _. length entries.new.entries + 1 ≡ length entries.old.entries) }
    ensures unchanged { IfNone result (entries.new ≡ entries.old) }
    ensures room { spare entries.old ≤ spare entries.new }
{
    let _distinct = entries.len();
    let key = first_of(entries, file)?;
    let Writes { first, last, body } = entries.shift_remove(&key).unwrap();
    Some(Push {
        file: key.file,
        block: key.block,
        first,
        last,
        body,
    })
}

/// Takes all delayed writes of a file out.
pub(crate) fn take_file(entries: &mut Entries, file: FileId)
    ensures others { delayed entries.new.entries ≡ other_dirty file (delayed entries.old.entries) }
    ensures count { length entries.new.entries ≤ length entries.old.entries }
    ensures room { spare entries.old ≤ spare entries.new }
{
    entries.retain(
        |key: &Key, writes: &mut Writes| -> bool
            ensures { (result ≡ not (key.now.file == file)) × (writes.new ≡ writes.old) }
        { key.file != file },
    );
}

/// Adds the delayed writes of a file, in their order, to losses that have room for them.
pub(crate) fn add_losses(entries: &Entries, file: FileId, into: &mut Losses)
    requires { length (filter (is_push_of file) (delayed entries.now.entries)) ≤ into.old.spare }
    ensures { into.new.items ≡ into.old.items ++ map loss_of (filter (is_push_of file) (delayed entries.now.entries)) }
{
    for (key, writes) in entries {
        if key.file == file {
            let loss = Loss {
                file: key.file,
                block: key.block,
                first: writes.first,
                last: writes.last,
            };
            into.push(loss).unwrap();
        }
    }
}
