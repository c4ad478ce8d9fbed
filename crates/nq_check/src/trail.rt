//! What a look over a journal keeps of the entries before a place.

ghost use Rattle.std.specs.Prelude.{◌≡◌, ◌<◌, [], OnOk, length};
ghost use Rattle.nq_check.specs.Links.{IsLinkedNext};
ghost use Rattle.nq_check.specs.Tables.{AreTables};
ghost use Rattle.nq_rules.specs.declared.keys.KeyKind.TheVariants.{Delays};

use crate::along::call_near;
use crate::links::{Heads, Links, link_entry, no_links, set_head};
use crate::tables::LinkTables;
use nq_base::{Entry, NoMemory, Said, Told};
use nq_rules::keys::{KeyKind, call_key, file_key};
use std::alloc::Global;
use std::collections::HashMap;

/// The delayed writes before a place, and hints where to look first for other entries.
#[derive(Drop)]
pub(crate) struct Trail {
    pub(crate) delays: Links,
    pub(crate) hints: Hints,
}

/// The places of the last entries of some kinds: whoever takes one looks at the entry.
#[derive(Drop)]
pub(crate) struct Hints {
    /// The last W of each incarnation.
    pub(crate) written: Heads,
    /// The last ok to a `sync` of each incarnation on a file.
    pub(crate) synced: Heads,
    /// The last ok to a `resize` or `remove` of it.
    pub(crate) resized: Heads,
}

/// Keeps the place of a W, or of an ok.
fn keep(
    hints: &mut Hints,
    tables: &LinkTables,
    whole: &[Entry],
    place: usize,
    entry: &Entry,
) -> Result<(), NoMemory>
    requires tables { AreTables whole.now tables.now }
    requires within { place < length whole.now }
{
    match entry {
        Entry::W { who, .. } => set_head(&mut hints.written, call_key(who, 0), place),
        Entry::A {
            who,
            q,
            said: Said::Ok,
        } => {
            let Some(told) = call_near(&tables.calls, whole, place, who, *q) else {
                return Ok(());
            };
            match told {
                Told::Sync { file } => set_head(&mut hints.synced, file_key(who, file), place),
                Told::Resize { file, .. } | Told::Remove { file } => {
                    set_head(&mut hints.resized, file_key(who, file), place)
                }
                _ => Ok(()),
            }
        }
        _ => Ok(()),
    }
}

/// Takes in the entry at a place.
pub(crate) fn take_in(
    trail: &mut Trail,
    tables: &LinkTables,
    whole: &[Entry],
    place: usize,
    entry: &Entry,
) -> Result<(), NoMemory>
    requires tables { AreTables whole.now tables.now }
    requires within { place < length whole.now }
    ensures { OnOk result (IsLinkedNext Delays place entry.now trail.old.delays.heads.entries trail.new.delays.heads.entries
        trail.old.delays.earlier.items trail.new.delays.earlier.items) }
{
    link_entry(&mut trail.delays, KeyKind::Delays, place, entry)?;
    keep(&mut trail.hints, tables, whole, place, entry)
}

/// What is kept before the first entry.
pub(crate) fn no_trail(alloc: Global) -> Trail
    ensures { (result.delays.heads.entries ≡ []) × (result.delays.earlier.items ≡ []) }
{
    Trail {
        delays: no_links(alloc),
        hints: Hints {
            written: HashMap::new(alloc),
            synced: HashMap::new(alloc),
            resized: HashMap::new(alloc),
        },
    }
}
