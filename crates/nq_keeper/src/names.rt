//! The names of the files of a keeper in memory.

ghost use Rattle.std.specs.Prelude.{◌≡◌, Some, None, OnOk, OnErr};
ghost use Rattle.nq_keeper.specs.Named.{StandsAt, id_of as id_at};

use nq_base::{FileId, Name, NoMemory};
use std::alloc::Global;
use std::collections::HashMap;

/// The names, each with the id of its file.
pub(crate) type Names = HashMap<Vec<u8>, FileId>;

/// The id that stands at a name.
pub(crate) fn id_of(names: &Names, name: &Name) -> Option<FileId>
    ensures { result ≡ id_at name.now names.now.entries }
{
    names.get(name.as_bytes()).copied()
}

/// Puts an id at a name.
pub(crate) fn put_name(
    names: &mut Names,
    alloc: Global,
    name: &Name,
    id: FileId,
) -> Result<(), NoMemory>
    ensures ok { OnOk result (StandsAt name.now (Some id) names.old.entries names.new.entries) }
    ensures err { OnErr result (names.new.entries ≡ names.old.entries) }
{
    let key = Vec::from_slice(alloc, name.as_bytes())?;
    names.insert(key, id)?;
    Ok(())
}

/// Takes a name out.
pub(crate) fn take_name(names: &mut Names, name: &Name)
    ensures { StandsAt name.now None names.old.entries names.new.entries }
{
    names.remove(name.as_bytes());
}
