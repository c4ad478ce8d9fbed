//! The head of the schedule of a storm.

ghost use Rattle.std.specs.Prelude.{◌≡◌, ◌++◌, ◌∷◌, [], IfOk, OnOk};
ghost use Rattle.nq_storm.specs.Heads.{storm_head};

use nq_base::{FileList, Name, NoMemory};
use nq_script::Head;
use std::alloc::Global;

/// The head of the schedule of a storm.
pub(crate) fn storm_head(alloc: Global) -> Result<Head, NoMemory>
    ensures { IfOk result (λ head. head ≡ storm_head) }
{
    let mut files = FileList::new(alloc)?;
    push_file(&mut files, b"a")?;
    push_file(&mut files, b"b")?;
    Ok(Head {
        version: 1,
        hosts: 4,
        term: 30,
        longest: 60,
        files,
    })
}

/// Adds a file of four blocks.
fn push_file(files: &mut FileList, name: &[u8]) -> Result<(), NoMemory>
    ensures { OnOk result (files.new ≡ files.old ++ (name.now, 4) ∷ []) }
{
    match Name::new(name) {
        Some(name) => files.push(name, 4),
        None => Err(NoMemory::Memory),
    }
}
