//! The head of a loop's schedule.

ghost use Rattle.std.specs.Prelude.{◌≡◌, ◌++◌, ◌∷◌, [], codes, IfOk, OnOk};
ghost use Rattle.nq_loop.specs.Whole.{loop_head};

use nq_base::{FileList, Name, NoMemory};
use nq_script::Head;
use std::alloc::Global;

/// The head of the schedule of a loop among so many hosts.
pub(crate) fn loop_head(alloc: Global, hosts: u32) -> Result<Head, NoMemory>
    ensures { IfOk result (λ head. head ≡ loop_head hosts) }
{
    let mut files = FileList::new(alloc)?;
    push_file(&mut files, hosts)?;
    Ok(Head {
        version: 1,
        hosts,
        term: 30,
        longest: 60,
        files,
    })
}

/// Adds the file of a loop, which has so many blocks.
fn push_file(files: &mut FileList, blocks: u32) -> Result<(), NoMemory>
    ensures { OnOk result (files.new ≡ files.old ++ (codes "loop", blocks) ∷ []) }
{
    match Name::new(b"loop") {
        Some(name) => files.push(name, blocks),
        None => Err(NoMemory::Memory),
    }
}
