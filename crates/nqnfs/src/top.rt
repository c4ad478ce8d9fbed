//! The top call with its four fates, over what the machine has.

ghost use Rattle.std.specs.Prelude.{◌≡◌, ◌+◌, ℕ, List, None, Some, IfOk, true, length};
ghost use Rattle.nq_base.specs.Status.{status_of};
ghost use Rattle.nq_base.specs.declared.ending.ending.Ending.{Ending};
ghost use Rattle.nq_command.specs.Commands.{command_of};
ghost use Rattle.nq_command.specs.declared.commands.Command.{Command};
ghost use Rattle.nq_run.specs.Frames.{makes_a_run};
ghost use Rattle.nq_run.specs.Setting.{place_of};
ghost use Rattle.nq_run.specs.declared.setting.Place.{Place};

use nq_clock::Clock;
use nq_disk::Disk;
use nq_io::{Sink, Source};
use nq_link::Link;
use nq_run::{
    CommandWords, CutFate, Ended, Fate, HostileFate, LossyFate, NoMemory, SteadyFate, run,
};
use std::alloc::Global;

/// Runs what the words say, with the four fates. Where they say no command the status is that of usage. What else `run` promises is said there. The
/// words that want the file get a disk that lasts, which is none that tells its bytes.
pub(crate) fn ran<S: Source, K: Sink, D: Disk + Drop, L: Link, C: Clock>(
    alloc: Global,
    words: &CommandWords,
    input: &mut S,
    out: &mut K,
    disk: D,
    link: &mut L,
    links: &mut [L],
    clock: &mut C,
) -> Result<Ended<u8, D>, NoMemory>
    requires tells { makes_a_run (command_of words.now) ≡ true → (bytes : List ℕ) × (D.told disk ≡ Some bytes) }
    requires lasts { place_of (command_of words.now) ≡ Place.File → D.told disk ≡ None }
    requires links { (hosts turns : ℕ) → command_of words.now ≡ Some (Command.Loop hosts turns) → length links.old ≡ hosts + 1 }
    ensures never { IfOk result (λ ended. command_of words.now ≡ None → ended.end ≡ status_of Ending.Usage) }
{
    let mut fates: Vec<Box<dyn Fate>> = Vec::new(alloc);
    fates.push(Box::new(alloc, SteadyFate::new())?)?;
    fates.push(Box::new(alloc, LossyFate::new())?)?;
    fates.push(Box::new(alloc, CutFate::new())?)?;
    fates.push(Box::new(alloc, HostileFate::new())?)?;
    let ended = run(
        alloc,
        words,
        input,
        out,
        disk,
        link,
        links,
        clock,
        fates.as_mut_slice(),
    );
    Ok(ended)
}
