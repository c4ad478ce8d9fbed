//! What is told of the runs of schedules.

ghost use Rattle.std.specs.Prelude.{◌<◌, ◌^◌, length};

use crate::watch::Watch;
use nq_base::NoMemory;
use nq_base::ending::Ending;
use nq_bend::{Bend, BendFault, Bent, Then, bend};
use nq_io::{MemSink, MemSource};
use nq_judge::judge;
use nq_keeper::ListKeeper;
use nq_observe::{Shown, Unseen, View, look};
use nq_replay::{read_script, replay};
use nq_script::parse;
use std::alloc::Global;

/// The most bytes of a schedule or a journal.
const MOST_BYTES: usize = 16_777_216;

/// What is told of the run of a schedule.
#[derive(Drop)]
pub(crate) struct ToldRun {
    /// The status with which `nqnfs replay` ends.
    pub(crate) status: u8,
    /// What it prints: the journal, or the line that names the fault.
    pub(crate) printed: Vec<u8>,
    /// What `nqnfs check` prints for that journal.
    pub(crate) verdict: Vec<u8>,
    /// What `nqnfs_look tell` prints.
    pub(crate) told: Vec<u8>,
}

/// Why nothing is told.
#[derive(Clone, Copy)]
pub(crate) enum Untold {
    /// Memory was wanting.
    Memory,
    /// It takes too long.
    Time,
    /// The change at this place says nothing that can be done.
    Bend(usize),
}

impl From<NoMemory> for Untold {
    fn from(_: NoMemory) -> Untold {
        Untold::Memory
    }
}

impl From<Unseen> for Untold {
    fn from(unseen: Unseen) -> Untold {
        match unseen {
            Unseen::Memory => Untold::Memory,
            Unseen::Time => Untold::Time,
        }
    }
}

impl From<BendFault> for Untold {
    fn from(fault: BendFault) -> Untold {
        match fault {
            BendFault::Bad(place) => Untold::Bend(place),
            BendFault::Memory => Untold::Memory,
            BendFault::Time => Untold::Time,
        }
    }
}

impl ToldRun {
    /// What is told of a run of which no journal is shown.
    fn without_journal(alloc: Global, end: Ending, printed: Vec<u8>) -> ToldRun {
        ToldRun {
            status: end.status(),
            printed,
            verdict: Vec::new(alloc),
            told: Vec::new(alloc),
        }
    }
}

/// Runs a schedule, and tells what came of it.
pub(crate) fn tell_run(watch: &mut Watch<'_>, text: &[u8]) -> Result<ToldRun, Untold>
    requires { length text.now < 2 ^ 31 }
{
    let alloc = watch.alloc();
    let (end, printed) = replayed(alloc, text)?;
    let mut told = ToldRun::without_journal(alloc, end, printed);
    if let Ending::Done = end {
        watch.check()?;
        told.verdict = judged(alloc, &told.printed)?;
        told.told = looked(watch, text, View::Tell)?;
    }
    Ok(told)
}

/// The status of a replay, and the events that led to the entry in a line of its journal.
pub(crate) fn tell_why(
    watch: &mut Watch<'_>,
    text: &[u8],
    line: u64,
) -> Result<(u8, Vec<u8>), Untold>
    requires { length text.now < 2 ^ 31 }
{
    let (end, printed) = replayed(watch.alloc(), text)?;
    match end {
        Ending::Done => {
            let line = line as usize;
            let why = looked(watch, text, View::Why { line })?;
            Ok((end.status(), why))
        }
        _ => Ok((end.status(), printed)),
    }
}

/// What comes of a schedule that is to be bent.
#[derive(Drop)]
pub(crate) enum Bending {
    /// It was bent, and this is told of its run.
    Bent { bent: Bent, told: ToldRun },
    /// It has a fault, which is told.
    Faulty(ToldRun),
}

/// Bends a schedule, and tells what came of it.
pub(crate) fn bend_text(
    watch: &mut Watch<'_>,
    text: &[u8],
    bends: &[Bend],
    then: Then,
) -> Result<Bending, Untold>
    requires { length text.now < 2 ^ 31 }
{
    let alloc = watch.alloc();
    let (end, printed) = replayed(alloc, text)?;
    let Ending::Done = end else {
        return Ok(Bending::Faulty(ToldRun::without_journal(alloc, end, printed)));
    };
    watch.check()?;
    let bent = bent_of(watch, text, bends, then)?;
    if bent.text.len() > MOST_BYTES {
        return Err(Untold::Time);
    }
    watch.check()?;
    let told = tell_run(watch, &bent.text)?;
    Ok(Bending::Bent { bent, told })
}

/// A schedule as it bends.
fn bent_of(watch: &mut Watch<'_>, text: &[u8], bends: &[Bend], then: Then) -> Result<Bent, Untold>
    requires { length text.now < 2 ^ 31 }
{
    let alloc = watch.alloc();
    match parse(alloc, text) {
        Ok(script) => Ok(bend(alloc, &script, bends, then, watch)?),
        Err(_) => Err(Untold::Memory),
    }
}

/// How the replay of a schedule ends, and what it prints.
fn replayed(alloc: Global, text: &[u8]) -> Result<(Ending, Vec<u8>), NoMemory> {
    let mut sink = MemSink::new(alloc, MOST_BYTES, Vec::new(alloc))?;
    let end = replay_into(alloc, text, &mut sink)?;
    Ok((end, sink.bytes().to_vec(alloc)?))
}

/// Replays a schedule; how that ends.
fn replay_into(alloc: Global, text: &[u8], sink: &mut MemSink) -> Result<Ending, NoMemory> {
    let mut source = MemSource::new(text.to_vec(alloc)?, Vec::new(alloc));
    match read_script(alloc, &mut source, sink, MOST_BYTES) {
        Ok(script) => {
            let keeper = ListKeeper::new(alloc, Vec::new(alloc))?;
            Ok(replay(alloc, keeper, &script, sink).end)
        }
        Err(end) => Ok(end),
    }
}

/// What is said of a journal.
fn judged(alloc: Global, journal: &[u8]) -> Result<Vec<u8>, NoMemory> {
    let mut source = MemSource::new(journal.to_vec(alloc)?, Vec::new(alloc));
    let mut sink = MemSink::new(alloc, MOST_BYTES, Vec::new(alloc))?;
    let _end = judge(alloc, &mut source, &mut sink, MOST_BYTES);
    Ok(sink.bytes().to_vec(alloc)?)
}

/// A view of the run of a schedule; `no entry` where there is nothing to show.
fn looked(watch: &mut Watch<'_>, text: &[u8], view: View) -> Result<Vec<u8>, Untold>
    requires { length text.now < 2 ^ 31 }
{
    let alloc = watch.alloc();
    let mut page = Vec::new(alloc);
    match look(alloc, text, view, watch, &mut page)? {
        Shown::All => Ok(page),
        Shown::Nothing => {
            page.clear();
            extend(&mut page, b"no entry\n")?;
            Ok(page)
        }
    }
}

/// Appends bytes.
fn extend(page: &mut Vec<u8>, bytes: &[u8]) -> Result<(), NoMemory> {
    match page.extend_from_slice(bytes) {
        Ok(()) => Ok(()),
        Err(_) => Err(NoMemory::Memory),
    }
}
