//! Looking at the run of a schedule.

ghost use Rattle.std.specs.Prelude.{◌≡◌, ◌<◌, ◌^◌, List, Some, length};
ghost use Rattle.nq_record.specs.Page.{Extends};
ghost use Rattle.nq_keeper.specs.StoredKeeper.{empty_kept};
ghost use Rattle.nq_observe.specs.Looking.{ShowsRun};
ghost use Rattle.nq_observe.specs.declared.looking.View.{View};
ghost use Rattle.nq_replay.specs.Schedules.{IsReady};
ghost use Rattle.nq_script.specs.Schedule.{SpellsSchedule};
ghost use Rattle.nq_script.specs.declared.heads.Head.{Head};
ghost use Rattle.nq_script.specs.declared.lines.Line.{Line};

use crate::patience::{Patience, Unseen};
use crate::playing::play;
use nq_base::{Entry, NoMemory};
use nq_keeper::{Keeper, ListKeeper};
use nq_record::chart::draw;
use nq_record::{Record, picture, tell, why};
use nq_script::{Script, ScriptFault, parse};
use nq_world::{NewFault, begin};
use std::alloc::Global;

/// How a run is shown.
#[derive(Clone, Copy)]
pub enum View {
    /// As a message sequence chart, in SVG, of the events from `from` to `to`, counted from 0.
    Picture { from: usize, to: usize },
    /// Told, a line for each event.
    Tell,
    /// The events that led to the entry in this line of the journal, newest first; lines are counted from 1, and the entries begin in
    /// line 2.
    Why { line: usize },
}

/// Whether there was something to show.
#[derive(Clone, Copy)]
pub enum Shown {
    /// What was asked for.
    All,
    /// Nothing: the text is no schedule, or the journal has no entry in the line that was asked for.
    Nothing,
}

/// Shows the run of a schedule, behind what stands in the page before. Where a schedule has a fault, the run ends before it.
///
/// # Errors
///
/// - `Memory`: memory was wanting; a front of what is to be shown was appended.
/// - `Time`: no time was left; nothing was appended.
pub fn look<P: Patience>(
    alloc: Global,
    text: &[u8],
    view: View,
    patience: &mut P,
    page: &mut Vec<u8>,
) -> Result<Shown, Unseen>
    requires { length text.now < 2 ^ 31 }
    ensures extends { Extends page.old.items page.new.items }
    ensures shows { (head : Head) (lines : List Line) → SpellsSchedule head lines text.now → ShowsRun result view }
{
    match parse(alloc, text) {
        Ok(script) => {
            let keeper = ListKeeper::new(alloc, Vec::new(alloc))?;
            look_over(alloc, &script, keeper, view, patience, page)
        }
        Err(ScriptFault::Bad(_number)) => Ok(Shown::Nothing),
        Err(ScriptFault::Memory) => Err(Unseen::Memory),
    }
}

/// Shows the run of a schedule over a keeper that keeps nothing yet.
fn look_over<L: Keeper + Drop, P: Patience>(
    alloc: Global,
    script: &Script,
    keeper: L,
    view: View,
    patience: &mut P,
    page: &mut Vec<u8>,
) -> Result<Shown, Unseen>
    requires ready { IsReady script.now }
    requires empty { L.content keeper ≡ Some empty_kept }
    ensures extends { Extends page.old.items page.new.items }
    ensures shows { ShowsRun result view }
{
    let mut world = match begin(alloc, &script.head, keeper) {
        Ok(world) => world,
        Err(NewFault::Memory(_keeper)) => return Err(Unseen::Memory),
        Err(NewFault::Failed(_keeper)) => return Err(Unseen::Memory),
    };
    let seen = play(alloc, &mut world, script, patience);
    let shown = show(alloc, seen, world.journal().entries(), view, page);
    let _keeper = world.into_keeper();
    shown
}

/// Shows what was seen, where the journal has these entries.
fn show(
    alloc: Global,
    seen: Result<Record, Unseen>,
    entries: &[Entry],
    view: View,
    page: &mut Vec<u8>,
) -> Result<Shown, Unseen>
    ensures extends { Extends page.old.items page.new.items }
    ensures shows { ShowsRun result view }
{
    let record = seen?;
    Ok(show_record(alloc, &record, entries, view, page)?)
}

/// Shows a run, where the journal has these entries.
fn show_record(
    alloc: Global,
    record: &Record,
    entries: &[Entry],
    view: View,
    page: &mut Vec<u8>,
) -> Result<Shown, NoMemory>
    ensures extends { Extends page.old.items page.new.items }
    ensures shows { ShowsRun result view }
{
    match view {
        View::Tell => {
            tell(alloc, record, page)?;
            Ok(Shown::All)
        }
        View::Why { line } => show_why(alloc, record, entries, line, page),
        View::Picture { from, to } => {
            let title = String::from_str(alloc, "nqnfs: a run")?;
            let chart = picture(alloc, record, title, from, to)?;
            draw(alloc, &chart, page)?;
            Ok(Shown::All)
        }
    }
}

/// Shows the events that led to the entry in a line.
fn show_why(
    alloc: Global,
    record: &Record,
    entries: &[Entry],
    line: usize,
    page: &mut Vec<u8>,
) -> Result<Shown, NoMemory>
    ensures extends { Extends page.old.items page.new.items }
    ensures shows { ShowsRun result (View.Why line) }
{
    match line.checked_sub(2) {
        Some(place) if place < entries.len() => {
            why(alloc, record, entries, place, page)?;
            Ok(Shown::All)
        }
        _ => Ok(Shown::Nothing),
    }
}
