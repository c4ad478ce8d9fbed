//! Running the calls of a text, line by line.

ghost use Rattle.std.specs.Prelude.{◌≡◌, ◌<◌, ◌^◌, [], length, List, ℕ};
ghost use Rattle.nq_base.specs.Entries.{EntryList};
ghost use Rattle.nq_hosts.specs.Lines.{AreCalls, IsCall};
ghost use Rattle.nq_clock.specs.Clocks.{clock_told};
ghost use Rattle.nq_link.specs.Links.{link_told};
ghost use Rattle.nq_hosts.specs.Running.{Attends, Begins, Runs, RunsLine, RunsText};
ghost use Rattle.nq_hosts.specs.UserTurning.{between};

use crate::answers::Stop;
use crate::calls::cut_line;
use crate::user::aims::Aim;
use crate::user::calling::{run_call, send_out};
use crate::user::plan::UsePlan;
use crate::user::session::Session;
use crate::user::turning::take_turns;
use nq_base::ending::Fault;
use nq_base::{Journal, Ticks, Who};
use nq_client::Client;
use nq_clock::Clock;
use nq_link::Link;
use nq_script::parse_call;
use nq_wire::Outbox;
use std::alloc::Global;

/// The term that a client wants, in ticks.
const TERM: u32 = 30;

/// What came of a run of calls.
pub(crate) struct Ran {
    /// Where the calls stopped, if they did.
    pub(crate) ended: Result<(), Stop>,
    /// The journal.
    pub(crate) log: Journal,
}

/// Starts a client at the time of one reading of the clock, attaches it, and runs the calls of a text, each in at most so many
/// turns. The client is stopped in the end.
pub(crate) fn run<L: Link, C: Clock>(
    alloc: Global,
    plan: UsePlan,
    text: &[u8],
    link: &mut L,
    clock: &mut C,
) -> Ran
    requires short { length text.now < 2 ^ 31 }
    requires calls { (lines : List (List ℕ)) × AreCalls lines text.now }
    ensures { (log : EntryList) × (log.entries ≡ [])
        × Runs plan.turns plan.who text.now result.ended log result.log
        (clock_told C.floor C.readings C.reads clock.old) (clock_told C.floor C.readings C.reads clock.new)
        (link_told L.sent L.waiting L.faults L.receives link.old)
        (link_told L.sent L.waiting L.faults L.receives link.new) }
{
    let log = Journal::new(alloc).unwrap();
    let now = clock.now();
    match begin(alloc, plan.who, now, link) {
        Err(why) => Ran {
            ended: Err(Stop { why, line: 0 }),
            log,
        },
        Ok(client) => {
            let mut session = Session {
                client,
                log,
                next: 0,
            };
            let ended = attend(alloc, &mut session, link, clock, text, plan.turns);
            let Session {
                client,
                log,
                next: _,
            } = session;
            client.stop();
            Ran { ended, log }
        }
    }
}

/// A client that begins an incarnation. It asks the server to attach it.
fn begin<L: Link>(alloc: Global, who: Who, now: Ticks, link: &mut L) -> Result<Client, Fault>
    requires { now < 2 ^ 62 }
    ensures { Begins who now result
        (link_told L.sent L.waiting L.faults L.receives link.old)
        (link_told L.sent L.waiting L.faults L.receives link.new) }
{
    let mut out = Outbox::new(alloc, 0).unwrap();
    match Client::start(alloc, who.host, who.inc, TERM, now, &mut out) {
        Err(_) => Err(Fault::Memory),
        Ok(client) => match send_out(link, &out) {
            Ok(()) => Ok(client),
            Err(why) => {
                client.stop();
                Err(why)
            }
        },
    }
}

/// Attaches a client that has asked for it, and runs the calls of a text.
fn attend<L: Link, C: Clock>(
    alloc: Global,
    session: &mut Session,
    link: &mut L,
    clock: &mut C,
    text: &[u8],
    turns: u32,
) -> Result<(), Stop>
    requires short { length text.now < 2 ^ 31 }
    requires calls { (lines : List (List ℕ)) × AreCalls lines text.now }
    ensures { Attends turns text.now result
        (between session.old (clock_told C.floor C.readings C.reads clock.old) (link_told L.sent L.waiting L.faults L.receives link.old))
        (between session.new (clock_told C.floor C.readings C.reads clock.new) (link_told L.sent L.waiting L.faults L.receives link.new)) }
{
    match take_turns(alloc, session, link, clock, Aim::Attached, turns) {
        Err(why) => Err(Stop { why, line: 0 }),
        Ok(()) => run_lines(alloc, session, link, clock, text, turns),
    }
}

/// Runs the calls of a text, up to the first that has no answer.
fn run_lines<L: Link, C: Clock>(
    alloc: Global,
    session: &mut Session,
    link: &mut L,
    clock: &mut C,
    text: &[u8],
    turns: u32,
) -> Result<(), Stop>
    requires short { length text.now < 2 ^ 31 }
    requires calls { (lines : List (List ℕ)) × AreCalls lines text.now }
    ensures { RunsText turns text.now result
        (between session.old (clock_told C.floor C.readings C.reads clock.old) (link_told L.sent L.waiting L.faults L.receives link.old))
        (between session.new (clock_told C.floor C.readings C.reads clock.new) (link_told L.sent L.waiting L.faults L.receives link.new)) }
{
    let mut rest = text;
    let mut number = 1;
    while let Some((line, after)) = cut_line(rest) {
        match run_line(alloc, session, link, clock, line, turns) {
            Ok(()) => {}
            Err(why) => return Err(Stop { why, line: number }),
        }
        rest = after;
        number += 1;
    }
    Ok(())
}

/// Runs the call of a line.
fn run_line<L: Link, C: Clock>(
    alloc: Global,
    session: &mut Session,
    link: &mut L,
    clock: &mut C,
    line: &[u8],
    turns: u32,
) -> Result<(), Fault>
    requires { IsCall line.now }
    ensures { RunsLine turns line.now result
        (between session.old (clock_told C.floor C.readings C.reads clock.old) (link_told L.sent L.waiting L.faults L.receives link.old))
        (between session.new (clock_told C.floor C.readings C.reads clock.new) (link_told L.sent L.waiting L.faults L.receives link.new)) }
{
    match parse_call(alloc, line, 1) {
        Ok(call) => run_call(alloc, session, link, clock, &call, turns),
        Err(_) => unreachable!(),
    }
}
