//! What words say.

ghost use Rattle.std.specs.Prelude.{◌≡◌};
ghost use Rattle.nq_command.specs.Commands.{alone_of, client_of, counted_of, kind_of, loop_of, numbered_of, paired_of, ranged_of, serve_of, storm_of};

use nq_script::words::number;

/// What to run.
#[derive(Clone, Copy)]
pub enum Command {
    /// Reads a schedule and prints the journal of its run.
    Replay,
    /// Judges a journal.
    Check,
    /// Reads a staged schedule, and prints the inner schedule that was run, its journal and counts.
    Staged,
    /// Reads a schedule with lists and finds, and prints the inner schedule that was run, its journal and what was found.
    Names,
    /// Makes the image of a server that keeps nothing.
    Format,
    /// Runs events that a fate chooses.
    Storm {
        /// The kind of the fate: 0 steady, 1 lossy, 2 cut, 3 hostile.
        kind: u8,
        /// What the random words follow from.
        start: u64,
        /// How many events, 1 to 100,000.
        events: u32,
    },
    /// Serves real hosts.
    Serve {
        /// For how many turns, 1 to 1,000,000.
        turns: u32,
        /// The longest term of the server, in ticks, 5 to 600.
        longest: u32,
    },
    /// Runs the calls of a real host.
    Client {
        /// The number of the host, below 64.
        host: u32,
        /// The number of its incarnation, at least 1.
        inc: u32,
        /// After how many turns of one call it gives up, 1 to 1,000,000.
        turns: u32,
    },
    /// Runs a server and hosts over their links.
    Loop {
        /// How many hosts, 1 to 64.
        hosts: u32,
        /// For how many turns at most, 1 to 1,000,000.
        turns: u32,
    },
}

// The longest term of a server whose words tell none.
const LONGEST: u32 = 60;

// The most turns.
const MOST_TURNS: u32 = 1_000_000;

/// What a word alone says.
#[tactic(auto, unfolding(crate::specs::Commands::alone_of))]
pub(crate) fn alone(name: &[u8]) -> Option<Command>
    ensures { result ≡ alone_of name.now }
{
    if name == b"replay".as_slice() {
        Some(Command::Replay)
    } else if name == b"check".as_slice() {
        Some(Command::Check)
    } else if name == b"staged".as_slice() {
        Some(Command::Staged)
    } else if name == b"names".as_slice() {
        Some(Command::Names)
    } else if name == b"format".as_slice() {
        Some(Command::Format)
    } else {
        None
    }
}

/// What a name and a number say.
#[tactic(auto, unfolding(crate::specs::Commands::counted_of))]
pub(crate) fn counted(name: &[u8], turns: &[u8]) -> Option<Command>
    ensures { result ≡ counted_of name.now turns.now }
{
    if name == b"serve".as_slice() {
        serve(turns, Some(LONGEST))
    } else {
        None
    }
}

/// What a name and two numbers say.
#[tactic(auto, unfolding(crate::specs::Commands::paired_of))]
pub(crate) fn paired(name: &[u8], first: &[u8], second: &[u8]) -> Option<Command>
    ensures { result ≡ paired_of name.now first.now second.now }
{
    if name == b"serve".as_slice() {
        serve(first, ranged(second, 5, 600))
    } else if name == b"loop".as_slice() {
        repeated(first, second)
    } else {
        None
    }
}

/// What the turns behind `serve` say, with a longest term.
#[tactic(auto, unfolding(crate::specs::Commands::serve_of))]
fn serve(turns: &[u8], longest: Option<u32>) -> Option<Command>
    ensures { result ≡ serve_of turns.now longest }
{
    let turns = ranged(turns, 1, MOST_TURNS)?;
    let longest = longest?;
    Some(Command::Serve { turns, longest })
}

/// What the words behind `loop` say.
#[tactic(auto, unfolding(crate::specs::Commands::loop_of))]
fn repeated(hosts: &[u8], turns: &[u8]) -> Option<Command>
    ensures { result ≡ loop_of hosts.now turns.now }
{
    let hosts = ranged(hosts, 1, 64)?;
    let turns = ranged(turns, 1, MOST_TURNS)?;
    Some(Command::Loop { hosts, turns })
}

/// What a name and three words say.
#[tactic(auto, unfolding(crate::specs::Commands::numbered_of))]
pub(crate) fn numbered(name: &[u8], first: &[u8], second: &[u8], third: &[u8]) -> Option<Command>
    ensures { result ≡ numbered_of name.now first.now second.now third.now }
{
    if name == b"storm".as_slice() {
        storm(first, second, third)
    } else if name == b"client".as_slice() {
        client(first, second, third)
    } else {
        None
    }
}

/// What the words behind `storm` say.
#[tactic(auto, unfolding(crate::specs::Commands::storm_of))]
fn storm(kind: &[u8], start: &[u8], events: &[u8]) -> Option<Command>
    ensures { result ≡ storm_of kind.now start.now events.now }
{
    let kind = kind_of(kind)?;
    let start = number(start, u64::MAX)?;
    let events = ranged(events, 1, 100_000)?;
    Some(Command::Storm {
        kind,
        start,
        events,
    })
}

/// What the words behind `client` say.
#[tactic(auto, unfolding(crate::specs::Commands::client_of))]
fn client(host: &[u8], inc: &[u8], turns: &[u8]) -> Option<Command>
    ensures { result ≡ client_of host.now inc.now turns.now }
{
    let host = ranged(host, 0, 63)?;
    let inc = ranged(inc, 1, u32::MAX)?;
    let turns = ranged(turns, 1, MOST_TURNS)?;
    Some(Command::Client { host, inc, turns })
}

/// The kind of fate that a word names.
#[tactic(auto, unfolding(crate::specs::Commands::kind_of))]
fn kind_of(word: &[u8]) -> Option<u8>
    ensures { result ≡ kind_of word.now }
{
    if word == b"steady".as_slice() {
        Some(0)
    } else if word == b"lossy".as_slice() {
        Some(1)
    } else if word == b"cut".as_slice() {
        Some(2)
    } else if word == b"hostile".as_slice() {
        Some(3)
    } else {
        None
    }
}

/// The number from `least` to `most` that a word writes.
#[tactic(auto, unfolding(crate::specs::Commands::ranged_of))]
fn ranged(word: &[u8], least: u32, most: u32) -> Option<u32>
    ensures { result ≡ ranged_of least most word.now }
{
    let value = number(word, u64::from(most))? as u32;
    if value < least { None } else { Some(value) }
}
