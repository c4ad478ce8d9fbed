//! What the program hands to a run for its words, and the exit status that it makes of a run.

ghost use Rattle.std.specs.Prelude.{◌≡◌, ◌+◌, ◌^◌, ◌-◌, ℕ, [], ◌∷◌, Some, None, IfOk, drop, false, map, string_bytes, vec_len};
ghost use Rattle.nq_command.specs.Commands.{command_of};
ghost use Rattle.nq_command.specs.declared.commands.Command.{Command};
ghost use Rattle.nq_run.specs.Frames.{makes_a_run};
ghost use Rattle.nq_run.specs.Setting.{clients_below, exit_status_of, parties_of, party_of, place_of};

use nq_base::ending::Ending;
use nq_base::{Host, Party};
use nq_command::{Command, CommandWords, NoMemory};
use nq_disk::{MemDisk, Room};
use std::alloc::Global;

/// Which disk a command has.
#[derive(Clone, Copy)]
pub enum Place {
    /// The file in which a server keeps its files.
    File,
    /// A blank disk in memory.
    Memory,
}

/// The room of a disk in memory: the bytes of the largest image, and as many calls and written bytes as can be counted.
pub const ROOM: Room = Room {
    size: 68_202_496,
    calls: u32::MAX,
    written: u64::MAX,
};

/// The words behind the program's name, of all those that it was started with.
///
/// # Errors
///
/// Only want of memory.
pub fn words_of(alloc: Global, args: &[String]) -> Result<CommandWords, NoMemory>
    ensures { IfOk result (λ words. words ≡ map (λ word. string_bytes word) (drop 1 args.now)) }
{
    match args.split_first() {
        Some((_name, said)) => words_among(alloc, said),
        None => CommandWords::new(alloc),
    }
}

/// These words.
fn words_among(alloc: Global, said: &[String]) -> Result<CommandWords, NoMemory>
    ensures { IfOk result (λ words. words ≡ map (λ word. string_bytes word) said.now) }
{
    let mut words = CommandWords::new(alloc)?;
    for word in said {
        words.push(word.as_str())?;
    }
    Ok(words)
}

/// The disk of what words say: `format` and `serve` have the file, and all else has one in memory.
pub fn place_of(words: &CommandWords) -> Place
    ensures place { result ≡ place_of (command_of words.now) }
    ensures empties { result ≡ Place.File → makes_a_run (command_of words.now) ≡ false }
{
    match words.command() {
        Some(Command::Format | Command::Serve { .. }) => Place::File,
        _ => Place::Memory,
    }
}

/// Whose link is used: a client's where the words name its host, else the server's.
pub fn party_of(words: &CommandWords) -> Party
    ensures { result ≡ party_of (command_of words.now) }
{
    match words.command() {
        Some(Command::Client { host, .. }) => Party::Client(Host(host)),
        _ => Party::Server,
    }
}

/// Whose links a loop has: the server's, and behind it each host's. None for other words.
///
/// # Errors
///
/// Only want of memory.
pub fn parties_of(alloc: Global, words: &CommandWords) -> Result<Vec<Party>, NoMemory>
    ensures parties { IfOk result (λ parties. parties.items ≡ parties_of (command_of words.now)) }
    ensures count { IfOk result (λ parties. (hosts turns : ℕ) → command_of words.now ≡ Some (Command.Loop hosts turns) → vec_len parties ≡ hosts + 1) }
{
    match words.command() {
        Some(Command::Loop { hosts, .. }) => parties_among(alloc, hosts),
        _ => Ok(Vec::new(alloc)),
    }
}

/// The server, and so many hosts in their order.
fn parties_among(alloc: Global, hosts: u32) -> Result<Vec<Party>, NoMemory>
    ensures parties { IfOk result (λ parties. parties.items ≡ Party.Server ∷ clients_below hosts) }
    ensures count { IfOk result (λ parties. vec_len parties ≡ hosts + 1) }
{
    let mut parties = Vec::new(alloc);
    parties.push(Party::Server)?;
    for host in 0..hosts {
        parties.push(Party::Client(Host(host)))?;
    }
    Ok(parties)
}

/// A disk in memory of no bytes, with room for each image.
///
/// # Errors
///
/// Only want of memory.
pub fn blank_disk(alloc: Global) -> Result<MemDisk, NoMemory>
    ensures { IfOk result (λ disk. disk ≡ record {
      first = [];
      events = [];
      room = record { size = 68202496; calls = 2 ^ 32 - 1; written = 2 ^ 64 - 1 };
      made = 0;
      failing = [];
      stop = None;
      faults = 0;
    }) }
{
    MemDisk::new(alloc, Vec::new(alloc), ROOM, Vec::new(alloc), None)
}

/// The exit status of a run: its own, or that of want of memory where none began.
pub fn exit_status(ended: Result<u8, NoMemory>) -> u8
    ensures { result ≡ exit_status_of ended }
{
    match ended {
        Ok(status) => status,
        Err(NoMemory::Memory) => Ending::Memory.status(),
    }
}
