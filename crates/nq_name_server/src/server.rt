//! The server of names.

ghost use Rattle.std.specs.Prelude.{◌≡◌, ◌<◌, ◌≤◌, ◌+◌, ◌^◌, None, length, IfOk, IfSome};
ghost use Rattle.nq_model.specs.protocol.Ask.{ask};
ghost use Rattle.nq_name_server.specs.Served.{new_served, number_of};
ghost use Rattle.nq_name_server.specs.Serving.{ticks, vacates};

use nq_base::{Asked, FileId, NoMemory, Question, Ticks};
use nq_directory::Prefix;
use nq_directory::listing::DirTag;
use nq_lease::Table;
use nq_lease::evict::vacated;
use nq_lease::grant::ask;
use std::alloc::Global;
use std::marker::Model;

/// The most directories on which a boot grants leases.
pub(crate) const MOST_DIRECTORIES: usize = 256;

/// One more than the last time that a clock shows, and than the last number of a lease.
pub(crate) const NUMBERS_END: u64 = 1 << 62;

/// The least longest term of a boot, in ticks.
const SHORTEST_TERM: u32 = 5;

/// The greatest one.
const LONGEST_TERM: u32 = 600;

/// The number of the first DIREVICTED of a boot.
const FIRST_NOTICE: u32 = 1 << 31;

/// What a server keeps of the leases on directories: those of one boot. Clauses see it as the definitions do.
#[derive(Drop)]
pub struct NameServer {
    /// The number of a directory stands for the file.
    pub(crate) table: Table,
    /// The directories by their numbers, with room for all that there may be.
    pub(crate) directories: Vec<Prefix>,
    /// The number of the next DIREVICTED.
    pub(crate) notice: u32,
    /// The longest term of the boot, in ticks.
    pub(crate) longest: u32,
    /// The server's time.
    pub(crate) time: Ticks,
}

impl Model for NameServer {
    ghost use Rattle.std.specs.Prelude.{◌≤◌, vec_capacity};
    ghost use Rattle.nq_name_server.specs.Served.{Served, most_directories};
    ghost use Rattle.nq_name_server.specs.Sound.{IsSound};

    ghost Value = { Served };

    ghost view = { λ s. record { table = s.table; directories = s.directories.items; notice = s.notice; longest = s.longest; time = s.time } };

    ghost invariant = { λ s. IsSound (record { table = s.table; directories = s.directories.items; notice = s.notice; longest = s.longest; time = s.time })
        × (most_directories ≤ vec_capacity s.directories) };
}

impl NameServer {
    /// What a boot keeps at first: nothing.
    ///
    /// # Errors
    ///
    /// Want of memory. There is no boot with a longest term beyond 5 to 600 ticks, or at a time from 2^62 on, which no clock shows.
    pub fn new(alloc: Global, boot: u32, longest: u32, time: Ticks) -> Result<NameServer, NoMemory>
        ensures { IfOk result (λ s. s ≡ new_served boot longest time) }
    {
        if longest < SHORTEST_TERM || longest > LONGEST_TERM || time.0 >= NUMBERS_END {
            return Err(NoMemory::Memory);
        }
        let table = Table::new(alloc, boot)?;
        let directories = Vec::with_capacity(alloc, MOST_DIRECTORIES)?;
        Ok(NameServer {
            table,
            directories,
            notice: FIRST_NOTICE,
            longest,
            time,
        })
    }

    /// The server's clock shows this time, which is not below the last one, and below 2^62: reading leases that are over end. It takes
    /// no memory.
    pub(crate) fn tick(&mut self, time: Ticks)
        requires later { self.old.time ≤ time }
        requires early { time < 2 ^ 62 }
        ensures { self.new ≡ ticks self.old time }
    {
        self.table.drop_over(time);
        self.time = time;
    }

    /// A host gives a list up: the row goes where the incarnation and the latest tag are its own. It takes no memory.
    pub(crate) fn vacated(&mut self, said: &DirTag)
        ensures { self.new ≡ vacates self.old said.now }
    {
        if let Some(number) = self.number_of(&said.prefix) {
            vacated(&mut self.table, said.who, number, said.tag);
        }
    }

    /// Asks the lease table, of the longest term and at the time of this server.
    pub(crate) fn ask_table(&mut self, question: &Question) -> Asked
        requires drawn { self.old.table.drawn < 2 ^ 62 }
        requires longest { question.now.longest ≡ self.old.longest }
        requires time { question.now.time ≡ self.old.time }
        ensures table { self.new ≡ record self.old { table = (ask self.old.table question.now).table } }
        ensures asked { result ≡ (ask self.old.table question.now).asked }
        ensures drawn { self.new.table.drawn ≤ self.old.table.drawn + 1 }
        ensures unwanted { question.now.want ≡ None → self.new.table.drawn ≡ self.old.table.drawn }
    {
        ask(&mut self.table, question)
    }

    /// The lease table, in which the number of a directory stands for a file.
    pub(crate) fn table(&self) -> &Table
        ensures { result.now ≡ self.now.table }
    {
        &self.table
    }

    /// The number of a directory, if it has one.
    pub(crate) fn number_of(&self, prefix: &Prefix) -> Option<FileId>
        ensures { result ≡ number_of prefix.now self.now.directories }
    {
        let place = place_of(&self.directories, prefix)?;
        Some(FileId(place as u32))
    }
}

/// The place of a directory among these, if it is there.
fn place_of(directories: &[Prefix], prefix: &Prefix) -> Option<usize>
    ensures place { result ≡ number_of prefix.now directories.now }
    ensures within { IfSome result (λ place. place < length directories.now) }
{
    directories.iter().position(|known| known.is(prefix))
}
