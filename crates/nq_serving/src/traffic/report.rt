//! A report of what a server did, line by line.

use crate::traffic::counted::CountedLink;
use crate::traffic::counts::{Counts, PROCEDURES};
use crate::watching::Watcher;
use nq_base::{Entry, Journal, NoMemory, Ticks};
use nq_io::{Put, Sink};
use std::alloc::Global;

/// Somebody who knows how much memory the program has.
pub trait Gauge {
    /// So many kilobytes; None where that is not known. No contract speaks of it.
    fn kilobytes(&mut self) -> Option<u64>;
}

/// A watcher who prints a line of counts each time that so many ticks have passed, and otherwise only counts. A line that cannot be made
/// or printed is left out.
#[derive(Drop)]
pub struct Report<S, G> {
    alloc: Global,
    out: S,
    gauge: G,
    every: Option<u64>,
    last: u64,
    told: EntryCounts,
}

/// What the journals of the turns told.
#[derive(Drop)]
struct EntryCounts {
    grants: u64,
    fences: u64,
    stored: u64,
    through: u64,
}

/// How the program stands at a moment.
#[derive(Clone, Copy)]
struct Standing {
    now: Ticks,
    rows: usize,
    kilobytes: Option<u64>,
}

impl<S, G> Report<S, G> {
    /// A report to this sink, with a line for each so many ticks, if any. The gauge is asked for each line.
    pub fn new(alloc: Global, out: S, gauge: G, every: Option<u64>) -> Report<S, G> {
        Report {
            alloc,
            out,
            gauge,
            every,
            last: 0,
            told: EntryCounts {
                grants: 0,
                fences: 0,
                stored: 0,
                through: 0,
            },
        }
    }
}

impl EntryCounts {
    /// Counts an entry.
    fn note(&mut self, entry: &Entry) {
        match entry {
            Entry::G { .. } => self.grants = self.grants.saturating_add(1),
            Entry::F { .. } => self.fences = self.fences.saturating_add(1),
            Entry::S { .. } => self.stored = self.stored.saturating_add(1),
            Entry::W { .. } => self.through = self.through.saturating_add(1),
            _ => {}
        }
    }
}

/// Words, a space and a number.
fn push_count(alloc: Global, line: &mut String, words: &str, count: u64) -> Result<(), NoMemory> {
    let Ok(counted) = format!(in alloc; "{words} {count}") else {
        return Err(NoMemory::Memory);
    };
    line.push_str(counted.as_str())?;
    Ok(())
}

/// Words and numbers, one after the other.
fn push_counts(alloc: Global, line: &mut String, counts: &[(&str, u64)]) -> Result<(), NoMemory> {
    for (words, count) in counts {
        push_count(alloc, line, words, *count)?;
    }
    Ok(())
}

/// The procedures of which calls came, each with how many.
fn push_calls(alloc: Global, line: &mut String, calls: &[u64]) -> Result<(), NoMemory> {
    for (name, count) in PROCEDURES.iter().zip(calls.iter()) {
        if *count > 0 {
            line.push_str(" ")?;
            push_count(alloc, line, name, *count)?;
        }
    }
    Ok(())
}

/// The line of counts.
fn line_of(
    alloc: Global,
    standing: &Standing,
    counts: &Counts,
    told: &EntryCounts,
) -> Result<String, NoMemory> {
    let mut line = String::new(alloc);
    push_count(alloc, &mut line, "after seconds", standing.now.0)?;
    line.push_str(": calls")?;
    push_calls(alloc, &mut line, &counts.calls)?;
    let rest = [
        (" strange", counts.strange),
        ("; replies ok", counts.done),
        (" later", counts.later),
        (" fenced", counts.fenced),
        (" refused", counts.refused),
        (" errors", counts.errors),
        (" notices", counts.notices),
        (" unsent", counts.unsent),
        ("; told grants", told.grants),
        (" fences", told.fences),
        (" delayed-stored", told.stored),
        (" through-stored", told.through),
        (" rows", standing.rows as u64),
    ];
    push_counts(alloc, &mut line, &rest)?;
    if let Some(kilobytes) = standing.kilobytes {
        push_count(alloc, &mut line, " kilobytes", kilobytes)?;
    }
    line.push_str("\n")?;
    Ok(line)
}

impl<L, S: Sink, G: Gauge> Watcher<CountedLink<L>> for Report<S, G> {
    fn entered(&mut self, _log: &Journal) {}

    fn turned(&mut self, link: &CountedLink<L>, now: Ticks, rows: usize, log: &Journal) {
        for entry in log.entries() {
            self.told.note(entry);
        }
        let Some(every) = self.every else { return };
        if now.0.saturating_sub(self.last) < every {
            return;
        }
        self.last = now.0;
        let standing = Standing {
            now,
            rows,
            kilobytes: self.gauge.kilobytes(),
        };
        if let Ok(line) = line_of(self.alloc, &standing, link.counts(), &self.told) {
            match self.out.put(line.as_bytes()) {
                Put::All | Put::Failed => {}
            }
        }
    }
}
