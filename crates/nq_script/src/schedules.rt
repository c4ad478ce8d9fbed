//! Schedules: lists of events.

ghost use Rattle.std.specs.Prelude.{◌≡◌, ◌++◌, ◌∷◌, ◌-◌, ◌<◌, [], ℕ, List, Some, length, slice_get, take, IsOk, IfOk, OnErr, OnOk};
ghost use Rattle.nq_base.specs.declared.Event.{Event};
ghost use Rattle.nq_script.specs.Kept.{event_of};
ghost use Rattle.nq_script.specs.Lines.{HasEvent, IsFilledEvent, SpellsEvent};
ghost use Rattle.nq_script.specs.Text.{text_of};

use crate::kept::{KeptEvent, event_of, is_tick, keep_event, keep_filled_call};
use crate::print::append_event_line;
use nq_base::{Event, NoMemory};
use std::alloc::Global;
use std::marker::Model;

/// A schedule: a list of events, as clauses see it. A block that a number fills takes no memory in it.
#[derive(Drop)]
pub struct Schedule {
    alloc: Global,
    kept: Vec<KeptEvent>,
}

impl Model for Schedule {
    ghost use Rattle.std.specs.Prelude.{List, map};
    ghost use Rattle.nq_base.specs.declared.Event.{Event};
    ghost use Rattle.nq_script.specs.Kept.{event_of};

    ghost Value = { List Event };

    ghost view = { λ s. map event_of s.kept.items };
}

impl Schedule {
    /// The empty schedule. It takes no memory.
    pub fn new(alloc: Global) -> Result<Schedule, NoMemory>
        ensures made { IsOk result }
        ensures empty { IfOk result (λ s. s ≡ []) }
    {
        Ok(Schedule {
            alloc,
            kept: Vec::new(alloc),
        })
    }

    /// Adds an event at the end.
    pub fn push(&mut self, event: Event) -> Result<(), NoMemory>
        ensures ok { OnOk result (self.new ≡ self.old ++ event ∷ []) }
        ensures err { OnErr result (self.new ≡ self.old) }
    {
        let kept = keep_event(self.alloc, event)?;
        push(&mut self.kept, kept)
    }

    /// Adds an event like this one at the end. Its body, if it has one, is one that `Block::fill` gives.
    pub fn push_filled(&mut self, event: &Event) -> Result<(), NoMemory>
        requires { IsFilledEvent event.now }
        ensures ok { OnOk result (self.new ≡ self.old ++ event.now ∷ []) }
        ensures err { OnErr result (self.new ≡ self.old) }
    {
        let kept = keep_filled(self.alloc, event)?;
        push(&mut self.kept, kept)
    }

    /// Takes the last event away, if there is one.
    pub fn drop_last(&mut self)
        ensures { self.new ≡ take (length self.old - 1) self.old }
    {
        let left = self.len().saturating_sub(1);
        self.kept.truncate(left);
    }

    /// How many there are.
    pub fn len(&self) -> usize
        ensures { result ≡ length self.now }
    {
        self.kept.len()
    }

    /// Another one like that at a place; None exactly where the place is not below the length.
    ///
    /// # Errors
    ///
    /// Only want of memory.
    pub fn get(&self, place: usize) -> Result<Option<Event>, NoMemory>
        ensures { IfOk result (λ event. event ≡ slice_get self.now place) }
    {
        match self.kept.get(place) {
            Some(kept) => Ok(Some(event_of(self.alloc, kept)?)),
            None => Ok(None),
        }
    }

    /// Whether a clock ticks in the one at a place.
    pub fn is_tick(&self, place: usize) -> bool {
        match self.kept.get(place) {
            Some(kept) => is_tick(kept),
            None => false,
        }
    }

    /// Appends the line of the event at a place, with its line feed, in a version that can tell the event.
    pub fn append_line(
        &self,
        place: usize,
        version: u32,
        text: &mut Vec<u8>,
    ) -> Result<(), NoMemory>
        requires there { place < length self.now }
        requires has { (event : Event) → slice_get self.now place ≡ Some event → HasEvent version event }
        ensures { OnOk result ((event : Event) × (line : List ℕ) × (slice_get self.now place ≡ Some event)
            × SpellsEvent version event line × (text.new.items ≡ text.old.items ++ text_of (line ∷ []))) }
    {
        match self.kept.get(place) {
            Some(kept) => append_kept(text, kept, self.alloc, version),
            None => unreachable!(),
        }
    }
}

/// Appends the line of an event that is kept.
fn append_kept(
    text: &mut Vec<u8>,
    kept: &KeptEvent,
    alloc: Global,
    version: u32,
) -> Result<(), NoMemory>
    requires has { HasEvent version (event_of kept.now) }
    ensures { OnOk result ((line : List ℕ) × SpellsEvent version (event_of kept.now) line × (text.new.items ≡ text.old.items ++ text_of (line ∷ []))) }
{
    let event = event_of(alloc, kept)?;
    append_event_line(text, &event, version)
}

/// Adds an event at the end.
fn push(events: &mut Vec<KeptEvent>, event: KeptEvent) -> Result<(), NoMemory>
    ensures ok { OnOk result (events.new.items ≡ events.old.items ++ event ∷ []) }
    ensures err { OnErr result (events.new.items ≡ events.old.items) }
{
    match events.push(event) {
        Ok(()) => Ok(()),
        Err(_) => Err(NoMemory::Memory),
    }
}

/// Keeps an event whose body, if it has one, a number fills.
fn keep_filled(alloc: Global, event: &Event) -> Result<KeptEvent, NoMemory>
    requires { IsFilledEvent event.now }
    ensures { IfOk result (λ kept. event_of kept ≡ event.now) }
{
    match event {
        Event::Call { host, call } => keep_filled_call(alloc, *host, call),
        Event::Deliver(packet) => Ok(KeptEvent::Deliver(*packet)),
        Event::ServerTick => Ok(KeptEvent::ServerTick),
        Event::ClientTick(host) => Ok(KeptEvent::ClientTick(*host)),
        Event::Restart(host) => Ok(KeptEvent::Restart(*host)),
        Event::Crash { longest } => Ok(KeptEvent::Crash { longest: *longest }),
    }
}
