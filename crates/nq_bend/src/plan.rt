//! The run that is bent, and how.

ghost use Rattle.std.specs.Prelude.{◌≡◌, IsFalse, IsTrue};
ghost use Rattle.nq_bend.specs.Bending.{IsLost};
ghost use Rattle.nq_bend.specs.declared.bends.Bend.{Bend};

use crate::bends::{Bend, Then, Why};
use crate::old::Old;
use nq_script::Head;

/// The run that is bent, and how.
#[derive(Clone, Copy)]
pub(crate) struct BendPlan<'a> {
    /// With what both runs begin.
    pub(crate) head: &'a Head,
    /// The run.
    pub(crate) old: &'a Old,
    /// The changes.
    pub(crate) bends: &'a [Bend],
    /// What happens behind the last event.
    pub(crate) then: Then,
}

impl BendPlan<'_> {
    /// The place of the first change that says nothing that can be done, whatever its line says.
    pub(crate) fn first_bad(&self) -> Option<usize> {
        let hosts = self.head.hosts;
        let events = self.old.events.len();
        let packets = self.old.packets() as u64;
        self.bends.iter().position(|bend: &Bend| match bend {
            Bend::Lose(packet) | Bend::Twice(packet) => *packet >= packets,
            Bend::Later { packet, event } => *packet >= packets || *event > events,
            Bend::Put { at, .. } => *at > events,
            Bend::Cut { host, at } | Bend::Join { host, at } => host.0 >= hosts || *at > events,
        })
    }

    /// Whether a packet of the old run is lost.
    pub(crate) fn is_lost(&self, packet: u64) -> bool
        ensures { IsFalse result → IsLost self.now.bends.now packet → ⊥ }
    {
        for place in 0..self.bends.len() {
            if loses(&self.bends[place], packet) {
                return true;
            }
        }
        false
    }

    /// Whether a packet of the old run arrives twice.
    pub(crate) fn is_doubled(&self, packet: u64) -> bool {
        self.bends.iter().any(
            |bend: &Bend| matches!(bend, Bend::Twice(doubled) if *doubled == packet),
        )
    }

    /// Whether a packet of the old run arrives at another moment.
    fn is_moved(&self, packet: u64) -> bool {
        self.bends.iter().any(
            |bend: &Bend| matches!(bend, Bend::Later { packet: moved, .. } if *moved == packet),
        )
    }

    /// Whether a packet of the new run never gets under way, which is this one of the old: it is lost, or the old run lost it.
    pub(crate) fn bars(&self, matched: Option<u64>) -> bool {
        match matched {
            Some(packet) => self.is_lost(packet) || self.old.is_overtaken(packet),
            None => false,
        }
    }

    /// Whether what is late arrives before the event at a place: a clock ticks in it, and the run goes on by itself.
    pub(crate) fn waits_at(&self, place: usize) -> bool {
        self.then == Then::GoOn && self.old.is_tick(place)
    }

    /// The event before which, or in which, a packet of the old run is to arrive first, if it is to.
    pub(crate) fn moment_of(&self, packet: u64) -> Option<usize> {
        for bend in self.bends.iter() {
            if let Some(event) = moment_in(bend, packet) {
                return Some(event);
            }
        }
        self.old.first_arrival(packet)
    }

    /// Why the delivery of a packet, in the event at a place, is left out whatever happened, if it is.
    pub(crate) fn leaves(&self, packet: u64, place: usize) -> Option<Why> {
        if self.is_lost(packet) {
            Some(Why::Lost)
        } else if self.is_moved(packet) && self.old.arrives_first(packet, place) {
            Some(Why::Later)
        } else {
            None
        }
    }
}

/// The event before which a change lets a packet arrive, if it does.
fn moment_in(bend: &Bend, packet: u64) -> Option<usize> {
    match bend {
        Bend::Later {
            packet: moved,
            event,
        } if *moved == packet => Some(*event),
        _ => None,
    }
}

/// Whether a change loses a packet.
fn loses(bend: &Bend, packet: u64) -> bool
    ensures { IsFalse result → bend.now ≡ Bend.Lose packet → ⊥ }
{
    match bend {
        Bend::Lose(lost) => *lost == packet,
        _ => false,
    }
}
