//! The tests before an event is taken in.

ghost use Rattle.std.specs.Prelude.{◌≡◌, ◌<◌, List, length, nat_lt, if◌then◌else◌};
ghost use Rattle.nq_base.specs.declared.Event.{Event};
ghost use Rattle.nq_clock.specs.Tracks.{Follows};
ghost use Rattle.nq_model.specs.protocol.SkewBroken.{skew_broken};
ghost use Rattle.nq_model.specs.protocol.Stepped.{most_events, no_packet, tested_room, tested_skew};
ghost use Rattle.nq_world.specs.Answering.{IsOfTests, told};
ghost use Rattle.nq_world.specs.Running.{stepped_seen};
ghost use Rattle.nq_world.specs.declared.stepped.Stepped.{Stepped};

use crate::stepped::{Limit, Stepped};
use nq_base::{Event, SkewBroken};
use nq_clock::Skew;

/// The most events that a world takes in.
pub const MOST_EVENTS: u32 = 100_000;

/// The most packets that were sent before an event is taken in.
pub const MOST_SENT: u64 = 999_936;

/// Tests an event before it is taken in, after so many events and packets. The number of events is tested first, then
/// whether the packet was sent, then the skew, then the number of packets. `Done` says that it may be taken in.
pub(crate) fn test(events: u32, sent: u64, skew: &Skew, event: &Event) -> Stepped
    ensures tests { (earlier : List Event) → Follows skew.now earlier
        → result ≡ told (stepped_seen events sent (skew_broken (length skew.now.hosts) skew.now.window earlier) event.now) }
    ensures few { result ≡ Stepped.Done → events < most_events }
    ensures own { IsOfTests result }
{
    if events >= MOST_EVENTS {
        return Stepped::Limit(Limit::Events);
    }
    match event {
        Event::Deliver(number) => test_packet(*number, sent),
        Event::ServerTick => test_skew(skew.broken(), sent),
        Event::Call { .. } => test_room(sent),
        Event::ClientTick(_) => test_room(sent),
        Event::Restart(_) => test_room(sent),
        Event::Crash { .. } => test_room(sent),
    }
}

/// Tests whether a packet was sent, and then the number of packets.
fn test_packet(number: u64, sent: u64) -> Stepped
    ensures tests { result ≡ told (if nat_lt number sent then tested_room sent else no_packet) }
    ensures own { IsOfTests result }
{
    if number < sent {
        test_room(sent)
    } else {
        Stepped::NoPacket
    }
}

/// Tests the skew, and then the number of packets.
fn test_skew(broken: Option<SkewBroken>, sent: u64) -> Stepped
    ensures tests { result ≡ told (tested_skew sent broken) }
    ensures own { IsOfTests result }
{
    match broken {
        Some(broken) => Stepped::SkewBroken(broken),
        None => test_room(sent),
    }
}

/// Tests the number of packets.
fn test_room(sent: u64) -> Stepped
    ensures tests { result ≡ told (tested_room sent) }
    ensures own { IsOfTests result }
{
    if sent > MOST_SENT {
        Stepped::Limit(Limit::Packets)
    } else {
        Stepped::Done
    }
}
