//! The menu of a moment, without listing it.

ghost use Rattle.std.specs.Prelude.{◌≡◌, ◌<◌, ℕ, Some, length, slice_get};
ghost use Rattle.nq_storm.specs.Menu.{all_ticks, call_at, host_call, menu};
ghost use Rattle.nq_storm.specs.Places.{tick_count};
ghost use Rattle.nq_storm.specs.Stormy.{IsStormy, WritesNumber};
ghost use Rattle.nq_storm.specs.declared.fates.offers.Offer.{Offer};

use crate::fates::offers::Offer;
use nq_base::{Block, BlockNo, Call, Event, FileId, Host};

/// The longest term, in ticks, of a server that boots in a storm.
const LONGEST: u32 = 60;

/// The calls of one host.
const CALLS: u32 = 26;

/// The event at a place of the menu; what it writes, if it writes, is `number`.
pub fn event_at(offer: &Offer, place: u32, number: u32) -> Event
    requires { place < offer.now.size }
    ensures here { slice_get (menu offer.now number) place ≡ Some result }
    ensures stormy { IsStormy result }
{
    // Each event is returned at once, since an event may hold a block, and each branch that hands one on would copy it.
    if place < offer.ticks_at {
        return Event::Deliver(u64::from(place));
    }
    if place < offer.restarts_at {
        return tick_at(offer.server_tick, place - offer.ticks_at);
    }
    if place < offer.crash_at {
        return Event::Restart(Host(place - offer.restarts_at));
    }
    if place < offer.calls_at {
        return Event::Crash { longest: LONGEST };
    }
    host_call(place - offer.calls_at, number)
}

/// The tick at a place among the ticks.
fn tick_at(server_tick: bool, place: u32) -> Event
    requires { place < tick_count server_tick }
    ensures here { slice_get (all_ticks server_tick) place ≡ Some result }
    ensures stormy { IsStormy result }
{
    if !server_tick {
        return Event::ClientTick(Host(place));
    }
    if place == 0 {
        return Event::ServerTick;
    }
    Event::ClientTick(Host(place - 1))
}

/// The call at a place among those of all hosts.
fn host_call(place: u32, number: u32) -> Event
    requires { place < 104 }
    ensures here { result ≡ host_call number place }
    ensures stormy { IsStormy result }
{
    Event::Call {
        host: Host(place / CALLS),
        call: call_at(place % CALLS, number),
    }
}

/// The call at a place among those of a host.
fn call_at(place: u32, number: u32) -> Call
    requires { place < 26 }
    ensures here { result ≡ call_at number place }
    ensures stormy { WritesNumber result }
{
    let file = FileId(1 + place % 8 / 4);
    let block = BlockNo(place % 4);
    if place < 8 {
        return Call::Read { file, block };
    }
    if place < 16 {
        return Call::Write {
            file,
            block,
            body: Block::fill(number),
        };
    }
    if place < 24 {
        return Call::Put {
            file,
            block,
            body: Block::fill(number),
        };
    }
    Call::Sync {
        file: FileId(place - 23),
    }
}

/// As many events stand on a menu as its offer says.
pub fn menu_is_offered()
    ensures { (offer : Offer) (number : ℕ) → length (menu offer number) ≡ offer.size }
{}
