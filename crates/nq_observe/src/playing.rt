//! Schedules, event by event.

ghost use Rattle.std.specs.Prelude.{◌≡◌, length, IsTrue};
ghost use Rattle.nq_world.specs.Playing.{CanCome};

use crate::cursor::Cursor;
use crate::patience::{Patience, Unseen};
use crate::seeing::Seer;
use nq_base::Event;
use nq_keeper::Keeper;
use nq_record::Record;
use nq_replay::play::{Delivered, note};
use nq_script::{Head, Script};
use nq_world::{MOST_EVENTS, Stepped, World};
use std::alloc::Global;

/// Whether an event can come in the run of a schedule with this head.
fn can_come(head: &Head, event: &Event) -> bool
    ensures { IsTrue result → CanCome head.now.hosts head.now.longest event.now }
{
    match event {
        Event::Call { host, .. } => host.0 < head.hosts,
        Event::ClientTick(host) => host.0 < head.hosts,
        Event::Restart(host) => host.0 < head.hosts,
        Event::Crash { longest } => 5 <= *longest && *longest <= head.longest,
        Event::Deliver(_) => true,
        Event::ServerTick => true,
    }
}

/// Plays a schedule over a world, and writes down what each event did, up to the first event that the world refuses.
///
/// # Errors
///
/// `Memory`, and `Time` where no time was left before an event.
pub(crate) fn play<K: Keeper, P: Patience>(
    alloc: Global,
    world: &mut World<K>,
    script: &Script,
    patience: &mut P,
) -> Result<Record, Unseen>
    requires hosts { script.now.head.hosts ≡ length world.old.clients }
    requires longest { script.now.head.longest ≡ world.old.skew.window }
{
    let hosts = script.head.hosts;
    let mut seer = Seer::new(alloc, hosts)?;
    let mut delivered = Delivered::new(alloc);
    let mut cursor = Cursor::new();
    for turn in 0..MOST_EVENTS {
        if patience.is_over() {
            return Err(Unseen::Time);
        }
        let packets = world.packets().len() as usize;
        let least = delivered.next(packets);
        let Some(event) = cursor.next(&script.lines, hosts, least) else {
            break;
        };
        if !can_come(&script.head, &event) {
            break;
        }
        delivered.reach(packets)?;
        match world.step(&event) {
            Stepped::Done => {
                note(&mut delivered, &event);
                seer.see(world, hosts, &event);
            }
            Stepped::Memory => return Err(Unseen::Memory),
            _ => break,
        }
    }
    Ok(seer.into_record()?)
}
