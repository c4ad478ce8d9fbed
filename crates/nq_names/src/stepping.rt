//! Stepping a world with leased directories.

ghost use Rattle.std.specs.Prelude.{◌≡◌, ◌<◌, [], List, Option, length, reverse, nat_lt, OnOk, if◌then◌else◌};
ghost use Rattle.nq_base.specs.declared.Event.{Event};
ghost use Rattle.nq_model.specs.protocol.Kept.{Kept};
ghost use Rattle.nq_model.specs.protocol.SkewBroken.{skew_broken};
ghost use Rattle.nq_model.specs.protocol.Stepped.{most_events, no_packet, tested_room, tested_skew};
ghost use Rattle.nq_model.specs.protocol.World.{Head};
ghost use Rattle.nq_names.specs.Playing.{CanComeOutside, IsLeft, IsReady, IsTested, Leads, PlaysOutside, Reaches, StepsOutside, stepped_outside};
ghost use Rattle.nq_names.specs.Playing.{tested_outside};
ghost use Rattle.nq_name_server.specs.declared.run.event.NameEvent.{NameEvent};
ghost use Rattle.nq_name_server.specs.Outside.{outside_run};
ghost use Rattle.nq_world.specs.Answering.{IsOfTests, told};
ghost use Rattle.nq_world.specs.Playing.{CanCome, GoesOn};
ghost use Rattle.nq_world.specs.declared.Stepped.{Stepped};

use crate::world::NameWorld;
use nq_base::{Event, NoMemory};
use nq_keeper::Keeper;
use nq_name_server::run::NameEvent;
use nq_world::{Limit, MOST_EVENTS, MOST_SENT, Stepped};

impl<K: Keeper> NameWorld<K> {
    /// Takes an event in, where all that was sent has gone out.
    pub(crate) fn step_settled(&mut self, event: &NameEvent) -> Stepped
        requires can { CanComeOutside (length self.old.inner.clients) self.old.inner.skew.window event.now }
        requires settled { self.old.around.due ≡ [] }
        ensures steps { (head : Head) (events : List NameEvent) → IsReady self.old → PlaysOutside head events self.old (K.content self.old.inner.server.keeper)
            → StepsOutside head events event.now result self.new (K.content self.old.inner.server.keeper) (K.content self.new.inner.server.keeper) }
        ensures goes { GoesOn K.faults K.follows result self.old.inner self.new.inner }
    {
        match self.test(event) {
            Stepped::Done => self.take_event(event),
            refused => refused,
        }
    }

    /// Sends all that was made and has not gone out.
    pub(crate) fn settle(&mut self) -> Result<(), NoMemory>
        ensures same { (head : Head) (events : List NameEvent) (told : Option Kept) → PlaysOutside head events self.old told
            → PlaysOutside head events self.new told × OnOk result (IsReady self.new) }
        ensures none { OnOk result (self.new.around.due ≡ []) }
        ensures inner { self.new.inner ≡ self.old.inner }
    {
        self.around.settle(self.world.packets())
    }

    /// The tests before an event, where all that was sent has gone out. The rule on skew is left to the inner world.
    fn test(&self, event: &NameEvent) -> Stepped
        ensures tests { (head : Head) (events : List NameEvent) (told : Option Kept) → IsReady self.now → PlaysOutside head events self.now told
            → IsTested result (stepped_outside head events event.now) }
        ensures few { result ≡ Stepped.Done → self.now.events < most_events }
        ensures own { IsOfTests result }
    {
        if self.events >= MOST_EVENTS {
            return Stepped::Limit(Limit::Events);
        }
        match event {
            NameEvent::List(_, _) => self.test_room(),
            NameEvent::Plain(event) => self.test_plain(event),
        }
    }

    /// The same of an event of the inner world, or of a delivery, behind the test of the number of events.
    fn test_plain(&self, event: &Event) -> Stepped
        ensures tests { (head : Head) (events : List NameEvent) (told : Option Kept) → IsReady self.now → Reaches head events self.now told
            → IsTested result (tested_outside head (outside_run head events) (NameEvent.Plain event.now)) }
        ensures own { IsOfTests result }
    {
        match event {
            Event::Deliver(number) => self.test_packet(*number),
            Event::ServerTick => self.test_tick(),
            Event::Call { .. } => self.test_room(),
            Event::ClientTick(_) => self.test_room(),
            Event::Restart(_) => self.test_room(),
            Event::Crash { .. } => self.test_room(),
        }
    }

    /// Tests whether a packet travels, and then the number of packets.
    fn test_packet(&self, number: u64) -> Stepped
        ensures tests { result ≡ told (if nat_lt number (length self.now.around.sent) then tested_room (length self.now.around.sent) else no_packet) }
        ensures own { IsOfTests result }
    {
        if number < self.around.sent() {
            self.test_room()
        } else {
            Stepped::NoPacket
        }
    }

    /// Tests the number of packets, where a tick of the server's clock keeps the rule on skew.
    fn test_tick(&self) -> Stepped
        ensures tests { (head : Head) (events : List NameEvent) (kept : Option Kept) → Reaches head events self.now kept
            → IsTested result (tested_skew (length self.now.around.sent) (skew_broken head.hosts head.longest (reverse self.now.ran))) }
        ensures own { IsOfTests result }
    {
        if self.world.lawful_server_tick() {
            self.test_room()
        } else {
            Stepped::Done
        }
    }

    /// Tests the number of packets.
    fn test_room(&self) -> Stepped
        ensures tests { result ≡ told (tested_room (length self.now.around.sent)) }
        ensures own { IsOfTests result }
    {
        if self.around.sent() > MOST_SENT {
            Stepped::Limit(Limit::Packets)
        } else {
            Stepped::Done
        }
    }

    /// Takes in an event that passed the tests, and counts it.
    fn take_event(&mut self, event: &NameEvent) -> Stepped
        requires settled { self.old.around.due ≡ [] }
        requires few { self.old.events < most_events }
        requires can { CanComeOutside (length self.old.inner.clients) self.old.inner.skew.window event.now }
        ensures steps { (head : Head) (events : List NameEvent) → IsReady self.old → PlaysOutside head events self.old (K.content self.old.inner.server.keeper)
            → IsLeft (stepped_outside head events event.now)
            → StepsOutside head events event.now result self.new (K.content self.old.inner.server.keeper) (K.content self.new.inner.server.keeper) }
        ensures goes { GoesOn K.faults K.follows result self.old.inner self.new.inner }
    {
        match self.play(event) {
            Stepped::Done => {
                self.events += 1;
                Stepped::Done
            }
            other => other,
        }
    }

    /// Takes in an event that passed the tests.
    fn play(&mut self, event: &NameEvent) -> Stepped
        requires can { CanComeOutside (length self.old.inner.clients) self.old.inner.skew.window event.now }
        requires settled { self.old.around.due ≡ [] }
        ensures leads { (head : Head) (events : List NameEvent) → IsReady self.old → Reaches head events self.old (K.content self.old.inner.server.keeper)
            → IsLeft (stepped_outside head events event.now)
            → Leads head events event.now result (K.content self.old.inner.server.keeper) (K.content self.new.inner.server.keeper)
            (λ es kept. Reaches head es self.new kept) }
        ensures goes { GoesOn K.faults K.follows result self.old.inner self.new.inner }
        ensures count { self.new.events ≡ self.old.events }
    {
        match event {
            NameEvent::List(host, prefix) => self.list(*host, prefix),
            NameEvent::Plain(event) => self.play_plain(event),
        }
    }

    /// Takes in an event of the inner world, or a delivery, that passed the tests.
    fn play_plain(&mut self, event: &Event) -> Stepped
        requires can { CanCome (length self.old.inner.clients) self.old.inner.skew.window event.now }
        requires settled { self.old.around.due ≡ [] }
        ensures leads { (head : Head) (events : List NameEvent) → IsReady self.old → Reaches head events self.old (K.content self.old.inner.server.keeper)
            → IsLeft (stepped_outside head events (NameEvent.Plain event.now))
            → Leads head events (NameEvent.Plain event.now) result (K.content self.old.inner.server.keeper) (K.content self.new.inner.server.keeper)
            (λ es kept. Reaches head es self.new kept) }
        ensures goes { GoesOn K.faults K.follows result self.old.inner self.new.inner }
        ensures count { self.new.events ≡ self.old.events }
    {
        match event {
            Event::Deliver(number) => self.deliver(*number),
            Event::ServerTick => self.tick(),
            Event::Call { .. } => self.run(event),
            Event::ClientTick(_) => self.run(event),
            Event::Restart(_) => self.run(event),
            Event::Crash { longest } => self.crash(*longest),
        }
    }
}
