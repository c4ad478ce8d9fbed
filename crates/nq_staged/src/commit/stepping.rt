//! Stepping a staged world.

ghost use Rattle.std.specs.Prelude.{◌≡◌, ◌<◌, ◌≤◌, List, Option, None, length, reverse, nat_lt, OnOk, if◌then◌else◌};
ghost use Rattle.nq_base.specs.declared.Event.{Event};
ghost use Rattle.nq_staged.specs.Around.{renewed_around};
ghost use Rattle.nq_staged.specs.Worlds.{CanComeOutside, IsLeft, IsOfOffers, IsReady, IsTested, Leads, PlaysOutside, Reaches, RunsInner, StepsOutside};
ghost use Rattle.nq_staged.specs.Worlds.{stepped_outside, tested_outside};
ghost use Rattle.nq_model.specs.protocol.Kept.{Kept};
ghost use Rattle.nq_model.specs.protocol.SkewBroken.{skew_broken};
ghost use Rattle.nq_model.specs.protocol.Stepped.{most_events, no_packet, tested_room, tested_skew};
ghost use Rattle.nq_model.specs.protocol.World.{Head, World as Model};
ghost use Rattle.nq_stage.specs.declared.run.event.StagedEvent.{StagedEvent};
ghost use Rattle.nq_stage.specs.Outside.{outside_run};
ghost use Rattle.nq_stage.specs.Theorem.{EventBrings};
ghost use Rattle.nq_world.specs.Answering.{IsOfTests, told};
ghost use Rattle.nq_world.specs.Moving.{clients_in};
ghost use Rattle.nq_world.specs.Playing.{CanCome, GoesOn, Plays};
ghost use Rattle.nq_world.specs.declared.Stepped.{Stepped};

use crate::commit::around::Around;
use crate::commit::copying::copied;
use crate::commit::taking::PacketTaken;
use crate::commit::world::StagedWorld;
use nq_base::{Event, Host, NoMemory};
use nq_keeper::Keeper;
use nq_stage::run::{StagedEvent, event_brings};
use nq_world::{Limit, MOST_EVENTS, MOST_SENT, Stepped, World};

impl<K: Keeper> StagedWorld<K> {
    /// Takes an event in, where all that was sent has gone out.
    pub(crate) fn step_settled(&mut self, event: &StagedEvent) -> Stepped
        requires can { CanComeOutside (length self.old.inner.clients) self.old.inner.skew.window event.now }
        requires settled { self.old.around.due ≡ None }
        ensures steps { (head : Head) (events : List StagedEvent) → IsReady self.old
            → PlaysOutside head events self.old (K.content self.old.inner.server.keeper)
            → StepsOutside head events event.now result self.new (K.content self.old.inner.server.keeper) (K.content self.new.inner.server.keeper) }
        ensures goes { GoesOn K.faults K.follows result self.old.inner self.new.inner }
    {
        match self.test(event) {
            Stepped::Done => self.take_event(event),
            refused => refused,
        }
    }

    /// Sends all that was made and has not gone out.
    pub(crate) fn settle(&mut self) -> Result<(), NoMemory>
        ensures same { (head : Head) (events : List StagedEvent) (told : Option Kept) → PlaysOutside head events self.old told
            → PlaysOutside head events self.new told × OnOk result (IsReady self.new) }
        ensures none { OnOk result (self.new.around.due ≡ None) }
        ensures inner { self.new.inner ≡ self.old.inner }
    {
        self.around.settle(self.world.packets())
    }

    /// The tests before an event, where all that was sent has gone out. The rule on skew is left to the inner world.
    fn test(&self, event: &StagedEvent) -> Stepped
        ensures tests { (head : Head) (events : List StagedEvent) (told : Option Kept) → IsReady self.now → PlaysOutside head events self.now told
            → IsTested result (stepped_outside head events event.now) }
        ensures few { result ≡ Stepped.Done → self.now.events < most_events }
        ensures own { IsOfTests result }
    {
        if self.events >= MOST_EVENTS {
            return Stepped::Limit(Limit::Events);
        }
        match event {
            StagedEvent::Stage(_) => self.test_room(),
            StagedEvent::Plain(event) => self.test_plain(event),
        }
    }

    /// The same of an event of the inner world, or of a delivery, behind the test of the number of events.
    fn test_plain(&self, event: &Event) -> Stepped
        ensures tests { (head : Head) (events : List StagedEvent) (told : Option Kept) → IsReady self.now → Reaches head events self.now told
            → IsTested result (tested_outside head (outside_run head events) (StagedEvent.Plain event.now)) }
        ensures own { IsOfTests result }
    {
        match event {
            Event::Deliver(number) => self.test_packet(*number),
            Event::ServerTick => self.test_tick(),
            _ => self.test_room(),
        }
    }

    /// Tests whether a packet travels, and then the number of packets.
    fn test_packet(&self, number: u64) -> Stepped
        ensures tests { result ≡ told (if nat_lt number (length self.now.around.sent) then tested_room (length self.now.around.sent) else no_packet) }
        ensures own { IsOfTests result }
    {
        if number < self.around.sent() {
            self.test_room()
        } else {
            Stepped::NoPacket
        }
    }

    /// Tests the number of packets, where a tick of the server's clock keeps the rule on skew.
    fn test_tick(&self) -> Stepped
        ensures tests { (head : Head) (events : List StagedEvent) (kept : Option Kept) → Reaches head events self.now kept
            → IsTested result (tested_skew (length self.now.around.sent) (skew_broken head.hosts head.longest (reverse self.now.ran))) }
        ensures own { IsOfTests result }
    {
        if self.world.lawful_server_tick() {
            self.test_room()
        } else {
            Stepped::Done
        }
    }

    /// Tests the number of packets.
    fn test_room(&self) -> Stepped
        ensures tests { result ≡ told (tested_room (length self.now.around.sent)) }
        ensures own { IsOfTests result }
    {
        if self.around.sent() > MOST_SENT {
            Stepped::Limit(Limit::Packets)
        } else {
            Stepped::Done
        }
    }

    /// Takes in an event that passed the tests, and counts it.
    fn take_event(&mut self, event: &StagedEvent) -> Stepped
        requires settled { self.old.around.due ≡ None }
        requires few { self.old.events < most_events }
        requires can { CanComeOutside (length self.old.inner.clients) self.old.inner.skew.window event.now }
        ensures steps { (head : Head) (events : List StagedEvent) → IsReady self.old
            → PlaysOutside head events self.old (K.content self.old.inner.server.keeper)
            → IsLeft (stepped_outside head events event.now)
            → StepsOutside head events event.now result self.new (K.content self.old.inner.server.keeper) (K.content self.new.inner.server.keeper) }
        ensures goes { GoesOn K.faults K.follows result self.old.inner self.new.inner }
    {
        match self.play(event) {
            Stepped::Done => {
                self.events += 1;
                Stepped::Done
            }
            other => other,
        }
    }

    /// Takes in an event that passed the tests.
    fn play(&mut self, event: &StagedEvent) -> Stepped
        requires can { CanComeOutside (length self.old.inner.clients) self.old.inner.skew.window event.now }
        requires settled { self.old.around.due ≡ None }
        ensures leads { (head : Head) (events : List StagedEvent) → IsReady self.old → Reaches head events self.old (K.content self.old.inner.server.keeper)
            → IsLeft (stepped_outside head events event.now)
            → Leads head events event.now result (K.content self.old.inner.server.keeper) (K.content self.new.inner.server.keeper)
            (λ es kept. Reaches head es self.new kept) }
        ensures goes { GoesOn K.faults K.follows result self.old.inner self.new.inner }
        ensures count { self.new.events ≡ self.old.events }
    {
        event_brings(event);
        match event {
            StagedEvent::Stage(host) => self.offer(*host),
            StagedEvent::Plain(event) => self.play_plain(event),
        }
    }

    /// Takes in an event of the inner world, or a delivery, that passed the tests.
    fn play_plain(&mut self, event: &Event) -> Stepped
        requires brings { EventBrings event.now }
        requires can { CanCome (length self.old.inner.clients) self.old.inner.skew.window event.now }
        requires settled { self.old.around.due ≡ None }
        ensures leads { (head : Head) (events : List StagedEvent) → IsReady self.old → Reaches head events self.old (K.content self.old.inner.server.keeper)
            → IsLeft (stepped_outside head events (StagedEvent.Plain event.now))
            → Leads head events (StagedEvent.Plain event.now) result (K.content self.old.inner.server.keeper) (K.content self.new.inner.server.keeper)
            (λ es kept. Reaches head es self.new kept) }
        ensures goes { GoesOn K.faults K.follows result self.old.inner self.new.inner }
        ensures count { self.new.events ≡ self.old.events }
    {
        match event {
            Event::Deliver(number) => self.deliver(*number),
            _ => self.run(event, false),
        }
    }

    /// A host's side offers a body.
    fn offer(&mut self, host: Host) -> Stepped
        requires settled { self.old.around.due ≡ None }
        requires there { host < length self.old.inner.clients }
        ensures leads { (head : Head) (events : List StagedEvent) (told : Option Kept) → IsReady self.old → Reaches head events self.old told
            → IsLeft (stepped_outside head events (StagedEvent.Stage host))
            → Leads head events (StagedEvent.Stage host) result told told (λ es kept. Reaches head es self.new kept) }
        ensures inner { self.new.inner ≡ self.old.inner }
        ensures count { self.new.events ≡ self.old.events }
        ensures fine { IsOfOffers result }
    {
        match self.around.offer(host, self.world.dirty(host)) {
            Ok(()) => Stepped::Done,
            Err(NoMemory::Memory) => Stepped::Memory,
        }
    }

    /// A packet is taken in by its receiver.
    fn deliver(&mut self, number: u64) -> Stepped
        requires { self.old.around.due ≡ None }
        ensures leads { (head : Head) (events : List StagedEvent) → IsReady self.old → Reaches head events self.old (K.content self.old.inner.server.keeper)
            → IsLeft (stepped_outside head events (StagedEvent.Plain (Event.Deliver number)))
            → Leads head events (StagedEvent.Plain (Event.Deliver number)) result (K.content self.old.inner.server.keeper)
            (K.content self.new.inner.server.keeper) (λ es kept. Reaches head es self.new kept) }
        ensures goes { GoesOn K.faults K.follows result self.old.inner self.new.inner }
        ensures count { self.new.events ≡ self.old.events }
    {
        if number >= self.around.sent() {
            return Stepped::NoPacket;
        }
        match self.around.take_in(number) {
            PacketTaken::Beside => Stepped::Done,
            PacketTaken::Inner { number, commit } => {
                let event = Event::Deliver(number);
                self.run(&event, commit)
            }
            PacketTaken::Memory => Stepped::Memory,
        }
    }

    /// Runs an event of the inner world, by which a COMMIT is counted or not.
    fn run(&mut self, event: &Event, commit: bool) -> Stepped
        requires { CanCome (length self.old.inner.clients) self.old.inner.skew.window event.now }
        ensures ran { (head : Head) → Plays head (reverse self.old.ran) self.old.inner (K.content self.old.inner.server.keeper)
            → RunsInner head event.now commit result self.old self.new (K.content self.old.inner.server.keeper) (K.content self.new.inner.server.keeper) }
        ensures goes { GoesOn K.faults K.follows result self.old.inner self.new.inner }
        ensures count { self.new.events ≡ self.old.events }
    {
        let Some(commits) = self.around.commits_after(commit) else {
            return Stepped::Memory;
        };
        let Ok(own) = copied(self.alloc, event) else {
            return Stepped::Memory;
        };
        let Ok(()) = self.ran.push(own) else {
            return Stepped::Memory;
        };
        match self.world.step(event) {
            Stepped::Done => {
                self.around.count_commits(commits);
                self.around.renew(event, &self.world);
                Stepped::Done
            }
            refused => {
                self.ran.drop_last();
                refused
            }
        }
    }
}

impl Around {
    /// After an event, which led to this inner world: a crash makes a new pool, and a restart a new side.
    fn renew<K: Keeper>(&mut self, event: &Event, world: &World<K>)
        requires { CanCome (length world.now.clients) world.now.skew.window event.now }
        ensures { (w : Model) → w.clients ≡ clients_in world.now.clients → w.server.table.boot ≡ world.now.server.beside.table.boot
            → self.new ≡ renewed_around event.now w self.old }
    {
        match event {
            Event::Crash { .. } => self.reboot(world.boot()),
            Event::Restart(host) => self.restart(*host, world.client(*host).who()),
            Event::Call { .. } => {}
            Event::Deliver(_) => {}
            Event::ServerTick => {}
            Event::ClientTick(_) => {}
        }
    }
}
