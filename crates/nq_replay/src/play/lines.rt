//! Lines, one after another.

ghost use Rattle.std.specs.Prelude.{◌≡◌, ◌≤◌, ◌+◌, ◌^◌, ◌<◌, List, [], length, slice_get, Some};
ghost use Rattle.nq_model.specs.protocol.World.{Head};
ghost use Rattle.nq_replay.specs.AsidesGoing.{Comes, Goes};
ghost use Rattle.nq_replay.specs.AsidesPlaying.{repeated};
ghost use Rattle.nq_replay.specs.Going.{AreForWorld, IsForWorld, said};
ghost use Rattle.nq_replay.specs.Rules.{play_line, play_lines, play_plain, play_plainly};
ghost use Rattle.nq_replay.specs.RulesGoing.{IsAt};
ghost use Rattle.nq_replay.specs.Text.{HoldsOfAsides, MixedLine, mixed};
ghost use Rattle.nq_replay.specs.declared.play.played.Played.{Played};
ghost use Rattle.nq_script.specs.declared.lines.Line.{Line};
ghost use Rattle.nq_world.specs.Playing.{CanCome};
ghost use Rattle.nq_world.specs.declared.stepped.Stepped.{Stepped};

use crate::asides::aside_at;
use crate::play::delivered::Delivered;
use crate::play::events::{flow, rounds, take_plainly, take_times};
use crate::play::played::Played;
use crate::play::world::OuterWorld;
use nq_base::Event;
use nq_script::{Line, Lines, Script};
use nq_world::Stepped;
use std::alloc::Global;

/// Gives an event of a schedule so many times.
fn take_plainly_times<W: OuterWorld>(
    world: &mut W,
    delivered: &mut Delivered,
    event: Event,
    times: u32,
) -> Stepped
    requires { CanCome (W.hosts world.old) (W.longest world.old) event }
    ensures goes { (head : Head) (moment : W.Moment) → IsAt W.rules W.plays head moment world.old delivered.old
        → Goes result (repeated times (play_plainly W.rules head event) moment) (λ next. IsAt W.rules W.plays head next world.new delivered.new) }
    ensures keeps { W.goes_on result world.old world.new }
{
    let event = W::of_schedule(event);
    take_times(world, delivered, &event, times)
}

/// Plays a line of a schedule, where a flow may have so many deliveries.
fn play_plain<W: OuterWorld>(
    world: &mut W,
    delivered: &mut Delivered,
    hosts: u32,
    most: u32,
    line: Line,
) -> Stepped
    requires hosts { hosts ≤ W.hosts world.old }
    requires can { IsForWorld (W.hosts world.old) (W.longest world.old) line }
    ensures goes { (head : Head) (moment : W.Moment) → head.hosts ≡ hosts → IsAt W.rules W.plays head moment world.old delivered.old
        → Goes result (play_plain W.rules head most line moment) (λ next. IsAt W.rules W.plays head next world.new delivered.new) }
    ensures keeps { W.goes_on result world.old world.new }
{
    match line {
        Line::Events { event, times } => take_plainly_times(world, delivered, event, times),
        Line::Round(times) => rounds(world, delivered, hosts, times),
        Line::Flow => flow(world, delivered, most),
        Line::End => Stepped::Done,
    }
}

/// Plays the line of a schedule at a place, of which a second one is made.
fn play_second<W: OuterWorld>(
    world: &mut W,
    delivered: &mut Delivered,
    hosts: u32,
    most: u32,
    lines: &Lines,
    place: usize,
) -> Stepped
    requires hosts { hosts ≤ W.hosts world.old }
    requires can { AreForWorld (W.hosts world.old) (W.longest world.old) lines.now }
    requires below { place < length lines.now }
    ensures goes { (line : Line) → slice_get lines.now place ≡ Some line → (head : Head) (moment : W.Moment) → head.hosts ≡ hosts
        → IsAt W.rules W.plays head moment world.old delivered.old
        → Goes result (play_plain W.rules head most line moment) (λ next. IsAt W.rules W.plays head next world.new delivered.new) }
    ensures keeps { W.goes_on result world.old world.new }
{
    match lines.get(place) {
        Some(line) => play_plain(world, delivered, hosts, most, line),
        None => unreachable!(),
    }
}

/// Plays the line of a schedule at a place. A delivery, which most lines are, makes no second line.
fn play_plain_at<W: OuterWorld>(
    world: &mut W,
    delivered: &mut Delivered,
    hosts: u32,
    most: u32,
    lines: &Lines,
    place: usize,
) -> Stepped
    requires hosts { hosts ≤ W.hosts world.old }
    requires can { AreForWorld (W.hosts world.old) (W.longest world.old) lines.now }
    requires below { place < length lines.now }
    ensures goes { (line : Line) → slice_get lines.now place ≡ Some line → (head : Head) (moment : W.Moment) → head.hosts ≡ hosts
        → IsAt W.rules W.plays head moment world.old delivered.old
        → Goes result (play_plain W.rules head most line moment) (λ next. IsAt W.rules W.plays head next world.new delivered.new) }
    ensures keeps { W.goes_on result world.old world.new }
{
    match lines.packet_at(place) {
        Some(packet) => take_plainly(world, delivered, Event::Deliver(packet)),
        None => play_second(world, delivered, hosts, most, lines, place),
    }
}

/// Plays the line at a place. An aside delivers nothing.
fn play_at<W: OuterWorld>(
    world: &mut W,
    delivered: &mut Delivered,
    most: u32,
    script: &Script,
    asides: &[Option<W::Aside>],
    place: usize,
) -> Stepped
    requires hosts { script.now.head.hosts ≤ W.hosts world.old }
    requires asides { HoldsOfAsides (W.can_act world.old) asides.now }
    requires can { AreForWorld (W.hosts world.old) (W.longest world.old) script.now.lines }
    requires below { place < length script.now.lines }
    ensures goes { (line : MixedLine W.Aside) → slice_get (mixed asides.now script.now.lines) place ≡ Some line → (head : Head) (moment : W.Moment)
        → head.hosts ≡ script.now.head.hosts → IsAt W.rules W.plays head moment world.old delivered.old
        → Goes result (play_line W.rules head most line moment) (λ next. IsAt W.rules W.plays head next world.new delivered.new) }
    ensures keeps { W.goes_on result world.old world.new }
{
    match aside_at(asides, place) {
        Some(aside) => world.act(aside),
        None => play_plain_at(
            world,
            delivered,
            script.head.hosts,
            most,
            &script.lines,
            place,
        ),
    }
}

/// Where playing stopped. There are fewer lines than a number can count.
fn stopped(first: u32, place: usize, answer: Stepped) -> Played
    requires { first + place < 2 ^ 32 }
    ensures { result ≡ Played.Stopped (first + place) answer }
{
    Played::Stopped {
        line: first + place as u32,
        answer,
    }
}

/// Plays lines over a world, with what some of them say that are asides. No packet was delivered before, and a flow may have so many
/// deliveries.
pub fn play<W: OuterWorld>(
    alloc: Global,
    world: &mut W,
    most: u32,
    script: &Script,
    asides: &[Option<W::Aside>],
) -> Played
    requires hosts { script.now.head.hosts ≤ W.hosts world.old }
    requires asides { HoldsOfAsides (W.can_act world.old) asides.now }
    requires can { AreForWorld (W.hosts world.old) (W.longest world.old) script.now.lines }
    requires few { script.now.first + length script.now.lines < 2 ^ 32 }
    ensures comes { (head : Head) (moment : W.Moment) → head.hosts ≡ script.now.head.hosts → W.rules.scheduled moment ≡ [] → W.plays head moment world.old
        → Comes result (play_lines W.rules head most script.now.first (mixed asides.now script.now.lines) moment) (λ next. W.plays head next world.new) }
    ensures stops { said result ≡ Stepped.Done → result ≡ Played.All }
    ensures keeps { W.goes_on (said result) world.old world.new }
{
    let mut delivered = Delivered::new(alloc);
    for place in 0..script.lines.len() {
        match play_at(world, &mut delivered, most, script, asides, place) {
            Stepped::Done => {}
            answer => return stopped(script.first, place, answer),
        }
    }
    Played::All
}
