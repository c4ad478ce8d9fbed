//! Events at the clients of a world.

ghost use Rattle.std.specs.Prelude.{◌≡◌, ◌<◌, ◌≤◌, ◌+◌, ◌^◌, [], Some, length, IfSome, IsNone};
ghost use Rattle.nq_base.specs.declared.Event.{Event};
ghost use Rattle.nq_datagrams.specs.Incoming.{hears_in};
ghost use Rattle.nq_model.specs.protocol.ClientStep.{client_call, client_tick, next_incarnation, restart};
ghost use Rattle.nq_world.specs.Moving.{ActsAt, Clocks, called, heeded};

use crate::clocks::{shown, time_after};
use nq_base::ending::Fault;
use nq_base::{Answer, Call, Entry, Host, Inc, Journal, Who};
use nq_client::{Client, Reaction, StartClient};
use nq_clock::Skew;
use nq_wire::Outbox;
use std::alloc::Global;
use std::mem;

/// What an answer to a call means for the event.
fn called(answer: &Answer) -> Result<(), Fault>
    ensures { result ≡ called answer.now }
{
    match answer {
        Answer::Memory => Err(Fault::Memory),
        Answer::Spent => Err(Fault::Spent),
        _ => Ok(()),
    }
}

/// What is heard of a tick or a datagram means for the event.
fn heeded(heard: &Reaction) -> Result<(), Fault>
    ensures { result ≡ heeded heard.now }
{
    match heard {
        Reaction::Memory => Err(Fault::Memory),
        Reaction::Spent => Err(Fault::Spent),
        Reaction::Nothing | Reaction::Answered(_) | Reaction::Ignored => Ok(()),
    }
}

/// A user at a host calls.
pub(crate) fn call(
    clients: &mut Vec<Client>,
    host: Host,
    op: &Call,
    out: &mut Outbox,
    log: &mut Journal,
) -> Result<(), Fault>
    requires there { host < length clients.old.items }
    requires empty { out.old.datagrams ≡ [] }
    ensures acts { ActsAt host (λ c. Some (client_call c op.now)) result clients.old.items clients.new.items out.new.datagrams log.old.entries log.new.entries }
    ensures hosts { length clients.new.items ≡ length clients.old.items }
{
    let client = &mut clients[host.0 as usize];
    called(&client.call(op, out, log))
}

/// The clock of a host ticks, and the test of skew follows.
pub(crate) fn tick(
    clients: &mut Vec<Client>,
    skew: &mut Skew,
    host: Host,
    out: &mut Outbox,
    log: &mut Journal,
) -> Result<(), Fault>
    requires there { host < length clients.old.items }
    requires tested { length clients.old.items ≡ length skew.old.hosts }
    requires empty { out.old.datagrams ≡ [] }
    ensures acts { ActsAt host (λ c. Some
        (client_tick c (c.now + 1))) result clients.old.items clients.new.items out.new.datagrams log.old.entries log.new.entries }
    ensures clocks { Clocks result (Event.ClientTick host) skew.old skew.new }
    ensures hosts { length clients.new.items ≡ length clients.old.items }
{
    let client = &mut clients[host.0 as usize];
    let Some(time) = time_after(client.time()) else {
        return Err(Fault::Spent);
    };
    match heeded(&client.tick(time, out, log)) {
        Ok(()) => {
            skew.client_tick(host);
            Ok(())
        }
        Err(why) => Err(why),
    }
}

/// The client of a host, if there is such a host, takes in a datagram, which is the packet of this number.
pub(crate) fn hear(
    clients: &mut Vec<Client>,
    host: Host,
    number: u64,
    datagram: &[u8],
    out: &mut Outbox,
    log: &mut Journal,
) -> Result<(), Fault>
    requires empty { out.old.datagrams ≡ [] }
    ensures acts { ActsAt host (λ c. hears_in c number datagram.now) result clients.old.items clients.new.items
        out.new.datagrams log.old.entries log.new.entries }
    ensures hosts { length clients.new.items ≡ length clients.old.items }
{
    let place = host.0 as usize;
    if place >= clients.len() {
        return Ok(());
    }
    let client = &mut clients[place];
    heeded(&client.receive(number, datagram, out, log))
}

/// The incarnation after this one; None where there is no number for it.
fn next_incarnation(who: &Who) -> Option<Who>
    ensures some { IfSome result (λ next. next ≡ next_incarnation who.now) }
    ensures none { IsNone result → 2 ^ 32 ≤ who.now.inc + 1 }
{
    let number = who.inc.0.checked_add(1)?;
    Some(Who {
        host: who.host,
        inc: Inc(number),
    })
}

/// A host starts again, as the next incarnation: nothing of the last one is left.
pub(crate) fn restart(
    clients: &mut Vec<Client>,
    alloc: Global,
    host: Host,
    out: &mut Outbox,
    log: &mut Journal,
) -> Result<(), Fault>
    requires there { host < length clients.old.items }
    requires empty { out.old.datagrams ≡ [] }
    ensures acts { ActsAt host (λ c. Some (restart c)) result clients.old.items clients.new.items out.new.datagrams log.old.entries log.new.entries }
    ensures hosts { length clients.new.items ≡ length clients.old.items }
{
    log.reserve(1)?;
    let client = &mut clients[host.0 as usize];
    let Some(time) = shown(client.time()) else {
        return Err(Fault::Spent);
    };
    let Some(who) = next_incarnation(&client.who()) else {
        return Err(Fault::Spent);
    };
    match Client::start(alloc, who.host, who.inc, client.term(), time, out) {
        Ok(next) => {
            mem::replace(client, next).stop();
            log.push(Entry::B { who }).unwrap();
            Ok(())
        }
        Err(StartClient::Memory) => Err(Fault::Memory),
    }
}
