//! The test of skew.

ghost use Rattle.std.specs.Prelude.{◌≡◌, ◌+◌, ◌<◌, ◌≤◌, ◌↔◌, List, [], ◌∷◌, length, map, replicate, Some, IsOk, IsTrue, IfOk, IfErr, OnOk, OnErr};
ghost use Rattle.nq_base.specs.declared.Event.{Event};
ghost use Rattle.nq_model.specs.protocol.Skew.{IsWithinSkew};
ghost use Rattle.nq_model.specs.protocol.SkewBroken.{skew_broken};
ghost use Rattle.nq_clock.specs.Counts.{after_server_tick, first_broken, host_ticked, no_counts};
ghost use Rattle.nq_clock.specs.Tracks.{Follows};

use crate::leads::Leads;
use nq_base::{Host, NoMemory, SkewBroken};
use std::alloc::Global;
use std::marker::Model;

/// The test of skew. Each call costs what the hosts are, however long the window and the history.
///
/// Contracts see the window and the counts of each host, and speak of every history that they may follow, its newest
/// event first.
#[derive(Drop)]
pub struct Skew {
    window: u32,
    hosts: Vec<Leads>,
}

impl Model for Skew {
    ghost use Rattle.std.specs.Prelude.{◌≤◌, length};
    ghost use Rattle.nq_clock.specs.Counts.{SkewCounts};

    ghost Value = { SkewCounts };

    ghost view = { λ s. record { window = s.window; hosts = s.hosts.items } };

    ghost invariant = { λ s. (s.window ≤ 600) × (length s.hosts.items ≤ 64) };
}

impl Skew {
    /// The test for so many hosts, 1 to 64, before any event. The window is the longest term in ticks, 5 to 600.
    pub fn new(alloc: Global, hosts: u32, window: u32) -> Result<Skew, NoMemory>
        requires some { 1 ≤ hosts }
        requires hosts { hosts ≤ 64 }
        requires shortest { 5 ≤ window }
        requires longest { window ≤ 600 }
        ensures hosts { IfOk result (λ skew. length skew.hosts ≡ hosts) }
        ensures window { IfOk result (λ skew. skew.window ≡ window) }
        ensures begins { IfOk result (λ skew. Follows skew []) }
    {
        Ok(Skew {
            window,
            hosts: new_hosts(alloc, hosts)?,
        })
    }

    /// A host's clock ticks.
    pub fn client_tick(&mut self, host: Host)
        requires { host < length self.old.hosts }
        ensures hosts { length self.new.hosts ≡ length self.old.hosts }
        ensures window { self.new.window ≡ self.old.window }
        ensures follows { (events : List Event) → Follows self.old events → Follows self.new (Event.ClientTick host ∷ events) }
    {
        let window = self.window;
        tick_one(&mut self.hosts, host, window);
    }

    /// The server's clock ticks.
    ///
    /// # Errors
    ///
    /// Exactly where the history with this tick would not be within skew: the lowest host for which a part of it that
    /// ends with this tick breaks the rule, and for that host the part with the fewest ticks of its clock. Then nothing
    /// changed.
    pub fn server_tick(&mut self) -> Result<(), SkewBroken>
        ensures hosts { length self.new.hosts ≡ length self.old.hosts }
        ensures window { self.new.window ≡ self.old.window }
        ensures within { (events : List Event) → Follows self.old events
            → IsOk result ↔ IsWithinSkew (length self.old.hosts) self.old.window (Event.ServerTick ∷ events) }
        ensures follows { OnOk result ((events : List Event) → Follows self.old events → Follows self.new (Event.ServerTick ∷ events)) }
        ensures broken { IfErr result (λ broken. (events : List Event) → Follows self.old events
            → skew_broken (length self.old.hosts) self.old.window events ≡ Some broken) }
        ensures unchanged { OnErr result (self.new ≡ self.old) }
    {
        match first_broken(&self.hosts) {
            Some(broken) => Err(broken),
            None => {
                tick_each(&mut self.hosts);
                Ok(())
            }
        }
    }

    /// What a tick of the server's clock would break now; None exactly where it may tick.
    pub fn broken(&self) -> Option<SkewBroken>
        ensures { (events : List Event) → Follows self.now events
            → result ≡ skew_broken (length self.now.hosts) self.now.window events }
    {
        first_broken(&self.hosts)
    }

    /// Whether the server's clock may tick now.
    pub fn lawful(&self) -> bool
        ensures { (events : List Event) → Follows self.now events
            → IsTrue result ↔ IsWithinSkew (length self.now.hosts) self.now.window (Event.ServerTick ∷ events) }
    {
        first_broken(&self.hosts).is_none()
    }
}

/// So many hosts, before any event.
fn new_hosts(alloc: Global, count: u32) -> Result<Vec<Leads>, NoMemory>
    ensures { IfOk result (λ hosts. hosts.items ≡ replicate count no_counts) }
{
    let Ok(mut hosts) = Vec::with_capacity(alloc, count as usize) else {
        return Err(NoMemory::Memory);
    };
    for _ in 0..count {
        hosts.push(Leads::new(alloc)?).unwrap();
    }
    Ok(hosts)
}

/// The clock of one host ticks.
fn tick_one(hosts: &mut Vec<Leads>, host: Host, window: u32)
    requires host { host < length hosts.old.items }
    requires window { window ≤ 600 }
    ensures { hosts.new.items ≡ host_ticked window host hosts.old.items }
{
    let leads = &mut hosts[host.0 as usize];
    leads.host_tick(window);
}

/// The server's clock ticks, as each host sees it.
fn tick_each(hosts: &mut Vec<Leads>)
    ensures { hosts.new.items ≡ map after_server_tick hosts.old.items }
{
    for leads in hosts.iter_mut() {
        leads.server_tick();
    }
}

/// The lowest host whose clock has ticked too seldom for one more tick of the server's.
fn first_broken(hosts: &[Leads]) -> Option<SkewBroken>
    requires { length hosts.now ≤ 64 }
    ensures { result ≡ first_broken 0 hosts.now }
{
    for (host, leads) in hosts.iter().enumerate() {
        if let Some(client) = leads.three_more() {
            return Some(SkewBroken {
                host: Host(host as u32),
                server: client + 4,
                client,
            });
        }
    }
    None
}
