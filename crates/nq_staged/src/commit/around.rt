//! What stands around an inner world.

ghost use Rattle.std.specs.Prelude.{◌≡◌, ◌<◌, ◌≤◌, ◌+◌, [], ◌∷◌, ◌++◌, List, None, Some, length, map, slice_get, IfOk, IfSome, OnOk, OnErr};
ghost use Rattle.nq_base.specs.declared.Event.{Event};
ghost use Rattle.nq_base.specs.declared.Party.{Party};
ghost use Rattle.nq_staged.specs.Around.{counted, datagram_of, due_as, flushed, new_around, passed, passed_at, prepared, prepared_from, shown, travelling};
ghost use Rattle.nq_model.specs.protocol.World.{World};
ghost use Rattle.nq_link.specs.Packets.{Datagram};
ghost use Rattle.nq_world.specs.Shown.{datagram};

use nq_base::{Host, NoMemory, Party};
use nq_link::net::Packets;
use nq_stage::pool::Pool;
use nq_stage::run::StagedCounts;
use nq_stage::stager::Stager;
use std::alloc::Global;
use std::marker::Model;

/// What a host's side keeps. Clauses see it as the definitions do.
#[derive(Drop)]
pub(crate) struct HostSide {
    pub(crate) stager: Stager,
    /// The number of the inner packet that it shortened last.
    pub(crate) last: Option<u64>,
}

impl Model for HostSide {
    ghost use Rattle.nq_stage.specs.Outer.{Side};

    ghost Value = { Side };

    ghost view = { λ s. record { stager = s.stager; last = s.last } };
}

/// A packet on its way out. Clauses see it as the definitions do.
#[derive(Drop)]
pub(crate) struct Outgoing {
    pub(crate) sender: Party,
    pub(crate) to: Party,
    pub(crate) bytes: Vec<u8>,
    /// The number of the inner packet for which it stands.
    pub(crate) stands: Option<u64>,
}

impl Model for Outgoing {
    ghost use Rattle.nq_stage.specs.Outer.{Outer};

    ghost Value = { Outer };

    ghost view = { λ p. record { sender = p.sender; to = p.to; bytes = p.bytes.items; stands = p.stands } };
}

/// The pool at the server of an inner world, a side at each host, the packets that travel, and what was counted. What an event makes
/// goes out before the next one, so that memory that is refused for it changes nothing.
#[derive(Drop)]
pub(crate) struct Around {
    pub(crate) alloc: Global,
    pub(crate) pool: Pool,
    pub(crate) sides: Vec<HostSide>,
    packets: Packets,
    /// For which packet of the inner world each packet stands.
    stands: Vec<Option<u64>>,
    /// The packet that goes out next.
    pub(crate) due: Option<Outgoing>,
    /// How many packets of the inner world have gone out.
    gone: u64,
    pub(crate) counts: StagedCounts,
}

impl Model for Around {
    ghost use Rattle.std.specs.Prelude.{◌≡◌, length};
    ghost use Rattle.nq_staged.specs.Around.{AroundOver, counts_of, travelling};

    ghost Value = { AroundOver };

    ghost view = { λ a. record {
      pool = a.pool;
      sides = a.sides.items;
      sent = travelling a.packets.datagrams a.stands.items;
      due = a.due;
      gone = a.gone;
      counts = counts_of a.counts;
    } };

    ghost invariant = { λ a. length a.packets.datagrams ≡ length a.stands.items };
}

impl Around {
    /// These sides and an empty pool: nothing travels yet.
    pub(crate) fn new(alloc: Global, boot: u32, sides: Vec<HostSide>) -> Result<Around, NoMemory>
        ensures { IfOk result (λ a. a ≡ new_around boot sides.items) }
    {
        Ok(Around {
            alloc,
            pool: Pool::new(alloc, boot)?,
            sides,
            packets: Packets::new(alloc)?,
            stands: Vec::new(alloc),
            due: None,
            gone: 0,
            counts: StagedCounts {
                staged: 0,
                commits: 0,
                unstaged: 0,
            },
        })
    }

    /// How many packets have gone out.
    #[tactic(auto, using(crate::proofs::Travelling::length_travelling))]
    pub(crate) fn sent(&self) -> u64
        ensures { result ≡ length self.now.sent }
    {
        self.packets.len()
    }

    /// The packets that have gone out.
    #[tactic(auto, using(crate::proofs::Travelling::datagrams_travelling))]
    pub(crate) fn packets(&self) -> &Packets
        ensures { result.now.datagrams ≡ map datagram_of self.now.sent }
    {
        &self.packets
    }

    /// The packet of a number that travels.
    #[tactic(auto, using(crate::proofs::Travelling::at_travelling))]
    pub(crate) fn read(&self, number: u64) -> Result<Outgoing, NoMemory>
        requires { number < length self.now.sent }
        ensures { IfOk result (λ p. slice_get self.now.sent number ≡ Some p) }
    {
        let Some(stands) = stands_at(&self.stands, number) else {
            return Err(NoMemory::Memory);
        };
        let Some(packet) = self.packets.get(number) else {
            unreachable!()
        };
        let mut bytes = Vec::new(self.alloc);
        packet.bytes_into(&mut bytes)?;
        Ok(Outgoing {
            sender: packet.sender(),
            to: packet.to(),
            bytes,
            stands: *stands,
        })
    }

    /// How many COMMITs are counted behind an event, which is one or not; None where there is no number for it.
    pub(crate) fn commits_after(&self, commit: bool) -> Option<u32>
        ensures { IfSome result (λ n. n ≡ (counted commit self.now.counts).commits) }
    {
        if commit {
            self.counts.commits.checked_add(1)
        } else {
            Some(self.counts.commits)
        }
    }

    /// So many COMMITs are counted.
    pub(crate) fn count_commits(&mut self, commits: u32)
        ensures { self.new ≡ record self.old { counts = record self.old.counts { commits = commits } } }
    {
        self.counts.commits = commits;
    }

    /// Sends what is due, and all that the inner world sent, whose packets these are: a host's pushes go through that host's side. Where
    /// memory is wanting, what has not gone out yet does so at the next call.
    pub(crate) fn settle(&mut self, packets: &Packets) -> Result<(), NoMemory>
        ensures shows { (w : World) (ran : List Event) → packets.now.datagrams ≡ map datagram w.packets → shown w ran self.new ≡ shown w ran self.old }
        ensures none { OnOk result (self.new.due ≡ None) }
        ensures all { OnOk result (length packets.now.datagrams ≤ self.new.gone) }
        ensures gone { self.old.gone ≤ length packets.now.datagrams → self.new.gone ≤ length packets.now.datagrams }
    {
        self.flush_shown()?;
        'packets: while self.gone < packets.len() {
            self.send_next(packets)?;
        }
        Ok(())
    }

    /// Sends the next packet of the inner world, where nothing is due.
    fn send_next(&mut self, packets: &Packets) -> Result<(), NoMemory>
        requires there { self.old.gone < length packets.now.datagrams }
        requires settled { self.old.due ≡ None }
        ensures shows { (w : World) (ran : List Event) → packets.now.datagrams ≡ map datagram w.packets → shown w ran self.new ≡ shown w ran self.old }
        ensures none { OnOk result (self.new.due ≡ None) }
        ensures gone { OnOk result (self.new.gone ≡ self.old.gone + 1) }
        ensures most { self.new.gone ≤ self.old.gone + 1 }
    {
        self.prepare_shown(packets)?;
        self.flush_shown()
    }

    /// Sends what is due.
    fn flush_shown(&mut self) -> Result<(), NoMemory>
        ensures shows { (w : World) (ran : List Event) → shown w ran self.new ≡ shown w ran self.old }
        ensures none { OnOk result (self.new.due ≡ None) }
        ensures gone { self.new.gone ≡ self.old.gone }
    {
        self.flush()
    }

    /// Makes the next packet of the inner world due, where nothing is.
    fn prepare_shown(&mut self, packets: &Packets) -> Result<(), NoMemory>
        requires there { self.old.gone < length packets.now.datagrams }
        requires settled { self.old.due ≡ None }
        ensures shows { (w : World) (ran : List Event) → packets.now.datagrams ≡ map datagram w.packets → shown w ran self.new ≡ shown w ran self.old }
        ensures gone { OnOk result (self.new.gone ≡ self.old.gone + 1) }
        ensures refused { OnErr result (self.new ≡ self.old) }
    {
        self.prepare(packets)
    }

    /// Sends what is due.
    fn flush(&mut self) -> Result<(), NoMemory>
        ensures sent { OnOk result (self.new ≡ flushed self.old) }
        ensures refused { OnErr result (self.new ≡ self.old) }
    {
        let Some(due) = &self.due else {
            return Ok(());
        };
        push(&mut self.packets, &mut self.stands, due)?;
        self.due = None;
        Ok(())
    }

    /// Makes the next packet of the inner world due.
    fn prepare(&mut self, packets: &Packets) -> Result<(), NoMemory>
        requires { self.old.gone < length packets.now.datagrams }
        ensures prepared { (d : Datagram) → slice_get packets.now.datagrams self.old.gone ≡ Some d → OnOk result (self.new ≡ prepared self.old d) }
        ensures refused { OnErr result (self.new ≡ self.old) }
    {
        let Some(packet) = packets.get(self.gone) else {
            unreachable!()
        };
        let mut bytes = Vec::new(self.alloc);
        packet.bytes_into(&mut bytes)?;
        self.make_due(packet.sender(), packet.to(), bytes)
    }

    /// Makes a packet of the inner world with these bytes due.
    fn make_due(&mut self, sender: Party, to: Party, bytes: Vec<u8>) -> Result<(), NoMemory>
        ensures prepared { OnOk result (self.new ≡ prepared_from self.old (record { sender = sender; to = to; bytes = bytes.items }) sender) }
        ensures refused { OnErr result (self.new ≡ self.old) }
    {
        match sender {
            Party::Server => self.pass_server(to, bytes),
            Party::Client(host) => self.pass_client(host, to, bytes),
        }
    }

    /// Makes a packet of the server due.
    fn pass_server(&mut self, to: Party, bytes: Vec<u8>) -> Result<(), NoMemory>
        ensures prepared { OnOk result (self.new ≡ prepared_from self.old (record { sender = Party.Server; to = to; bytes = bytes.items }) Party.Server) }
        ensures refused { OnErr result (self.new ≡ self.old) }
    {
        let Some(gone) = self.gone.checked_add(1) else {
            return Err(NoMemory::Memory);
        };
        self.put_due(Party::Server, to, bytes, gone);
        Ok(())
    }

    /// Makes a packet of a host due, through that host's side.
    #[tactic(auto, using(crate::proofs::Sending::due_passed))]
    fn pass_client(&mut self, host: Host, to: Party, bytes: Vec<u8>) -> Result<(), NoMemory>
        ensures prepared { OnOk result (self.new
            ≡ prepared_from self.old (record { sender = Party.Client host; to = to; bytes = bytes.items }) (Party.Client host)) }
        ensures refused { OnErr result (self.new ≡ self.old) }
    {
        let number = self.gone;
        let Some(gone) = number.checked_add(1) else {
            return Err(NoMemory::Memory);
        };
        let bytes = pass_at(&mut self.sides, self.alloc, host.0 as usize, number, bytes)?;
        self.put_due(Party::Client(host), to, bytes, gone);
        Ok(())
    }

    /// Makes the next packet of the inner world due, as these bytes. So many packets have gone out then.
    fn put_due(&mut self, sender: Party, to: Party, bytes: Vec<u8>, gone: u64)
        requires { gone ≡ self.old.gone + 1 }
        ensures { self.new ≡ due_as self.old (record { sender = sender; to = to; bytes = bytes.items }) bytes.items self.old.sides }
    {
        self.due = Some(Outgoing {
            sender,
            to,
            bytes,
            stands: Some(self.gone),
        });
        self.gone = gone;
    }

    /// This packet goes out next.
    pub(crate) fn put_packet(&mut self, packet: Outgoing)
        ensures { self.new ≡ record self.old { due = Some packet } }
    {
        self.due = Some(packet);
    }
}

/// For which packet of the inner world the packet of a number stands.
fn stands_at(stands: &Vec<Option<u64>>, number: u64) -> Option<&Option<u64>>
    ensures { IfSome result (λ s. slice_get stands.now.items number ≡ Some s.now) }
{
    stands.get(number as usize)
}

/// The bytes as which a host's packet of this number goes out, through that host's side, if there is one.
fn pass_at(
    sides: &mut Vec<HostSide>,
    alloc: Global,
    place: usize,
    number: u64,
    bytes: Vec<u8>,
) -> Result<Vec<u8>, NoMemory>
    ensures passed { IfOk result (λ v. (v.items, sides.new.items) ≡ passed_at number sides.old.items place bytes.items (slice_get sides.old.items place)) }
    ensures refused { OnErr result (sides.new.items ≡ sides.old.items) }
{
    if place >= sides.len() {
        return Ok(bytes);
    }
    pass(&mut sides[place], alloc, number, bytes)
}

/// The bytes as which a packet of this number goes out through a side.
#[tactic(auto, using(crate::proofs::Sending::passes_short, crate::proofs::Sending::passes_whole))]
fn pass(
    side: &mut HostSide,
    alloc: Global,
    number: u64,
    bytes: Vec<u8>,
) -> Result<Vec<u8>, NoMemory>
    ensures passed { IfOk result (λ v. (v.items, side.new) ≡ passed number side.old bytes.items) }
    ensures refused { OnErr result (side.new ≡ side.old) }
{
    match side.stager.shorten(alloc, &bytes)? {
        Some(commit) => {
            side.last = Some(number);
            Ok(commit)
        }
        None => Ok(bytes),
    }
}

/// Adds a packet to those that travel.
#[tactic(auto, using(crate::proofs::Travelling::travelling_more))]
fn push(
    packets: &mut Packets,
    stands: &mut Vec<Option<u64>>,
    due: &Outgoing,
) -> Result<(), NoMemory>
    requires { length packets.old.datagrams ≡ length stands.old.items }
    ensures sent { OnOk result (travelling packets.new.datagrams stands.new.items ≡ travelling packets.old.datagrams stands.old.items ++ due.now ∷ []) }
    ensures refused { OnErr result ((packets.new.datagrams ≡ packets.old.datagrams) × (stands.new.items ≡ stands.old.items)) }
    ensures together { length packets.new.datagrams ≡ length stands.new.items }
{
    stands.reserve(1)?;
    packets.push(due.sender, due.to, &due.bytes)?;
    stands.push(due.stands).unwrap();
    Ok(())
}
