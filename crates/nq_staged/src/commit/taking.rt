//! Packets that are taken in, and bodies that are offered.

ghost use Rattle.std.specs.Prelude.{◌≡◌, ◌<◌, [], List, None, Some, true, length, slice_get, slice_set, IfOk, IfSome, OnOk, OnErr};
ghost use Rattle.std.specs.Option.{option_map};
ghost use Rattle.nq_base.specs.declared.Event.{Event};
ghost use Rattle.nq_base.specs.declared.Party.{Party};
ghost use Rattle.nq_staged.specs.Around.{offers_at, once_sent, over, side_offers};
ghost use Rattle.nq_staged.specs.Taking.{IsTakenIn, running, taken_by};
ghost use Rattle.nq_model.specs.protocol.Client.{Client};
ghost use Rattle.nq_model.specs.protocol.World.{World};
ghost use Rattle.nq_stage.specs.Answering.{own_commit, own_stage};
ghost use Rattle.nq_stage.specs.Outside.{beside, heard_by, inner_delivery, offers, served_commit, served_stage, takes};
ghost use Rattle.nq_stage.specs.Staged.{new_stager};

use crate::commit::around::{Around, HostSide, Outgoing};
use nq_base::{Host, NoMemory, Party, Who};
use nq_client_parts::dirty::Dirty;
use nq_stage::pool::{Rebuilt, Staging};
use nq_stage::stager::{HeardStage, Stager};
use std::alloc::Global;

/// What comes of a packet that is taken in.
#[derive(Clone, Copy)]
pub(crate) enum PacketTaken {
    /// It is no event of the inner world, and was taken in.
    Beside,
    /// It is the delivery of the inner packet of this number, which is to be run.
    Inner {
        /// The number of that packet.
        number: u64,
        /// Whether it is a COMMIT, which is to be counted.
        commit: bool,
    },
    /// Memory was wanting, and nothing was done.
    Memory,
}

impl Around {
    /// Takes in the packet of a number, which travels.
    pub(crate) fn take_in(&mut self, number: u64) -> PacketTaken
        requires there { number < length self.old.sent }
        requires settled { self.old.due ≡ None }
        ensures { IfSome (slice_get self.old.sent number) (λ p. IsTakenIn result p.stands self.old self.new (λ w ran. takes (over w ran self.old) p p.to)) }
    {
        match self.read(number) {
            Ok(packet) => self.take_packet(&packet),
            Err(NoMemory::Memory) => PacketTaken::Memory,
        }
    }

    /// Takes in a packet.
    fn take_packet(&mut self, packet: &Outgoing) -> PacketTaken
        requires { self.old.due ≡ None }
        ensures { IsTakenIn result packet.now.stands self.old self.new (λ w ran. takes (over w ran self.old) packet.now packet.now.to) }
    {
        match packet.to {
            Party::Server => match packet.sender {
                Party::Server => delivery(packet.stands),
                Party::Client(host) => self.serve(host, packet),
            },
            Party::Client(host) => match packet.stands {
                Some(number) => PacketTaken::Inner {
                    number,
                    commit: false,
                },
                None => self.hear(host, packet),
            },
        }
    }

    /// The server takes in a packet of a host: a STAGE is given to the pool.
    #[tactic(auto, using(crate::proofs::TakenIn::stage_taken))]
    fn serve(&mut self, host: Host, packet: &Outgoing) -> PacketTaken
        requires { self.old.due ≡ None }
        ensures { IsTakenIn result packet.now.stands self.old self.new
            (λ w ran. served_stage (over w ran self.old) host packet.now (own_stage host packet.now.bytes)) }
    {
        let Some(staged) = self.counts.staged.checked_add(1) else {
            return PacketTaken::Memory;
        };
        match self.pool.stage(self.alloc, host, &packet.bytes) {
            Staging::Reply(reply) => {
                self.counts.staged = staged;
                self.put_packet(reply_to(host, reply));
                PacketTaken::Beside
            }
            Staging::NotStage => self.serve_commit(host, packet),
            Staging::Memory => PacketTaken::Memory,
        }
    }

    /// The server takes in a packet of a host that is no STAGE: a COMMIT is given to the pool.
    fn serve_commit(&mut self, host: Host, packet: &Outgoing) -> PacketTaken
        requires { self.old.due ≡ None }
        ensures { IsTakenIn result packet.now.stands self.old self.new
            (λ w ran. served_commit (over w ran self.old) host packet.now (own_commit host packet.now.bytes)) }
    {
        let Some(unstaged) = self.counts.unstaged.checked_add(1) else {
            return PacketTaken::Memory;
        };
        match self.pool.rebuild(self.alloc, host, &packet.bytes) {
            Rebuilt::Write(_write) => self.rebuilt(packet.stands),
            Rebuilt::Unstaged(reply) => {
                self.counts.unstaged = unstaged;
                self.due = Some(reply_to(host, reply));
                PacketTaken::Beside
            }
            Rebuilt::NotCommit => delivery(packet.stands),
            Rebuilt::Memory => PacketTaken::Memory,
        }
    }

    /// A COMMIT was rebuilt that stands for this inner packet. One that stands for none is counted alone.
    fn rebuilt(&mut self, stands: Option<u64>) -> PacketTaken
        requires { self.old.due ≡ None }
        ensures { IsTakenIn result stands self.old self.new (λ w ran. inner_delivery (running true w ran self.old) stands) }
    {
        if let Some(number) = stands {
            return PacketTaken::Inner {
                number,
                commit: true,
            };
        }
        let Some(commits) = self.counts.commits.checked_add(1) else {
            return PacketTaken::Memory;
        };
        self.counts.commits = commits;
        PacketTaken::Beside
    }

    /// A host's side takes in a packet that stands for no inner one.
    fn hear(&mut self, host: Host, packet: &Outgoing) -> PacketTaken
        requires { self.old.due ≡ None }
        ensures { IsTakenIn result None self.old self.new (λ w ran. heard_by (over w ran self.old) host packet.now (slice_get self.old.sides host)) }
    {
        let place = host.0 as usize;
        if place >= self.sides.len() {
            return PacketTaken::Beside;
        }
        let side = &mut self.sides[place];
        let last = side.last;
        match side.stager.heard(self.alloc, &packet.bytes) {
            HeardStage::Again(write) => {
                self.due = Some(Outgoing {
                    sender: Party::Client(host),
                    to: Party::Server,
                    bytes: write,
                    stands: last,
                });
                PacketTaken::Beside
            }
            HeardStage::Acknowledged | HeardStage::Other => PacketTaken::Beside,
            HeardStage::Memory => PacketTaken::Memory,
        }
    }

    /// A host's side offers a body of these delayed writes.
    #[tactic(auto, using(crate::proofs::TakenIn::offers_shown))]
    pub(crate) fn offer(&mut self, host: Host, dirty: &Dirty) -> Result<(), NoMemory>
        requires { self.old.due ≡ None }
        ensures offers { OnOk result ((w : World) (ran : List Event) (c : Client) → c.dirty ≡ dirty.now.dirty → c.push ≡ dirty.now.push
            → once_sent w ran self.new ≡ offers (over w ran self.old) host (slice_get self.old.sides host) (Some c)) }
        ensures gone { self.new.gone ≡ self.old.gone }
        ensures refused { OnErr result (self.new ≡ self.old) }
    {
        let stage = offer_at(&mut self.sides, self.alloc, host, dirty)?;
        match stage {
            Some(stage) => {
                self.put_packet(stage_from(host, stage));
                Ok(())
            }
            None => Ok(()),
        }
    }

    /// The server booted: the pool is empty.
    pub(crate) fn reboot(&mut self, boot: u32)
        ensures { self.new ≡ record self.old { pool = record { boot = boot; bodies = [] } } }
    {
        self.pool.reboot(boot);
    }

    /// A host started again: its side is a new one.
    pub(crate) fn restart(&mut self, host: Host, who: Who)
        ensures { self.new ≡ record self.old { sides = slice_set self.old.sides host (record { stager = new_stager who; last = None }) } }
    {
        let place = host.0 as usize;
        if place < self.sides.len() {
            self.sides[place] = HostSide {
                stager: Stager::new(self.alloc, who),
                last: None,
            };
        }
    }
}

/// What comes of a packet that stands for this inner packet, or for none.
fn delivery(stands: Option<u64>) -> PacketTaken
    ensures { result ≡ taken_by stands }
{
    match stands {
        Some(number) => PacketTaken::Inner {
            number,
            commit: false,
        },
        None => PacketTaken::Beside,
    }
}

/// A host's STAGE, which stands for no inner packet.
fn stage_from(host: Host, bytes: Vec<u8>) -> Outgoing
    ensures { result ≡ beside (Party.Client host) Party.Server bytes.items }
{
    Outgoing {
        sender: Party::Client(host),
        to: Party::Server,
        bytes,
        stands: None,
    }
}

/// The STAGE that the side of a host offers of these delayed writes, if there is such a side.
fn offer_at(
    sides: &mut Vec<HostSide>,
    alloc: Global,
    host: Host,
    dirty: &Dirty,
) -> Result<Option<Vec<u8>>, NoMemory>
    ensures offers { IfOk result (λ o. (option_map (λ v. v.items) o, sides.new.items)
        ≡ offers_at sides.old.items host dirty.now.dirty dirty.now.push (slice_get sides.old.items host)) }
    ensures refused { OnErr result (sides.new.items ≡ sides.old.items) }
{
    let place = host.0 as usize;
    if place >= sides.len() {
        return Ok(None);
    }
    offer_by(&mut sides[place], alloc, dirty)
}

/// The STAGE that a side offers of these delayed writes.
#[tactic(auto, using(crate::proofs::TakenIn::offers_some, crate::proofs::TakenIn::offers_nothing))]
fn offer_by(side: &mut HostSide, alloc: Global, dirty: &Dirty) -> Result<Option<Vec<u8>>, NoMemory>
    ensures offers { IfOk result (λ o. (option_map (λ v. v.items) o, side.new) ≡ side_offers side.old dirty.now.dirty dirty.now.push) }
    ensures refused { OnErr result (side.new ≡ side.old) }
{
    match side.stager.offer(alloc, dirty)? {
        Some(stage) => Ok(Some(stage)),
        None => Ok(None),
    }
}

/// The server's reply to a host, which stands for no inner packet.
fn reply_to(host: Host, bytes: Vec<u8>) -> Outgoing
    ensures { result ≡ beside Party.Server (Party.Client host) bytes.items }
{
    Outgoing {
        sender: Party::Server,
        to: Party::Client(host),
        bytes,
        stands: None,
    }
}
