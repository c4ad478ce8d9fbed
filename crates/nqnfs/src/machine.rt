//! A run over what the machine has: its clock, its streams, its links over UDP, and the file of an image, or a disk in memory.

ghost use Rattle.std.specs.Prelude.{◌≡◌, ◌+◌, ℕ, List, None, Some, IfOk, codes, length, map, true, vec_len};
ghost use Rattle.nq_base.specs.Status.{status_of};
ghost use Rattle.nq_base.specs.declared.ending.ending.Ending.{Ending};
ghost use Rattle.nq_command.specs.Commands.{command_of};
ghost use Rattle.nq_command.specs.declared.commands.Command.{Command};
ghost use Rattle.nq_run.specs.Frames.{makes_a_run};
ghost use Rattle.nq_run.specs.Setting.{place_of};
ghost use Rattle.nq_run.specs.declared.setting.Place.{Place};
ghost use Rattle.nq_udp.specs.UdpLink.{IsBoundBy};

use crate::top::ran;
use nq_base::Party;
use nq_clock::StdClock;
use nq_disk::{Disk, FileDisk};
use nq_io::streams::{StdSink, StdSource};
use nq_run::{CommandWords, NoMemory, Place, blank_disk, parties_of, party_of, place_of};
use nq_udp::UdpLink;
use std::io;

// The file in which a server keeps its files.
const IMAGE: &str = "nqnfs.img";

/// Runs what the words say, with the links of a loop and the link of the party that they name; the status.
pub(crate) fn run(rt: &HostRuntime, words: &CommandWords) -> Result<u8, NoMemory>
    ensures never { IfOk result (λ status. command_of words.now ≡ None → status ≡ status_of Ending.Usage) }
{
    let parties = parties_of(rt.alloc(), words)?;
    let mut links = links_of(rt, parties.as_slice())?;
    let mut link = UdpLink::new(rt.clone()?, party_of(words));
    let links = links.as_mut_slice();
    match place_of(words) {
        Place::File => run_over(rt, words, image(rt)?, &mut link, links),
        Place::Memory => run_over(rt, words, blank_disk(rt.alloc())?, &mut link, links),
    }
}

/// The file with the image, as a disk. It is opened at its first call.
fn image(rt: &HostRuntime) -> Result<FileDisk, NoMemory>
    ensures { IfOk result (λ disk. disk.path ≡ codes "nqnfs.img") }
{
    FileDisk::new(rt.alloc(), rt.clone()?, IMAGE)
}

/// Runs what the words say, over a disk and the clock of the machine; the status.
fn run_over<D: Disk + Drop>(
    rt: &HostRuntime,
    words: &CommandWords,
    disk: D,
    link: &mut UdpLink<HostRuntime>,
    links: &mut [UdpLink<HostRuntime>],
) -> Result<u8, NoMemory>
    requires tells { makes_a_run (command_of words.now) ≡ true → (bytes : List ℕ) × (D.told disk ≡ Some bytes) }
    requires lasts { place_of (command_of words.now) ≡ Place.File → D.told disk ≡ None }
    requires links { (hosts turns : ℕ) → command_of words.now ≡ Some (Command.Loop hosts turns) → length links.old ≡ hosts + 1 }
    ensures never { IfOk result (λ status. command_of words.now ≡ None → status ≡ status_of Ending.Usage) }
{
    let alloc = rt.alloc();
    let mut clock = StdClock::new(rt.clone()?);
    let mut input = StdSource::new(rt.reader());
    let mut out = StdSink::new(io::writer(rt));
    let ended = ran(
        alloc, words, &mut input, &mut out, disk, link, links, &mut clock,
    )?;
    tell_taken(rt, link);
    for link in links.iter() {
        tell_taken(rt, link);
    }
    Ok(ended.end)
}

/// Says which port another program has, if the link could not have its own.
fn tell_taken(rt: &HostRuntime, link: &UdpLink<HostRuntime>) {
    if let Some(port) = link.taken_port() {
        let _told = eprintln!(rt; "the port {port} is taken");
    }
}

/// The links of a loop. All are bound before the first turn, so that no early datagram is lost.
fn links_of(rt: &HostRuntime, parties: &[Party]) -> Result<Vec<UdpLink<HostRuntime>>, NoMemory>
    ensures parties { IfOk result (λ links. map (λ link. link.me) links.items ≡ parties.now) }
    ensures count { IfOk result (λ links. vec_len links ≡ length parties.now) }
{
    let mut links = Vec::new(rt.alloc());
    for party in parties {
        links.push(opened(link_of(rt, *party)?))?;
    }
    Ok(links)
}

/// The link of a party in a loop. A turn waits at the server's alone.
fn link_of(rt: &HostRuntime, party: Party) -> Result<UdpLink<HostRuntime>, NoMemory>
    ensures { IfOk result (λ link. link.me ≡ party) }
{
    let net = rt.clone()?;
    match party {
        Party::Server => Ok(UdpLink::new(net, party)),
        Party::Client(_) => Ok(UdpLink::without_wait(net, party)),
    }
}

/// A link whose socket is bound where it listens, if the machine lets it.
fn opened(link: UdpLink<HostRuntime>) -> UdpLink<HostRuntime>
    ensures same { result ≡ record link { bound = result.bound } }
    ensures bound { IsBoundBy link result.bound }
{
    let mut link = link;
    link.open();
    link
}
