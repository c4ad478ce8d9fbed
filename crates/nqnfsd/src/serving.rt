//! Serving over an image.

ghost use Rattle.nq_clock.specs.Clocks.{clock_told};
ghost use Rattle.nq_link.specs.Links.{link_told};
ghost use Rattle.nq_lister.specs.Listing.{is_lookup, reply_in};
ghost use Rattle.nq_serving.specs.Extending.{extension_told};
ghost use Rattle.nq_store.specs.Opening.{back_of};
ghost use Rattle.nqnfsd.specs.Statuses.{EndsSo, IsWithoutParts, end_of_turns, end_unopened, file_at};
ghost use Rattle.std.specs.Prelude.{◌≡◌, ◌≤◌, IfErr, IfOk};

use nq_base::ending::{Ended, Ending, Fault};
use nq_base::{Entry, Host, Journal, Party, Ticks};
use nq_clock::{Clock, StdClock};
use nq_diary::{Diary, Noted};
use nq_disk::{Disk, FileDisk};
use nq_keeper::{KeepFault, Keeper};
use nq_link::{Came, Link};
use nq_lister::Lister;
use nq_server::Server;
use nq_service::mount::{Greeter, Survey, serve_image};
use nq_serving::traffic::CountedLink;
use nq_serving::{Extension, MOST_TURNS, Watcher};
use nq_store::OpenFault;
use nq_udp::{Book, UdpLink};
use nq_wire::Outbox;
use std::alloc::Global;
use std::net::SocketAddr;

// By how many seconds a recovery is longer than the longest term of the boot before it: the skew and the write slack.
const BEYOND: u32 = 8;

/// A watcher who also says what the server begins with, and lists names.
#[derive(Drop)]
pub(crate) struct Teller<'a, R> {
    pub(crate) rt: &'a HostRuntime,
    pub(crate) image: &'a str,
    pub(crate) address: SocketAddr,
    pub(crate) longest: u32,
    pub(crate) diary: Diary,
    /// Whether it was said that a turn could not be noted.
    pub(crate) has_complained: bool,
    pub(crate) report: R,
}

impl<R> Teller<'_, R> {
    /// Says that the journal lacks a turn, at the first one that could not be noted.
    fn look(&mut self, noted: Noted) {
        let why = match noted {
            Noted::All => return,
            Noted::Failed => "it could not be written",
            Noted::Memory => "memory was wanting",
        };
        if !self.has_complained {
            self.has_complained = true;
            let _told = eprintln!(self.rt; "nqnfsd: the journal lacks a turn: {why}");
        }
    }
}

impl<R> Greeter for Teller<'_, R> {
    fn opened(&mut self, survey: &Survey) {
        tell_start(self.rt, self.image, self.address, survey);
        let heads = survey.heads;
        let longest = if heads.opened == 0 {
            self.longest
        } else {
            heads.longest
        };
        let noted = self.diary.note_one(Entry::X {
            boot: heads.boot.saturating_add(1),
            now: Ticks(0),
            longest,
        });
        self.look(noted);
    }
}

impl<L, R: Watcher<L>> Watcher<L> for Teller<'_, R> {
    fn entered(&mut self, log: &Journal) {
        let noted = self.diary.note(log);
        self.look(noted);
        <R as Watcher<L>>::entered(&mut self.report, log);
    }

    fn turned(&mut self, link: &L, now: Ticks, rows: usize, log: &Journal) {
        self.report.turned(link, now, rows, log);
    }
}

impl<R> Extension for Teller<'_, R> {
    ghost owns = { is_lookup };

    ghost replies = { reply_in };

    fn is_own(&self, datagram: &[u8]) -> bool {
        Lister.is_own(datagram)
    }

    fn answer<K: Keeper>(
        &self,
        alloc: Global,
        server: &mut Server<K>,
        host: Host,
        datagram: &[u8],
        out: &mut Outbox,
    ) -> Result<(), KeepFault> {
        Lister.answer(alloc, server, host, datagram, out)
    }
}

/// What of the machine the program serves with.
#[derive(Drop)]
pub(crate) struct Parts {
    pub(crate) disk: FileDisk,
    pub(crate) link: CountedLink<UdpLink<HostRuntime>>,
    pub(crate) clock: StdClock<HostRuntime>,
    pub(crate) address: SocketAddr,
}

/// The file of an image as a disk, the server's link, which is bound, and the clock; or how the program ends without them.
pub(crate) fn parts_of(
    rt: &HostRuntime,
    image: &str,
    book: Book,
    home: Option<SocketAddr>,
) -> Result<Parts, Ending>
    ensures file { IfOk result (λ parts. parts.disk ≡ file_at image.now) }
    ensures without { IfErr result IsWithoutParts }
{
    let Ok(net) = rt.clone() else {
        return Err(Ending::Memory);
    };
    let Some(address) = address_of(&book, home) else {
        let _told = eprintln!(rt;
            "nqnfsd: the book has no line of the server, and --listen is not said"
        );
        return Err(Ending::LinkFault);
    };
    let mut link = UdpLink::with_book(net, Party::Server, book, home);
    if !is_bound(rt, address, &mut link) {
        return Err(Ending::LinkFault);
    }
    let Ok(watch) = rt.clone() else {
        return Err(Ending::Memory);
    };
    let Ok(files) = rt.clone() else {
        return Err(Ending::Memory);
    };
    match FileDisk::new(rt.alloc(), files, image) {
        Ok(disk) => Ok(Parts {
            disk,
            link: CountedLink::new(link),
            clock: StdClock::new(watch),
            address,
        }),
        Err(_) => Err(Ending::Memory),
    }
}

/// Serves over the image on a disk until something stops it, and says why that ended.
pub(crate) fn serve_disk<D: Disk + Drop, L: Link, C: Clock, W: Watcher<L> + Greeter + Extension>(
    rt: &HostRuntime,
    image: &str,
    disk: D,
    longest: u32,
    link: &mut L,
    clock: &mut C,
    watcher: &mut W,
) -> Ended<Ending, D>
    requires long { 5 ≤ longest }
    requires short { longest ≤ 600 }
    ensures ends { EndsSo D.told D.faults D.may_leave D.follows D.leaves (extension_told W.owns W.replies) longest result.end disk result.left
        (clock_told C.floor C.readings C.reads clock.old) (clock_told C.floor C.readings C.reads clock.new)
        (link_told L.sent L.waiting L.faults L.receives link.old)
        (link_told L.sent L.waiting L.faults L.receives link.new) }
{
    match serve_image(rt.alloc(), disk, MOST_TURNS, longest, link, clock, watcher) {
        Ok(ran) => Ended {
            end: tell_end(rt, image, ran.end),
            left: ran.left,
        },
        Err(fault) => tell_fault(rt, image, fault),
    }
}

/// The address at which the server listens: the one that is told, or else its own by the book.
fn address_of(book: &Book, home: Option<SocketAddr>) -> Option<SocketAddr> {
    match home {
        Some(address) => Some(address),
        None => book.address(Party::Server),
    }
}

/// Binds the server's socket, and says why not where it cannot. A datagram that comes at that very moment is lost.
fn is_bound(rt: &HostRuntime, address: SocketAddr, link: &mut UdpLink<HostRuntime>) -> bool {
    match link.receive(&mut [0]) {
        Came::Datagram { .. } | Came::Nothing => true,
        Came::Failed => {
            let _told = match link.taken_port() {
                Some(port) => eprintln!(rt; "nqnfsd: the port {port} is taken"),
                None => eprintln!(rt; "nqnfsd: the address {address} cannot be bound"),
            };
            false
        }
    }
}

/// Says what is wrong with an image.
fn complain(rt: &HostRuntime, image: &str, words: &str) {
    let _told = eprintln!(rt; "nqnfsd: {image}: {words}");
}

/// Says why an image was not opened.
fn tell_fault<D>(rt: &HostRuntime, image: &str, fault: OpenFault<D>) -> Ended<Ending, D>
    ensures end { result.end ≡ end_unopened fault }
    ensures disk { result.left ≡ back_of fault }
{
    match fault {
        OpenFault::NotAnImage(disk) => {
            complain(rt, image, "the file is no image");
            Ended {
                end: Ending::Spent,
                left: disk,
            }
        }
        OpenFault::BadField(disk, place) => {
            let _told = eprintln!(rt; "nqnfsd: {image}: the image is wrong at byte {place}");
            Ended {
                end: Ending::Spent,
                left: disk,
            }
        }
        OpenFault::Failed(disk) => {
            complain(
                rt,
                image,
                "the file cannot be opened, read or written, or another server has it",
            );
            Ended {
                end: Ending::KeepFault,
                left: disk,
            }
        }
        OpenFault::Memory(disk) => Ended {
            end: Ending::Memory,
            left: disk,
        },
    }
}

/// Says what the server begins with.
fn tell_start(rt: &HostRuntime, image: &str, address: SocketAddr, found: &Survey) {
    let boot = found.heads.boot.saturating_add(1);
    let (files, blocks) = (found.space.files, found.space.blocks);
    let recovers = match found.heads.opened {
        0 => 0,
        _ => found.heads.longest.saturating_add(BEYOND),
    };
    let (ip, port) = (address.ip(), address.port());
    let _told = println!(rt;
        "nqnfsd 1: image {image}, boot {boot}, {files} files with {blocks} blocks, {ip} port {port}, recovers for {recovers} seconds"
    );
}

/// Says why serving ended.
fn tell_end(rt: &HostRuntime, image: &str, ended: Result<(), Fault>) -> Ending
    ensures { result ≡ end_of_turns ended }
{
    match ended {
        Ok(()) => Ending::Done,
        Err(Fault::Keep) => {
            complain(rt, image, "the file cannot be read or written");
            Ending::KeepFault
        }
        Err(Fault::Spent) => {
            complain(rt, image, "no number is left for a boot, at byte 8");
            Ending::Spent
        }
        Err(Fault::Link) => Ending::LinkFault,
        Err(Fault::NoAnswer) => Ending::NoAnswer,
        Err(Fault::Memory) => {
            let _told = eprintln!(rt; "nqnfsd: memory was wanting");
            Ending::Memory
        }
    }
}
