//! What is the machine's: its clock, UDP, and a disk in a file.

use crate::page::{digits, say};
use nq_base::{Host, Party};
use nq_clock::{Clock, StdClock};
use nq_disk::{Disk, FileDisk};
use nq_link::{Came, Link, Sent};
use nq_udp::UdpLink;
use std::net::{IpAddr, Ipv4Addr, SocketAddr, UdpSocket};
use std::time::Duration;
use std::{fs, thread};

const PATH: &str = "story_parts.img";

/// The port of host 42.
const PORT: u16 = 20603;

/// Tries a part of the machine.
pub(crate) fn try_part(rt: &HostRuntime, part: &str, page: &mut Vec<u8>) {
    say(page, "== ");
    say(page, part);
    match part {
        "clock" => clocks(rt, page),
        "UDP" => {
            strangers(rt, page);
        }
        _ => {
            disks(rt, page);
        }
    }
    say(page, "\n");
}

/// Two readings of the machine's clock, between which a second passes. The clock has not run for a minute.
fn clocks(rt: &HostRuntime, page: &mut Vec<u8>) {
    if let Ok(machine) = rt.clone() {
        let mut clock = StdClock::new(machine);
        let first = clock.now().0;
        thread::sleep(rt, Duration::from_secs(1));
        let second = clock.now().0;
        let is_so = first < second && second < 60;
        say(page, if is_so { "\ntrue" } else { "\nfalse" });
    }
}

/// The link of a host.
fn link_of(rt: &HostRuntime, host: u32) -> Option<UdpLink<HostRuntime>> {
    Some(UdpLink::new(rt.clone().ok()?, Party::Client(Host(host))))
}

/// Tells the length of the datagram that comes next from a host, if one comes.
fn receive(link: &mut UdpLink<HostRuntime>, page: &mut Vec<u8>) {
    let mut room = [0u8; 4401];
    for _ in 0..100 {
        if let Came::Datagram { length, sender } = link.receive(&mut room) {
            let is_host = sender == Party::Client(Host(43));
            say(page, "\n");
            digits(page, length as u64, 10);
            say(
                page,
                if is_host {
                    " bytes true"
                } else {
                    " bytes false"
                },
            );
            return;
        }
    }
    say(page, "\nnothing");
}

/// Sends a datagram to a host, and tells whether it was taken.
fn send(link: &mut UdpLink<HostRuntime>, host: u32, datagram: &[u8], page: &mut Vec<u8>) {
    let is_sent = link.send(Party::Client(Host(host)), datagram) == Sent::All;
    say(
        page,
        if is_sent {
            "\nsent true"
        } else {
            "\nsent false"
        },
    );
}

/// Sends a datagram to host 42 from a port that is nobody's.
fn ask_as_stranger(rt: &HostRuntime) {
    let local = IpAddr::V4(Ipv4Addr::LOCALHOST);
    if let Ok(stranger) = UdpSocket::bind(rt, SocketAddr::new(local, 0)) {
        stranger.send_to(b"ask", SocketAddr::new(local, PORT)).ok();
    }
}

/// A stranger, at a port that is nobody's, is not heard. A datagram may be empty, and a long one is cut. There is no host 64.
fn strangers(rt: &HostRuntime, page: &mut Vec<u8>) -> Option<()> {
    let mut here = link_of(rt, 42)?;
    let mut there = link_of(rt, 43)?;
    // The socket is bound in the first call.
    receive(&mut here, page);
    ask_as_stranger(rt);
    send(&mut there, 42, b"", page);
    send(&mut there, 42, &[7; 5000], page);
    for _ in 0..3 {
        receive(&mut here, page);
    }
    send(&mut here, 64, b"ask", page);
    Some(())
}

/// A disk in a file.
fn disk_of(rt: &HostRuntime, path: &str) -> Option<FileDisk> {
    let disk = FileDisk::new(rt.alloc(), rt.clone().ok()?, path).ok()?;
    Some(disk)
}

/// Tells whether something was done.
fn tell_done(page: &mut Vec<u8>, what: &str, is_done: bool) {
    say(page, what);
    say(page, if is_done { "Some(())" } else { "None" });
}

/// Tells bytes as a text.
fn tell_text(page: &mut Vec<u8>, bytes: &[u8]) {
    say(page, "\n\"");
    for byte in bytes {
        match *byte {
            0 => say(page, "\\0"),
            other => {
                page.push(other).ok();
            }
        }
    }
    say(page, "\"");
}

/// A file is a disk for one at a time.
fn disks(rt: &HostRuntime, page: &mut Vec<u8>) -> Option<()> {
    let mut disk = disk_of(rt, PATH)?;
    let mut other = disk_of(rt, PATH)?;
    let mut nowhere = disk_of(rt, "no_folder/none.img")?;
    tell_done(page, "\nwrite ", disk.write_at(3, b"abc").is_ok());
    tell_done(page, "\nsync ", disk.sync().is_ok());
    tell_done(page, "\nsize of another ", other.size().is_ok());
    drop(disk);
    let mut into = *b"------";
    if let Ok(count) = other.read(2, &mut into) {
        say(page, "\nread Some(");
        digits(page, count as u64, 10);
        say(page, ")");
    }
    tell_text(page, &into);
    fs::remove_file(rt, PATH).ok();
    tell_done(page, "\nsync ", nowhere.sync().is_ok());
    Some(())
}
