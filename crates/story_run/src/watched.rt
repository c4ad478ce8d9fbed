//! A server that serves on over an image, while somebody looks on.

ghost use Rattle.std.specs.Prelude.{None, false};

use crate::parts::{disk_of, post_of};
use crate::post::{PostLink, StoryClock};
use crate::scenes::LAST;
use nq_base::{Host, Journal, Party, Ticks};
use nq_io::streams::StdSink;
use nq_keeper::{KeepFault, Keeper};
use nq_server::Server;
use nq_service::mount::{Greeter, Survey, serve_image};
use nq_serving::traffic::{CountedLink, Gauge, Report};
use nq_serving::{Extension, Nobody, Watcher};
use nq_wire::Outbox;
use std::alloc::Global;
use std::cell::RefCell;
use std::io;
use std::rc::Rc;

/// The longest term that the server grants.
const LONGEST: u32 = 60;

/// After how many seconds a line of counts is printed.
const EVERY: u64 = 10;

/// Somebody who prints what the image holds, and then hands on what the server did.
#[derive(Drop)]
struct Onlooker<'a, R> {
    rt: &'a HostRuntime,
    report: R,
}

impl<R> Greeter for Onlooker<'_, R> {
    fn opened(&mut self, survey: &Survey) {
        tell_survey(self.rt, survey);
    }
}

impl<L, R: Watcher<L>> Watcher<L> for Onlooker<'_, R> {
    fn entered(&mut self, log: &Journal) {
        self.report.entered(log);
    }

    fn turned(&mut self, link: &L, now: Ticks, rows: usize, log: &Journal) {
        self.report.turned(link, now, rows, log);
    }
}

impl<R> Extension for Onlooker<'_, R> {
    ghost owns = { λ _. false };

    ghost replies = { λ _ _ _. None };

    fn is_own(&self, datagram: &[u8]) -> bool {
        Nobody.is_own(datagram)
    }

    fn answer<K: Keeper>(
        &self,
        alloc: Global,
        server: &mut Server<K>,
        host: Host,
        datagram: &[u8],
        out: &mut Outbox,
    ) -> Result<(), KeepFault> {
        Nobody.answer(alloc, server, host, datagram, out)
    }
}

/// A gauge that knows nothing.
#[derive(Drop)]
struct Unknown;

impl Gauge for Unknown {
    fn kilobytes(&mut self) -> Option<u64> {
        None
    }
}

/// Prints what an image holds.
fn tell_survey(rt: &HostRuntime, survey: &Survey) {
    let (files, blocks) = (survey.space.files, survey.space.blocks);
    let _told = println!(rt; "boot {} files {files} blocks {blocks}", survey.heads.boot);
}

/// Takes so many turns of a server over an image that is made for it, and prints what somebody is told who looks on, and whether all
/// turns were taken.
pub(crate) fn tell_watched(rt: &HostRuntime, scene: &str, turns: &str) -> Option<()> {
    let turns = u32::from_str_radix(turns, 10).unwrap_or(0);
    let all = serve_watched(rt, scene, turns)?;
    let end = if all {
        "all turns were taken"
    } else {
        "the server stopped"
    };
    println!(rt; "{end}").ok()
}

/// Takes so many turns of a server while somebody looks on; whether all were taken.
fn serve_watched(rt: &HostRuntime, scene: &str, turns: u32) -> Option<bool> {
    let alloc = rt.alloc();
    let post = Rc::new(alloc, RefCell::new(post_of(alloc, scene).ok()?)).ok()?;
    let mut link = CountedLink::new(PostLink::new(post, Party::Server, false).refusing());
    let mut onlooker = Onlooker {
        rt,
        report: Report::new(alloc, StdSink::new(io::writer(rt)), Unknown, Some(EVERY)),
    };
    let disk = disk_of(alloc, scene, Vec::new(alloc)).ok()?;
    let served = serve_image(
        alloc,
        disk,
        u64::from(turns),
        LONGEST,
        &mut link,
        &mut StoryClock::to(LAST),
        &mut onlooker,
    );
    match served {
        Ok(ran) => Some(ran.end.is_ok()),
        Err(_) => Some(false),
    }
}
