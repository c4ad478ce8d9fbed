//! How a host begins, and how it begins again.

use crate::hosting::Hosting;
use crate::link::HostLink;
use nq_base::Who;
use nq_client::Client;
use nq_clock::{Clock, StdClock};
use nq_link::send_all;
use nq_living::{Host, Line};
use nq_wire::Outbox;
use std::alloc::Global;
use std::mem;

/// The term that a client wants, in ticks.
const TERM: u32 = 30;

/// A client that begins an incarnation now, if there is memory for it. It asks the server to attach it.
pub(crate) fn begin(
    alloc: Global,
    who: Who,
    link: &mut HostLink,
    clock: &mut StdClock<HostRuntime>,
    hosting: &mut Hosting,
) -> Option<Client> {
    let (host, inc) = (who.host, who.inc);
    let now = clock.now();
    let mut out = Outbox::new(alloc, 0).unwrap();
    let Ok(client) = Client::start(alloc, host, inc, TERM, now, &mut out) else {
        return None;
    };
    hosting.notes.begin(client.who());
    let _sent = send_all(link, &out);
    link.let_go();
    Some(client)
}

/// Begins an incarnation more: as the server attaches it, it ends the leases of those before. Whether there was memory for it.
pub(crate) fn begin_again(
    alloc: Global,
    who: Who,
    host: &mut Host,
    link: &mut HostLink,
    clock: &mut StdClock<HostRuntime>,
    hosting: &mut Hosting,
) -> bool {
    let Some(client) = begin(alloc, who, link, clock, hosting) else {
        return false;
    };
    mem::replace(&mut host.client, client).stop();
    host.next = 0;
    true
}
