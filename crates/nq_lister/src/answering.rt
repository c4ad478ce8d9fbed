//! READDIRLOOK beside a server that is left running.

ghost use Rattle.std.specs.Prelude.{◌≡◌, Some, IfOk, true};
ghost use Rattle.std.specs.Option.{ForSome};
ghost use Rattle.nq_directory.specs.Files.{leaf_of};
ghost use Rattle.nq_directory.specs.Messages.{answer_bytes, page};
ghost use Rattle.nq_lister.specs.Listing.{is_attached, is_lookup, listing_of, names_behind, page_of, reply_in, reply_to, told_by};
ghost use Rattle.nq_server.specs.State.{server_of};
ghost use Rattle.nq_serving.specs.Extending.{AddsReply, ReadsOnly};

use crate::pages::read_on;
use nq_base::{Host, NoMemory, Party, Who};
use nq_directory::BegunLeaf;
use nq_directory::listing::{BegunPage, ReadDir, later_bytes, read_read_dir};
use nq_keeper::{KeepFault, Keeper};
use nq_server::Server;
use nq_serving::Extension;
use nq_wire::Outbox;
use std::alloc::Global;

/// The most files that a server keeps.
const MOST_FILES: u32 = 256;

/// The most hosts that there may be.
const MOST_HOSTS: u32 = 64;

/// Answers each READDIRLOOK of an attached incarnation of the host that sends it. Any other one gets no reply.
#[derive(Clone, Copy)]
pub struct Lister;

impl Extension for Lister {
    ghost owns = { is_lookup };

    ghost replies = { reply_in };

    fn is_own(&self, datagram: &[u8]) -> bool {
        read_read_dir(datagram).is_some()
    }

    fn answer<K: Keeper>(
        &self,
        alloc: Global,
        server: &mut Server<K>,
        host: Host,
        datagram: &[u8],
        out: &mut Outbox,
    ) -> Result<(), KeepFault> {
        server.pause();
        match read_read_dir(datagram) {
            Some(request) => answer_to(alloc, server, host, &request, out),
            None => Ok(()),
        }
    }
}

/// Answers a READDIRLOOK of a host.
fn answer_to<K: Keeper>(
    alloc: Global,
    server: &mut Server<K>,
    host: Host,
    request: &ReadDir,
    out: &mut Outbox,
) -> Result<(), KeepFault>
    ensures first { out.new.first ≡ out.old.first }
    ensures replies { AddsReply result (K.content server.old.keeper) (λ kept. reply_to (server_of server.old.beside kept) host (Some request.now)) host
        out.old.datagrams out.new.datagrams }
    ensures reads { ReadsOnly K.content K.faults K.follows K.leaves result server.old server.new }
{
    if is_attached(server, host, request.who)? {
        give(alloc, server, request, out)
    } else {
        Ok(())
    }
}

/// Whether a request is of the host that sent it, and of the incarnation that is kept for that.
fn is_attached<K: Keeper>(server: &mut Server<K>, host: Host, who: Who) -> Result<bool, KeepFault>
    ensures told { ForSome (K.content server.old.keeper) (λ kept. IfOk result (λ so. so ≡ is_attached kept host who)) }
    ensures host { IfOk result (λ so. so ≡ true → who.host ≡ host) }
    ensures reads { ReadsOnly K.content K.faults K.follows K.leaves result server.old server.new }
{
    server.pause();
    if who.host != host {
        return Ok(false);
    }
    if host.0 >= MOST_HOSTS {
        return Ok(false);
    }
    let inc = server.kept_inc(host)?;
    Ok(who.inc == inc)
}

/// Gives a page, or says while the server recovers that the host is to ask again later.
fn give<K: Keeper>(
    alloc: Global,
    server: &mut Server<K>,
    request: &ReadDir,
    out: &mut Outbox,
) -> Result<(), KeepFault>
    ensures first { out.new.first ≡ out.old.first }
    ensures gives { AddsReply result (K.content server.old.keeper)
        (λ kept. Some (answer_bytes request.now.xid request.now.who.inc (told_by server.old.beside.phase kept.files request.now)))
        request.now.who.host out.old.datagrams out.new.datagrams }
    ensures reads { ReadsOnly K.content K.faults K.follows K.leaves result server.old server.new }
{
    let reply = reply(alloc, server, request)?;
    out.push(Party::Client(request.who.host), reply)?;
    Ok(())
}

/// The reply to a READDIRLOOK.
fn reply<K: Keeper>(
    alloc: Global,
    server: &mut Server<K>,
    request: &ReadDir,
) -> Result<Vec<u8>, KeepFault>
    ensures told { ForSome (K.content server.old.keeper) (λ kept. IfOk result (λ v. v.items
        ≡ answer_bytes request.now.xid request.now.who.inc (told_by server.old.beside.phase kept.files request.now))) }
    ensures reads { ReadsOnly K.content K.faults K.follows K.leaves result server.old server.new }
{
    server.pause();
    if server.is_serving() {
        page_reply(alloc, server, request)
    } else {
        Ok(later_bytes(alloc, request.xid, request.who.inc.0)?)
    }
}

/// The reply with a page.
fn page_reply<K: Keeper>(
    alloc: Global,
    server: &mut Server<K>,
    request: &ReadDir,
) -> Result<Vec<u8>, KeepFault>
    ensures told { ForSome (K.content server.old.keeper) (λ kept. IfOk result (λ v. v.items
        ≡ answer_bytes request.now.xid request.now.who.inc (page (page_of (names_behind request.now.prefix request.now.after kept.files))))) }
    ensures reads { ReadsOnly K.content K.faults K.follows K.leaves result server.old server.new }
{
    let page = read_page(alloc, server, request)?;
    Ok(page_bytes(alloc, request, &page)?)
}

/// The bytes of a reply with this page.
#[tactic(auto, unfolding(nq_directory::specs::Messages::answer_bytes, nq_directory::specs::Messages::results))]
fn page_bytes(alloc: Global, request: &ReadDir, begun: &BegunLeaf) -> Result<Vec<u8>, NoMemory>
    ensures { IfOk result (λ v. v.items ≡ answer_bytes request.now.xid request.now.who.inc (page (listing_of begun.now.leaf))) }
{
    let reply = BegunPage::new(
        alloc,
        request.xid,
        request.who.inc.0,
        begun.names(),
        begun.more(),
    )?;
    Ok(reply.end(&None))
}

/// Reads a page from what is kept.
fn read_page<K: Keeper>(
    alloc: Global,
    server: &mut Server<K>,
    request: &ReadDir,
) -> Result<BegunLeaf, KeepFault>
    ensures told { ForSome (K.content server.old.keeper) (λ kept. IfOk result (λ p. p.leaf
        ≡ leaf_of (names_behind request.now.prefix request.now.after kept.files))) }
    ensures reads { ReadsOnly K.content K.faults K.follows K.leaves result server.old server.new }
{
    server.pause();
    let mut page = BegunLeaf::new(alloc, request.after)?;
    'files: for _file in 0..=MOST_FILES {
        let next = server.next_file(page.last())?;
        if read_on(&mut page, &request.prefix, next) {
            return Ok(page);
        }
    }
    Err(KeepFault::Memory)
}
