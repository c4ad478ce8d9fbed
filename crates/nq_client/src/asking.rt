//! What a client needs to send next, where no request is under way.

ghost use Rattle.std.specs.Prelude.{◌≡◌, ◌<◌, ◌^◌, nat_le, true, Some, IfSome};
ghost use Rattle.nq_base.specs.declared.Request.{Request};
ghost use Rattle.nq_client_parts.specs.HoldingLeases.{lease_of};
ghost use Rattle.nq_model.specs.protocol.Client.{lease_on};
ghost use Rattle.nq_model.specs.protocol.Hear.{holds_caching};
ghost use Rattle.nq_model.specs.protocol.Send.{read_want, shares_live, want_of};
ghost use Rattle.nq_client.specs.Asking.{change_need, need_by, need_of, next, push_due, push_for, put_need, read_need, renewal, renewal_of, write_need};
ghost use Rattle.nq_wire.specs.Request.{HasSpelling};
ghost use Rattle.nq_client.specs.State.{client_of, under_way};

use crate::state::{State, UnderWay};
use nq_base::{BlockNo, Call, FileId, Mode, Request, Want, Who};
use nq_client_parts::dirty::Dirty;
use nq_client_parts::holding::Held;

/// What a client needs to send.
#[derive(Drop)]
pub(crate) enum Need {
    /// Delayed writes of a file, which has some.
    Push(FileId),
    /// The WRITE of the call under way, which goes through.
    Through(FileId, BlockNo),
    /// A request of the call under way that takes no sequence.
    Ask(Request),
    /// A request of the call under way that takes the next sequence.
    Order(Request),
    /// Likewise, once the lease on the file is given up.
    Change(FileId, Request),
}

/// A push of a file, if it has delayed writes.
fn push_for(dirty: &Dirty, file: FileId) -> Option<Need>
    ensures { result ≡ push_for file dirty.now.dirty dirty.now.push }
{
    if dirty.is_clean(file) {
        None
    } else {
        Some(Need::Push(file))
    }
}

/// A push that is due, if its file has delayed writes.
fn push_due(dirty: &Dirty, file: Option<FileId>) -> Option<Need>
    ensures { result ≡ push_due dirty.now.dirty dirty.now.push file }
{
    match file {
        Some(file) => push_for(dirty, file),
        None => None,
    }
}

/// A put: its file is pushed where its write was delayed, else the write goes through.
fn put_need(
    dirty: &Dirty,
    file: FileId,
    block: BlockNo,
    written: bool,
    may_ask: bool,
) -> Option<Need>
    ensures { result ≡ put_need file block dirty.now.dirty dirty.now.push written may_ask }
{
    if written {
        push_for(dirty, file)
    } else {
        may_ask.then_some(Need::Through(file, block))
    }
}

/// A resize or removal: the file is pushed until it is clean; then its lease is given up, and the request is sent.
fn change_need(dirty: &Dirty, file: FileId, may_ask: bool, request: Request) -> Option<Need>
    ensures { result ≡ change_need file dirty.now.dirty dirty.now.push may_ask request }
{
    if dirty.is_clean(file) {
        may_ask.then_some(Need::Change(file, request))
    } else {
        Some(Need::Push(file))
    }
}

/// The READ of a call.
fn read_need(who: Who, call: u64, file: FileId, block: BlockNo, want: Option<Want>) -> Need
    ensures { result ≡ read_need who call file block want }
{
    Need::Ask(Request::Read {
        who,
        call,
        file,
        block,
        want,
    })
}

impl State {
    /// Whether the file is shared for writing under a lease that runs.
    fn is_shared(&self, file: FileId) -> bool
        ensures { result ≡ shares_live self.now.time (lease_on file self.now.leases.items) }
    {
        self.leases.shares(file, self.time)
    }

    /// A want of this kind, with the term that the client wants.
    fn want(&self, mode: Mode) -> Want
        ensures { result ≡ want_of (client_of self.now) mode }
    {
        Want {
            mode,
            term: self.term,
        }
    }

    /// The GETLEASE of a lease of this kind.
    fn get_lease(&self, file: FileId, mode: Mode) -> Request
        ensures { result ≡ Request.GetLease self.now.who file (want_of (client_of self.now) mode) }
    {
        Request::GetLease {
            who: self.who,
            file,
            want: self.want(mode),
        }
    }

    /// What a read wants: a reading lease, and none where a non-caching lease runs.
    fn read_want(&self, file: FileId) -> Option<Want>
        ensures { result ≡ read_want (client_of self.now) file }
    {
        if self.is_shared(file) {
            None
        } else {
            Some(self.want(Mode::Reading))
        }
    }

    /// A write that was not delayed goes through where it is to or where a non-caching lease runs, else a lease is wanted.
    fn write_need(&self, through: bool, file: FileId, block: BlockNo) -> Need
        ensures { result ≡ write_need (client_of self.now) through file block }
    {
        if through || self.is_shared(file) {
            return Need::Through(file, block);
        }
        Need::Ask(self.get_lease(file, Mode::Writing))
    }

    /// The RESIZE of a call.
    fn resize(&self, call: u64, file: FileId, blocks: u32) -> Request
        ensures { result ≡ Request.Resize self.now.who self.now.seq call file blocks }
    {
        Request::Resize {
            who: self.who,
            seq: self.seq,
            call,
            file,
            blocks,
        }
    }

    /// The REMOVE of a call.
    fn remove(&self, call: u64, file: FileId) -> Request
        ensures { result ≡ Request.Remove self.now.who self.now.seq call file }
    {
        Request::Remove {
            who: self.who,
            seq: self.seq,
            call,
            file,
        }
    }

    /// What a call needs that is under way. Where the client pauses, it needs a push at most.
    fn need_by(&self, u: &UnderWay) -> Option<Need>
        ensures { result ≡ need_by (client_of self.now) (under_way u.now) (nat_le self.now.pause self.now.time) u.now.call }
    {
        let may_ask = self.pause <= self.time;
        let (who, seq, call) = (self.who, self.seq, u.q);
        match u.call {
            Call::Create { name, blocks } => may_ask.then_some(Need::Order(Request::Create {
                who,
                seq,
                name,
                blocks,
            })),
            Call::Lookup { name } => may_ask.then_some(Need::Ask(Request::Lookup { who, name })),
            Call::Attr { file } => may_ask.then_some(Need::Ask(Request::GetAttr { who, file })),
            Call::Read { file, block } => {
                may_ask.then_some(read_need(who, call, file, block, self.read_want(file)))
            }
            Call::Fetch { file, block } => may_ask.then_some(read_need(
                who, call, file, block, None,
            )),
            Call::Write { file, block, .. } => {
                may_ask.then_some(self.write_need(u.through, file, block))
            }
            Call::Put { file, block, .. } => {
                put_need(&self.dirty, file, block, u.written, may_ask)
            }
            Call::Sync { file } => push_for(&self.dirty, file),
            Call::Resize { file, blocks } => {
                change_need(&self.dirty, file, may_ask, self.resize(call, file, blocks))
            }
            Call::Remove { file } => {
                change_need(&self.dirty, file, may_ask, self.remove(call, file))
            }
        }
    }

    /// What the call under way needs, if there is one.
    fn need_of(&self) -> Option<Need>
        ensures { result ≡ need_of (client_of self.now) (client_of self.now).call }
    {
        match &self.call {
            Some(u) => self.need_by(u),
            None => None,
        }
    }

    /// What is sent next, renewals apart: a push for the least file with a notice; else one for the least file whose lease is
    /// about to end; else what the call under way needs.
    pub(crate) fn next(&self) -> Option<Need>
        requires { self.now.time < 2 ^ 62 }
        ensures { result ≡ next (client_of self.now) }
    {
        let noticed = push_due(&self.dirty, self.notices.first());
        let ending = push_due(&self.dirty, self.dirty.ending(self.time, &self.leases));
        noticed.or(ending.or(self.need_of()))
    }

    /// The request that renews a caching lease, in the kind that is held.
    fn renewal_of(&self, held: &Held) -> Request
        requires { holds_caching (lease_of held.now) ≡ true }
        ensures request { Some result ≡ renewal_of (client_of self.now) (lease_of held.now) }
        ensures spelled { HasSpelling result }
    {
        match held {
            Held::Reading(lease) => self.get_lease(lease.file, Mode::Reading),
            Held::Writing(lease) => self.get_lease(lease.file, Mode::Writing),
            Held::NonCaching(_) | Held::Nothing => unreachable!(),
        }
    }

    /// The renewal in a tick's step: that of the lease that is due on the least file, unless the client pauses.
    pub(crate) fn renewal(&self, in_tick: bool) -> Option<Request>
        ensures request { result ≡ renewal in_tick (client_of self.now) }
        ensures spelled { IfSome result HasSpelling }
    {
        if !in_tick || self.time < self.pause {
            return None;
        }
        match self.dirty.renewed(self.time, &self.leases, &self.notices) {
            Some(file) => Some(self.renewal_of(&self.leases.on(file))),
            None => None,
        }
    }
}
