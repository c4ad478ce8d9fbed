//! What a client makes of a notice.

ghost use Rattle.std.specs.Prelude.{◌≡◌, ◌≤◌, OnErr, OnOk};
ghost use Rattle.nq_model.specs.protocol.Hear.{cancelled};
ghost use Rattle.nq_model.specs.protocol.Send.{send_next};
ghost use Rattle.nq_model.specs.protocol.Settle.{settle};
ghost use Rattle.nq_model.specs.protocol.Table.{same_who};
ghost use Rattle.nq_client.specs.Finishing.{HasRooms};
ghost use Rattle.nq_client.specs.Hearing.{is_wanted};
ghost use Rattle.nq_client.specs.Prepared.{IsPrepared};
ghost use Rattle.nq_client.specs.Receiving.{IsHeeded, at_stake, on_call, on_heard};
ghost use Rattle.nq_client.specs.State.{client_of};
ghost use Rattle.nq_client.specs.Step.{HasNumbers, HasRoom, IsBegun, step_of};
ghost use Rattle.nq_client.specs.Tied.{Tied};

use crate::asked::AskedRequest;
use crate::rooms::Rooms;
use crate::step::Step;
use nq_base::{FileId, NoMemory, Request, Who};
use nq_client_parts::wants;
use nq_datagrams::Heard;

/// Whether a request that wants a lease on the file is under way.
fn is_wanted(asked: &Option<AskedRequest>, file: FileId) -> bool
    ensures { result ≡ is_wanted file asked.now }
{
    match asked {
        Some(asked) => wants(asked.request(), file),
        None => false,
    }
}

/// Gives the request under way up where it wants a lease on the file.
fn cancel(asked: &mut Option<AskedRequest>, file: FileId)
    ensures { asked.new ≡ cancelled file asked.old }
{
    if is_wanted(asked, file) {
        match asked.take() {
            Some(given_up) => given_up.spent(),
            None => {}
        }
    }
}

/// Whether two incarnations are one.
pub(crate) fn is_same(who: &Who, other: &Who) -> bool
    ensures { result ≡ same_who who.now other.now }
{
    who.host == other.host && who.inc == other.inc
}

impl Step {
    /// What comes after a datagram that counted, or in a tick: what needs no packet, and the next request.
    pub(crate) fn goes_on(&mut self, in_tick: bool, rooms: &mut Rooms)
        requires rooms { HasRooms rooms.old }
        requires room { HasRoom self.old }
        requires tied { Tied self.old.state.asked self.old.state.dirty.push }
        requires numbers { HasNumbers 2 self.old.state }
        ensures { step_of self.new ≡ send_next in_tick (settle (step_of self.old)) }
    {
        self.settle(&mut rooms.kept);
        self.send_next(in_tick, &mut rooms.sent);
    }

    /// Takes a call of the server in, of which a notice alone counts.
    fn hears_call(&mut self, request: &Request, rooms: &mut Rooms)
        requires rooms { HasRooms rooms.old }
        requires begun { IsBegun self.old }
        requires room { HasRoom self.old }
        requires notices { 1 ≤ self.old.state.notices.spare }
        requires tied { Tied self.old.state.asked self.old.state.dirty.push }
        requires numbers { HasNumbers 3 self.old.state }
        ensures { step_of self.new ≡ on_call (client_of self.old.state) request.now }
    {
        match request {
            Request::Evicted { file, tag, .. } => {
                cancel(&mut self.state.asked, *file);
                self.evicted(*file, *tag);
                self.goes_on(false, rooms);
            }
            _ => {}
        }
    }

    /// Takes in what counts, in the packet of this number.
    ///
    /// # Errors
    ///
    /// Only want of memory, and then nothing changed.
    pub(crate) fn hears(
        &mut self,
        packet: u64,
        heard: &Heard,
        rooms: &mut Rooms,
    ) -> Result<(), NoMemory>
        requires rooms { HasRooms rooms.old }
        requires begun { IsBegun self.old }
        requires prepared { IsPrepared (at_stake self.old.state.asked) self.old }
        requires notices { 1 ≤ self.old.state.notices.spare }
        requires tied { Tied self.old.state.asked self.old.state.dirty.push }
        requires numbers { HasNumbers 3 self.old.state }
        requires heeded { IsHeeded self.old.state.asked heard.now }
        ensures heard { OnOk result (step_of self.new ≡ on_heard (client_of self.old.state) packet heard.now) }
        ensures refused { OnErr result (self.new ≡ self.old) }
    {
        match heard {
            Heard::Notice { request, .. } => {
                self.hears_call(request, rooms);
                Ok(())
            }
            Heard::Reply { reply, .. } => {
                self.replied(packet, reply)?;
                self.goes_on(false, rooms);
                Ok(())
            }
        }
    }
}
