//! What hosts keep of names, as events change it.

ghost use Rattle.std.specs.Prelude.{◌≡◌, ◌<◌, ◌^◌, ◌≤◌, ◌↔◌, ◌&&◌, not, true, [], ◌++◌, List, length, Some, option_map, slice_get, slice_set, vec_len, IsTrue};
ghost use Rattle.std.specs.Prelude.{IfOk, OnErr, OnOk};
ghost use Rattle.nq_base.specs.declared.Event.{Event};
ghost use Rattle.nq_model.specs.protocol.Client.{Client};
ghost use Rattle.nq_model.specs.protocol.World.{World};
ghost use Rattle.nq_directory.specs.Asking.{Asks, heard, lists_dir};
ghost use Rattle.nq_directory.specs.NameCacheNames.{Names, before_call, new_names};
ghost use Rattle.nq_name_server.specs.Around.{IsAsked, asked_as, once_sent, over, to_server};
ghost use Rattle.nq_name_server.specs.Outside.{at_side, heard_by, is_changing, lists};

use crate::around::around::Around;
use crate::server::NUMBERS_END;
use nq_base::{Call, Host, NoMemory, Party, Ticks, Who};
use nq_directory::Prefix;
use nq_directory::name_cache::NameCache;
use nq_wire::Outbox;
use std::alloc::Global;

impl Around {
    /// A host takes in a packet that is none of the inner world, at this time of its clock: it is given to the names that the host keeps,
    /// if it is there. The next READDIRLOOK asks for a lease of this term.
    ///
    /// # Errors
    ///
    /// `NoMemory` where memory is wanting, or at a time from 2^62 on; nothing is changed then.
    pub fn hear(
        &mut self,
        host: Host,
        datagram: &[u8],
        term: u32,
        now: Ticks,
    ) -> Result<(), NoMemory>
        requires { self.old.due ≡ [] }
        ensures hears { OnOk result ((w : World) (ran : List Event) (c : Client) → c.term ≡ term → c.now ≡ now
            → once_sent w ran self.new ≡ heard_by (over w ran self.old) host datagram.now (slice_get self.old.sides host) (Some c)) }
        ensures gone { self.new.gone ≡ self.old.gone }
        ensures refused { OnErr result (self.new ≡ self.old) }
    {
        if now.0 >= NUMBERS_END {
            return Err(NoMemory::Memory);
        }
        if self.is_there(host) {
            self.hear_there(host, datagram, term, now)
        } else {
            Ok(())
        }
    }

    /// Whether a host is there.
    fn is_there(&self, host: Host) -> bool
        ensures { IsTrue result ↔ (host < length self.now.sides) }
    {
        (host.0 as usize) < self.sides.len()
    }

    /// A host that is there takes in a packet.
    fn hear_there(
        &mut self,
        host: Host,
        datagram: &[u8],
        term: u32,
        now: Ticks,
    ) -> Result<(), NoMemory>
        requires early { now < 2 ^ 62 }
        requires settled { self.old.due ≡ [] }
        requires there { host < length self.old.sides }
        ensures hears { OnOk result ((n : Names) → slice_get self.old.sides host ≡ Some n → self.new ≡ asked_as self.old host (heard n datagram.now term now)) }
        ensures gone { self.new.gone ≡ self.old.gone }
        ensures refused { OnErr result (self.new ≡ self.old) }
    {
        self.due.reserve(1)?;
        let sent = heard_at(
            &mut self.sides,
            self.alloc,
            host.0 as usize,
            datagram,
            term,
            now,
        )?;
        self.sender = Party::Client(host);
        post(&mut self.due, sent);
        Ok(())
    }

    /// A host that may asks for the list of a directory under a lease of this term, at this time of its clock, if it is there.
    ///
    /// # Errors
    ///
    /// `NoMemory` where memory is wanting, or at a time from 2^62 on; nothing is changed then.
    pub fn ask_for(
        &mut self,
        host: Host,
        prefix: &Prefix,
        term: u32,
        now: Ticks,
    ) -> Result<(), NoMemory>
        requires { self.old.due ≡ [] }
        ensures asks { OnOk result ((w : World) (ran : List Event) (c : Client) → c.term ≡ term → c.now ≡ now → (c.attached && not (is_changing c.call)) ≡ true
            → once_sent w ran self.new ≡ lists (over w ran self.old) host prefix.now (slice_get self.old.sides host) (Some c)) }
        ensures gone { self.new.gone ≡ self.old.gone }
        ensures refused { OnErr result (self.new ≡ self.old) }
    {
        if now.0 >= NUMBERS_END {
            return Err(NoMemory::Memory);
        }
        if self.is_there(host) {
            self.ask_there(host, prefix, term, now)
        } else {
            Ok(())
        }
    }

    /// A host that is there asks for the list of a directory.
    fn ask_there(
        &mut self,
        host: Host,
        prefix: &Prefix,
        term: u32,
        now: Ticks,
    ) -> Result<(), NoMemory>
        requires early { now < 2 ^ 62 }
        requires settled { self.old.due ≡ [] }
        requires there { host < length self.old.sides }
        ensures asks { OnOk result ((n : Names) → slice_get self.old.sides host ≡ Some n
            → self.new ≡ asked_as self.old host (lists_dir n prefix.now term now)) }
        ensures gone { self.new.gone ≡ self.old.gone }
        ensures refused { OnErr result (self.new ≡ self.old) }
    {
        self.due.reserve(1)?;
        let sent = asked_at(
            &mut self.sides,
            self.alloc,
            host.0 as usize,
            prefix,
            term,
            now,
        )?;
        self.sender = Party::Client(host);
        post(&mut self.due, Some(sent));
        Ok(())
    }

    /// A host started again as this incarnation: it keeps no names. One that is not there keeps none anyway.
    pub fn restart(&mut self, host: Host, who: Who)
        ensures { self.new ≡ record self.old { sides = slice_set self.old.sides host (new_names who) } }
    {
        if self.is_there(host) {
            self.sides[host.0 as usize].restart(who);
        }
    }

    /// A user of a host is about to make this call: the names that it may change are forgotten, if the host is there.
    pub fn before_call(&mut self, host: Host, call: &Call)
        ensures { self.new ≡ record self.old { sides = at_side (λ n. before_call n call.now) self.old.sides host (slice_get self.old.sides host) } }
    {
        if self.is_there(host) {
            self.sides[host.0 as usize].before_call(call);
        }
    }
}

/// What the host at a place makes of a datagram.
fn heard_at(
    sides: &mut Vec<NameCache>,
    alloc: Global,
    place: usize,
    datagram: &[u8],
    term: u32,
    now: Ticks,
) -> Result<Option<Vec<u8>>, NoMemory>
    requires early { now < 2 ^ 62 }
    requires there { place < vec_len sides.old }
    ensures heard { IfOk result (λ o. (n : Names) → slice_get sides.old.items place ≡ Some n
        → IsAsked sides.old.items sides.new.items place (option_map (λ v. v.items) o) (heard n datagram.now term now)) }
    ensures refused { OnErr result (sides.new.items ≡ sides.old.items) }
{
    sides[place].heard(alloc, datagram, term, now)
}

/// The READDIRLOOK of the host at a place for the list of a directory.
fn asked_at(
    sides: &mut Vec<NameCache>,
    alloc: Global,
    place: usize,
    prefix: &Prefix,
    term: u32,
    now: Ticks,
) -> Result<Vec<u8>, NoMemory>
    requires early { now < 2 ^ 62 }
    requires there { place < vec_len sides.old }
    ensures asks { IfOk result (λ v. (n : Names) → slice_get sides.old.items place ≡ Some n
        → IsAsked sides.old.items sides.new.items place (Some v.items) (lists_dir n prefix.now term now)) }
    ensures refused { OnErr result (sides.new.items ≡ sides.old.items) }
{
    sides[place].list(alloc, prefix, term, now)
}

/// What a host sends to the server is due, if it sends anything; there is room for it.
fn post(due: &mut Outbox, sent: Option<Vec<u8>>)
    requires { 1 ≤ due.old.spare }
    ensures { due.new.datagrams ≡ due.old.datagrams ++ to_server (option_map (λ v. v.items) sent) }
{
    if let Some(bytes) = sent {
        due.push(Party::Server, bytes).unwrap();
    }
}
