//! READDIRLOOK, DIRVACATED, and requests that change a directory, as the server's side takes them in.

ghost use Rattle.std.specs.Prelude.{◌≡◌, [], List, Ok, reverse, OnOk, OnErr, IfOk};
ghost use Rattle.nq_base.specs.declared.Event.{Event};
ghost use Rattle.nq_datagrams.specs.Incoming.{datagram_in};
ghost use Rattle.nq_directory.specs.Reading.{dir_vacated_in, read_dir_in};
ghost use Rattle.nq_model.specs.protocol.World.{Head, World as Model, run};
ghost use Rattle.nq_name_server.specs.Serving.{reads_dir};
ghost use Rattle.nq_names.specs.Taking.{HoldsUp, IsHeldFor, TakesBeside, outside_of, stepped_of};
ghost use Rattle.nq_name_server.specs.Around.{once_sent, over, served_by};
ghost use Rattle.nq_name_server.specs.Outside.{changes_as, reads, reads_in, served_read, served_vacated};
ghost use Rattle.nq_world.specs.Playing.{GoesOn, Plays};

use crate::world::NameWorld;
use nq_base::{Host, NoMemory};
use nq_directory::BegunLeaf;
use nq_directory::listing::{ReadDir, read_read_dir};
use nq_keeper::{KeepFault, Keeper};
use nq_name_server::DirChange;

impl<K: Keeper> NameWorld<K> {
    /// The server's side takes in a host's packet that is none of the inner world.
    pub(crate) fn serve(&mut self, host: Host, datagram: &[u8]) -> Result<(), KeepFault>
        requires { self.old.around.due ≡ [] }
        ensures takes { (head : Head) → Plays head (reverse self.old.ran) self.old.inner (K.content self.old.inner.server.keeper)
            → TakesBeside head (stepped_of result) self.old self.new (K.content self.old.inner.server.keeper) (K.content self.new.inner.server.keeper)
            (served_read (outside_of head self.old) host datagram.now (read_dir_in datagram.now)) }
        ensures goes { GoesOn K.faults K.follows (stepped_of result) self.old.inner self.new.inner }
        ensures count { self.new.events ≡ self.old.events }
    {
        match read_read_dir(datagram) {
            Some(request) => self.read_dir(host, &request),
            None => {
                self.give_up(host, datagram);
                Ok(())
            }
        }
    }

    /// A DIRVACATED, where it is of the host that sent it: any other packet is dropped.
    fn give_up(&mut self, host: Host, datagram: &[u8])
        requires { self.old.around.due ≡ [] }
        ensures gives { (w : Model) (ran : List Event)
            → once_sent w ran self.new.around ≡ served_vacated (over w ran self.old.around) host (dir_vacated_in datagram.now) }
        ensures gone { self.new.around.gone ≡ self.old.around.gone }
        ensures inner { self.new.inner ≡ self.old.inner }
        ensures ran { self.new.ran ≡ self.old.ran }
        ensures count { self.new.events ≡ self.old.events }
    {
        self.around.give_up(host, datagram);
    }

    /// A READDIRLOOK: one of another host or of an incarnation that is not attached is dropped.
    fn read_dir(&mut self, host: Host, request: &ReadDir) -> Result<(), KeepFault>
        requires { self.old.around.due ≡ [] }
        ensures takes { (head : Head) → Plays head (reverse self.old.ran) self.old.inner (K.content self.old.inner.server.keeper)
            → TakesBeside head (stepped_of result) self.old self.new (K.content self.old.inner.server.keeper) (K.content self.new.inner.server.keeper)
            (reads (outside_of head self.old) host request.now) }
        ensures goes { GoesOn K.faults K.follows (stepped_of result) self.old.inner self.new.inner }
        ensures count { self.new.events ≡ self.old.events }
    {
        if request.who.host != host {
            return Ok(());
        }
        let inc = self.kept_inc(host)?;
        if request.who.inc == inc {
            self.answer(request)
        } else {
            Ok(())
        }
    }

    /// Answers a READDIRLOOK of an attached incarnation: while the server recovers, that the client is to ask again later.
    fn answer(&mut self, request: &ReadDir) -> Result<(), KeepFault>
        requires { self.old.around.due ≡ [] }
        ensures takes { (head : Head) → Plays head (reverse self.old.ran) self.old.inner (K.content self.old.inner.server.keeper)
            → TakesBeside head (stepped_of result) self.old self.new (K.content self.old.inner.server.keeper) (K.content self.new.inner.server.keeper)
            (reads_in (outside_of head self.old) request.now (run head (reverse self.old.ran)).server.phase) }
        ensures goes { GoesOn K.faults K.follows (stepped_of result) self.old.inner self.new.inner }
        ensures count { self.new.events ≡ self.old.events }
    {
        if self.world.serving() {
            let leaf = self.leaf(&request.prefix, request.after)?;
            self.give_page(request, &leaf)?;
            Ok(())
        } else {
            self.around.put_off(request)?;
            Ok(())
        }
    }

    /// Gives a page, with a lease on the directory, if one is granted.
    fn give_page(&mut self, request: &ReadDir, leaf: &BegunLeaf) -> Result<(), NoMemory>
        requires { self.old.around.due ≡ [] }
        ensures gives { OnOk result (self.new
            ≡ record self.old { around = served_by self.old.around (reads_dir self.old.around.served request.now leaf.now.leaf) }) }
        ensures refused { OnErr result (self.new ≡ self.old) }
    {
        self.around.read_dir(request, leaf)
    }

    /// Whether a host's packet of the inner world is a request that changes a directory which another host reads: then it goes no
    /// further, and those who read it are told.
    pub(crate) fn hold_up(&mut self, host: Host, datagram: &[u8]) -> Result<bool, KeepFault>
        requires { self.old.around.due ≡ [] }
        ensures held { (head : Head) → Plays head (reverse self.old.ran) self.old.inner (K.content self.old.inner.server.keeper)
            → HoldsUp head result (changes_as (run head (reverse self.old.ran)).server.kept host (datagram_in datagram.now)) self.old self.new
            (K.content self.old.inner.server.keeper) (K.content self.new.inner.server.keeper) }
        ensures goes { GoesOn K.faults K.follows (stepped_of result) self.old.inner self.new.inner }
        ensures count { self.new.events ≡ self.old.events }
    {
        match self.changes(host, datagram)? {
            Some(change) => Ok(self.hold_up_for(&change)?),
            None => Ok(false),
        }
    }

    /// Whether a change of a directory is held up, since another host reads it.
    fn hold_up_for(&mut self, change: &DirChange) -> Result<bool, NoMemory>
        requires { self.old.around.due ≡ [] }
        ensures held { IfOk result (λ held. IsHeldFor held change.now self.old self.new) }
        ensures refused { OnErr result (self.new ≡ self.old) }
        ensures inner { self.new.inner ≡ self.old.inner }
        ensures ran { self.new.ran ≡ self.old.ran }
        ensures count { self.new.events ≡ self.old.events }
    {
        self.around.hold_up(change)
    }
}
