//! Reading what the server keeps: incarnations, pages of directories, and which directory a request changes.

ghost use Rattle.std.specs.Prelude.{◌≡◌, IfOk};
ghost use Rattle.std.specs.Option.{ForSome};
ghost use Rattle.nq_datagrams.specs.Incoming.{datagram_in};
ghost use Rattle.nq_directory.specs.Files.{IsNext};
ghost use Rattle.nq_model.specs.protocol.Kept.{host_row};
ghost use Rattle.nq_name_server.specs.Outside.{changes_as};
ghost use Rattle.nq_name_server.specs.Served.{leaf_behind};
ghost use Rattle.nq_names.specs.Taking.{ReadsKept};

use crate::world::NameWorld;
use nq_base::{FileId, FileRow, Host, Inc};
use nq_directory::{BegunLeaf, Prefix};
use nq_keeper::{KeepFault, Keeper};
use nq_name_server::{DirChange, MayChange, below, may_change, read_leaf, removed};

/// The most files that a server keeps.
const MOST_FILES: u32 = 256;

/// The most hosts that there may be.
const MOST_HOSTS: u32 = 64;

impl<K: Keeper> NameWorld<K> {
    /// The incarnation that is kept for a host, of which there are at most 64.
    pub(crate) fn kept_inc(&mut self, host: Host) -> Result<Inc, KeepFault>
        ensures told { ForSome (K.content self.old.inner.server.keeper) (λ kept. IfOk result (λ inc. inc ≡ (host_row kept host).inc)) }
        ensures reads { ReadsKept K.content K.faults K.follows result self.old self.new }
    {
        if host.0 >= MOST_HOSTS {
            return Err(KeepFault::Memory);
        }
        self.world.kept_inc(host)
    }

    /// The row of the file that is kept behind an id, if there is one.
    fn next_file(&mut self, after: FileId) -> Result<Option<FileRow>, KeepFault>
        ensures told { ForSome (K.content self.old.inner.server.keeper) (λ kept. IfOk result (λ row. IsNext kept after row)) }
        ensures reads { ReadsKept K.content K.faults K.follows result self.old self.new }
    {
        self.world.next_file(after)
    }

    /// The page of a directory behind an id.
    pub(crate) fn leaf(&mut self, prefix: &Prefix, after: FileId) -> Result<BegunLeaf, KeepFault>
        ensures told { ForSome (K.content self.old.inner.server.keeper) (λ kept. IfOk result (λ l. l.leaf ≡ leaf_behind prefix.now after kept.files)) }
        ensures reads { ReadsKept K.content K.faults K.follows result self.old self.new }
    {
        let mut leaf = BegunLeaf::new(self.alloc, after)?;
        'files: for _file in 0..=MOST_FILES {
            let next = self.next_file(leaf.last())?;
            if read_leaf(&mut leaf, prefix, next) {
                return Ok(leaf);
            }
        }
        Err(KeepFault::Memory)
    }

    /// What a host's datagram changes: it is a CREATE of its own, or a REMOVE of its own of a file that is kept.
    pub(crate) fn changes(
        &mut self,
        host: Host,
        datagram: &[u8],
    ) -> Result<Option<DirChange>, KeepFault>
        ensures told { ForSome (K.content self.old.inner.server.keeper) (λ kept. IfOk result (λ c. c ≡ changes_as kept host (datagram_in datagram.now))) }
        ensures reads { ReadsKept K.content K.faults K.follows result self.old self.new }
    {
        let change = may_change(self.alloc, host, datagram)?;
        match change {
            MayChange::Nothing => Ok(None),
            MayChange::Directory(own) => Ok(Some(own)),
            MayChange::OfFile { who, file } => {
                let found = self.next_file(below(file))?;
                Ok(removed(who, file, found))
            }
        }
    }
}
