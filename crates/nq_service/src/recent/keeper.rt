//! A keeper over another one, with copies of the blocks that were read last.

ghost use Rattle.std.specs.Prelude.{◌≡◌};
ghost use Rattle.nq_service.specs.Recent.{IsBody};

use crate::recent::pieces::{Piece, add, copy_of};
use nq_base::{Block, BlockNo, Change, FileId, FileRow, Heads, Host, HostRow, Name, Space};
use nq_keeper::{KeepFault, Keeper};
use std::alloc::Global;
use std::marker::Model;

/// A keeper over another one, which has copies of the blocks that were read last, 64 at most, until something is changed. Contracts see the
/// keeper within it.
#[derive(Drop)]
pub struct RecentKeeper<K: Keeper> {
    alloc: Global,
    keeper: K,
    pieces: Vec<Piece>,
}

impl<K: Keeper> Model for RecentKeeper<K> {
    ghost use Rattle.nq_service.specs.Recent.{AreRecent};

    ghost Value = { K };

    ghost view = { λ k. k.keeper };

    ghost invariant = { λ k. AreRecent (K.content k.keeper) k.pieces.items };
}

impl<K: Keeper> RecentKeeper<K> {
    /// A keeper over this one, of which nothing was read yet.
    pub fn new(alloc: Global, keeper: K) -> RecentKeeper<K>
        ensures { result ≡ keeper }
    {
        RecentKeeper {
            alloc,
            keeper,
            pieces: Vec::new(alloc),
        }
    }

    /// The keeper within.
    pub fn into_keeper(self) -> K
        ensures { result ≡ self }
    {
        let RecentKeeper {
            alloc: _,
            keeper,
            pieces: _,
        } = self;
        keeper
    }

    /// Keeps a copy of a block that was read, where there is memory for it.
    fn remember(&mut self, file: FileId, block: BlockNo, body: &Block)
        requires { IsBody (K.content self.old) file block body.now }
        ensures { self.new ≡ self.old }
    {
        if let Ok(body) = body.copied(self.alloc) {
            add(&mut self.pieces, Piece { file, block, body });
        }
    }
}

impl<K: Keeper> Keeper for RecentKeeper<K> {
    ghost content = { λ keeper. K.content keeper };

    ghost faults = { λ keeper. K.faults keeper };

    ghost follows = { λ first last. K.follows first last };

    ghost leaves = { λ first last. K.leaves first last };

    ghost within = { K.within };

    ghost follows_itself = { K.follows_itself };

    ghost follows_on = { K.follows_on };

    ghost faults_rise = { K.faults_rise };

    ghost may_leave = { K.may_leave };

    ghost parts = { K.parts };

    fn file(&mut self, id: FileId) -> Result<Option<FileRow>, KeepFault> {
        self.keeper.file(id)
    }

    fn by_name(&mut self, name: &Name) -> Result<Option<FileRow>, KeepFault> {
        self.keeper.by_name(name)
    }

    fn next_file(&mut self, after: FileId) -> Result<Option<FileRow>, KeepFault> {
        self.keeper.next_file(after)
    }

    fn host(&mut self, host: Host) -> Result<HostRow, KeepFault> {
        self.keeper.host(host)
    }

    fn heads(&mut self) -> Result<Heads, KeepFault> {
        self.keeper.heads()
    }

    fn space(&mut self) -> Result<Space, KeepFault> {
        self.keeper.space()
    }

    fn block(&mut self, id: FileId, block: BlockNo) -> Result<Block, KeepFault> {
        self.keeper.pause();
        if let Some(body) = copy_of(self.alloc, &self.pieces, id, block) {
            return Ok(body);
        }
        let body = self.keeper.block(id, block)?;
        self.remember(id, block, &body);
        Ok(body)
    }

    fn commit(&mut self, change: Change) -> Result<(), KeepFault> {
        self.pieces.clear();
        self.keeper.commit(change)
    }

    fn pause(&self) {
        self.keeper.pause();
    }
}
