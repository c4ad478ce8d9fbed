//! What a server keeps, on a disk.

ghost use Rattle.std.specs.Prelude.{◌≡◌, ◌≤◌, ◌<◌, ◌+◌, false, IfOk, OnOk, length, slice_index_or};
ghost use Rattle.std.specs.Option.{ForSome};
ghost use Rattle.nq_io.specs.Faults.{count_up};
ghost use Rattle.nq_keeper.specs.Keeping.{Commits, LeavesOne, LeavesTwo, NamesHost, Reads, body_at};
ghost use Rattle.nq_model.specs.protocol.Change.{Fits, HasBlock, IsChangeWithin, file_after, heads_of, row_of_found, space_of};
ghost use Rattle.nq_model.specs.protocol.Kept.{find_file, find_name, fresh_row, host_row};
ghost use Rattle.nq_model.specs.protocol.Profile.{most_hosts};
ghost use Rattle.nq_image.specs.Kept.{body_in};
ghost use Rattle.nq_image.specs.Layout.{block_place as place_of_block};
ghost use Rattle.nq_plan.specs.Finding.{row_behind, row_named, row_of};
ghost use Rattle.nq_plan.specs.Placing.{IsPlacedFor};
ghost use Rattle.nq_plan.specs.Ranges.{ranges_of};
ghost use Rattle.nq_store.specs.Laws.{goes-further, goes-itself, goes-rising, leaves-parts, may-leave, told-is-within};
ghost use Rattle.nq_store.specs.Opening.{AnswersOpen, FollowsOpen, LeavesLike, SaysWrong, StaysRefused, disk_of};
ghost use Rattle.nq_store.specs.Storing.{GoesOn, IsFresh, IsKept, IsSound, LeavesKept, StaysForMemory, after_asking, answered, content_of, faults_of};
ghost use Rattle.nq_store.specs.Storing.{kept_told, space_in};

use crate::fault::OpenFault;
use crate::opening::{open_record, open_tables};
use crate::writing::{carry_out, fresh_blocks, read_body};
use nq_base::{Block, BlockNo, Change, FileId, FileRow, Heads, Host, HostRow, Name, Space};
use nq_disk::redo::Redo;
use nq_disk::{Disk, DiskFault};
use nq_keeper::{KeepFault, Keeper};
use nq_memory::NoMemory;
use nq_plan::{Plan, Tables};
use std::alloc::Global;
use std::marker::Model;

/// A block of zeros.
const ZEROS: [u8; Block::SIZE] = [0; Block::SIZE];

/// What a server keeps, on a disk. The rows and tables are in memory; the bodies of the blocks are read from the disk. Contracts
/// see the disk, the tables, whether a change failed, and how many calls were refused since.
#[derive(Drop)]
pub struct Store<D: Disk> {
    redo: Redo<D>,
    tables: Tables,
    alloc: Global,
    /// Whether a change failed: what the disk has then is known once it is opened again.
    ended: bool,
    /// How many calls were refused since.
    refused: u64,
}

impl<D: Disk> Model for Store<D> {
    ghost use Rattle.std.specs.Prelude.{◌≡◌};
    ghost use Rattle.nq_plan.specs.Standing.{image_area};
    ghost use Rattle.nq_store.specs.Storing.{IsSound, StoredStore};

    ghost Value = { StoredStore D };

    ghost view = { λ s. record { disk = s.redo.disk; tables = s.tables; ended = s.ended; refused = s.refused } };

    ghost invariant = { λ s. (s.redo.area ≡ image_area) × IsSound (D.told s.redo.disk) (D.may_leave s.redo.disk) s.tables s.ended };
}

impl<D: Disk + Drop> Store<D> {
    /// Opens a disk: it writes what an open record says, and makes an image of version 1 one of version 2. The store keeps what the
    /// disk stood for, which is a kept state: bytes that stand for none are refused.
    ///
    /// # Errors
    ///
    /// `NotAnImage` and `BadField` where the disk stands for no kept state, `Failed` only where the disk failed, and want of memory.
    /// A disk that stands for no kept state keeps its bytes, but that the ranges of an open record are written.
    pub fn open(alloc: Global, disk: D) -> Result<Store<D>, OpenFault<D>>
        ensures content { IfOk result (λ store. content_of D.told store ≡ kept_told (D.told disk)) }
        ensures stands { OnOk result (ForSome (D.told disk) IsKept) }
        ensures wrong { SaysWrong result (D.told disk) }
        ensures stays { ForSome (D.told disk) (λ bytes. StaysRefused D.told result bytes) }
        ensures fresh { IfOk result IsFresh }
        ensures cause { AnswersOpen (λ store. store.disk) D.faults result disk }
        ensures follows { FollowsOpen (λ store. store.disk) D.follows result disk }
        ensures leaves { LeavesLike (D.told disk) (D.may_leave disk) (D.leaves disk (disk_of (λ store. store.disk) result)) }
    {
        let mut redo = open_record(disk, alloc)?;
        match open_tables(&mut redo, alloc) {
            Ok(tables) => Ok(Store {
                redo,
                tables,
                alloc,
                ended: false,
                refused: 0,
            }),
            Err(fault) => {
                let Redo { disk, area: _ } = redo;
                Err(fault.of(disk))
            }
        }
    }

    /// The disk.
    pub fn into_disk(self) -> D
        ensures { result ≡ self.disk }
    {
        let Store {
            redo,
            tables: _,
            alloc: _,
            ended: _,
            refused: _,
        } = self;
        let Redo { disk, area: _ } = redo;
        disk
    }

    /// What is in memory of the image.
    fn tables(&self) -> &Tables
        ensures { result.now ≡ self.now.tables }
    {
        &self.tables
    }

    /// Whether a change failed. Until then the tables are those of the image on the disk.
    fn has_ended(&self) -> bool
        ensures ended { result ≡ self.now.ended }
        ensures sound { IsSound (D.told self.now.disk) (D.may_leave self.now.disk) self.now.tables self.now.ended }
    {
        self.ended
    }

    /// Counts a call that is refused.
    fn refuse(&mut self)
        ensures counted { self.new ≡ record self.old { refused = count_up self.old.refused } }
        ensures rises { self.old.refused ≤ self.new.refused }
    {
        self.refused = self.refused.saturating_add(1);
    }

    /// Gives an answer out of memory; once a change failed, each call is refused, and the refusals are counted.
    fn tell<X: Drop>(&mut self, answer: X) -> Result<X, KeepFault>
        ensures answer { result ≡ answered self.old.ended answer }
        ensures store { self.new ≡ after_asking self.old }
        ensures sound { IsSound (D.told self.old.disk) (D.may_leave self.old.disk) self.old.tables self.old.ended }
        ensures reads { Reads result (content_of D.told self.old) (content_of D.told self.new) (faults_of D.faults self.old) (faults_of D.faults self.new) }
        ensures follows { GoesOn D.faults D.follows self.old self.new }
        ensures leaves { LeavesOne (content_of D.told self.old) (LeavesKept (D.leaves self.old.disk self.new.disk)) }
    {
        if self.has_ended() {
            self.refuse();
            return Err(KeepFault::Failed);
        }
        Ok(answer)
    }

    /// What a change writes, and where its file comes to stand.
    fn plan(&self, change: &Change) -> Result<Plan, NoMemory>
        requires { NamesHost change.now }
        ensures placed { IfOk result (λ plan. IsPlacedFor self.now.tables change.now.file plan.placed) }
        ensures ranges { IfOk result (λ plan. plan.batch ≡ ranges_of self.now.tables.standing change.now plan.placed) }
    {
        self.tables.plan(self.alloc, change)
    }

    /// The body of a physical block that a file has.
    fn read_block(&mut self, block: u32) -> Result<Block, KeepFault>
        requires { self.old.ended ≡ false }
        ensures told { ForSome (D.told self.old.disk) (λ bytes. place_of_block block + 4096 ≤ length bytes → IfOk result (λ body. body ≡ body_in bytes block)) }
        ensures sound { IsSound (D.told self.old.disk) (D.may_leave self.old.disk) self.old.tables self.old.ended }
        ensures reads { Reads result (content_of D.told self.old) (content_of D.told self.new) (faults_of D.faults self.old) (faults_of D.faults self.new) }
        ensures follows { GoesOn D.faults D.follows self.old self.new }
        ensures leaves { LeavesOne (content_of D.told self.old) (LeavesKept (D.leaves self.old.disk self.new.disk)) }
    {
        read_body(&mut self.redo.disk, self.alloc, block)
    }

    /// Writes what was planned of a change, and brings the tables up to it.
    fn keep(&mut self, change: &Change, plan: Plan) -> Result<(), KeepFault>
        requires host { NamesHost change.now }
        requires goes_on { self.old.ended ≡ false }
        requires placed { IsPlacedFor self.old.tables change.now.file plan.placed }
        requires ranges { plan.batch ≡ ranges_of self.old.tables.standing change.now plan.placed }
        requires fits { ForSome (content_of D.told self.old) (λ kept. Fits kept change.now) }
        requires within { ForSome (content_of D.told self.old) (λ kept. IsChangeWithin kept change.now) }
        ensures memory { StaysForMemory result self.old self.new }
        ensures commits { Commits result change.now (content_of D.told self.old) (content_of D.told self.new) (faults_of D.faults self.old)
            (faults_of D.faults self.new) }
        ensures follows { GoesOn D.faults D.follows self.old self.new }
        ensures leaves { LeavesTwo change.now (content_of D.told self.old) (LeavesKept (D.leaves self.old.disk self.new.disk)) }
    {
        let Plan { batch, placed } = plan;
        match carry_out(&mut self.redo, fresh_blocks(&placed), &batch, &ZEROS) {
            Ok(()) => {
                self.tables.settle(change, placed);
                Ok(())
            }
            Err(DiskFault::Failed) => {
                self.ended = true;
                Err(KeepFault::Failed)
            }
        }
    }
}

impl<D: Disk + Drop> Keeper for Store<D> {
    ghost content = { content_of D.told };

    ghost faults = { faults_of D.faults };

    ghost follows = { GoesOn D.faults D.follows };

    ghost leaves = { λ first last. LeavesKept (D.leaves first.disk last.disk) };

    fn file(&mut self, id: FileId) -> Result<Option<FileRow>, KeepFault>
        // As of any keeper.
        ensures told { ForSome (content_of D.told self.old) (λ kept. IfOk result (λ row. row ≡ row_of_found (find_file id kept.files))) }
        ensures reads { Reads result (content_of D.told self.old) (content_of D.told self.new) (faults_of D.faults self.old) (faults_of D.faults self.new) }
        ensures follows { GoesOn D.faults D.follows self.old self.new }
        ensures leaves { LeavesOne (content_of D.told self.old) (LeavesKept (D.leaves self.old.disk self.new.disk)) }

        // Of this one.
        ensures answer { result ≡ answered self.old.ended (row_of self.old.tables.standing id) }
        ensures store { self.new ≡ after_asking self.old }
    {
        let row = self.tables().row(id);
        self.tell(row)
    }

    fn by_name(&mut self, name: &Name) -> Result<Option<FileRow>, KeepFault>
        // As of any keeper.
        ensures told { ForSome (content_of D.told self.old) (λ kept. IfOk result (λ row. row ≡ row_of_found (find_name name.now kept.files))) }
        ensures reads { Reads result (content_of D.told self.old) (content_of D.told self.new) (faults_of D.faults self.old) (faults_of D.faults self.new) }
        ensures follows { GoesOn D.faults D.follows self.old self.new }
        ensures leaves { LeavesOne (content_of D.told self.old) (LeavesKept (D.leaves self.old.disk self.new.disk)) }

        // Of this one.
        ensures answer { result ≡ answered self.old.ended (row_named self.old.tables.standing name.now) }
        ensures store { self.new ≡ after_asking self.old }
    {
        let row = self.tables().row_named(name);
        self.tell(row)
    }

    fn next_file(&mut self, after: FileId) -> Result<Option<FileRow>, KeepFault>
        // As of any keeper.
        ensures told { ForSome (content_of D.told self.old) (λ kept. IfOk result (λ row. row ≡ row_of_found (file_after after kept.files))) }
        ensures reads { Reads result (content_of D.told self.old) (content_of D.told self.new) (faults_of D.faults self.old) (faults_of D.faults self.new) }
        ensures follows { GoesOn D.faults D.follows self.old self.new }
        ensures leaves { LeavesOne (content_of D.told self.old) (LeavesKept (D.leaves self.old.disk self.new.disk)) }

        // Of this one.
        ensures answer { result ≡ answered self.old.ended (row_behind self.old.tables.standing after) }
        ensures store { self.new ≡ after_asking self.old }
    {
        let row = self.tables().row_behind(after);
        self.tell(row)
    }

    fn host(&mut self, host: Host) -> Result<HostRow, KeepFault>
        requires { host < most_hosts }

        // As of any keeper.
        ensures told { ForSome (content_of D.told self.old) (λ kept. IfOk result (λ row. row ≡ host_row kept host)) }
        ensures reads { Reads result (content_of D.told self.old) (content_of D.told self.new) (faults_of D.faults self.old) (faults_of D.faults self.new) }
        ensures follows { GoesOn D.faults D.follows self.old self.new }
        ensures leaves { LeavesOne (content_of D.told self.old) (LeavesKept (D.leaves self.old.disk self.new.disk)) }

        // Of this one.
        ensures answer { result ≡ answered self.old.ended (slice_index_or self.old.tables.standing.hosts host fresh_row) }
        ensures store { self.new ≡ after_asking self.old }
    {
        let row = self.tables().host(host);
        self.tell(row)
    }

    fn heads(&mut self) -> Result<Heads, KeepFault>
        // As of any keeper.
        ensures told { ForSome (content_of D.told self.old) (λ kept. IfOk result (λ heads. heads ≡ heads_of kept)) }
        ensures reads { Reads result (content_of D.told self.old) (content_of D.told self.new) (faults_of D.faults self.old) (faults_of D.faults self.new) }
        ensures follows { GoesOn D.faults D.follows self.old self.new }
        ensures leaves { LeavesOne (content_of D.told self.old) (LeavesKept (D.leaves self.old.disk self.new.disk)) }

        // Of this one.
        ensures answer { result ≡ answered self.old.ended (self.old.tables.standing.heads) }
        ensures store { self.new ≡ after_asking self.old }
    {
        let heads = self.tables().heads();
        self.tell(heads)
    }

    fn space(&mut self) -> Result<Space, KeepFault>
        // As of any keeper.
        ensures told { ForSome (content_of D.told self.old) (λ kept. IfOk result (λ space. space ≡ space_of kept)) }
        ensures reads { Reads result (content_of D.told self.old) (content_of D.told self.new) (faults_of D.faults self.old) (faults_of D.faults self.new) }
        ensures follows { GoesOn D.faults D.follows self.old self.new }
        ensures leaves { LeavesOne (content_of D.told self.old) (LeavesKept (D.leaves self.old.disk self.new.disk)) }

        // Of this one.
        ensures answer { result ≡ answered self.old.ended (space_in self.old.tables.standing) }
        ensures store { self.new ≡ after_asking self.old }
    {
        let space = self.tables().space();
        self.tell(space)
    }

    fn block(&mut self, id: FileId, block: BlockNo) -> Result<Block, KeepFault>
        requires { ForSome (content_of D.told self.old) (λ kept. HasBlock block (find_file id kept.files)) }

        // As of any keeper.
        ensures told { ForSome (content_of D.told self.old) (λ kept. IfOk result (λ body. Some body ≡ body_at block (find_file id kept.files))) }
        ensures reads { Reads result (content_of D.told self.old) (content_of D.told self.new) (faults_of D.faults self.old) (faults_of D.faults self.new) }
        ensures follows { GoesOn D.faults D.follows self.old self.new }
        ensures leaves { LeavesOne (content_of D.told self.old) (LeavesKept (D.leaves self.old.disk self.new.disk)) }
    {
        let physical = self.tables().physical(id, block);
        if self.has_ended() {
            return self.tell(Block::fill(0));
        }
        match physical {
            Some(physical) => self.read_block(physical),
            None => self.tell(Block::fill(0)),
        }
    }

    fn commit(&mut self, change: Change) -> Result<(), KeepFault>
        requires host { NamesHost change }
        requires fits { ForSome (content_of D.told self.old) (λ kept. Fits kept change) }
        requires within { ForSome (content_of D.told self.old) (λ kept. IsChangeWithin kept change) }

        // As of any keeper.
        ensures commits { Commits result change (content_of D.told self.old) (content_of D.told self.new) (faults_of D.faults self.old)
            (faults_of D.faults self.new) }
        ensures follows { GoesOn D.faults D.follows self.old self.new }
        ensures leaves { LeavesTwo change (content_of D.told self.old) (LeavesKept (D.leaves self.old.disk self.new.disk)) }

        // Of this one: it takes all memory before its first call of the disk.
        ensures memory { StaysForMemory result self.old self.new }
    {
        if self.has_ended() {
            return self.tell(());
        }
        match self.plan(&change) {
            Ok(plan) => self.keep(&change, plan),
            Err(_) => Err(KeepFault::Memory),
        }
    }

    fn pause(&self)
        ensures leaves { LeavesOne (content_of D.told self.now) (LeavesKept (D.leaves self.now.disk self.now.disk)) }
    {
        let _ended = self.has_ended();
    }

    ghost within = { told-is-within D.told };

    ghost follows_itself = { goes-itself D.faults D.follows D.follows_itself };

    ghost follows_on = { goes-further D.faults D.follows D.follows_on D.rises };

    ghost faults_rise = { goes-rising D.faults D.follows D.rises };

    ghost may_leave = { may-leave D.faults D.follows D.told D.may_leave D.leaves D.told_may_stay D.leaves_ends };

    ghost parts = { leaves-parts D.faults D.follows D.leaves D.parts };
}
