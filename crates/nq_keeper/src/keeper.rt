//! The trait of what keeps the state of a server.

ghost use Rattle.std.specs.Prelude.{◌≡◌, ◌⊎◌, ◌<◌, ◌≤◌, ℕ, Option, Some, IfOk};
ghost use Rattle.std.specs.Option.{ForSome};
ghost use Rattle.nq_model.specs.protocol.Change.{Fits, HasBlock, IsChangeWithin, IsWithinBounds, row_of_found, file_after, heads_of, space_of};
ghost use Rattle.nq_model.specs.protocol.Kept.{Kept, find_file, find_name, host_row};
ghost use Rattle.nq_model.specs.protocol.Profile.{most_hosts};
ghost use Rattle.nq_keeper.specs.Keeping.{Reads, Commits, LeavesOne, LeavesTwo, NamesHost, body_at};

use nq_base::{Block, BlockNo, Change, FileId, FileRow, Heads, Host, HostRow, Name, Space};

/// Why a keeper did not do what it was asked.
#[derive(Clone, Copy)]
pub enum KeepFault {
    /// A fault, which the keeper has counted.
    Failed,
    /// Memory was wanted and refused.
    Memory,
}

/// What keeps the state of a server. Each call may fail; a change is kept whole or not at all.
pub trait Keeper {
    /// What is kept, where the keeper tells it.
    ghost content: { Self → Option Kept };

    /// How many faults it has met: a count that never falls, and may stand still at the end of its type.
    ghost faults: { Self → ℕ };

    /// Whether the second keeper is the first one after some of its calls.
    ghost follows: { Self → Self → Type 0 };

    /// What a stop at some moment between these two may leave, as it is found again: None for what nobody can open.
    ghost leaves: { Self → Self → Option Kept → Type 0 };

    /// The row of a file; None where the file is not kept.
    fn file(&mut self, id: FileId) -> Result<Option<FileRow>, KeepFault>
        ensures told { ForSome (content self.old) (λ kept. IfOk result (λ row. row ≡ row_of_found (find_file id kept.files))) }
        ensures reads { Reads result (content self.old) (content self.new) (faults self.old) (faults self.new) }
        ensures follows { follows self.old self.new }
        ensures leaves { LeavesOne (content self.old) (leaves self.old self.new) };

    /// The row of the file of this name; None where no file has it.
    fn by_name(&mut self, name: &Name) -> Result<Option<FileRow>, KeepFault>
        ensures told { ForSome (content self.old) (λ kept. IfOk result (λ row. row ≡ row_of_found (find_name name.now kept.files))) }
        ensures reads { Reads result (content self.old) (content self.new) (faults self.old) (faults self.new) }
        ensures follows { follows self.old self.new }
        ensures leaves { LeavesOne (content self.old) (leaves self.old self.new) };

    /// The row of the file with the least id above this one; None where there is none.
    fn next_file(&mut self, after: FileId) -> Result<Option<FileRow>, KeepFault>
        ensures told { ForSome (content self.old) (λ kept. IfOk result (λ row. row ≡ row_of_found (file_after after kept.files))) }
        ensures reads { Reads result (content self.old) (content self.new) (faults self.old) (faults self.new) }
        ensures follows { follows self.old self.new }
        ensures leaves { LeavesOne (content self.old) (leaves self.old self.new) };

    /// The row of a host.
    fn host(&mut self, host: Host) -> Result<HostRow, KeepFault>
        requires { host < most_hosts }
        ensures told { ForSome (content self.old) (λ kept. IfOk result (λ row. row ≡ host_row kept host)) }
        ensures reads { Reads result (content self.old) (content self.new) (faults self.old) (faults self.new) }
        ensures follows { follows self.old self.new }
        ensures leaves { LeavesOne (content self.old) (leaves self.old self.new) };

    /// The numbers of the server.
    fn heads(&mut self) -> Result<Heads, KeepFault>
        ensures told { ForSome (content self.old) (λ kept. IfOk result (λ heads. heads ≡ heads_of kept)) }
        ensures reads { Reads result (content self.old) (content self.new) (faults self.old) (faults self.new) }
        ensures follows { follows self.old self.new }
        ensures leaves { LeavesOne (content self.old) (leaves self.old self.new) };

    /// How many files and blocks are kept.
    fn space(&mut self) -> Result<Space, KeepFault>
        ensures told { ForSome (content self.old) (λ kept. IfOk result (λ space. space ≡ space_of kept)) }
        ensures reads { Reads result (content self.old) (content self.new) (faults self.old) (faults self.new) }
        ensures follows { follows self.old self.new }
        ensures leaves { LeavesOne (content self.old) (leaves self.old self.new) };

    /// A block of a file.
    fn block(&mut self, id: FileId, block: BlockNo) -> Result<Block, KeepFault>
        requires { ForSome (content self.old) (λ kept. HasBlock block (find_file id kept.files)) }
        ensures told { ForSome (content self.old) (λ kept. IfOk result (λ body. Some body ≡ body_at block (find_file id kept.files))) }
        ensures reads { Reads result (content self.old) (content self.new) (faults self.old) (faults self.new) }
        ensures follows { follows self.old self.new }
        ensures leaves { LeavesOne (content self.old) (leaves self.old self.new) };

    /// Keeps a change whole, or nothing of it.
    fn commit(&mut self, change: Change) -> Result<(), KeepFault>
        requires host { NamesHost change }
        requires fits { ForSome (content self.old) (λ kept. Fits kept change) }
        requires within { ForSome (content self.old) (λ kept. IsChangeWithin kept change) }
        ensures commits { Commits result change (content self.old) (content self.new) (faults self.old) (faults self.new) }
        ensures follows { follows self.old self.new }
        ensures leaves { LeavesTwo change (content self.old) (leaves self.old self.new) };

    /// A moment between two calls: a stop in it leaves what is kept. It does nothing, and tells whoever asks nothing of the
    /// keeper what a stop leaves meanwhile.
    fn pause(&self)
        ensures leaves { LeavesOne (content self.now) (leaves self.now self.now) };

    /// What is kept is within its bounds.
    ghost within: { (keeper : Self) (kept : Kept) → content keeper ≡ Some kept → IsWithinBounds kept };

    /// A keeper follows itself.
    ghost follows_itself: { (keeper : Self) → follows keeper keeper };

    /// What follows one that follows, follows.
    ghost follows_on: { (first second third : Self) → follows first second → follows second third → follows first third };

    /// The count of faults never falls.
    ghost faults_rise: { (first last : Self) → follows first last → faults first ≤ faults last };

    /// What is kept at the beginning may be left, and what is kept at the end.
    ghost may_leave: { (first last : Self) (kept : Kept) → follows first last → (content first ≡ Some kept) ⊎ (content last ≡ Some kept)
        → leaves first last (Some kept) };

    /// A stop between two moments stands before a third moment between them, or behind it.
    ghost parts: { (first middle last : Self) (found : Option Kept) → follows first middle → follows middle last → leaves first last found
        → leaves first middle found ⊎ leaves middle last found };
}
