//! The trait of a disk.

ghost use Rattle.std.specs.Prelude.{◌≡◌, ◌⊎◌, ◌≤◌, ℕ, List, Option, Some, None, length, drop, IfOk, OnOk};
ghost use Rattle.std.specs.Option.{ForSome};
ghost use Rattle.nq_disk.specs.Bytes.{AreBytes};
ghost use Rattle.nq_disk.specs.Calling.{Counts, LeavesNoMore, LeavesTorn, ReadsFront, IsAllThatIsLeft, Writes};

/// Why a disk did not do what it was asked.
#[derive(Clone, Copy)]
pub enum DiskFault {
    /// A fault, which the disk has counted.
    Failed,
}

/// Bytes that last over a stop. Between two syncs each written range, and the part past the old end, may hold any bytes after
/// a stop. A write that failed leaves its own range so, too; any other call that failed changes nothing.
pub trait Disk {
    /// The bytes as they read, where the disk tells them.
    ghost told: { Self → Option (List ℕ) };

    /// How many faults it has met: a count that never falls, and may stand still at the end of its type.
    ghost faults: { Self → ℕ };

    /// The bytes that a stop now may leave.
    ghost may_leave: { Self → List ℕ → Type 0 };

    /// Whether the second disk is the first one after some of its calls.
    ghost follows: { Self → Self → Type 0 };

    /// The bytes that a stop at some moment between these two may leave, within a call or between two calls.
    ghost leaves: { Self → Self → List ℕ → Type 0 };

    /// How many bytes it has. What it tells are bytes.
    fn size(&mut self) -> Result<u64, DiskFault>
        ensures told { ForSome (told self.old) (λ disk. IfOk result (λ size. size ≡ length disk)) }
        ensures bytes { OnOk result (ForSome (told self.old) AreBytes) }
        ensures same { told self.new ≡ told self.old }
        ensures cause { Counts result (faults self.old) (faults self.new) }
        ensures follows { follows self.old self.new }
        ensures leaves { LeavesNoMore (may_leave self.old) (leaves self.old self.new) };

    /// Reads the bytes from a place on, as many as there are and fit, and says how many. The rest of `into` stays; after a
    /// fault `into` may hold anything.
    fn read(&mut self, place: u64, into: &mut [u8]) -> Result<usize, DiskFault>
        ensures told { ForSome (told self.old) (λ disk. IfOk result (λ count. ReadsFront count place disk into.new)) }
        ensures within { IfOk result (λ count. count ≤ length into.old) }
        ensures rest { IfOk result (λ count. drop count into.new ≡ drop count into.old) }
        ensures same { told self.new ≡ told self.old }
        ensures cause { Counts result (faults self.old) (faults self.new) }
        ensures follows { follows self.old self.new }
        ensures leaves { LeavesNoMore (may_leave self.old) (leaves self.old self.new) };

    /// Writes these bytes at a place. Where that is past the end, zeros stand between.
    fn write_at(&mut self, place: u64, bytes: &[u8]) -> Result<(), DiskFault>
        ensures writes { Writes result place bytes.now (told self.old) (told self.new) }
        ensures cause { Counts result (faults self.old) (faults self.new) }
        ensures follows { follows self.old self.new }
        ensures leaves { LeavesTorn place (length bytes.now) (may_leave self.old) (leaves self.old self.new) };

    /// After it, a stop leaves what reads.
    fn sync(&mut self) -> Result<(), DiskFault>
        ensures settles { OnOk result (IsAllThatIsLeft (told self.old) (may_leave self.new)) }
        ensures same { told self.new ≡ told self.old }
        ensures cause { Counts result (faults self.old) (faults self.new) }
        ensures follows { follows self.old self.new }
        ensures leaves { LeavesNoMore (may_leave self.old) (leaves self.old self.new) };

    /// A disk follows itself.
    ghost follows_itself: { (disk : Self) → follows disk disk };

    /// What follows one that follows, follows.
    ghost follows_on: { (first second third : Self) → follows first second → follows second third → follows first third };

    /// The count of faults never falls.
    ghost rises: { (first last : Self) → follows first last → faults first ≤ faults last };

    /// A disk that tells nothing goes on telling nothing.
    ghost silent: { (first last : Self) → follows first last → told first ≡ None → told last ≡ None };

    /// A disk as it reads may be left.
    ghost told_may_stay: { (disk : Self) (bytes : List ℕ) → told disk ≡ Some bytes → may_leave disk bytes };

    /// At one moment a stop leaves what it may leave then.
    ghost leaves_now: { (disk : Self) (bytes : List ℕ) → leaves disk disk bytes → may_leave disk bytes };

    /// What may be left at the beginning, or at the end, may be left between the two.
    ghost leaves_ends: { (first last : Self) (bytes : List ℕ) → follows first last → may_leave first bytes ⊎ may_leave last bytes → leaves first last bytes };

    /// A stop between two moments stands before a third moment between them, or behind it.
    ghost parts: { (first middle last : Self) (bytes : List ℕ) → follows first middle → follows middle last → leaves first last bytes
        → leaves first middle bytes ⊎ leaves middle last bytes };

    /// A stop before a moment, or behind it, stands between the two moments around it.
    ghost joins: { (first middle last : Self) (bytes : List ℕ) → follows first middle → follows middle last → leaves first middle bytes
        ⊎ leaves middle last bytes → leaves first last bytes };
}
