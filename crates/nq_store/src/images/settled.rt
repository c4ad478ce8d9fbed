//! What a disk stands for behind a change, and whenever a stop comes within it.

ghost use Rattle.std.specs.Prelude.{◌≡◌, ◌≤◌, ℕ, List, Option, Some, Ok, length};
ghost use Rattle.nq_base.specs.declared.Change.{Change};
ghost use Rattle.nq_plan.specs.Standing.{image_area, stands_as};
ghost use Rattle.nq_image.specs.Standing.{Standing, Stands, kept_at};
ghost use Rattle.nq_model.specs.protocol.Change.{applied};
ghost use Rattle.nq_plan.specs.Held.{HeldTables};
ghost use Rattle.nq_plan.specs.Ranges.{ranges_of};
ghost use Rattle.nq_plan.specs.declared.placing.Placed.{Placed};
ghost use Rattle.nq_disk.specs.Whole.{IsClosed, after, found};
ghost use Rattle.nq_store.specs.Changing.{CanBeWritten, IsWritten};

/// What opens as an image whose record is closed, and where a state stands, stands for that state.
pub fn a_closed_image_opens_as_it_stands()
    ensures { (old image : List ℕ) (s : Standing) → Stands old s → IsClosed image_area old → 40960 ≤ length image
        → found image_area image ≡ found image_area old → stands_as image ≡ Some (Ok (kept_at old s)) }
{}

/// A disk that opens as the change leaves it stands for the changed state. Where its record is closed, the image is that of the tables
/// after the change.
pub fn a_settled_change_is_whole()
    ensures written { (old new : List ℕ) (held : HeldTables) (change : Change) (placed : Option Placed) → CanBeWritten old held change placed
        → IsClosed image_area new → found image_area new ≡ after image_area (ranges_of held.standing change placed) old
        → IsWritten old new held change placed }
    ensures opens { (old image : List ℕ) (held : HeldTables) (change : Change) (placed : Option Placed) → CanBeWritten old held change placed
        → 40960 ≤ length image → found image_area image ≡ after image_area (ranges_of held.standing change placed) old
        → stands_as image ≡ Some (Ok (applied (kept_at old held.standing) change)) }
{}
