//! A change is its ranges.

ghost use Rattle.std.specs.Prelude.{ℕ, List, Option, length};
ghost use Rattle.nq_base.specs.declared.Change.{Change};
ghost use Rattle.nq_plan.specs.Standing.{image_area};
ghost use Rattle.nq_plan.specs.Held.{HeldTables};
ghost use Rattle.nq_plan.specs.Ranges.{ranges_of};
ghost use Rattle.nq_plan.specs.declared.placing.Placed.{Placed};
ghost use Rattle.nq_disk.specs.Batch.{IsFit};
ghost use Rattle.nq_disk.specs.Ranges.{applied};
ghost use Rattle.nq_store.specs.Changing.{CanBeWritten, IsWritten};

/// Where the ranges of a change are written, the image stands for the changed state. They fit into its redo record.
pub fn a_change_is_its_ranges()
    ensures written { (bytes : List ℕ) (held : HeldTables) (change : Change) (placed : Option Placed) → CanBeWritten bytes held change placed
        → IsWritten bytes (applied (ranges_of held.standing change placed) bytes) held change placed }
    ensures fits { (bytes : List ℕ) (held : HeldTables) (change : Change) (placed : Option Placed) → CanBeWritten bytes held change placed
        → IsFit image_area (length bytes) (ranges_of held.standing change placed) }
{}
