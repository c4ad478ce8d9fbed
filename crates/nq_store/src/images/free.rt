//! Free blocks: whatever is written there, the image stands for the same.

ghost use Rattle.std.specs.Prelude.{◌≡◌, ℕ, List, Option, All, length};
ghost use Rattle.nq_base.specs.declared.FileRow.{FileRow};
ghost use Rattle.nq_disk.specs.Bytes.{Torn, written};
ghost use Rattle.nq_image.specs.Layout.{block_place};
ghost use Rattle.nq_image.specs.Standing.{Agree, IsFree, Standing, Stands};
ghost use Rattle.nq_plan.specs.Held.{HeldTables, IsHeldOf};
ghost use Rattle.nq_plan.specs.Placing.{IsPlacedFor};
ghost use Rattle.nq_plan.specs.declared.placing.Placed.{Placed};
ghost use Rattle.nq_store.specs.Changing.{HasZeros, new_blocks, zeroed};

/// The blocks that a file gets are free.
pub fn new_blocks_are_free()
    ensures { (bytes : List ℕ) (held : HeldTables) (row : Option FileRow) (placed : Option Placed) → IsHeldOf bytes held
        → IsPlacedFor held row placed → All (IsFree held.standing) (new_blocks placed) }
{}

/// What is written to a free block, and what a stop leaves of such a write, changes nothing that stands in the image. The block may
/// be past the end.
pub fn free_blocks_may_be_any()
    ensures written { (bytes : List ℕ) (s : Standing) (block : ℕ) (part : List ℕ) → Stands bytes s → IsFree s block → length part ≡ 4096
        → Agree s bytes (written (block_place block) part bytes) }
    ensures torn { (s : Standing) (block : ℕ) (old new : List ℕ) → Stands old s → IsFree s block
        → Torn (block_place block) 4096 old new → Agree s old new }
    ensures zeroed { (bytes : List ℕ) (s : Standing) (blocks : List ℕ) → Stands bytes s → All (IsFree s) blocks
        → Agree s bytes (zeroed blocks bytes) }
    ensures zeros { (bytes blocks : List ℕ) → All (HasZeros (zeroed blocks bytes)) blocks }
{}
