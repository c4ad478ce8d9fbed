//! What a stop leaves of a migration, and what is there behind it.

ghost use Rattle.std.specs.Prelude.{◌≡◌, ◌≤◌, ℕ, List, Ok, Some, true, length, slice_index};
ghost use Rattle.nq_plan.specs.Standing.{begins_as_image, image_area, stands_as};
ghost use Rattle.nq_image.specs.Image.{FoundOne};
ghost use Rattle.nq_image.specs.Layout.{block_place};
ghost use Rattle.nq_image.specs.Whole.{image_in, of_one};
ghost use Rattle.nq_disk.specs.Batch.{IsFit};
ghost use Rattle.nq_disk.specs.Whole.{IsClosed, OpensAs, after, found as found_by};
ghost use Rattle.nq_store.specs.Migrated.{blocks_in};
ghost use Rattle.nq_store.specs.Prepared.{SameBelow, change_of, prepared};

/// What is written behind the blocks of the files changes nothing: whatever a stop leaves stands for the same, and so does what
/// opens as that.
pub fn what_stands_behind_the_files_may_be_any()
    ensures closed { (found : FoundOne) (old image : List ℕ) → image_in old ≡ Some (Ok (of_one found)) → IsClosed image_area old
        → SameBelow (block_place (blocks_in found.rows.slots)) old image → IsClosed image_area image }
    ensures stands { (found : FoundOne) (old image : List ℕ) → image_in old ≡ Some (Ok (of_one found)) → IsClosed image_area old
        → SameBelow (block_place (blocks_in found.rows.slots)) old image → stands_as image ≡ stands_as old }
    ensures opens { (found : FoundOne) (old mid image : List ℕ) → image_in old ≡ Some (Ok (of_one found)) → IsClosed image_area old
        → SameBelow (block_place (blocks_in found.rows.slots)) old mid → OpensAs image_area mid image → stands_as image ≡ stands_as old }
{}

/// Once the tables are written, the change of the numbers fits into the record; and a disk that opens as the change leaves it stands
/// for the same, in version 2.
pub fn a_migration_stands_for_the_same()
    ensures fits { (found : FoundOne) (old : List ℕ) → image_in old ≡ Some (Ok (of_one found)) → IsClosed image_area old
        → IsFit image_area (length (prepared found.rows.slots old)) (change_of found) }
    ensures opens { (found : FoundOne) (old image : List ℕ) → image_in old ≡ Some (Ok (of_one found)) → IsClosed image_area old → 40960 ≤ length image
        → found_by image_area image ≡ after image_area (change_of found) (prepared found.rows.slots old) → stands_as image ≡ stands_as old }
    ensures begins { (found : FoundOne) (old image : List ℕ) → image_in old ≡ Some (Ok (of_one found)) → IsClosed image_area old → IsClosed image_area image
        → found_by image_area image ≡ after image_area (change_of found) (prepared found.rows.slots old) → begins_as_image image ≡ true }
    ensures two { (found : FoundOne) (old image : List ℕ) → image_in old ≡ Some (Ok (of_one found)) → IsClosed image_area old → IsClosed image_area image
        → found_by image_area image ≡ after image_area (change_of found) (prepared found.rows.slots old) → slice_index image 7 ≡ 50 }
{}
