//! What an image of version 1 stands for, and what it stands for once it is one of version 2.

ghost use Rattle.std.specs.Prelude.{◌≡◌, ℕ, List, Some, Ok};
ghost use Rattle.nq_image.specs.Image.{FoundOne};
ghost use Rattle.nq_image.specs.Kept.{opened};
ghost use Rattle.nq_image.specs.Layout.{block_place};
ghost use Rattle.nq_image.specs.Whole.{image_in, of_one};
ghost use Rattle.nq_store.specs.Migrated.{AgreeUpTo, IsMigrated, blocks_in};

/// An image of version 1 is its rows and the blocks of its files: where these are the same, it stands for the same.
pub fn an_image_of_version_one_is_its_rows_and_blocks()
    ensures { (found : FoundOne) (old new : List ℕ) → image_in old ≡ Some (Ok (of_one found))
        → AgreeUpTo (block_place (blocks_in found.rows.slots)) old new → opened new ≡ opened old }
{}

/// An image that was migrated stands for the same.
pub fn a_migrated_image_opens_the_same()
    ensures { (found : FoundOne) (old new : List ℕ) → image_in old ≡ Some (Ok (of_one found)) → IsMigrated found old new
        → opened new ≡ opened old }
{}
