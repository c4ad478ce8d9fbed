//! What stands in an image of version 2, wherever its files stand.

ghost use Rattle.std.specs.Prelude.{◌≡◌, ◌<◌, ℕ, List, Some, Ok, slice_index};
ghost use Rattle.nq_model.specs.protocol.Kept.{Kept};
ghost use Rattle.nq_image.specs.Image.{FoundTwo};
ghost use Rattle.nq_image.specs.Kept.{opened};
ghost use Rattle.nq_image.specs.Standing.{Agree, CanStand, PlacedFile, Standing, Stands, kept_at, row_at, standing_in};
ghost use Rattle.nq_image.specs.Whole.{image_in, of_two};

/// What is read in an image stands there.
pub fn what_is_read_stands()
    ensures { (bytes : List ℕ) (found : FoundTwo) → image_in bytes ≡ Some (Ok (of_two found)) → Stands bytes (standing_in bytes found) }
{}

/// Where a kept state stands in an image, the image opens as that state; and what an image of version 2 opens as stands in it.
pub fn what_stands_opens()
    ensures opens { (bytes : List ℕ) (s : Standing) → Stands bytes s → opened bytes ≡ Some (Ok (kept_at bytes s)) }
    ensures stands { (bytes : List ℕ) (kept : Kept) → opened bytes ≡ Some (Ok kept) → slice_index bytes 7 ≡ 50
        → (s : Standing) × Stands bytes s × (kept_at bytes s ≡ kept) }
{}

/// Each file that stands in an image stands apart: it has a name, an id and blocks of its own, all within their bounds.
pub fn what_stands_is_apart()
    ensures { (bytes : List ℕ) (s : Standing) (file : PlacedFile) → Stands bytes s → file.slot < 256 → row_at s file.slot ≡ Some file → CanStand s file }
{}

/// The record of a change and the blocks that no file has may hold any bytes, and more may stand behind: the same stands there.
pub fn free_bytes_may_be_any()
    ensures stands { (s : Standing) (old new : List ℕ) → Stands old s → Agree s old new → Stands new s }
    ensures kept { (s : Standing) (old new : List ℕ) → Agree s old new → kept_at new s ≡ kept_at old s }
{}
