//! An image of version 1 is what its first bytes say, where the disk holds its blocks.

ghost use Rattle.std.specs.Prelude.{◌≡◌, ℕ, List, Err, Ok, Some, true, length, slice_index};
ghost use Rattle.nq_plan.specs.Standing.{begins_as_image, image_area, stands_as};
ghost use Rattle.nq_image.specs.Image.{FoundOne, image_one};
ghost use Rattle.nq_image.specs.Layout.{piece};
ghost use Rattle.nq_image.specs.Whole.{image_in, of_one};
ghost use Rattle.nq_disk.specs.Whole.{IsClosed};
ghost use Rattle.nq_store.specs.Head.{one_in};

/// An image of version 1 is read in its first bytes. Where one with a closed record has a wrong field, it stands for that.
pub fn an_image_of_version_one_is_what_its_first_bytes_say()
    ensures head { (bytes : List ℕ) → image_one bytes ≡ one_in (length bytes) (piece 0 28672 bytes) }
    ensures right { (bytes : List ℕ) (found : FoundOne) → begins_as_image bytes ≡ true → slice_index bytes 7 ≡ 49 → image_one bytes ≡ Ok found
        → image_in bytes ≡ Some (Ok (of_one found)) }
    ensures wrong { (bytes : List ℕ) (place : ℕ) → IsClosed image_area bytes → begins_as_image bytes ≡ true → slice_index bytes 7 ≡ 49
        → image_one bytes ≡ Err place → stands_as bytes ≡ Some (Err place) }
{}
