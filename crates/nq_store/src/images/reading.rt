//! What is read of an image whose record is closed.

ghost use Rattle.std.specs.Prelude.{◌≡◌, ℕ, List, Some, None, Result, Ok, Err, slice_index};
ghost use Rattle.nq_plan.specs.Standing.{stands_as};
ghost use Rattle.nq_image.specs.Check.{tested};
ghost use Rattle.nq_image.specs.Heads.{front_checks, front_of, version_of};
ghost use Rattle.nq_image.specs.Image.{FoundTwo, image_two, no_marks};
ghost use Rattle.nq_image.specs.Layout.{piece};
ghost use Rattle.nq_image.specs.Whole.{image_in, of_two};
ghost use Rattle.nq_image.specs.declared.Front.{Front};
ghost use Rattle.nq_image.specs.declared.ImageFault.{ImageFault};
ghost use Rattle.nq_plan.specs.Held.{HeldTables, IsHeldOf};
ghost use Rattle.nq_plan.specs.Reading.{ArePartsOf, HoldsIn, held_in};
ghost use Rattle.nq_store.specs.Reading.{IsClosedImage, IsClosedTwo, ReadsImage};

/// What is read in an image is held of it: it stands there, and the marks are those of the blocks that files have.
pub fn what_is_read_is_held()
    ensures { (bytes : List ℕ) (found : FoundTwo) → image_in bytes ≡ Some (Ok (of_two found)) → IsHeldOf bytes (held_in bytes found) }
{}

/// An image whose record is closed is read as it opens: by its version, and in version 2 by its first numbers, and by all of its
/// parts. Such a read sees nothing of the record.
pub fn a_closed_image_is_read_as_it_opens()
    ensures none { (bytes : List ℕ) → IsClosedImage bytes → version_of (slice_index bytes 7) ≡ None → stands_as bytes ≡ None }
    ensures front { (bytes : List ℕ) (place : ℕ) → IsClosedTwo bytes → tested (front_checks (piece 0 64 bytes)) (front_of (piece 0 64 bytes)) ≡ Err place
        → stands_as bytes ≡ Some (Err place) }
    ensures parts { (bytes : List ℕ) (front : Front) (head window : List ℕ) (size : ℕ) (result : Result HeldTables ImageFault) → IsClosedTwo bytes
        → ArePartsOf bytes front head window size
        → ((image : List ℕ) → ArePartsOf image front head window size → HoldsIn image result (image_two (no_marks 16641) image))
        → ReadsImage bytes result }
{}
