//! What opens is within the bounds of a kept state.

ghost use Rattle.std.specs.Prelude.{◌≡◌, ℕ, List, Some, Ok};
ghost use Rattle.nq_model.specs.protocol.Change.{IsWithinBounds};
ghost use Rattle.nq_model.specs.protocol.Kept.{Kept};
ghost use Rattle.nq_image.specs.Bounds.{AreBytes};
ghost use Rattle.nq_image.specs.Kept.{opened};

/// What opens is within the bounds of a kept state.
pub fn what_opens_is_within_bounds()
    ensures { (bytes : List ℕ) (kept : Kept) → AreBytes bytes → opened bytes ≡ Some (Ok kept) → IsWithinBounds kept }
{}
