//! The image of a kept state is read back as that state.

ghost use Rattle.std.specs.Prelude.{◌≡◌, ◌++◌, ℕ, List, Some, Ok};
ghost use Rattle.nq_image.specs.Kept.{opened};
ghost use Rattle.nq_image.specs.Nothing.{first_of_nothing, nothing_kept};
ghost use Rattle.nq_image.specs.Writing.{image_of, zeros_of};
ghost use Rattle.nq_model.specs.protocol.Change.{IsWithinBounds};
ghost use Rattle.nq_model.specs.protocol.Kept.{Kept};

/// Each kept state within its bounds has an image, which opens as that state, whatever stands behind it.
pub fn each_kept_state_has_an_image()
    ensures { (kept : Kept) (rest : List ℕ) → IsWithinBounds kept → opened (image_of kept ++ rest) ≡ Some (Ok kept) }
{}

/// The image in which nothing is kept is a few bytes with zeros behind them, whatever stands behind those.
pub fn nothing_is_kept_in_zeros()
    ensures { (rest : List ℕ) → opened (first_of_nothing ++ (zeros_of 1093608 ++ rest)) ≡ Some (Ok nothing_kept) }
{}
