//! What follows of the definitions of the judge. The functions have empty bodies: each states a law and is its proof.

ghost use Rattle.std.specs.Prelude.{◌≡◌, ◌↔◌, List, None};
ghost use Rattle.nq_base.specs.declared.Entry.{Entry};
ghost use Rattle.nq_check.specs.Verdict.{verdict};
ghost use Rattle.nq_model.specs.laws.Sound.{IsSound};

/// A journal is sound, by the laws of the definitions, exactly where nothing in it is at fault.
pub fn sound_where_nothing_is_at_fault()
    ensures { (journal : List Entry) → (verdict journal ≡ None) ↔ IsSound journal }
{}
