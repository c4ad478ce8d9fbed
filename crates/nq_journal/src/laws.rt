//! Laws of the text, for every journal.

ghost use Rattle.std.specs.Prelude.{◌≡◌, ℕ, List, map};
ghost use Rattle.nq_base.specs.declared.Entry.{Entry};
ghost use Rattle.nq_journal.specs.Fault.{IsFaultyAt};
ghost use Rattle.nq_base.specs.Plain.{plain};
ghost use Rattle.nq_journal.specs.Text.{IsText, journal_text};

/// A text is that of one version and of one journal, up to room that is reserved in its entries.
pub fn one_journal()
    ensures { (v w : ℕ) (xs ys : List Entry) (bytes : List ℕ) → IsText v xs bytes → IsText w ys bytes → (v ≡ w) × (map plain xs ≡ map plain ys) }
{}

/// Room that is reserved in entries is not in their text.
pub fn room_is_silent()
    ensures { (version : ℕ) (entries : List Entry) → journal_text version (map plain entries) ≡ journal_text version entries }
{}

/// A text that is no journal's has one first faulty line.
pub fn one_fault()
    ensures { (m n : ℕ) (bytes : List ℕ) → IsFaultyAt m bytes → IsFaultyAt n bytes → m ≡ n }
{}
