//! Laws of the items' spellings, for every value. A spelling never begins another of its kind, so
//! whatever follows an item, it is read again.

ghost use Rattle.std.specs.Prelude.{◌≡◌, ℕ, ◌<◌, ◌^◌, ◌%◌, Bool, List, ◌++◌, length};
ghost use Rattle.nq_xdr.specs.Item.{word, hyper, boolean, opaque, opaque_len};

/// How many bytes each item takes.
pub fn lengths()
    ensures words { (n : ℕ) → length (word n) ≡ 4 }
    ensures hypers { (n : ℕ) → length (hyper n) ≡ 8 }
    ensures booleans { (b : Bool) → length (boolean b) ≡ 4 }
    ensures opaques { (body : List ℕ) → length (opaque body) ≡ opaque_len (length body) }
    ensures multiples { (n : ℕ) → opaque_len n % 4 ≡ 0 }
{}

/// No word begins another.
pub fn words_apart()
    ensures { (a b : ℕ) (r s : List ℕ) → a < 2 ^ 32 → b < 2 ^ 32 → word a ++ r ≡ word b ++ s → (a ≡ b) × (r ≡ s) }
{}

/// No hyper integer begins another.
pub fn hypers_apart()
    ensures { (a b : ℕ) (r s : List ℕ) → a < 2 ^ 64 → b < 2 ^ 64 → hyper a ++ r ≡ hyper b ++ s → (a ≡ b) × (r ≡ s) }
{}

/// No boolean begins another.
pub fn booleans_apart()
    ensures { (a b : Bool) (r s : List ℕ) → boolean a ++ r ≡ boolean b ++ s → (a ≡ b) × (r ≡ s) }
{}

/// No opaque data begins another.
pub fn opaques_apart()
    ensures { (a b r s : List ℕ) → length a < 2 ^ 32 → length b < 2 ^ 32 → opaque a ++ r ≡ opaque b ++ s → (a ≡ b) × (r ≡ s) }
{}
