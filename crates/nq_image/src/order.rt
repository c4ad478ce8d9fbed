//! The fields of an image stand in the order of their places: the first that is wrong is the least.

ghost use Rattle.std.specs.Prelude.{◌≡◌, ◌≤◌, ◌+◌, ◌*◌, ℕ, Bool, List, Option, Err, All, length};
ghost use Rattle.nq_image.specs.Check.{AreInOrder, Check, IsLeastWrong, judged};
ghost use Rattle.nq_image.specs.Heads.{boots_checks, front_checks};
ghost use Rattle.nq_image.specs.Hosts.{hosts_checks};
ghost use Rattle.nq_image.specs.Rows.{blocks_of, rows_checks};
ghost use Rattle.nq_image.specs.Tables.{ids_checks, tables_checks};
ghost use Rattle.nq_image.specs.declared.rows.Slot.{Slot};
ghost use Rattle.nq_image.specs.declared.rows.Version.{Version};

/// Of fields in the order of their places, the first wrong one is the least wrong one.
pub fn first_wrong_is_least()
    ensures { (first last place : ℕ) (checks : List Check) → AreInOrder first last checks → judged checks ≡ Err place → IsLeastWrong place checks }
{}

/// The numbers of the server stand in the order of their places.
pub fn heads_are_in_order()
    ensures boots { (front : List ℕ) → AreInOrder 8 64 (boots_checks front) }
    ensures front { (front : List ℕ) → AreInOrder 8 64 (front_checks front) }
{}

/// The fields of the rows of hosts and of files stand in the order of their places.
pub fn rows_are_in_order()
    ensures hosts { (count place : ℕ) (rows : List ℕ) → AreInOrder place (place + 32 * count) (hosts_checks count place rows) }
    ensures files { (version : Version) (count place : ℕ) (slots : List (Option Slot)) (rows : List ℕ)
        → AreInOrder place (place + 96 * count) (rows_checks version count place slots rows) }
{}

/// The entries of the tables and the ids stand in the order of their places.
pub fn tables_are_in_order()
    ensures tables { (tables place : ℕ) (slots : List (Option Slot)) (marks : List Bool) (bytes : List ℕ) → All (λ slot. blocks_of slot ≤ 1024) slots
        → AreInOrder place (place + 4096 * length slots) (tables_checks tables place slots marks bytes) }
    ensures ids { (next place : ℕ) (ids : List ℕ) (slots : List (Option Slot)) (rest : List ℕ)
        → AreInOrder place (place + 4 * length slots) (ids_checks next place ids slots rest) }
{}
