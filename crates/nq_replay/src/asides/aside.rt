//! What an aside is.

ghost use Rattle.std.specs.Prelude.{◌≡◌, ◌≤◌, ℕ, List, Option, Some, length};
ghost use Rattle.nq_replay.specs.Text.{aside_at};

/// What an aside says: a line of another kind, which may stand in a schedule where a line `flow` may.
pub trait AsideLine: Copy + Drop {
    /// What a line says in a schedule with so many hosts, if it is an aside.
    ghost said: { (hosts : ℕ) → (line : List ℕ) → Option Self };

    /// It is one of a schedule with so many hosts.
    ghost fits: { (hosts : ℕ) → Self → Type 0 };

    /// What a line says in a schedule with so many hosts, if it is an aside.
    fn of_line(line: &[u8], hosts: u32) -> Option<Self>
        ensures { result ≡ said hosts line.now };

    /// The line of an aside is no shorter than `flow`.
    ghost is_long: { (hosts : ℕ) (line : List ℕ) (aside : Self) → said hosts line ≡ Some aside → 4 ≤ length line };

    /// What a line says is one of a schedule with so many hosts.
    ghost is_fit: { (hosts : ℕ) (line : List ℕ) (aside : Self) → hosts ≤ 64 → said hosts line ≡ Some aside → fits hosts aside };
}

/// What the line at a place says, if it is an aside.
pub fn aside_at<A: Copy + Drop>(asides: &[Option<A>], place: usize) -> Option<A>
    ensures { result ≡ aside_at asides.now place }
{
    match asides.get(place) {
        Some(aside) => *aside,
        None => None,
    }
}
