//! Which asks are carried out.

ghost use Rattle.std.specs.Prelude.{◌≡◌, ◌↔◌, ◌<◌, ℕ, List, IsTrue};
ghost use Rattle.nq_asks.specs.Numbers.{AreAbove, carried, last_behind};

use std::marker::Model;

/// The last number of the asks of a connection that were carried out; 0 before the first. Contracts see that number.
#[derive(Drop)]
pub struct Numbers {
    last: u32,
}

impl Model for Numbers {
    ghost use Rattle.std.specs.Prelude.{ℕ};

    ghost Value = { ℕ };

    ghost view = { λ n. n.last };
}

impl Numbers {
    /// No ask was carried out yet.
    pub fn new() -> Numbers
        ensures { result ≡ 0 }
    {
        Numbers { last: 0 }
    }

    /// Whether the ask of this number is carried out: where it is above all before it.
    pub fn admit(&mut self, number: u32) -> bool
        ensures admitted { IsTrue result ↔ (self.old < number) }
        ensures last { self.new ≡ last_behind self.old number }
    {
        let is_fresh = self.last < number;
        if is_fresh {
            self.last = number;
        }
        is_fresh
    }
}

/// Whatever numbers come, those that are carried out rise, so none of them is carried out twice.
pub fn numbers_rise()
    ensures { (last : ℕ) (numbers : List ℕ) → AreAbove last (carried last numbers) }
{}
