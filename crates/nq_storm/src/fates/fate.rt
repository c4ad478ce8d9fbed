//! Who chooses what happens next.

ghost use Rattle.std.specs.Prelude.{◌≡◌, ◌%◌, ℕ, Option, Some, IfSome, slice_get};
ghost use Rattle.nq_io.specs.Faults.{count_up};
ghost use Rattle.nq_storm.specs.Menu.{menu};
ghost use Rattle.nq_storm.specs.Rules.{Rule, chosen};
ghost use Rattle.nq_storm.specs.Stormy.{IsStormy};

use crate::fates::menus::event_at;
use crate::fates::offers::Offer;
use nq_base::Event;

/// Chooses what happens next. Nothing is assumed of what it answers, but of one that tells its rule.
pub trait Fate: Drop {
    /// The rule that it follows, if it tells it.
    ghost told: { Self → Option Rule };

    /// How often it was asked for a choice: a count that stands still at the end of its type.
    ghost asks: { Self → ℕ };

    /// Its kind: 0 steady, 1 lossy, 2 cut, 3 hostile.
    fn kind(&self) -> u8
        ensures { IfSome (told self.now) (λ rule. result ≡ rule.kind) };

    /// A number that names a place on the menu.
    fn choose(&mut self, offer: &Offer) -> u32
        ensures asks { asks self.new ≡ count_up (asks self.old) }
        ensures chosen { IfSome (told self.old) (λ rule. (result ≡ (chosen rule offer.now).0) × (told self.new ≡ Some (chosen rule offer.now).1)) };
}

/// The event that a fate, which is asked once, chooses from the menu of a moment; what it writes, if it writes, is `number`.
pub fn choose_event(fate: &mut dyn Fate, offer: &Offer, number: u32) -> Event
    ensures asks { asks fate.new ≡ count_up (asks fate.old) }
    ensures stormy { IsStormy result }
    ensures chosen { (answer : ℕ) × (slice_get (menu offer.now number) (answer % offer.now.size) ≡ Some result)
        × IfSome (told fate.old) (λ rule. (answer ≡ (chosen rule offer.now).0) × (told fate.new ≡ Some (chosen rule offer.now).1)) }
{
    let answer = fate.choose(offer);
    event_at(offer, offer.place(answer), number)
}
