//! The four fates.

ghost use Rattle.std.specs.Prelude.{◌≡◌, ℕ, Some};
ghost use Rattle.nq_storm.specs.Rules.{Rule, tick_or_call};

use crate::fates::fate::Fate;
use crate::fates::offers::Offer;
use std::marker::Model;

/// The place of a tick or of a call, and whose turn to tick it is from then on.
fn tick_or_call(turn: u32, offer: &Offer, word: u32) -> (u32, u32)
    ensures { (next : ℕ) (kind : ℕ) → tick_or_call (record { kind = kind; turn = turn; next = next }) offer.now word
        ≡ (result.0, record { kind = kind; turn = result.1; next = next }) }
{
    if word % 4 == 0 {
        let ticks = offer.restarts_at - offer.ticks_at;
        (offer.ticks_at + turn % ticks, turn.wrapping_add(1))
    } else {
        let calls = offer.size - offer.calls_at;
        (offer.calls_at + word / 4 % calls, turn)
    }
}

/// Delivers what was never delivered; where there is nothing, clocks tick and users call.
#[derive(Drop)]
pub struct SteadyFate {
    turn: u32,
    asks: u64,
}

impl Model for SteadyFate {
    ghost use Rattle.nq_storm.specs.Rules.{Asked};

    ghost Value = { Asked };

    ghost view = { λ f. record { rule = record { kind = 0; turn = f.turn; next = 0 }; asks = f.asks } };
}

impl SteadyFate {
    /// Before its first choice.
    pub fn new() -> SteadyFate
        ensures { result ≡ record { rule = record { kind = 0; turn = 0; next = 0 }; asks = 0 } }
    {
        SteadyFate { turn: 0, asks: 0 }
    }
}

impl Fate for SteadyFate {
    ghost told = { λ fate. Some (record { kind = 0; turn = fate.rule.turn; next = 0 }) };

    ghost asks = { λ fate. fate.asks };

    fn kind(&self) -> u8 {
        0
    }

    fn choose(&mut self, offer: &Offer) -> u32 {
        self.asks = self.asks.saturating_add(1);
        if offer.fresh < offer.packets {
            return offer.fresh;
        }
        let (place, turn) = tick_or_call(self.turn, offer, offer.word);
        self.turn = turn;
        place
    }
}

/// Delivers any packet, again or never; now and then a host restarts or the server crashes.
#[derive(Drop)]
pub struct LossyFate {
    turn: u32,
    asks: u64,
}

impl Model for LossyFate {
    ghost use Rattle.nq_storm.specs.Rules.{Asked};

    ghost Value = { Asked };

    ghost view = { λ f. record { rule = record { kind = 1; turn = f.turn; next = 0 }; asks = f.asks } };
}

impl LossyFate {
    /// Before its first choice.
    pub fn new() -> LossyFate
        ensures { result ≡ record { rule = record { kind = 1; turn = 0; next = 0 }; asks = 0 } }
    {
        LossyFate { turn: 0, asks: 0 }
    }
}

impl Fate for LossyFate {
    ghost told = { λ fate. Some (record { kind = 1; turn = fate.rule.turn; next = 0 }) };

    ghost asks = { λ fate. fate.asks };

    fn kind(&self) -> u8 {
        1
    }

    fn choose(&mut self, offer: &Offer) -> u32 {
        self.asks = self.asks.saturating_add(1);
        let word = offer.word;
        if word % 64 == 1 {
            return offer.restarts_at + word / 64 % 4;
        }
        if word % 64 == 3 {
            return offer.crash_at;
        }
        if word % 2 == 0 && offer.packets > 0 {
            return word / 2 % offer.packets;
        }
        let (place, turn) = tick_or_call(self.turn, offer, word / 2);
        self.turn = turn;
        place
    }
}

/// Delivers 64 packets in their order, loses the next 64, and so on.
#[derive(Drop)]
pub struct CutFate {
    turn: u32,
    next: u32,
    asks: u64,
}

impl Model for CutFate {
    ghost use Rattle.nq_storm.specs.Rules.{Asked};

    ghost Value = { Asked };

    ghost view = { λ f. record { rule = record { kind = 2; turn = f.turn; next = f.next }; asks = f.asks } };
}

impl CutFate {
    /// Before its first choice.
    pub fn new() -> CutFate
        ensures { result ≡ record { rule = record { kind = 2; turn = 0; next = 0 }; asks = 0 } }
    {
        CutFate {
            turn: 0,
            next: 0,
            asks: 0,
        }
    }
}

impl Fate for CutFate {
    ghost told = { λ fate. Some (record { kind = 2; turn = fate.rule.turn; next = fate.rule.next }) };

    ghost asks = { λ fate. fate.asks };

    fn kind(&self) -> u8 {
        2
    }

    fn choose(&mut self, offer: &Offer) -> u32 {
        self.asks = self.asks.saturating_add(1);
        if self.next < offer.packets {
            let packet = self.next;
            self.next += 1;
            if packet / 64 % 2 == 0 {
                return packet;
            }
        }
        let (place, turn) = tick_or_call(self.turn, offer, offer.word);
        self.turn = turn;
        place
    }
}

/// Anything may happen.
#[derive(Drop)]
pub struct HostileFate {
    asks: u64,
}

impl Model for HostileFate {
    ghost use Rattle.nq_storm.specs.Rules.{Asked};

    ghost Value = { Asked };

    ghost view = { λ f. record { rule = record { kind = 3; turn = 0; next = 0 }; asks = f.asks } };
}

impl HostileFate {
    /// Before its first choice.
    pub fn new() -> HostileFate
        ensures { result ≡ record { rule = record { kind = 3; turn = 0; next = 0 }; asks = 0 } }
    {
        HostileFate { asks: 0 }
    }
}

impl Fate for HostileFate {
    ghost told = { λ _. Some (record { kind = 3; turn = 0; next = 0 }) };

    ghost asks = { λ fate. fate.asks };

    fn kind(&self) -> u8 {
        3
    }

    fn choose(&mut self, offer: &Offer) -> u32 {
        self.asks = self.asks.saturating_add(1);
        offer.word
    }
}
