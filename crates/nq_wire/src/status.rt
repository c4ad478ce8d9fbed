//! Statuses.

ghost use Rattle.std.specs.Prelude.{◌≡◌};
ghost use Rattle.nq_wire.specs.Status.{status_number};
ghost use Rattle.nq_wire.specs.Reading.{refusal_of};

use crate::Refusal;
use crate::fault::Garbage;

/// The status of a request that was done.
pub(crate) const OK: u32 = 0;

/// The number of a status other than OK.
pub(crate) fn number(status: Refusal) -> u32
    ensures { result ≡ status_number status }
{
    match status {
        Refusal::NoEnt => 2,
        Refusal::Exist => 17,
        Refusal::Inval => 22,
        Refusal::NoSpc => 28,
        Refusal::Stale => 70,
        Refusal::TryLater => 501,
        Refusal::Fenced => 502,
        Refusal::NotAttached => 503,
        Refusal::Old => 504,
    }
}

/// The status of a number that is not OK's.
#[tactic(auto, unfolding(crate::specs::Reading::refusal_of))]
pub(crate) fn refusal(number: u32) -> Result<Refusal, Garbage>
    ensures { result ≡ refusal_of number }
{
    match number {
        2 => Ok(Refusal::NoEnt),
        17 => Ok(Refusal::Exist),
        22 => Ok(Refusal::Inval),
        28 => Ok(Refusal::NoSpc),
        70 => Ok(Refusal::Stale),
        501 => Ok(Refusal::TryLater),
        502 => Ok(Refusal::Fenced),
        503 => Ok(Refusal::NotAttached),
        504 => Ok(Refusal::Old),
        _ => Err(Garbage),
    }
}
