//! Times that a clock shows.

ghost use Rattle.std.specs.Prelude.{◌≡◌, ◌<◌, ◌≤◌, ◌+◌, ◌^◌, IfSome, IsNone};

use nq_base::Ticks;

/// One more than the last time that a clock shows.
const TIMES_END: u64 = 0x4000_0000_0000_0000;

/// This time, if a clock shows it: no clock shows 2^62.
pub(crate) fn shown(time: Ticks) -> Option<Ticks>
    ensures same { IfSome result (λ shown. shown ≡ time) }
    ensures early { IfSome result (λ shown. shown < 2 ^ 62) }
    ensures late { IsNone result → 2 ^ 62 ≤ time }
{
    if time.0 < TIMES_END { Some(time) } else { None }
}

/// The time one tick later, if a clock shows it.
pub(crate) fn time_after(time: Ticks) -> Option<Ticks>
    ensures next { IfSome result (λ later. later ≡ time + 1) }
    ensures early { IfSome result (λ later. later < 2 ^ 62) }
    ensures late { IsNone result → 2 ^ 62 ≤ time + 1 }
{
    let later = time.0.checked_add(1)?;
    shown(Ticks(later))
}
