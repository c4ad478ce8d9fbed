//! What breaks the rule on clocks.

use crate::numbers::Host;

/// A tick of the server's clock that would break the rule on skew (Macklem 1994): a part of the schedule, from some
/// event to that tick, has too many ticks of the server's clock for those of a host's.
#[derive(Clone, Copy)]
pub struct SkewBroken {
    /// The host.
    pub host: Host,
    /// How often the server's clock ticks in that part.
    pub server: u32,
    /// How often the host's clock ticks in it.
    pub client: u32,
}
