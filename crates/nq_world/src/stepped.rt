//! What a world answers.

use nq_base::SkewBroken;

/// Which limit was reached.
#[derive(Clone, Copy)]
pub enum Limit {
    /// 100,000 events were taken in. A clock, a boot or an incarnation at its last number is answered so too: none of a run
    /// comes there before.
    Events,
    /// More than 999,936 packets were sent.
    Packets,
}

/// What a world answers to an event. After every answer but `Done` it is as if the event had not come.
#[derive(Clone, Copy)]
pub enum Stepped {
    /// The event was taken in.
    Done,
    /// The packet was not sent.
    NoPacket,
    /// The tick of the server's clock breaks the rule on skew (Macklem 1994).
    SkewBroken(SkewBroken),
    /// There were too many events, or too many packets, before this event.
    Limit(Limit),
    /// The keeper failed, which it has counted.
    Fault,
    /// Memory was wanting.
    Memory,
}
