//! How the menu of a moment is laid out.

ghost use Rattle.std.specs.Prelude.{◌≡◌, ◌≤◌, ◌<◌, ◌+◌, ◌%◌};
ghost use Rattle.nq_storm.specs.Places.{tick_count};

/// How the menu of a moment is laid out, and a random word. First on the menu stand the deliveries, one for each packet
/// that was sent.
#[derive(Drop)]
pub struct Offer {
    /// How many packets were sent.
    pub packets: u32,
    /// The least packet that was never delivered, or `packets`.
    pub fresh: u32,
    /// Whether the server's clock may tick within the rule on skew.
    pub server_tick: bool,
    /// Where the ticks begin: the server's, if it may tick, and those of the four hosts.
    pub ticks_at: u32,
    /// Where the restarts of the four hosts begin.
    pub restarts_at: u32,
    /// Where the crash stands.
    pub crash_at: u32,
    /// Where the calls begin, 26 for each host.
    pub calls_at: u32,
    /// How many events stand on the menu.
    pub size: u32,
    /// A word that was drawn for this moment.
    pub word: u32,
    ghost fresh_sent: { fresh ≤ packets },
    ghost ticks_behind: { ticks_at ≡ packets },
    ghost restarts_behind: { restarts_at ≡ ticks_at + tick_count server_tick },
    ghost crash_behind: { crash_at ≡ restarts_at + 4 },
    ghost calls_behind: { calls_at ≡ crash_at + 1 },
    ghost whole: { size ≡ calls_at + 104 },
}

impl Offer {
    /// The offer of a moment. At most 2^31 packets were sent.
    pub fn new(packets: u32, fresh: u32, server_tick: bool, word: u32) -> Offer
        requires few { packets ≤ 2147483648 }
        requires fresh { fresh ≤ packets }
        ensures packets { result.packets ≡ packets }
        ensures fresh { result.fresh ≡ fresh }
        ensures server_tick { result.server_tick ≡ server_tick }
        ensures word { result.word ≡ word }
    {
        let ticks = if server_tick { 5 } else { 4 };
        let restarts_at = packets + ticks;
        let crash_at = restarts_at + 4;
        let calls_at = crash_at + 1;
        Offer {
            packets,
            fresh,
            server_tick,
            ticks_at: packets,
            restarts_at,
            crash_at,
            calls_at,
            size: calls_at + 104,
            word,
        }
    }

    /// The place on the menu that an answer names.
    pub fn place(&self, answer: u32) -> u32
        ensures place { result ≡ answer % self.now.size }
        ensures on_it { result < self.now.size }
    {
        answer % self.size
    }
}
