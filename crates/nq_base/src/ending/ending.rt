//! How commands end.

ghost use Rattle.std.specs.Prelude.{◌≡◌};
ghost use Rattle.nq_base.specs.Status.{status_of};

/// How a command ends, and why it stops where it stops early.
#[derive(Clone, Copy)]
pub enum Ending {
    /// It did what its words say.
    Done,
    /// The words say nothing that can be run.
    Usage,
    /// A line is outside the grammar, or delivers a packet that was not sent.
    Script,
    /// A tick of the server's clock breaks the rule on skew.
    Skew,
    /// The source failed, which it has counted.
    ReadFault,
    /// The sink failed, which it has counted.
    WriteFault,
    /// The keeper failed, which it has counted.
    KeepFault,
    /// Memory was wanting.
    Memory,
    /// A link failed, which it has counted.
    LinkFault,
    /// The input, or its events or packets, pass a limit; or a client takes in no more.
    Limit,
    /// No number is left for a boot of the server, or for what a boot takes in.
    Spent,
    /// All turns were taken, and none of them ended a call.
    NoAnswer,
    /// The journal is not sound.
    NotSound,
}

impl Ending {
    /// The exit status. No two ends have the same.
    pub fn status(self) -> u8
        ensures { result ≡ status_of self }
    {
        match self {
            Ending::Done => 0,
            Ending::Usage => 1,
            Ending::Script => 2,
            Ending::Skew => 3,
            Ending::ReadFault => 4,
            Ending::WriteFault => 5,
            Ending::KeepFault => 6,
            Ending::Memory => 7,
            Ending::LinkFault => 8,
            Ending::Limit => 9,
            Ending::Spent => 10,
            Ending::NoAnswer => 11,
            Ending::NotSound => 12,
        }
    }
}
