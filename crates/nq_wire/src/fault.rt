//! What is wrong with arguments and results.

ghost use Rattle.std.specs.Prelude.{◌≡◌};
ghost use Rattle.nq_wire.specs.declared.fault.WireFault.TheVariants as fault;
ghost use Rattle.nq_wire.specs.Garbage.{garbage};

use nq_xdr::XdrFault;

/// Why bytes were not read as a request or a reply.
#[derive(Clone, Copy, Debug)]
pub enum WireFault {
    /// The program has no procedure of that number.
    NoSuchProc,
    /// The bytes are not in the procedure's grammar.
    Garbage,
    /// Memory was refused.
    Memory,
}

/// The bytes are not in the grammar.
#[derive(Clone, Copy)]
pub struct Garbage;

impl From<XdrFault> for Garbage {
    ghost from_gives = { λ _ e. e ≡ garbage };

    fn from(_fault: XdrFault) -> Garbage {
        Garbage
    }
}

impl From<Garbage> for WireFault {
    ghost from_gives = { λ _ e. e ≡ fault.Garbage };

    fn from(_garbage: Garbage) -> WireFault {
        WireFault::Garbage
    }
}
