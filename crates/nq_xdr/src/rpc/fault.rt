//! What is wrong with bytes that are no message.

ghost use Rattle.std.specs.Prelude.{◌≡◌};
ghost use Rattle.nq_xdr.specs.declared.rpc.fault.RpcFault.TheVariants.{Memory};

use crate::XdrFault;
use std::alloc::AllocError;

/// Why bytes were not read as a message: the first fault in their order.
#[derive(Clone, Copy, Debug, PartialEq, Eq)]
pub enum RpcFault {
    /// The bytes end inside an item.
    Short = 1,
    /// A message type, a reply_stat, an accept_stat or a reject_stat is none of RFC 1057's.
    BadKind = 2,
    /// The body of a credential or of a verifier has more than 400 bytes.
    BadAuth = 3,
    /// A residual byte is not zero, or bytes stand behind an error reply.
    Xdr = 4,
    /// The bytes are a message, and memory for its arguments or results was refused.
    Memory,
}

impl RpcFault {
    ghost use Rattle.std.specs.Prelude.{◌≡◌};
    ghost use Rattle.nq_xdr.specs.RpcFault.{fault_number};

    /// Its number.
    pub fn number(self) -> u8
        ensures { result ≡ fault_number self }
    {
        self as u8
    }
}

impl From<XdrFault> for RpcFault {
    ghost use Rattle.std.specs.Prelude.{◌≡◌};
    ghost use Rattle.nq_xdr.specs.RpcReading.{fault_of};

    ghost from_gives = { λ x e. e ≡ fault_of x };

    fn from(fault: XdrFault) -> RpcFault {
        match fault {
            XdrFault::Short => RpcFault::Short,
            XdrFault::TooLong => RpcFault::BadAuth,
            XdrFault::Bool | XdrFault::Pad | XdrFault::Trailing => RpcFault::Xdr,
        }
    }
}

impl From<AllocError> for RpcFault {
    ghost from_gives = { λ _ e. e ≡ Memory };

    fn from(_e: AllocError) -> RpcFault {
        RpcFault::Memory
    }
}
