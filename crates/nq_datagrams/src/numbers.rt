//! The numbers of the protocol in RPC messages.

/// The most bytes of a datagram that the server looks at.
pub const LONGEST_DATAGRAM: usize = 4400;

/// The number of the program.
pub const PROGRAM: u32 = 0x2000_4e51;

/// The version of the program.
pub const VERSION: u32 = 1;

/// The version of RPC (RFC 1057).
pub const RPC_VERSION: u32 = 2;

/// The procedure VACATED, which has no reply.
pub(crate) const VACATED: u32 = 8;

/// The procedure EVICTED, which is sent by the server alone.
pub(crate) const EVICTED: u32 = 9;

/// The last procedure.
pub(crate) const LAST_PROCEDURE: u32 = 11;
