//! The numbers of RFC 1057 section 8 that say how a message goes on.

/// Message types.
pub const CALL: u32 = 0;

pub const REPLY: u32 = 1;

/// How a reply begins: its reply_stat.
pub const MSG_ACCEPTED: u32 = 0;

pub const MSG_DENIED: u32 = 1;

/// What became of an accepted call: its accept_stat.
pub const SUCCESS: u32 = 0;

pub const PROG_UNAVAIL: u32 = 1;

pub const PROG_MISMATCH: u32 = 2;

pub const PROC_UNAVAIL: u32 = 3;

pub const GARBAGE_ARGS: u32 = 4;

/// Why a call was denied: its reject_stat.
pub const RPC_MISMATCH: u32 = 0;

pub const AUTH_ERROR: u32 = 1;
