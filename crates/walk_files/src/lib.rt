//! What each step keeps of files: chained leases, the history of a file's contents, endings of writing leases, delayed writes that can
//! still be stored, and what the journal says of values; and what it keeps of calls (`calls`). It has no code.
#![tactic(auto)]

pub mod calls;
