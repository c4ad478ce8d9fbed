//! What the journal tells of the calls of a client and of delayed writes, and that each step of a client or of the server keeps it. It
//! has no code.
