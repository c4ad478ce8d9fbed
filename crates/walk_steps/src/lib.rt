//! What one step of the server or of a client does, walked once: each outcome with what led to it, what each step keeps of tables,
//! numbers, packets, mail, lines, clocks and leases, which entries it adds to a journal, and the frame in which a fact is shown of
//! every run. It has no code. How far every run goes, which most crates need, is told in `bounds`.
#![tactic(auto)]

pub mod bounds;
