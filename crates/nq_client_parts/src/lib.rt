//! What a client has: the leases that it holds, the notices that wait, which reply counts for its request under way, the losses that no
//! call was told yet, and the entries that a step makes (Macklem 1994); and its delayed writes (`dirty`).
//!
//! Nothing here reads a datagram. Each value takes room for what it is given before it is given.
#![tactic(auto)]

mod answers;
mod calls;
mod counting;
pub mod dirty;
mod entries;
pub mod holding;
mod job;
mod leases;
mod leave;
mod losses;
mod notices;

pub use answers::{answer_of, said_value};
pub use calls::{body_of_call, changed_file, file_at_stake, waits_for};
pub use counting::{holds_later, inc_of, is_of_procedure, is_put_off, refusal_counts, wants};
pub use entries::Entries;
pub use job::Job;
pub use leases::Leases;
pub use leave::Leave;
pub use losses::{Losing, Named, Unreported};
pub use notices::Notices;
