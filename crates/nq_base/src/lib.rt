//! The plain types of the leased file sharing protocol: what hosts, files, leases, calls, requests and
//! entries of a journal are made of.
#![tactic(auto)]

mod answers;
mod asks;
mod blocks;
mod calls;
mod changes;
mod clocks;
mod decisions;
pub mod ending;
mod entries;
mod journal;
mod kept;
mod kept_calls;
pub mod laws;
mod lists;
mod names;
mod numbers;
mod requests;
mod tags;

pub use answers::{Answer, Value};
pub use asks::{Access, Asked, Clash, Push, Question};
pub use blocks::{Block, Seen, Spare};
pub use calls::{Call, Event};
pub use changes::{BlockChange, Change, Heads, HostChange, Space};
pub use clocks::SkewBroken;
pub use decisions::{Decided, Effect, Gate};
pub use entries::{Entry, Said, Told};
pub use journal::Journal;
pub use kept::{FileRow, HostRow, Row, RowKey, Verdict};
pub use kept_calls::KeptCall;
pub use lists::{FileList, Loss, Losses, Span, Spans};
pub use names::Name;
pub use nq_memory::NoMemory;
pub use numbers::{BlockNo, FileId, Host, Inc, Number, Rev, Seq, Ticks};
pub use requests::{PushBase, Refusal, Reply, Request};
pub use tags::{Grant, Mode, Party, Tag, Want, Who};
