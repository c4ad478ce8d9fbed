//! The client of one host: what it holds, caches, delays and asks for (Macklem 1994).
#![tactic(auto)]

mod answering;
mod asked;
mod asking;
mod calling;
mod client;
mod done;
mod finishing;
mod hearing;
mod holding;
mod letters;
mod losing;
mod next;
mod reaction;
mod reading;
mod receiving;
mod replying;
mod rooms;
mod sending;
mod settling;
mod starting;
mod state;
mod step;
mod stepping;
mod storing;
mod taking;
mod ticking;
mod vacating;

pub use client::{Client, StartClient};
pub use nq_client_parts::dirty::Dirty;
pub use reaction::Reaction;
