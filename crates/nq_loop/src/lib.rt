//! Loops: a world whose packets travel over real links, and whose clocks follow a real clock, and the command `loop N TURNS`.
//!
//! A turn keeps the events that it made of readings and datagrams; [`run_loop`] takes turns, and prints that schedule, its journal
//! and its counts. What a turn is stands in `specs/Looping`, what turns are in `specs/Turning`, and what is printed in `specs/Printed`.
//! What holds of all such hosts stands in `hosts`.
#![tactic(auto)]

mod calling;
mod counts;
mod deeds;
mod giving;
pub mod hosts;
mod matching;
mod places;
mod printing;
mod receiving;
mod running;
mod schedules;
mod sending;
mod state;
mod taking;
mod turning;
mod turns;

pub use running::{LoopPlan, run_loop};
