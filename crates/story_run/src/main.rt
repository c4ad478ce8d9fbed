//! Commands that run in memory, as scenes, one after another, with ample memory. The program ends with 0 where all was read and printed.
#![tactic(auto)]

mod again;
mod parts;
mod post;
mod scenes;
mod top;
mod watched;

use std::process::ExitCode;

fn main(rt: HostRuntime) -> ExitCode {
    ExitCode::from(scenes::play_all(&rt).status())
}
