//! How much memory the program has.

use nq_script::words::{cut, number};
use nq_serving::traffic::Gauge;
use std::fs;

/// The file in which the system tells a program about itself.
const STATUS: &str = "/proc/self/status";

/// What the system says of the program's memory: how much of it is there now.
#[derive(Drop)]
pub(crate) struct Resident<'a> {
    rt: &'a HostRuntime,
}

impl<'a> Resident<'a> {
    /// A gauge that asks the system.
    pub(crate) fn new(rt: &'a HostRuntime) -> Resident<'a> {
        Resident { rt }
    }
}

impl Gauge for Resident<'_> {
    fn kilobytes(&mut self) -> Option<u64> {
        match fs::read(self.rt, STATUS) {
            Ok(status) => kilobytes_in(&status),
            Err(_) => None,
        }
    }
}

/// The number in the line `VmRSS: N kB`, if there is one.
fn kilobytes_in(status: &[u8]) -> Option<u64> {
    let mut rest = status;
    for _ in 0..status.len() {
        let (line, behind) = cut(rest, b'\n')?;
        if let Some(words) = line.strip_prefix(b"VmRSS:") {
            let (digits, _unit) = cut(words.trim_ascii(), b' ')?;
            return number(digits, u64::MAX);
        }
        rest = behind;
    }
    None
}
