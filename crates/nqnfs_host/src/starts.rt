//! The number of a host's start, its incarnation: a small file keeps the last one, and the machine's clock says how high it has to be at least.

use nq_base::Inc;
use nq_command::prompt::{next_start, risen, start_text};
use std::fs::{self, File};
use std::io::{self, ErrorKind, Write};
use std::thread;
use std::time::{Duration, SystemTime};

/// How often it is looked at most whether a second is over.
const LOOKS: u32 = 150;

/// For how many milliseconds to sleep between two looks.
const PAUSE: u64 = 10;

/// Why a host has no next incarnation.
#[derive(Clone, Copy)]
pub(crate) enum NoStart {
    /// Memory was wanting.
    Memory,
    /// The file with the last one cannot be read.
    Read,
    /// It holds no number, or the last one that there is.
    Number,
    /// The disk is full.
    Full,
    /// The file cannot be written.
    Write,
}

/// Waits until the second is over that the machine's clock shows. A host does so behind binding its port: whoever was this host before took
/// its incarnation in an earlier second, also by a file in another folder.
pub(crate) fn let_second_pass(rt: &HostRuntime) {
    let began = seconds_now(rt);
    for _look in 0..LOOKS {
        if seconds_now(rt) != began {
            return;
        }
        pause(rt);
    }
}

/// Sleeps for a moment.
pub(crate) fn pause(rt: &HostRuntime) {
    let _slept = thread::sleep(rt, Duration::from_millis(PAUSE));
}

/// The seconds since 1970 that the machine's clock shows; 0 where it shows none.
fn seconds_now(rt: &HostRuntime) -> u64 {
    match SystemTime::now(rt) {
        Ok(now) => match now.duration_since(SystemTime::UNIX_EPOCH) {
            Ok(passed) => passed.as_secs(),
            Err(_) => 0,
        },
        Err(_) => 0,
    }
}

/// The next incarnation of the host with this folder. It is written down before anything is sent.
pub(crate) fn next_inc(rt: &HostRuntime, folder: &str) -> Result<Inc, NoStart> {
    match format!(in rt.alloc(); "{folder}/incarnation") {
        Ok(path) => next_in(rt, folder, path.as_str()),
        Err(_) => Err(NoStart::Memory),
    }
}

/// The next incarnation by the file at this path.
fn next_in(rt: &HostRuntime, folder: &str, path: &str) -> Result<Inc, NoStart> {
    let start = match start_after(rt, path) {
        Ok(start) => start,
        Err(why) => return Err(why),
    };
    let Ok(line) = start_text(rt.alloc(), start) else {
        return Err(NoStart::Memory);
    };
    match replace_file(rt, folder, path, &line) {
        Ok(()) => Ok(Inc(start)),
        Err(error) => match error.kind() {
            ErrorKind::OutOfMemory => Err(NoStart::Memory),
            ErrorKind::StorageFull | ErrorKind::QuotaExceeded => Err(NoStart::Full),
            _ => Err(NoStart::Write),
        },
    }
}

/// The start behind the one that the file at this path tells. Where there is no file, only the clock says how high it is.
fn start_after(rt: &HostRuntime, path: &str) -> Result<u32, NoStart> {
    let seconds = seconds_now(rt);
    match fs::read(rt, path) {
        Ok(text) => match next_start(&text, seconds) {
            Some(start) => Ok(start),
            None => Err(NoStart::Number),
        },
        Err(error) if error.kind() == ErrorKind::NotFound => Ok(risen(1, seconds)),
        Err(_) => Err(NoStart::Read),
    }
}

/// Writes a file anew: into a file of its own, which then takes the other's place, so that a stop leaves the old bytes or the new ones.
pub(crate) fn replace_file(
    rt: &HostRuntime,
    folder: &str,
    path: &str,
    bytes: &[u8],
) -> io::Result<()> {
    let fresh = format!(in rt.alloc(); "{path}.new")?;
    write_synced(File::create(rt, fresh.as_str()), bytes)?;
    fs::rename(rt, fresh.as_str(), path)?;
    File::open(rt, folder)?.sync_all()
}

/// Writes a file, if it could be opened, and syncs it.
fn write_synced(file: io::Result<File>, bytes: &[u8]) -> io::Result<()> {
    let mut file = file?;
    file.write_all(bytes)?;
    file.sync_all()
}
