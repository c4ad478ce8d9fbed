//! What is done many times, to be timed from outside. The words say what, which way and how often: `lookup`, `lookup-reply` or `read-reply` with
//! `encode` or `decode`; `server-lookup`, `server-read`, `server-read-wanted`, `server-write` or `server-push` with 1-1, 256-1 or
//! 256-2048, the files and the rows of the server; or `store-commit` or `store-read` with `list`, `memory` or the path of a file, where
//! is kept what a server keeps, and `store-bare`, `store-open` or `store-open-full` with `memory` or the path of a file.

mod datagrams;
mod servers;
mod stores;

use crate::page::cut;

/// Does so many times what the words say, and gives a number that stands on all that came out; None where they say nothing that is
/// here, memory is wanting, or a disk fails.
pub(crate) fn often(rt: &HostRuntime, what: &str, way: &str, times: u32) -> Option<u64> {
    let alloc = rt.alloc();
    match cut(what, '-') {
        ("server", ask) => servers::often(alloc, ask, way, times),
        ("store", deed) => stores::often(rt, deed, way, times),
        _ => datagrams::often(alloc, what, way, times),
    }
}
