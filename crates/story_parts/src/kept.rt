//! For what an image stands.

use crate::page::{field, say, tell_words};
use nq_base::HostRow;
use nq_image::{FoundFile, read_kept};
use std::alloc::Global;

/// Adds for what an image stands: the numbers of the server, the rows of hosts that sent something, and the files with their blocks.
pub(crate) fn tell(alloc: Global, bytes: &[u8], page: &mut Vec<u8>) {
    let Ok(kept) = read_kept(alloc, bytes) else {
        return;
    };
    field(page, "\n  heads boot", u64::from(kept.heads.boot));
    field(page, " opened", u64::from(kept.heads.opened));
    field(page, " longest", u64::from(kept.heads.longest));
    field(page, " next", u64::from(kept.heads.next));
    for (host, row) in kept.hosts.iter().enumerate() {
        tell_host(host, row, page);
    }
    for file in &kept.files {
        tell_file(file, &kept.blocks, bytes, page);
    }
}

/// Adds the row of a host, if it sent something.
fn tell_host(host: usize, row: &HostRow, page: &mut Vec<u8>) {
    if row.inc.0 > 0 || row.seq.0 > 0 {
        field(page, "\n  host", host as u64);
        field(page, " inc", u64::from(row.inc.0));
        field(page, " seq", row.seq.0);
        field(page, " verdict", row.verdict as u64);
        field(page, " value", row.value);
    }
}

/// Adds a file and its blocks.
fn tell_file(file: &FoundFile, blocks: &[u32], bytes: &[u8], page: &mut Vec<u8>) {
    let row = &file.row;
    field(page, "\n  file", u64::from(row.id.0));
    say(page, " name ");
    page.extend_from_slice(row.name.as_bytes()).ok();
    field(page, " blocks", u64::from(row.blocks));
    field(page, " rev", row.rev.0);
    for number in 0..row.blocks as usize {
        if let Some(block) = blocks.get(number.saturating_add(file.start as usize)) {
            field(page, "\n  block", u64::from(row.id.0));
            field(page, "", number as u64);
            let place = 40960 + 4096 * *block as usize;
            tell_words(page, bytes.get(place..place + 4096).unwrap_or(&[]));
        }
    }
}
