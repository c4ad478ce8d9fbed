//! What the messages say.

use crate::{FileName, Prefix};
use nq_base::{FileId, Grant, Tag, Who};

/// The procedure READDIRLOOK. The server proper answers it as one that is not served.
pub const READ_DIR_PROCEDURE: u32 = 13;

/// The procedure DIREVICTED, which the server's side calls at a client.
pub const DIR_EVICTED_PROCEDURE: u32 = 15;

/// The procedure DIRVACATED. The server proper answers it as one that is not served.
pub const DIR_VACATED_PROCEDURE: u32 = 16;

/// The status of a READDIRLOOK that is to come again later.
pub const LATER_STATUS: u32 = 501;

/// The most names of a page.
pub const MOST_NAMES: u32 = 32;

/// A READDIRLOOK: who asks for the files of a directory with ids above `after`, and wants a reading lease of so many ticks.
#[derive(Clone, Copy)]
pub struct ReadDir {
    /// The number of the call.
    pub xid: u32,
    /// Who asks.
    pub who: Who,
    /// The directory.
    pub prefix: Prefix,
    /// The id behind which the page begins.
    pub after: FileId,
    /// The wanted term in ticks.
    pub term: u32,
}

/// A DIREVICTED or a DIRVACATED: whose list of which directory is given up, by the tag of its lease.
#[derive(Clone, Copy)]
pub struct DirTag {
    /// The number of the call.
    pub xid: u32,
    /// The holder of the list.
    pub who: Who,
    /// The directory.
    pub prefix: Prefix,
    /// The tag of the lease.
    pub tag: Tag,
}

/// A page of the list of a directory.
#[derive(Drop)]
pub struct Page {
    /// At most 32 files, by id.
    pub names: Vec<FileName>,
    /// Whether the list goes on behind them.
    pub more: bool,
    /// The lease, where one is granted.
    pub grant: Option<Grant>,
}

/// What a reply to a READDIRLOOK says.
#[derive(Drop)]
pub enum PageTold {
    /// A page.
    Page(Page),
    /// The client is to ask again later.
    Later,
}
