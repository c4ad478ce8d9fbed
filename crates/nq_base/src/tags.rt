//! Parties, incarnations, tags of leases, wants and grants.

use crate::numbers::{Host, Inc, Rev};

/// The tag of a grant. Tags are drawn in order: by boot, then by number.
#[derive(Clone, Copy, PartialEq, Eq, PartialOrd, Ord)]
pub struct Tag {
    /// The boot of the server that drew the tag.
    pub boot: u32,
    /// The number within that boot, from 1.
    pub number: u64,
}

/// The three kinds of lease (Macklem 1994), in rising order.
#[derive(Clone, Copy, PartialEq, Eq, PartialOrd, Ord)]
pub enum Mode {
    /// Nothing is cached: the file is shared for writing.
    NonCaching,
    /// Reads are answered from the cache.
    Reading,
    /// Writes are delayed as well.
    Writing,
}

/// An end of a packet.
#[derive(Clone, Copy, PartialEq, Eq)]
pub enum Party {
    /// The server.
    Server,
    /// The client at a host.
    Client(Host),
}

/// An incarnation of a client.
#[derive(Clone, Copy, PartialEq, Eq)]
pub struct Who {
    /// Its host.
    pub host: Host,
    /// Its number at that host, from 1.
    pub inc: Inc,
}

/// A wish for a lease. The server moves a term that it does not grant to the nearest one that it does.
#[derive(Clone, Copy)]
pub struct Want {
    /// Reading or writing.
    pub mode: Mode,
    /// The wanted term in ticks.
    pub term: u32,
}

/// A lease as it is granted. The term counts from the moment at which the client first asked (Gray and Cheriton 1989).
#[derive(Clone, Copy)]
pub struct Grant {
    /// The kind of lease.
    pub mode: Mode,
    /// The term in ticks.
    pub term: u32,
    /// The tag of this grant.
    pub tag: Tag,
    /// The first tag of the unbroken chain of grants to which this one belongs.
    pub since: Tag,
    /// The file's revision.
    pub rev: Rev,
    /// The file's length in blocks.
    pub blocks: u32,
}
