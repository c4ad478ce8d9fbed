//! What a host keeps of the names of directories: whole lists, each under a reading lease, from which it answers names itself.
//!
//! A [`NameCache`] asks for a list page by page, gives a list up when the server wants its lease back, and forgets the lists that
//! calls of its own host are about to change. It stands beside the client and changes nothing of it. What it does is in the
//! definitions: `specs/NameCacheNames.antt`, and `specs/Asking.antt` for what it makes of datagrams.

mod asking;
mod cache;
mod found;
mod listed;

pub use cache::NameCache;
pub use found::Found;
