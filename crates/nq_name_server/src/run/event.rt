//! The events of a schedule with lists.

use nq_base::{Event, Host};
use nq_directory::Prefix;

/// One atomic step.
#[derive(Drop)]
pub enum NameEvent {
    /// An event of the inner world; a delivery speaks of an outer packet.
    Plain(Event),
    /// A host asks for the list of a directory.
    List(Host, Prefix),
}
