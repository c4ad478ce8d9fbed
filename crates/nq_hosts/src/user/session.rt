//! A client in use.

use nq_base::Journal;
use nq_client::Client;

/// A client in use, with what came of it so far.
pub(crate) struct Session {
    /// The client.
    pub(crate) client: Client,
    /// The journal.
    pub(crate) log: Journal,
    /// The number that it is told of the next datagram that it is given.
    pub(crate) next: u64,
}
