//! A host between two of its steps.

ghost use Rattle.std.specs.Prelude.{◌≡◌, ◌&&◌, is_none};
ghost use Rattle.nq_living.specs.Living.{is_ready};

use nq_base::FileId;
use nq_base::ending::Fault;
use nq_client::Client;

/// A host between two of its steps. Its client has to be stopped in the end.
pub struct Host {
    /// Its client.
    pub client: Client,
    /// The number that the client is told of the next datagram that it is given.
    pub next: u64,
    /// Why no more can be asked, if that is so.
    pub halt: Option<Fault>,
}

/// Whether a client can be asked for a call: the server knows it, and no call is under way.
pub(crate) fn is_ready(client: &Client) -> bool
    ensures { result ≡ is_ready client.now.client }
{
    client.is_attached() && client.call_under_way().is_none()
}

/// Whether a client delays writes.
pub(crate) fn is_delaying(client: &Client) -> bool {
    client.dirty().pending() > 0
}

/// The file of a client's oldest delayed write that is not being stored yet.
pub(crate) fn first_delayed(client: &Client) -> Option<FileId> {
    match client.dirty().nth(0) {
        Some(loss) => Some(loss.file),
        None => None,
    }
}
