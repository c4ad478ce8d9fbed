//! What turns are taken for.

/// What turns are taken for.
#[derive(Clone, Copy)]
pub(crate) enum Aim {
    /// That the server attaches the client.
    Attached,
    /// That the call under way has its answer.
    Answered,
}
