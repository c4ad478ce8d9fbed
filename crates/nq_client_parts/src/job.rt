//! What a request is for.

/// What a request is for.
#[derive(Clone, Copy)]
pub enum Job {
    /// The beginning of the incarnation.
    Attaching,
    /// The call under way.
    ForCall,
    /// The renewal of a lease.
    Renewing,
    /// Delayed writes.
    Pushing,
}
