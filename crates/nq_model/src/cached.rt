//! Cached reads.

ghost use Rattle.nq_model.specs.laws.CachedAtOnce.{CachedAtOnce, TellsCached};

/// A read or fetch of what a client has, under a lease that runs, is answered in its own step: the call, the cached
/// read and the answer are its entries, no packet is sent, and nothing else of the client changes (Macklem 1994).
pub fn cached_at_once()
    ensures { CachedAtOnce }
{}

/// The function of what a client may read at once tells it.
pub fn has_cached_is_exact()
    ensures { TellsCached }
{}
