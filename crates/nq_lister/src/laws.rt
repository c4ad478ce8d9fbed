//! What holds of pages.

ghost use Rattle.nq_lister.specs.Listing.{PagesGoOn};

/// Each page goes on where the one before it ended.
pub fn pages_go_on()
    ensures { PagesGoOn }
{}
