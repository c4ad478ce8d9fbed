//! The link of a host that lives.

ghost use Rattle.std.specs.Prelude.{◌≡◌};
ghost use Rattle.nq_link.specs.Links.{link_told};

use nq_link::Link;

/// A link that may hold back what is sent, and sets pages of lists aside, which are no datagrams of the protocol proper.
pub trait Line: Link {
    /// Lets go what was held back.
    fn let_go(&mut self)
        ensures { link_told Self.sent Self.waiting Self.faults Self.receives self.new
            ≡ link_told Self.sent Self.waiting Self.faults Self.receives self.old };

    /// Whether the last receive found nothing.
    fn is_dry(&self) -> bool;

    /// The page of a list that came last, until it is taken.
    fn take_page(&mut self) -> Option<Vec<u8>>
        ensures { link_told Self.sent Self.waiting Self.faults Self.receives self.new
            ≡ link_told Self.sent Self.waiting Self.faults Self.receives self.old };
}
