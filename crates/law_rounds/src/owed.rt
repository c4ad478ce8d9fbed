//! Replies are owed. The law stands on a function with an empty body, whose clause is the law and whose proof stands in `proofs/`.

ghost use Rattle.nq_model.specs.laws.RepliesAreOwed.{RepliesAreOwed};

/// To each datagram for which the protocol names a reply a server sends exactly one, behind its notices; to any other it sends
/// nothing. So it is for every server, every sender and every datagram (RFC 1057 section 8).
pub fn replies_are_owed()
    ensures { RepliesAreOwed }
{}
