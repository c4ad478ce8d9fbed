//! Replies in every run: each is of the procedure of the request that it answers, so a client that reads its bytes by the
//! procedure of its request reads what was said. Each law stands on a function with an empty body, whose clause is the
//! law and whose proof stands in `proofs/`.

mod replies;

pub use replies::{each_packet_is_heard, replies_are_of_their_request};
