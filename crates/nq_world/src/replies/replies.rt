//! Replies.

ghost use Rattle.nq_world.specs.Replies.{EachPacketIsHeard, RepliesAreOfTheirRequest};

/// In every run a reply to a client's request under way is of the procedure of that request.
pub fn replies_are_of_their_request()
    ensures { RepliesAreOfTheirRequest }
{}

/// In every run a client makes of the bytes of a packet what it makes of the packet's message.
pub fn each_packet_is_heard()
    ensures { EachPacketIsHeard }
{}
