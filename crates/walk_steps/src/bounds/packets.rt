//! Packets.

ghost use Rattle.nq_model.specs.laws.EventsSendFew.{EventsSendFew};

/// In every run an event sends at most 64 packets: a client sends two, and the server a notice to each host but the one
/// that asks, of which there are 63, and a reply.
pub fn events_send_few()
    ensures { EventsSendFew }
{}
