//! What is sent is what is read.

ghost use Rattle.nq_datagrams.specs.Laws.{ClientReadsMessages, ServerReadsMessages};

/// The server reads in the bytes of a message, whose numbers are within their fields, what the message is.
pub fn server_reads_messages()
    ensures { ServerReadsMessages }
{}

/// A client makes of the bytes of such a message what it makes of the message: a reply to the request under way is
/// read by the procedure of that request.
pub fn client_reads_messages()
    ensures { ClientReadsMessages }
{}
