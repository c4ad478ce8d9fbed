//! What the server says.

ghost use Rattle.walk_steps.specs.Says.{ServerSaysPlainly};

/// Each packet of a step of the server is its own, and its entries name no losses.
pub fn server_says_plainly()
    ensures { ServerSaysPlainly }
{}
