//! A step is its own host's. Each law stands on a function with an empty body, whose clause is the law and whose proof stands in
//! `proofs/`.

ghost use Rattle.nq_model.specs.laws.StepsAreOfOneHost.{StepsAreOfOneHost, StepsRestOnTheirHost};

/// Each event changes one party alone, in every world: the client whose host it is of, or the server. Packets and entries are only
/// added.
pub fn steps_are_of_one_host()
    ensures { StepsAreOfOneHost }
{}

/// What a party has after its step, what it sends and what it tells rest on nothing but what it had, how many packets were sent,
/// and what the event brings it.
pub fn steps_rest_on_their_host()
    ensures { StepsRestOnTheirHost }
{}
