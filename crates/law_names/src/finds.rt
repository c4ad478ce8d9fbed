//! What hosts find. Each law stands on a function with an empty body, whose clause is the law and whose proof stands in `proofs/`.

ghost use Rattle.law_names.specs.Met.{FindsAreMet};
ghost use Rattle.nq_name_server.specs.Lasting.{EachListLasts};
ghost use Rattle.nq_name_server.specs.Theorem.{EachFindIsKept};

/// A host that knows of a name knows what the server keeps under it at that moment, whatever packets were lost, repeated or
/// reordered, however the clocks are skewed, and whoever started again (Gray and Cheriton 1989; Macklem 1994). So it is after every
/// schedule with lists of at most 100,000 events whose inner events are within skew over the longest term of all boots.
pub fn each_find_is_kept()
    ensures { EachFindIsKept }
{}

/// After every such schedule, while the lease of a list runs by the clock of its host, the server has a reading row on the directory
/// that ends later, or it recovers for longer than that, and the list has what is kept of its directory.
pub fn lists_last()
    ensures { EachListLasts }
{}

/// There is such a schedule: a host lists a directory, and knows the file of a name in it, and of another name that no file has it.
pub fn finds_are_met()
    ensures { FindsAreMet }
{}
