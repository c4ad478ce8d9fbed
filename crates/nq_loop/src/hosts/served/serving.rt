//! The rows of a server.

ghost use Rattle.nq_loop.specs.ServedRowsAreMet.{ServedRowsAreMet};
ghost use Rattle.nq_loop.specs.Serving.{ServedRowsStandApart};

use nq_keeper::Keeper;

/// A server that booted over a keeper, and to which anything came after that, as [`hand`](crate::hosts::served::hand) hands it on: beside a
/// row that lets its holder write stands no other row of the file that lets its holder read or write. A file and a host have one
/// row at most, and while the server recovers there are no rows (Gray and Cheriton 1989; Macklem 1994). This is so as long as the
/// keeper tells what it keeps, and after a call that failed too.
pub fn rows_stand_apart<K: Keeper>()
    ensures { ServedRowsStandApart K.content K.faults }
{}

/// There is such a server: a host asks for a lease to write, and gets it.
pub fn served_rows_are_met()
    ensures { ServedRowsAreMet }
{}
