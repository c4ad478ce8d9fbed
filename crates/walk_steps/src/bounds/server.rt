//! A server alone.

ghost use Rattle.walk_steps.specs.RecoveriesAreMet.{RecoveriesAreMet};
ghost use Rattle.nq_model.specs.laws.RecoveriesWait.{RecoveryWaits};
ghost use Rattle.nq_model.specs.laws.RowsStandApart.{RowsStandApart};

/// Whatever comes to a server, its leases never conflict: a file and a host have one row at most, each row is of the
/// incarnation that is kept, and beside a row that lets its holder write stands no other row of the file that lets its holder
/// read or write. While the server recovers there are no rows. A row that its holder is told to give up keeps its tag until it
/// goes (Gray and Cheriton 1989; Macklem 1994).
pub fn rows_stand_apart()
    ensures { RowsStandApart }
{}

/// A recovery ends no sooner than the longest term of the boot that served last, the skew and the write slack after the boot,
/// and no sooner than the write slack after each write that was stored in it (Macklem 1994).
pub fn recovery_waits()
    ensures { RecoveryWaits }
{}

/// There is a server with a row that lets its holder write, and that its holder is told to give up; it crashes, and while it
/// recovers, with that row in mind, it stores delayed writes.
pub fn recoveries_are_met()
    ensures { RecoveriesAreMet }
{}
