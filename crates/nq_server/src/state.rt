//! What a server holds beside what it keeps.

use nq_base::Ticks;
use nq_keeper::requests::boot::{Recovering, Serving};
use nq_lease::Table;

/// Whether the boot serves.
#[derive(Drop)]
pub(crate) enum Phase {
    /// It serves.
    Serving(Serving),
    /// It recovers; the recovery is there but while a tick has it in hand. `last` is the table with which the last boot served,
    /// where this server knows it. No answer rests on it.
    Recovering {
        recovery: Option<Recovering>,
        last: Option<Table>,
    },
}

/// What a server holds beside what it keeps.
#[derive(Drop)]
pub(crate) struct State {
    /// Whether the boot serves.
    pub(crate) phase: Phase,
    /// The lease table of the boot.
    pub(crate) table: Table,
    /// The longest term that the boot grants, in ticks.
    pub(crate) longest: u32,
    /// The number of the next notice.
    pub(crate) notice: u32,
    /// The server's time.
    pub(crate) time: Ticks,
}
