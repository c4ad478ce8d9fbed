//! Counts of what came and went.

use crate::traffic::classes::{ClassHeard, ClassSaid};

/// The names of the procedures, by their numbers.
pub const PROCEDURES: [&str; 14] = [
    "null",
    "attach",
    "lookup",
    "create",
    "getattr",
    "read",
    "write",
    "getlease",
    "vacated",
    "evicted",
    "resize",
    "remove",
    "commit",
    "readdirlook",
];

/// How many datagrams of each kind came to a server and went from it. Each count stands still at `u64::MAX`.
#[derive(Clone, Copy)]
pub struct Counts {
    /// Calls, by their procedures.
    pub calls: [u64; 14],
    /// What came and is no call of the program.
    pub strange: u64,
    /// Notices.
    pub notices: u64,
    /// Replies that a request was carried out.
    pub done: u64,
    /// Replies that it is to come again later.
    pub later: u64,
    /// Replies that a delayed write comes too late.
    pub fenced: u64,
    /// Replies with another status.
    pub refused: u64,
    /// Replies that there is no such call.
    pub errors: u64,
    /// What the machine refused to send.
    pub unsent: u64,
}

/// One more, where the type has room.
fn raise(count: &mut u64) {
    *count = count.saturating_add(1);
}

impl Counts {
    /// No datagram.
    pub fn none() -> Counts {
        Counts {
            calls: [0; 14],
            strange: 0,
            notices: 0,
            done: 0,
            later: 0,
            fenced: 0,
            refused: 0,
            errors: 0,
            unsent: 0,
        }
    }

    /// Counts what came.
    pub(crate) fn hear(&mut self, heard: ClassHeard) {
        match heard {
            ClassHeard::Strange => raise(&mut self.strange),
            ClassHeard::Call(procedure) => match self.calls.get_mut(procedure as usize) {
                Some(count) => raise(count),
                None => raise(&mut self.strange),
            },
        }
    }

    /// Counts what was sent.
    pub(crate) fn say(&mut self, said: ClassSaid) {
        match said {
            ClassSaid::Notice => raise(&mut self.notices),
            ClassSaid::Done => raise(&mut self.done),
            ClassSaid::Later => raise(&mut self.later),
            ClassSaid::Fenced => raise(&mut self.fenced),
            ClassSaid::Refused => raise(&mut self.refused),
            ClassSaid::Error => raise(&mut self.errors),
        }
    }

    /// Counts what the machine refused to send.
    pub(crate) fn lose(&mut self) {
        raise(&mut self.unsent);
    }
}
