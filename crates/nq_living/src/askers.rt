//! Those who ask a host.

ghost use Rattle.std.specs.Prelude.{ℕ, List, Option, Some, option_map};
ghost use Rattle.nq_base.specs.declared.Answer.{Answer};
ghost use Rattle.nq_base.specs.declared.Call.{Call};
ghost use Rattle.nq_base.specs.declared.Entry.{Entry};

use nq_base::{Answer, Call, FileId, Journal};

/// What comes of the pages of lists.
#[derive(Drop)]
pub struct Paged {
    /// The request for the next page that is to be sent, if one is due.
    pub request: Option<Vec<u8>>,
    /// Whether something is over, so that there may be more to do at once.
    pub is_over: bool,
}

/// Those who ask a host, and what the host does for them, call by call.
pub trait Askers {
    /// Whether the second is the first one after it has said which call is made next, if any.
    ghost gives: { Self → Option Call → Self → Type 0 };

    /// Whether the second is the first one after it has taken this answer to the call that it gave last.
    ghost takes: { Self → Answer → Self → Type 0 };

    /// Whether the second is the first one after it was told that a step of the client made these entries.
    ghost notes: { Self → List Entry → Self → Type 0 };

    /// Whether the second is the first one after it has taken what came of a list, if anything did, and wants this request sent, if any.
    ghost pages: { Self → Option (List ℕ) → Self → Type 0 };

    /// Whether the second is the first one after it did something else.
    ghost stirs: { Self → Self → Type 0 };

    /// Waits until something comes from the server or from those who ask, or for a moment. Where much is to be done it only looks. Whether it
    /// can go on.
    fn wait(&mut self, is_busy: bool) -> bool
        ensures { stirs self.old self.new };

    /// Hears those who ask, and sends what is owed to them. Whether anything came.
    fn tend(&mut self) -> bool
        ensures { stirs self.old self.new };

    /// Is told what a step of the client did, before anything goes out that came of it.
    fn note(&mut self, log: &Journal)
        ensures { notes self.old log.now.entries self.new };

    /// The call that is made next, if any. The client shows this time in ticks, and delays writes of this file for the longest time, if of any.
    fn next_call(&mut self, now: u64, delayed: Option<FileId>) -> Option<Call>
        ensures { gives self.old result self.new };

    /// Takes the answer to the call that it gave last.
    fn take(&mut self, answer: &Answer)
        ensures { takes self.old answer.now self.new };

    /// Takes the page of a list that came, if any, and tells which one is asked for next.
    fn turn_page(&mut self, now: u64, page: Option<Vec<u8>>) -> Paged
        ensures { pages self.old (option_map (λ request. request.items) result.request) self.new };

    /// Whether somebody wants the host to end.
    fn wants_end(&self) -> bool;

    /// The call that stores what is delayed of a file, before the host ends.
    fn last_call(&mut self, file: FileId) -> Call
        ensures { gives self.old (Some result) self.new };

    /// Waits for a moment, before the host ends.
    fn rest(&mut self)
        ensures { stirs self.old self.new };

    /// Tells whoever wants the host to end. Where writes are delayed still it does not. Whether it ends.
    fn end(&mut self, is_delaying: bool) -> bool
        ensures { stirs self.old self.new };
}
