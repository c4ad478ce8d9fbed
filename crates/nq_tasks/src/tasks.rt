//! What is done for an ask: a call, a whole file, a list of names, or tidying up.

ghost use Rattle.std.specs.Prelude.{◌≡◌, IfOk, Some};
ghost use Rattle.nq_tasks.specs.Work.{Steps, asked_by};

use nq_base::{Answer, Call, NoMemory};
use nq_script::parse_call;
use nq_script::words::{WordCursor, is};
use nq_whole::{Getting, GettingSays, Storing, StoringSays, Tidying, TidyingSays};
use std::alloc::Global;

/// What is done, call by call.
#[derive(Drop)]
pub enum Task {
    /// A call.
    Call(Call),
    /// Storing a whole file.
    Store(Storing),
    /// Getting a whole file.
    Get(Getting),
    /// Tidying up behind a store that was cut off.
    Tidy(Tidying),
    /// Listing names, by a list that stands beside it. It makes no call.
    List,
}

/// What a task says of an answer.
#[derive(Clone, Copy)]
pub enum Stepped {
    /// A call has its answer.
    Called,
    /// Storing says this.
    Stored(StoringSays),
    /// Getting says this.
    Got(GettingSays),
    /// Tidying says this.
    Tidied(TidyingSays),
    /// A list makes no call, so this is no answer of its own.
    Listing,
}

impl Task {
    /// The task that an ask names, beside a store and a list; None where it names none.
    pub fn named(alloc: Global, text: &[u8]) -> Option<Task> {
        let mut words = WordCursor::new(text);
        let verb = words.next()?;
        if is(verb, b"get") {
            let name = words.name()?;
            return Some(Task::Get(Getting::new(alloc, name)));
        }
        match parse_call(alloc, text, 2) {
            Ok(call) => Some(Task::Call(call)),
            Err(_) => None,
        }
    }

    /// The call that comes next. A list has none.
    ///
    /// # Errors
    ///
    /// Want of memory, and that there is no call.
    pub fn asks(&self, alloc: Global) -> Result<Call, NoMemory>
        ensures { IfOk result (λ call. asked_by self.now ≡ Some call) }
    {
        match self {
            Task::Call(call) => call.copied(alloc),
            Task::Store(storing) => storing.asks(alloc),
            Task::Get(getting) => Ok(getting.asks()),
            Task::Tidy(tidying) => Ok(tidying.asks()),
            Task::List => Err(NoMemory::Memory),
        }
    }

    /// Hands the answer to what is done.
    pub fn take_answer(&mut self, answer: &Answer) -> Stepped
        ensures { Steps result answer.now self.old self.new }
    {
        match self {
            Task::Call(_) => Stepped::Called,
            Task::Store(storing) => Stepped::Stored(storing.take_answer(answer)),
            Task::Get(getting) => Stepped::Got(getting.take_answer(answer)),
            Task::Tidy(tidying) => Stepped::Tidied(tidying.take_answer(answer)),
            Task::List => Stepped::Listing,
        }
    }

    /// Whether it is a call that removes a file.
    pub fn removes(&self) -> bool {
        matches!(self, Task::Call(Call::Remove { .. }))
    }

    /// The bytes that it got; none where it gets no file.
    pub fn into_bytes(self, alloc: Global) -> Vec<u8> {
        match self {
            Task::Get(getting) => getting.into_bytes(),
            _ => Vec::new(alloc),
        }
    }
}
