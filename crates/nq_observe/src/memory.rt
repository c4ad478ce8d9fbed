//! Memory, and whether it was wanting.

use nq_base::NoMemory;
use std::alloc::Global;

/// Of what lists grow. It remembers whether memory was ever wanting.
#[derive(Drop)]
pub(crate) struct Memory {
    pub(crate) alloc: Global,
    pub(crate) is_short: bool,
}

impl Memory {
    /// Memory that was never wanting.
    pub(crate) fn new(alloc: Global) -> Memory {
        Memory {
            alloc,
            is_short: false,
        }
    }

    /// Adds an item to a list, if there is memory for it.
    pub(crate) fn push<T: Drop>(&mut self, list: &mut Vec<T>, item: T) {
        if list.push(item).is_err() {
            self.is_short = true;
        }
    }

    /// Adds an item to a list, if there was memory to make it.
    pub(crate) fn add<T: Drop>(&mut self, list: &mut Vec<T>, made: Result<T, NoMemory>) {
        match made {
            Ok(item) => self.push(list, item),
            Err(_) => self.is_short = true,
        }
    }
}
