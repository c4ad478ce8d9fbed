//! Texts and lists that are made piece by piece.

use crate::chart::{Part, text_of};
use std::alloc::Global;

/// Makes texts and lists. Once memory was wanting `is_short` tells of it: then what was made may lack pieces.
#[derive(Drop)]
pub(crate) struct Maker {
    pub(crate) alloc: Global,
    pub(crate) is_short: bool,
}

impl Maker {
    /// A maker that has had memory for all.
    pub(crate) fn new(alloc: Global) -> Maker {
        Maker {
            alloc,
            is_short: false,
        }
    }

    /// Adds an item to a list.
    pub(crate) fn push<T: Drop>(&mut self, items: &mut Vec<T>, item: T) {
        if items.push(item).is_err() {
            self.is_short = true;
        }
    }

    /// The text that parts make, one behind the other.
    pub(crate) fn text(&mut self, parts: &[Part]) -> String {
        match text_of(self.alloc, parts) {
            Ok(text) => text,
            Err(_) => {
                self.is_short = true;
                String::new(self.alloc)
            }
        }
    }

    /// A form in which these numbers stand for the signs `#`, in their order. A sign for which there is no number is left out, and so is
    /// a number for which there is no sign.
    pub(crate) fn filled(&mut self, form: &str, numbers: &[u64]) -> String {
        let mut parts = Vec::new(self.alloc);
        let mut signs = 0usize;
        for words in form.split('#') {
            if signs > 0 {
                if let Some(number) = numbers.get(signs - 1) {
                    self.push(&mut parts, Part::Number(*number));
                }
            }
            self.push(&mut parts, Part::Text(words));
            signs = signs.saturating_add(1);
        }
        self.text(&parts)
    }
}
