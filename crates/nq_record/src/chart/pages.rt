//! Pages that are drawn piece by piece.

ghost use Rattle.std.specs.Prelude.{◌≡◌, ◌++◌, ◌⊎◌, [], IfSome, None, OnErr, OnOk, Some, length};
ghost use Rattle.std.specs.List.{flat_map};
ghost use Rattle.nq_record.specs.Page.{Closes, Extends, added, spelled};

use crate::chart::NoMemory;
use crate::chart::parts::{Part, text_of};
use crate::chart::text::escape;
use crate::making::Maker;
use std::alloc::Global;
use std::marker::Model;

/// A text that grows. Once memory was wanting there is no text any more, and `close` tells of it.
#[derive(Drop)]
pub struct Page {
    maker: Maker,
    text: Vec<u8>,
}

impl Model for Page {
    ghost use Rattle.std.specs.Prelude.{List, None, Option, Some, if◌then◌else◌, ℕ};

    ghost Value = { Option (List ℕ) };

    ghost view = { λ p. if p.maker.is_short then None else Some p.text.items };
}

impl Page {
    /// A page on which nothing stands.
    pub fn new(alloc: Global) -> Page
        ensures { result ≡ Some [] }
    {
        Page {
            maker: Maker {
                alloc,
                is_short: false,
            },
            text: Vec::new(alloc),
        }
    }

    /// How many bytes stand on it.
    pub fn len(&self) -> usize
        ensures { IfSome self.now (λ text. result ≡ length text) }
    {
        self.text.len()
    }

    /// Adds the text that parts make, one behind the other.
    pub fn put(&mut self, parts: &[Part])
        ensures { self.new ≡ None ⊎ self.new ≡ added self.old (flat_map spelled parts.now) }
    {
        if !self.maker.is_short {
            self.maker.is_short = put_all(self.maker.alloc, &mut self.text, parts).is_err();
        }
    }

    /// Adds a form in which these numbers stand for the signs `#`, in their order.
    pub(crate) fn fill(&mut self, form: &str, numbers: &[u64]) {
        let text = self.maker.filled(form, numbers);
        self.put(&[Part::Text(text.as_str())]);
    }

    /// Adds a text as XML reads it again, between a form with its numbers before it and an end behind it.
    pub(crate) fn put_within(&mut self, form: &str, numbers: &[u64], text: &str, end: &str) {
        self.fill(form, numbers);
        if escape(&mut self.text, text).is_err() {
            self.maker.is_short = true;
        }
        self.put(&[Part::Text(end)]);
    }

    /// Appends the page to a text.
    ///
    /// # Errors
    ///
    /// Only want of memory, here or while the page was drawn. Then nothing was appended.
    pub fn close(self, out: &mut Vec<u8>) -> Result<(), NoMemory>
        ensures written { OnOk result (Closes self out.old.items out.new.items) }
        ensures refused { OnErr result (out.new.items ≡ out.old.items) }
        ensures extends { Extends out.old.items out.new.items }
    {
        let Page { maker, text } = self;
        if maker.is_short {
            return Err(NoMemory::Memory);
        }
        if out.is_empty() {
            *out = text;
            return Ok(());
        }
        out.extend_from_slice(&text)?;
        Ok(())
    }
}

/// Appends the text that parts make, one behind the other.
fn put_all(alloc: Global, page: &mut Vec<u8>, parts: &[Part]) -> Result<(), NoMemory>
    ensures { OnOk result (page.new.items ≡ page.old.items ++ flat_map spelled parts.now) }
{
    let text = text_of(alloc, parts)?;
    page.extend_from_slice(text.as_bytes())?;
    Ok(())
}
