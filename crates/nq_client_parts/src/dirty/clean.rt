//! Files that are known to be clean.

ghost use Rattle.std.specs.Prelude.{◌≡◌, IsTrue};
ghost use Rattle.nq_model.specs.protocol.Client.{is_clean_in};

use crate::dirty::dirty::Dirty;
use crate::dirty::vacancy::Vacancy;
use crate::holding::Notice;
use nq_base::FileId;
use std::marker::Model;

/// A clean file: it has no delayed writes, neither in the list nor under way. The list is borrowed, so no block becomes
/// dirty while this lives. [`Dirty::clean`] is the one source. Clauses see the file and the delayed writes of others.
#[derive(Drop)]
pub struct Clean<'a> {
    file: FileId,
    dirty: &'a Dirty,
}

impl<'a> Model for Clean<'a> {
    ghost use Rattle.std.specs.Prelude.{IsTrue};
    ghost use Rattle.nq_model.specs.protocol.Client.{is_clean_in};
    ghost use Rattle.nq_client_parts.specs.Delayed.{CleanFile};

    ghost Value = { CleanFile };

    ghost view = { λ c. record { file = c.file; dirty = c.dirty.now.dirty; push = c.dirty.now.push } };

    ghost invariant = { λ c. IsTrue (is_clean_in c.file c.dirty.now.dirty c.dirty.now.push) };
}

impl<'a> Clean<'a> {
    /// A file that is clean.
    pub(crate) fn new(dirty: &'a Dirty, file: FileId) -> Clean<'a>
        requires { IsTrue (is_clean_in file dirty.now.dirty dirty.now.push) }
        ensures { result ≡ record { file = file; dirty = dirty.now.dirty; push = dirty.now.push } }
    {
        Clean { file, dirty }
    }

    /// Spends a notice for this file: its lease is given up with a vacated message.
    pub fn vacates(&self, notice: Notice) -> Vacancy
        requires { notice.file ≡ self.now.file }
        ensures { result ≡ notice }
    {
        let tag = notice.tag();
        notice.forgotten();
        Vacancy::new(self.file, tag)
    }
}
