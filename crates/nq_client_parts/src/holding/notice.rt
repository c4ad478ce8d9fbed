//! A notice that waits.

ghost use Rattle.std.specs.Prelude.{◌≡◌};
ghost use Rattle.nq_model.specs.protocol.Table.{later_tag};

use nq_base::{FileId, Tag};
use std::marker::Model;

/// A notice that the lease on a file is to be given up. It has to be spent: by a vacated message once the file is
/// clean, or by the end of the client. Clauses see the notice of the protocol.
pub struct Notice {
    file: FileId,
    tag: Tag,
}

impl Model for Notice {
    ghost use Rattle.nq_model.specs.protocol.Client.{Notice as Waiting};

    ghost Value = { Waiting };

    ghost view = { λ n. record { file = n.file; tag = n.tag } };
}

impl Notice {
    /// A notice for a file, with the tag of the lease that is to be given up.
    pub fn new(file: FileId, tag: Tag) -> Notice
        ensures { result ≡ record { file = file; tag = tag } }
    {
        Notice { file, tag }
    }

    /// The file.
    pub fn file(&self) -> FileId
        ensures { result ≡ self.now.file }
    {
        self.file
    }

    /// The tag.
    pub(crate) fn tag(&self) -> Tag
        ensures { result ≡ self.now.tag }
    {
        self.tag
    }

    /// Spends the notice without a message. This is for a client that ends.
    pub fn forgotten(self) {
        let Notice { file: _, tag: _ } = self;
    }

    /// Two notices for one file, as one: it has the later tag.
    pub(crate) fn join(self, later: Notice) -> Notice
        requires { later.file ≡ self.file }
        ensures { result ≡ record self { tag = later_tag self.tag later.tag } }
    {
        let Notice { file, tag } = self;
        let Notice {
            file: _,
            tag: other,
        } = later;
        Notice {
            file,
            tag: if tag < other { other } else { tag },
        }
    }
}
