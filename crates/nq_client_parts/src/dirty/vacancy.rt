//! What answers a notice.

ghost use Rattle.std.specs.Prelude.{◌≡◌};

use nq_base::{FileId, Tag};
use std::marker::Model;

/// What a vacated message says: of which file a lease is given up, and with which tag. It comes from a notice and a clean
/// file: [`Clean::vacates`](crate::dirty::Clean::vacates) is the one source.
#[derive(Drop)]
pub struct Vacancy {
    file: FileId,
    tag: Tag,
}

impl Model for Vacancy {
    ghost use Rattle.nq_model.specs.protocol.Client.{Notice};

    ghost Value = { Notice };

    ghost view = { λ v. record { file = v.file; tag = v.tag } };
}

impl Vacancy {
    /// What is said of a file that is clean.
    pub(crate) fn new(file: FileId, tag: Tag) -> Vacancy
        ensures { result ≡ record { file = file; tag = tag } }
    {
        Vacancy { file, tag }
    }

    /// The file.
    pub fn file(&self) -> FileId
        ensures { result ≡ self.now.file }
    {
        self.file
    }

    /// The tag of the lease that is given up.
    pub fn tag(&self) -> Tag
        ensures { result ≡ self.now.tag }
    {
        self.tag
    }
}
