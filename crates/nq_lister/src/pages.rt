//! Pages of names that begin with a prefix, which are read file by file.

ghost use Rattle.std.specs.Prelude.{◌≡◌, IfSome};
ghost use Rattle.nq_directory.specs.Files.{ReadsOn};
ghost use Rattle.nq_lister.specs.Listing.{begins_with};

use nq_base::{FileRow, Name};
use nq_directory::{BegunLeaf, Prefix};

/// Whether a name begins with a prefix.
#[tactic(auto, unfolding(crate::specs::Listing::begins_with))]
fn begins_with(prefix: &Prefix, name: &Name) -> bool
    ensures { result ≡ begins_with prefix.now name.now }
{
    name.as_bytes().starts_with(prefix.as_bytes())
}

/// Whether the name of a file begins with a prefix, if there is one.
fn is_own(prefix: &Prefix, next: &Option<FileRow>) -> bool
    ensures { IfSome next.now (λ row. result ≡ begins_with prefix.now row.name) }
{
    match next {
        Some(row) => begins_with(prefix, &row.name),
        None => false,
    }
}

/// Takes the next file behind the last one of a page in, if there is one: its name is added, where it begins with the prefix. Says
/// whether the page is whole then.
pub(crate) fn read_on(page: &mut BegunLeaf, prefix: &Prefix, next: Option<FileRow>) -> bool
    ensures { ReadsOn result (begins_with prefix.now) next page.old page.new }
{
    let own = is_own(prefix, &next);
    page.read(next, own)
}
