//! Pages of directories, which are read file by file.

ghost use Rattle.std.specs.Prelude.{◌≡◌, IfSome};
ghost use Rattle.nq_directory.specs.Files.{ReadsOn};
ghost use Rattle.nq_name_server.specs.Served.{is_in};

use nq_base::FileRow;
use nq_directory::{BegunLeaf, Prefix, directory_of};

/// Whether the name of a file is one of a directory, if there is one.
fn is_own(prefix: &Prefix, next: &Option<FileRow>) -> bool
    ensures { IfSome next.now (λ row. result ≡ is_in prefix.now row.name) }
{
    match next {
        Some(row) => directory_of(&row.name).is(prefix),
        None => false,
    }
}

/// Takes the next file behind the last one of a page in, if there is one: its name is added, where it is one of the directory. Says
/// whether the page is whole then.
pub fn read_leaf(leaf: &mut BegunLeaf, prefix: &Prefix, next: Option<FileRow>) -> bool
    ensures { ReadsOn result (is_in prefix.now) next leaf.old leaf.new }
{
    let own = is_own(prefix, &next);
    leaf.read(next, own)
}
