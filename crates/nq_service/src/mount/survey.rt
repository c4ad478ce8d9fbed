//! What a store keeps, in numbers.

ghost use Rattle.std.specs.Option.{ForSome};
ghost use Rattle.std.specs.Prelude.{◌≡◌, false, IfOk, IsOk};
ghost use Rattle.nq_model.specs.protocol.Change.{heads_of, space_of};
ghost use Rattle.nq_store.specs.Storing.{content_of};

use nq_base::{Heads, Space};
use nq_disk::Disk;
use nq_keeper::{KeepFault, Keeper};
use nq_store::Store;

/// What a store keeps, in numbers.
#[derive(Clone, Copy)]
pub struct Survey {
    /// The numbers of the server.
    pub heads: Heads,
    /// How many files and blocks there are.
    pub space: Space,
}

/// Counts what a store keeps.
///
/// # Errors
///
/// `Failed` only where a change failed before.
pub fn surveyed<D: Disk + Drop>(store: &mut Store<D>) -> Result<Survey, KeepFault>
    ensures told { ForSome (content_of D.told store.old) (λ kept. IfOk result (λ survey. (survey.heads ≡ heads_of kept) × (survey.space ≡ space_of kept))) }
    ensures succeeds { store.old.ended ≡ false → IsOk result }
    ensures same { store.old.ended ≡ false → store.new ≡ store.old }
{
    Ok(Survey {
        heads: store.heads()?,
        space: store.space()?,
    })
}
