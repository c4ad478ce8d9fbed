//! An empty store, with which a command over a disk begins.

ghost use Rattle.std.specs.Prelude.{◌≡◌, ℕ, List, Some, IfErr, IfOk};
ghost use Rattle.nq_service.specs.Emptying.{EmptiesNot, disk_in};
ghost use Rattle.nq_plan.specs.Formatted.{TellsNothing};
ghost use Rattle.nq_keeper.specs.StoredKeeper.{empty_kept};
ghost use Rattle.nq_store.specs.Storing.{IsFresh, content_of};

use nq_base::ending::{Ended, Ending};
use nq_disk::Disk;
use nq_store::{OpenFault, Store, format};
use std::alloc::Global;

/// Makes a disk that tells its bytes an image in which nothing is kept, whatever it was, and opens it as a store.
pub fn emptied<D: Disk + Drop>(alloc: Global, disk: D) -> Result<Store<D>, Ended<Ending, D>>
    requires { (bytes : List ℕ) × (D.told disk ≡ Some bytes) }
    ensures empty { IfOk result (λ store. content_of D.told store ≡ Some empty_kept) }
    ensures fresh { IfOk result IsFresh }
    ensures counts { IfOk result (λ store. D.faults store.disk ≡ D.faults disk) }
    ensures fails { IfErr result (λ back. EmptiesNot back.end (D.faults disk) (D.faults back.left)) }
    ensures follows { D.follows disk (disk_in (λ store. store.disk) (λ back. back.left) result) }
{
    let mut disk = disk;
    match format(&mut disk) {
        Ok(()) => opened(alloc, disk),
        Err(_) => Err(Ended {
            end: Ending::KeepFault,
            left: disk,
        }),
    }
}

/// Opens a disk on which nothing is kept.
fn opened<D: Disk + Drop>(alloc: Global, disk: D) -> Result<Store<D>, Ended<Ending, D>>
    requires { TellsNothing (D.told disk) }
    ensures empty { IfOk result (λ store. content_of D.told store ≡ Some empty_kept) }
    ensures fresh { IfOk result IsFresh }
    ensures counts { IfOk result (λ store. D.faults store.disk ≡ D.faults disk) }
    ensures fails { IfErr result (λ back. EmptiesNot back.end (D.faults disk) (D.faults back.left)) }
    ensures follows { D.follows disk (disk_in (λ store. store.disk) (λ back. back.left) result) }
{
    match Store::open(alloc, disk) {
        Ok(store) => Ok(store),
        Err(OpenFault::Failed(disk)) => Err(Ended {
            end: Ending::KeepFault,
            left: disk,
        }),
        Err(OpenFault::Memory(disk)) => Err(Ended {
            end: Ending::Memory,
            left: disk,
        }),
        Err(OpenFault::NotAnImage(_disk)) => unreachable!(),
        Err(OpenFault::BadField(_disk, _place)) => unreachable!(),
    }
}
