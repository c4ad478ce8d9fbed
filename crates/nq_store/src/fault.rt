//! Why a disk does not open as what a server keeps.

ghost use Rattle.std.specs.Prelude.{◌≡◌};
ghost use Rattle.nq_store.specs.Opening.{open_fault};

use nq_disk::DiskFault;
use nq_image::{ImageFault, WrongField};
use nq_memory::NoMemory;
use std::alloc::AllocError;

/// Why a disk does not open as what a server keeps. The disk is handed back.
#[derive(Drop)]
pub enum OpenFault<D> {
    /// The bytes are too few, or their first eight are not those of an image.
    NotAnImage(D),
    /// The first field that is wrong has its first byte at this place.
    BadField(D, u64),
    /// The disk failed.
    Failed(D),
    /// Memory was wanted and refused.
    Memory(D),
}

/// The same, without the disk.
#[derive(Clone, Copy)]
pub(crate) enum Fault {
    NotAnImage,
    BadField(u64),
    Failed,
    Memory,
}

impl From<DiskFault> for Fault {
    ghost use Rattle.nq_store.specs.declared.fault.Fault.TheVariants.{Failed};

    ghost from_gives = { λ _ fault. fault ≡ Failed };

    fn from(_: DiskFault) -> Fault {
        Fault::Failed
    }
}

impl From<WrongField> for Fault {
    ghost use Rattle.nq_store.specs.declared.fault.Fault.TheVariants.{BadField};

    ghost from_gives = { λ wrong fault. fault ≡ BadField wrong };

    fn from(wrong: WrongField) -> Fault {
        Fault::BadField(wrong.0)
    }
}

impl From<ImageFault> for Fault {
    ghost use Rattle.nq_store.specs.Telling.{fault_of};

    ghost from_gives = { λ wrong fault. fault ≡ fault_of wrong };

    fn from(fault: ImageFault) -> Fault {
        match fault {
            ImageFault::NotAnImage => Fault::NotAnImage,
            ImageFault::BadField(place) => Fault::BadField(place),
            ImageFault::Memory => Fault::Memory,
        }
    }
}

impl From<NoMemory> for Fault {
    ghost use Rattle.nq_store.specs.declared.fault.Fault.TheVariants.{Memory};

    ghost from_gives = { λ _ fault. fault ≡ Memory };

    fn from(_: NoMemory) -> Fault {
        Fault::Memory
    }
}

impl From<AllocError> for Fault {
    ghost use Rattle.nq_store.specs.declared.fault.Fault.TheVariants.{Memory};

    ghost from_gives = { λ _ fault. fault ≡ Memory };

    fn from(_: AllocError) -> Fault {
        Fault::Memory
    }
}

impl Fault {
    /// The fault of this disk.
    pub(crate) fn of<D>(self, disk: D) -> OpenFault<D>
        ensures { result ≡ open_fault disk self }
    {
        match self {
            Fault::NotAnImage => OpenFault::NotAnImage(disk),
            Fault::BadField(place) => OpenFault::BadField(disk, place),
            Fault::Failed => OpenFault::Failed(disk),
            Fault::Memory => OpenFault::Memory(disk),
        }
    }
}
