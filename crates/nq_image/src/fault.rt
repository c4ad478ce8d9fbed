//! What is wrong with bytes that are no image.

ghost use Rattle.std.specs.Prelude.{◌≡◌};
ghost use Rattle.nq_image.specs.declared.fault.ImageFault.TheVariants.{BadField, Memory};

use nq_memory::NoMemory;
use std::alloc::{AllocError, AllocFailed};
use std::marker::Model;

/// A field of an image is wrong: the place of its first byte. Clauses see it as that number.
#[derive(Clone, Copy)]
pub struct WrongField(pub u64);

impl Model for WrongField {
    ghost use Rattle.std.specs.Prelude.{ℕ};

    ghost Value = { ℕ };

    ghost view = { λ n. n.0 };

    ghost inverse = { λ n. record { 0 = n } };
}

/// Why an image was not read.
#[derive(Clone, Copy)]
pub enum ImageFault {
    /// The bytes are too few, or their first eight are not those of an image.
    NotAnImage,
    /// The first field that is wrong has its first byte at this place.
    BadField(u64),
    /// Memory was wanted and refused.
    Memory,
}

impl From<WrongField> for ImageFault {
    ghost from_gives = { λ wrong error. error ≡ BadField wrong };

    fn from(wrong: WrongField) -> ImageFault {
        ImageFault::BadField(wrong.0)
    }
}

impl From<NoMemory> for ImageFault {
    ghost from_gives = { λ _ error. error ≡ Memory };

    fn from(_: NoMemory) -> ImageFault {
        ImageFault::Memory
    }
}

impl From<AllocError> for ImageFault {
    ghost from_gives = { λ _ error. error ≡ Memory };

    fn from(_: AllocError) -> ImageFault {
        ImageFault::Memory
    }
}

impl<T: Drop> From<AllocFailed<T>> for ImageFault {
    ghost from_gives = { λ _ error. error ≡ Memory };

    fn from(_: AllocFailed<T>) -> ImageFault {
        ImageFault::Memory
    }
}
