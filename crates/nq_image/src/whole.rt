//! An image of either version.

ghost use Rattle.std.specs.Prelude.{◌≡◌, ◌≤◌, Err, IfOk, length};
ghost use Rattle.nq_image.specs.declared.rows.Version.{Version as VersionAt};
ghost use Rattle.nq_image.specs.Reading.{Opens, Reads};
ghost use Rattle.nq_image.specs.Whole.{HasAllRows, has_image_name as has_name, image_in, in_version, seen};

use crate::fault::ImageFault;
use crate::fields::piece;
use crate::heads::version_of;
use crate::image::{ImageOne, ImageTwo, read_one, read_two};
use crate::rows::Version;
use std::alloc::Global;

/// What stands in an image.
#[derive(Drop)]
pub enum Image {
    /// In one of version 1.
    One(ImageOne),
    /// In one of version 2.
    Two(ImageTwo),
}

/// Whether the bytes begin as an image does.
fn has_image_name(bytes: &[u8]) -> bool
    requires { 40960 ≤ length bytes.now }
    ensures { result ≡ has_name bytes.now }
{
    piece(bytes, 0, 7) == b"NQNFSIM".as_slice()
}

/// What stands in the bytes as an image of this version.
fn read_version(alloc: Global, version: Version, bytes: &[u8]) -> Result<Image, ImageFault>
    requires { 40960 ≤ length bytes.now }
    ensures told { Reads seen result (in_version version bytes.now) }
    ensures all { IfOk result HasAllRows }
{
    match version {
        Version::One => {
            let image = read_one(alloc, bytes)?;
            Ok(Image::One(image))
        }
        Version::Two => {
            let image = read_two(alloc, bytes)?;
            Ok(Image::Two(image))
        }
    }
}

/// What stands in these bytes as an image of either version, whose redo record is closed or was applied before.
///
/// # Errors
///
/// `NotAnImage` where the bytes are fewer than 40,960, or the first eight are those of no version; else `BadField` at the
/// least field that is wrong; `Memory`.
#[tactic(auto, unfolding(crate::specs::Whole::image_in))]
pub fn read_image(alloc: Global, bytes: &[u8]) -> Result<Image, ImageFault>
    ensures told { Opens seen result (image_in bytes.now) }
    ensures all { IfOk result HasAllRows }
{
    if bytes.len() < 40960 {
        return Err(ImageFault::NotAnImage);
    }
    if !has_image_name(bytes) {
        return Err(ImageFault::NotAnImage);
    }
    let Some(version) = version_of(bytes[7]) else {
        return Err(ImageFault::NotAnImage);
    };
    read_version(alloc, version, bytes)
}
