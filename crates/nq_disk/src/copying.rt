//! Copying bytes over others.

ghost use Rattle.std.specs.Prelude.{◌≡◌, ◌+◌, ◌≤◌, ◌++◌, length, take, drop};

/// Copies bytes over those from a place on.
pub(crate) fn copy_in(disk: &mut [u8], place: usize, bytes: &[u8])
    requires { place + length bytes.now ≤ length disk.old }
    ensures copied { disk.new ≡ take place disk.old ++ (bytes.now ++ drop (place + length bytes.now) disk.old) }
    ensures behind { drop (place + length bytes.now) disk.new ≡ drop (place + length bytes.now) disk.old }
{
    disk[place..place + bytes.len()].copy_from_slice(bytes);
}
