//! Directories.

ghost use Rattle.std.specs.Prelude.{◌≡◌, ◌≤◌, ◌-◌, ◌++◌, ◌↔◌, length, replicate, take, IsSome, IfSome, IsTrue};
ghost use Rattle.nq_directory.specs.Prefix.{IsPrefix, directory};
ghost use Rattle.nq_model.specs.protocol.Profile.{same_bytes};

use nq_base::Name;
use std::marker::Model;

/// The prefix that names a directory: at most 64 bytes. Clauses see it as the list of its bytes.
#[derive(Clone, Copy)]
pub struct Prefix {
    bytes: [u8; Prefix::LONGEST],
    used: usize,
}

impl Model for Prefix {
    ghost use Rattle.std.specs.Prelude.{◌-◌, ◌++◌, List, ℕ, length, take, replicate};
    ghost use Rattle.nq_directory.specs.Prefix.{IsStored, stored-bytes, stored-used};

    ghost Value = { List ℕ };

    ghost view = { λ p. take p.used p.bytes };

    ghost invariant = { λ p. IsStored p.bytes p.used };

    ghost inverse = { λ bytes. record { bytes = bytes ++ replicate (64 - length bytes) 0; used = length bytes } };

    ghost inverse_ok = { λ a h i. record { bytes = stored-bytes a.bytes a.used h i; used = stored-used a.bytes a.used h i } };
}

impl Prefix {
    /// The most bytes that a prefix has.
    pub const LONGEST: usize = 64;

    /// The prefix of these bytes; None exactly where they are more than 64.
    pub fn new(bytes: &[u8]) -> Option<Prefix>
        ensures short { IsSome result ↔ IsPrefix bytes.now }
        ensures bytes { IfSome result (λ p. p ≡ bytes.now) }
    {
        if bytes.len() > Prefix::LONGEST {
            return None;
        }
        Some(Prefix {
            bytes: padded(bytes),
            used: bytes.len(),
        })
    }

    /// The bytes.
    pub fn as_bytes(&self) -> &[u8]
        ensures bytes { result.now ≡ self.now }
        ensures short { IsPrefix self.now }
    {
        &self.bytes[..self.used]
    }

    /// Whether the two prefixes are one.
    pub fn is(&self, other: &Prefix) -> bool
        ensures same { IsTrue result ↔ (self.now ≡ other.now) }
        ensures test { result ≡ same_bytes self.now other.now }
    {
        self.has(other.as_bytes())
    }

    /// Whether these are the bytes.
    fn has(&self, bytes: &[u8]) -> bool
        ensures { IsTrue result ↔ (self.now ≡ bytes.now) }
    {
        self.as_bytes() == bytes
    }
}

/// The bytes with zeros behind them.
fn padded(bytes: &[u8]) -> [u8; Prefix::LONGEST]
    requires { length bytes.now ≤ 64 }
    ensures { result ≡ bytes.now ++ replicate (64 - length bytes.now) 0 }
{
    let mut all = [0; Prefix::LONGEST];
    for (i, byte) in bytes.iter().enumerate() {
        all[i] = *byte;
    }
    all
}

/// How many of these bytes stand before the end of the last dot; none where there is no dot.
fn directory_len(bytes: &[u8]) -> usize
    ensures within { result ≤ length bytes.now }
    ensures front { directory bytes.now ≡ take result bytes.now }
{
    let mut end = bytes.len();
    while end > 0 && bytes[end - 1] != b'.' {
        end -= 1;
    }
    end
}

/// The directory of a name: the part up to and with its last dot, and the empty prefix where it has none.
pub fn directory_of(name: &Name) -> Prefix
    ensures { result ≡ directory name.now }
{
    let bytes = name.as_bytes();
    let front = &bytes[..directory_len(bytes)];
    Prefix {
        bytes: padded(front),
        used: front.len(),
    }
}
