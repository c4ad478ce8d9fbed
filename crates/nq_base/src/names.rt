//! The name of a file.

ghost use Rattle.std.specs.Prelude.{◌≡◌, ◌≤◌, ◌-◌, ◌++◌, ◌↔◌, length, replicate, IsSome, IfSome, IsTrue};
ghost use Rattle.nq_base.specs.Name.{IsName, IsNameByte};

use std::marker::Model;

/// A name: 1 to 64 bytes, each printable ASCII (33 to 126) and none of them `/`. Clauses see it as
/// the list of its bytes.
#[derive(Clone, Copy)]
pub struct Name {
    bytes: [u8; Name::LONGEST],
    used: usize,
}

impl Model for Name {
    ghost use Rattle.std.specs.Prelude.{◌-◌, ◌++◌, List, ℕ, length, take, replicate};
    ghost use Rattle.nq_base.specs.Name.{IsStored, stored-bytes, stored-used};

    ghost Value = { List ℕ };

    ghost view = { λ n. take n.used n.bytes };

    ghost invariant = { λ n. IsStored n.bytes n.used };

    ghost inverse = { λ bytes. record { bytes = bytes ++ replicate (64 - length bytes) 0; used = length bytes } };

    ghost inverse_ok = { λ a h i. record { bytes = stored-bytes a.bytes a.used h i; used = stored-used a.bytes a.used h i } };
}

impl Name {
    /// The most bytes that a name has.
    pub const LONGEST: usize = 64;

    /// The name of these bytes; None where they are not a name's.
    pub fn new(bytes: &[u8]) -> Option<Name>
        ensures name { IsSome result ↔ IsName bytes.now }
        ensures bytes { IfSome result (λ n. n ≡ bytes.now) }
    {
        if !is_name(bytes) {
            return None;
        }
        Some(Name {
            bytes: padded(bytes),
            used: bytes.len(),
        })
    }

    /// The bytes.
    pub fn as_bytes(&self) -> &[u8]
        ensures bytes { result.now ≡ self.now }
        ensures name { IsName self.now }
    {
        &self.bytes[..self.used]
    }

    /// Whether the two names are one.
    pub fn is(&self, other: &Name) -> bool
        ensures { IsTrue result ↔ (self.now ≡ other.now) }
    {
        self.as_bytes() == other.as_bytes()
    }
}

fn is_name(bytes: &[u8]) -> bool
    ensures { IsTrue result ↔ IsName bytes.now }
{
    !bytes.is_empty()
        && bytes.len() <= Name::LONGEST
        && bytes.iter().all(|byte| is_name_byte(*byte))
}

fn is_name_byte(byte: u8) -> bool
    ensures { IsTrue result ↔ IsNameByte byte }
{
    (33..=126).contains(&byte) && byte != b'/'
}

/// The bytes with zeros behind them.
fn padded(bytes: &[u8]) -> [u8; Name::LONGEST]
    requires { length bytes.now ≤ 64 }
    ensures { result ≡ bytes.now ++ replicate (64 - length bytes.now) 0 }
{
    let mut all = [0; Name::LONGEST];
    for (i, byte) in bytes.iter().enumerate() {
        all[i] = *byte;
    }
    all
}
