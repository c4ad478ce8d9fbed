//! Text within marks.

ghost use Rattle.std.specs.Prelude.{◌≡◌, ◌++◌, OnOk};
ghost use Rattle.std.specs.List.{flat_map};
ghost use Rattle.nq_record.specs.Page.{escaped_byte};

use crate::chart::NoMemory;
use std::slice;

/// Appends text so that a reader of XML reads it again, whatever stands in it: each `&`, `<`, `>` and `"` is written by its name
/// (XML 1.0 section 4.6).
pub(crate) fn escape(page: &mut Vec<u8>, text: &str) -> Result<(), NoMemory>
    ensures { OnOk result (page.new.items ≡ page.old.items ++ flat_map escaped_byte text.now) }
{
    let bytes = text.as_bytes();
    for byte in bytes {
        page.extend_from_slice(escaped(byte))?;
    }
    Ok(())
}

/// A byte as it is written: `&`, `<`, `>` and `"` by their names, and any other byte as it is.
fn escaped(byte: &u8) -> &[u8]
    ensures { result.now ≡ escaped_byte byte.now }
{
    match *byte {
        b'&' => b"&amp;",
        b'<' => b"&lt;",
        b'>' => b"&gt;",
        b'"' => b"&quot;",
        _ => slice::from_ref(byte),
    }
}
