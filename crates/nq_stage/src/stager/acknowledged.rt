//! Which writes the server has the bodies of, on an `IndexMap`: each with the verifier of the latest reply that said so.

ghost use Rattle.std.specs.Prelude.{◌≡◌, OnOk, OnErr};
ghost use Rattle.nq_stage.specs.Acknowledged.{noted, verifier_of};

use crate::Written;
use indexmap::IndexMap;
use nq_base::NoMemory;

/// The verifiers by the writes.
pub(crate) type Acknowledged = IndexMap<Written, u32>;

/// The verifier with which a write was acknowledged, if it was.
pub(crate) fn find(acknowledged: &Acknowledged, written: &Written) -> Option<u32>
    ensures { result ≡ verifier_of written.now acknowledged.now.entries }
{
    acknowledged.get(written).copied()
}

/// Notes that a write was acknowledged with this verifier.
pub(crate) fn note(
    acknowledged: &mut Acknowledged,
    written: Written,
    verifier: u32,
) -> Result<(), NoMemory>
    ensures noted { OnOk result (acknowledged.new.entries ≡ noted written verifier acknowledged.old.entries) }
    ensures refused { OnErr result (acknowledged.new.entries ≡ acknowledged.old.entries) }
{
    acknowledged.insert(written, verifier)?;
    Ok(())
}
