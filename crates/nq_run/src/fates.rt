//! The fate of a kind.

ghost use Rattle.std.specs.Prelude.{◌≡◌, ◌<◌, ◌↔◌, All, IfSome, IsNone, IsTrue, length, map, slice_get, take};
ghost use Rattle.nq_storm.specs.Kinds.{IsNotOf, LackKind};

use nq_storm::fates::Fate;

/// Where the first of these fates stands that is of this kind, if one is.
pub(crate) fn place_of(fates: &[Box<dyn Fate>], kind: u8) -> Option<usize>
    ensures none { IsNone result → LackKind kind (map (λ fate. told fate) fates.now) }
    ensures within { IfSome result (λ place. place < length fates.now) }
    ensures others { IfSome result (λ place. All (λ fate. IsNotOf (told fate) kind) (take place fates.now)) }
    ensures found { IfSome result (λ place. IfSome (slice_get fates.now place) (λ fate. IfSome (told fate) (λ rule. rule.kind ≡ kind))) }
{
    for place in 0..fates.len() {
        if is_of(&fates[place], kind) {
            return Some(place);
        }
    }
    None
}

/// Whether a fate is of this kind.
fn is_of(fate: &Box<dyn Fate>, kind: u8) -> bool
    ensures { IfSome (told fate.now) (λ rule. IsTrue result ↔ (rule.kind ≡ kind)) }
{
    fate.kind() == kind
}
