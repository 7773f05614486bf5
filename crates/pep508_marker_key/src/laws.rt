//! Laws of marker keys. The functions do nothing: each one's contract is its law.

ghost use Rattle.pep508_marker_key.specs.Key.{OneKey};

/// Keys of canonical diagrams are the same exactly where the diagrams hold under the same valuations.
#[tactic(auto, using(crate::proofs::OneKey::one_key))]
pub fn one_key()
    ensures { OneKey }
{}
