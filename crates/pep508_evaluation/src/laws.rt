//! Laws of evaluating trees. The functions do nothing: each one's contract is its law.

ghost use Rattle.std.specs.Prelude.{◌≡◌, ◌↔◌, ℕ, IsTrue, true, List};
ghost use Rattle.std.specs.Str.Iter.{HasSubslice};
ghost use Rattle.pep440_text.specs.Record.{VersionRecord};
ghost use Rattle.pep508_environment.specs.Environment.{EnvironmentRecord};
ghost use Rattle.pep508_tree.specs.Tree.{Tree};
ghost use Rattle.pep508_tree.specs.Meaning.{NodeRecord, holds};
ghost use Rattle.pep508_evaluation.specs.Valuations.{stands_in, valuation_of, CanHold};

/// Environments that differ in their member `python_version` alone have the same valuation.
#[tactic(auto, using(crate::proofs::Alike::same_valuation))]
pub fn python_version_is_not_looked_at()
    ensures { (environment : EnvironmentRecord) (extras : List (List ℕ)) (version : VersionRecord)
        (text : List ℕ) →
        valuation_of (record environment { python_version = version; python_version_text = text }) extras
        ≡ valuation_of environment extras }
{}

/// A tree that holds in an environment with extras can hold with these extras.
#[tactic(auto, using(crate::proofs::Alike::holding_can_hold))]
pub fn what_holds_can_hold()
    ensures { (nodes : List NodeRecord) (tree : Tree) (environment : EnvironmentRecord)
        (extras : List (List ℕ)) → holds nodes tree (valuation_of environment extras) ≡ true →
        CanHold nodes tree extras }
{}

/// A text occurs in another exactly where its bytes are a part of the other's.
#[tactic(auto, using(crate::proofs::Standing::standing_part))]
pub fn standing_in_is_being_a_part()
    ensures { (text whole : List ℕ) → IsTrue (stands_in text whole) ↔ HasSubslice whole text }
{}
