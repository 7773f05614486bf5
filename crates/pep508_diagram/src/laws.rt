//! Laws of decision diagrams. The functions do nothing: each one's contract is its law.
//!
//! Diagrams are one up to the spelling of equal versions (`AreOne`): a version made by hand with both a
//! post-release and `max` is equal to one without the former, so identity cannot be promised for every
//! version, and equality by the order can. The general law needs one valuation: without any, the two leaves
//! agree everywhere.
ghost use Rattle.std.specs.Prelude.{◌≡◌, ◌≢◌, true, false};
ghost use Rattle.pep508_diagram.specs.Diagram.{Diagram, Leaf};
ghost use Rattle.pep508_diagram.specs.Question.{Question, Valuation, truth, IsCanonical, OneDiagram};

/// Canonical diagrams with one truth under every valuation are identical, up to the spelling of equal
/// versions.
#[tactic(auto, using(crate::proofs::Questions::one_marker_diagram))]
pub fn one_diagram()
    ensures { OneDiagram }
{}

/// A canonical diagram other than the leaf `false` is true under some valuation.
#[tactic(auto, using(crate::proofs::Somewhere::marker_holds_somewhere))]
pub fn a_diagram_holds_somewhere()
    ensures { (diagram : Diagram Question) → IsCanonical diagram → diagram ≢ Leaf false →
        (v : Valuation) × (truth diagram v ≡ true) }
{}
