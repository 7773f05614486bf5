//! Laws of the texts of marker trees. The functions do nothing: each one's contract is its law.
ghost use Rattle.std.specs.Prelude.{◌≡◌, ◌≢◌, ◌↔◌, Bool, true, IsTrue, List, ◌∷◌, ◌++◌};
ghost use Rattle.pep508_marker.specs.Expression.{ExpressionRecord};
ghost use Rattle.pep508_diagram.specs.Diagram.{Diagram, Leaf};
ghost use Rattle.pep508_diagram.specs.Question.{Question, Valuation, truth, AreOne, IsCanonical};
ghost use Rattle.pep508_diagram.specs.Shortened.{HasShortVersions};
ghost use Rattle.pep508_expression.specs.Expressions.{expression_holds};
ghost use Rattle.pep508_tree.specs.Tree.{Tree};
ghost use Rattle.pep508_tree.specs.Meaning.{IsTree, diagram_of, holds};
ghost use Rattle.pep508_marker_text_laws.specs.MarkerText.{disjunction, marker_text};
ghost use Rattle.pep508_marker_text_laws.specs.Raisable.{AllHavePoints};
ghost use Rattle.pep508_marker_text_laws.specs.ReleaseBounds.{HasReleasesAlone};
ghost use Rattle.pep508_marker_text_laws.specs.SameDiagrams.{same_diagram};
ghost use Rattle.pep508_marker_text_laws.specs.Saying.{Clause};
ghost use Rattle.pep508_marker_text_laws.specs.SameTerms.{same_term, opposite_term};
ghost use Rattle.pep508_marker_text_laws.specs.Simplified.{is_needless, is_covered, simplified};
ghost use Rattle.pep508_marker_text_laws.specs.Truth.{one_holds, IsTruth};

use pep508_tree::Interner;

/// A needless term can be left out of its clause: one of the clauses holds exactly where one did before.
pub fn a_needless_term_can_go()
    ensures { (truth : ExpressionRecord → Bool) (done later : List Clause) (front behind : Clause)
        (term : ExpressionRecord) → IsTruth same_term opposite_term truth →
        is_needless same_term opposite_term (done ++ later) term (front ++ behind) ≡ true →
        one_holds truth (done ++ (front ++ term ∷ behind) ∷ later)
        ≡ one_holds truth (done ++ (front ++ behind) ∷ later) }
{}

/// A clause that another one covers can be left out.
pub fn a_covered_clause_can_go()
    ensures { (truth : ExpressionRecord → Bool) (front behind : List Clause) (clause : Clause) →
        IsTruth same_term opposite_term truth →
        is_covered same_term opposite_term clause (front ++ behind) ≡ true →
        one_holds truth (front ++ clause ∷ behind) ≡ one_holds truth (front ++ behind) }
{}

/// Simplified clauses mean what the clauses meant before.
pub fn simplified_clauses_mean_the_same()
    ensures { (truth : ExpressionRecord → Bool) (clauses : List Clause) →
        IsTruth same_term opposite_term truth →
        one_holds truth (simplified same_term opposite_term clauses) ≡ one_holds truth clauses }
{}

/// Comparisons whose numbers can be raised mean the same once they are simplified: under each valuation one
/// of the simplified clauses holds exactly where one of the clauses does.
pub fn simplified_comparisons_mean_the_same()
    ensures { (clauses : List Clause) → AllHavePoints clauses → (v : Valuation) →
        one_holds (λ term. expression_holds term v) (simplified same_term opposite_term clauses)
        ≡ one_holds (λ term. expression_holds term v) clauses }
{}

/// Two diagrams are tested as the same exactly where they are identical, up to the spelling of equal
/// versions.
pub fn same_diagrams_are_one()
    ensures { (a b : Diagram Question) → IsTrue (same_diagram a b) ↔ AreOne a b }
{}

/// The clauses that are written for a diagram mean it: under each valuation all comparisons of some clause
/// hold exactly where the diagram does. This is shown for diagrams whose versions are releases of epoch 0,
/// other than the one that always holds, for which no clause is written.
pub fn a_disjunction_means_its_diagram()
    ensures { (diagram : Diagram Question) → IsCanonical diagram → HasReleasesAlone diagram →
        diagram ≢ Leaf true → (v : Valuation) →
        one_holds (λ term. expression_holds term v) (disjunction diagram) ≡ truth diagram v }
{}

/// Diagrams that mean the same are identical, and print the same, where each version is in its shortest
/// spelling, as in the diagrams of all trees.
#[tactic(auto, using(crate::proofs::Spelled::one_spelling))]
pub fn one_meaning_has_one_text()
    ensures diagram { (d e : Diagram Question) → IsCanonical d → IsCanonical e → HasShortVersions d →
        HasShortVersions e → ((v : Valuation) → truth d v ≡ truth e v) → d ≡ e }
    ensures clauses { (d e : Diagram Question) → IsCanonical d → IsCanonical e → HasShortVersions d →
        HasShortVersions e → ((v : Valuation) → truth d v ≡ truth e v) → disjunction d ≡ disjunction e }
    ensures text { (d e : Diagram Question) → IsCanonical d → IsCanonical e → HasShortVersions d →
        HasShortVersions e → ((v : Valuation) → truth d v ≡ truth e v) → marker_text d ≡ marker_text e }
{}

/// Trees of any two interners that mean the same print the same.
pub fn trees_of_one_meaning_have_one_text(interner: &Interner, other: &Interner)
    ensures { (a b : Tree) → IsTree interner.now.nodes a → IsTree other.now.nodes b →
        ((v : Valuation) → holds interner.now.nodes a v ≡ holds other.now.nodes b v) →
        marker_text (diagram_of interner.now.nodes a) ≡ marker_text (diagram_of other.now.nodes b) }
{
    interner.are_sound();
    other.are_sound();
}
