//! Laws of URLs' texts and paths. The functions do nothing: each one's contract is its law.

ghost use Rattle.std.specs.Prelude.{◌≡◌, ◌∷◌, ◌++◌, ℕ, List, Some};
ghost use Rattle.url.specs.Input.{trim_c0_control_and_space};
ghost use Rattle.pep508_url.specs.Vars.{Variables};
ghost use Rattle.pep508_url.specs.Expansion.{LacksOpening, LacksReference, IsKnown, reference_text, expanded};
ghost use Rattle.pep508_url.specs.Paths.{normal_path};
ghost use Rattle.pep508_url.specs.Schemes.{scheme_split};

/// A text without `${` is its own expansion.
#[tactic(auto, using(crate::proofs::UrlLaws::expanded_stays))]
pub fn text_without_references_stays()
    ensures { (vars : Variables) (text : List ℕ) → LacksOpening text → expanded vars text ≡ text }
{}

/// A text in which no known variable is named is its own expansion.
#[tactic(auto, using(crate::proofs::References::unnamed_stays))]
pub fn text_without_known_references_stays()
    ensures { (vars : Variables) (text : List ℕ) → LacksReference vars text → expanded vars text ≡ text }
{}

/// The leftmost `${NAME}` of a known variable is replaced by the value, and then what follows it is expanded.
#[tactic(auto, using(crate::proofs::References::leftmost_replaced))]
pub fn leftmost_reference_is_replaced()
    ensures { (vars : Variables) (front name value back : List ℕ) → LacksReference vars front
        → IsKnown vars name value
        → expanded vars (front ++ reference_text name ++ back) ≡ front ++ value ++ expanded vars back }
{}

/// A scheme, `:` and what follows it are the text without the controls and blanks around it.
#[tactic(auto, using(crate::proofs::UrlLaws::scheme_whole))]
pub fn scheme_and_rest_are_the_text()
    ensures { (text : List ℕ) (parts : List ℕ × List ℕ) → scheme_split text ≡ Some parts
        → trim_c0_control_and_space text ≡ parts.0 ++ 58 ∷ parts.1 }
{}

/// A normal path is its own normal path.
#[tactic(auto, using(crate::proofs::NormalPaths::normal_again))]
pub fn normal_path_is_normal()
    ensures { (path normal : List ℕ) → normal_path path ≡ Some normal → normal_path normal ≡ Some normal }
{}
