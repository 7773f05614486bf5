//! Laws of cases. The functions do nothing: each one's contract is its law.

ghost use Rattle.std.specs.Prelude.{◌≡◌, ◌<◌, ℕ, List, length};
ghost use Rattle.pep508_tree.specs.Tree.{Tree};
ghost use Rattle.pep508_tree.specs.Meaning.{NodeRecord, Extends};
ghost use Rattle.pep508_cases.specs.Cases.{Marks, Marking, AreCases, HasMore, sets_of};

/// There is just one list of the sets, however it was found, and with whatever nodes.
#[tactic(auto, using(crate::proofs::Counting::cases_are_one))]
pub fn cases_are_one()
    ensures { (marking : Marking) (nodes others : List NodeRecord) (cases found : List (Marks × Tree)) →
        AreCases marking nodes cases → AreCases marking others found → sets_of cases ≡ sets_of found }
{}

/// There are more sets than a limit only where the list of all of them is longer.
pub fn more_than_the_limit_is_longer()
    ensures { (marking : Marking) (nodes : List NodeRecord) (cases : List (Marks × Tree)) (limit : ℕ) →
        AreCases marking nodes cases → HasMore limit marking → limit < length cases }
{}

/// Cases stay cases while nodes are added to the interner.
#[tactic(auto, using(crate::proofs::Keeping::cases_kept))]
pub fn cases_are_kept()
    ensures { (marking : Marking) (old new : List NodeRecord) (cases : List (Marks × Tree)) →
        Extends old new → AreCases marking old cases → AreCases marking new cases }
{}
