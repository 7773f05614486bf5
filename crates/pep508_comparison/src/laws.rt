//! Laws of comparisons of versions in markers. The functions do nothing: each one's contract is its law.

ghost use Rattle.std.specs.Prelude.{◌≡◌, true, false, List, Some};
ghost use Rattle.std.specs.List.{list_all};
ghost use Rattle.std.specs.Option.{option_map};
ghost use Rattle.pep440_text.specs.Record.{VersionRecord};
ghost use Rattle.pep440_version.specs.Order.{stripped};
ghost use Rattle.pep440_operator.specs.Operators.{negated, is_star, is_tilde};
ghost use Rattle.pep440_range.specs.Ranges.{all_but, release_range_of};
ghost use Rattle.pep440_operator.specs.declared.operator.Operator.{Operator};
ghost use Rattle.pep508_comparison.specs.Comparisons.{is_minor, python_version_points, python_listed_points};

/// Zeros at the end of the release that a key is compared with change nothing, for `python_version` and for
/// the keys whose values are full versions, unless the operator is `~=` or has a star.
pub fn end_zeros_change_no_comparison()
    ensures python { (operator : Operator) (version other : VersionRecord) →
        is_star operator ≡ false → is_tilde operator ≡ false →
        stripped version.release ≡ stripped other.release →
        python_version_points (record { operator = operator; version = version })
        ≡ python_version_points (record { operator = operator; version = other }) }
    ensures full { (operator : Operator) (version other : VersionRecord) →
        is_star operator ≡ false → is_tilde operator ≡ false →
        stripped version.release ≡ stripped other.release →
        release_range_of (record { operator = operator; version = version })
        ≡ release_range_of (record { operator = operator; version = other }) }
{}

/// Where each listed version has at most two numbers, `not in` holds exactly where `in` does not; a listed
/// version of three numbers or more makes both hold nowhere.
pub fn not_in_is_the_rest()
    ensures { (versions : List VersionRecord) →
        list_all (λ version. is_minor version.release) versions ≡ true →
        python_listed_points true versions ≡ option_map all_but (python_listed_points false versions) }
{}

/// A comparison of `python_version` by an operator's negation holds exactly where the one by the operator
/// does not, for each operator that has a negation.
pub fn python_negation_is_the_rest()
    ensures { (operator other : Operator) (version : VersionRecord) →
        negated operator ≡ Some other →
        python_version_points (record { operator = other; version = version })
        ≡ option_map all_but (python_version_points (record { operator = operator; version = version })) }
{}
