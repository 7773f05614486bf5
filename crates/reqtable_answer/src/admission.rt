//! The admission test: which candidates an answer may select, in addition to what the requirements accept.
//!
//! What a test admits (`Admits`) is quantified over in each contract, since a struct cannot keep what is
//! known of its closure. `new` requires that the closure may always be called and answers by the version's
//! record; `admits` and `answer_to` require the first again.

ghost use Rattle.std.specs.Prelude.{◌≡◌};
ghost use Rattle.reqtable_answer.specs.Admission.{Admits, AnswersBy, IsLawful};

use pep440_version::Version;
use std::marker::Model;

/// A test of candidates' versions, applied in addition to the specifiers.
///
/// Its arguments are a version, and whether one of the specifiers on its package names a pre-release or
/// developmental release.
#[derive(Drop)]
pub struct Admission<F> {
    test: F,
}

impl<F> Model for Admission<F> {
    ghost Value = { F };

    ghost view = { λ a. a.test };
}

impl<F: Fn(&Version, bool) -> bool> Admission<F> {
    /// Admits the versions for which the closure returns `true`. The closure must give equal answers for
    /// versions with the same record.
    pub fn new(test: F) -> Self
        requires callable { F.IsAlwaysCallable test }
        requires lawful { IsLawful (F.post test) }
        ensures { result ≡ test }
    {
        Admission { test }
    }

    /// Whether the version may be selected. Calls the closure once, and allocates no memory of its own.
    pub fn admits(&self, version: &Version, names_prerelease: bool) -> bool
        requires { F.IsAlwaysCallable self.now }
        ensures { (admits : Admits) → AnswersBy (F.post self.now) admits →
            result ≡ admits version.now names_prerelease }
    {
        (self.test)(version, names_prerelease)
    }
}
