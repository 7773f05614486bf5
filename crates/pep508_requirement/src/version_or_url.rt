//! The specifiers or the URL of a requirement.

use pep440_specifier_list::VersionSpecifiers;
use pep508_url::{Pep508Url, VerbatimUrl};
use std::alloc::{AllocError, Global};
use std::fmt;

/// The specifiers that a requirement's version has to meet, or the URL from which it is installed.
#[derive(Debug, PartialEq, Eq, PartialOrd, Ord, Hash, Drop)]
pub enum VersionOrUrl<T: Pep508Url = VerbatimUrl> {
    VersionSpecifier(VersionSpecifiers),
    Url(T),
}

impl VersionOrUrl<VerbatimUrl> {
    ghost use Rattle.std.specs.Prelude.{◌≡◌, IfOk};

    /// Returns a copy, in memory of its own.
    ///
    /// # Errors
    ///
    /// `AllocError` when memory runs out.
    pub fn try_clone(&self, alloc: Global) -> Result<Self, AllocError>
        ensures { IfOk result (λ copy. copy ≡ self.now) }
    {
        match self {
            VersionOrUrl::VersionSpecifier(list) => Ok(VersionOrUrl::VersionSpecifier(
                list.try_clone(alloc)?,
            )),
            VersionOrUrl::Url(url) => Ok(VersionOrUrl::Url(url.try_clone(alloc)?)),
        }
    }
}

/// The specifiers or the URL of a requirement, borrowed.
#[derive(Debug, PartialEq, Eq, Hash)]
pub enum VersionOrUrlRef<'a, T: Pep508Url = VerbatimUrl> {
    VersionSpecifier(&'a VersionSpecifiers),
    Url(&'a T),
}

impl<T: Pep508Url> Clone for VersionOrUrlRef<'_, T> {
    fn clone(&self) -> Result<Self, AllocError> {
        Ok(*self)
    }
}

impl<T: Pep508Url> Copy for VersionOrUrlRef<'_, T> {}

impl<'a, T: Pep508Url> VersionOrUrlRef<'a, T> {
    ghost use Rattle.std.specs.Prelude.{◌≡◌};
    ghost use Rattle.pep508_requirement.specs.Asked.{lent};

    /// Returns the borrowed specifiers or URL of a requirement.
    pub fn from_ref(value: &'a VersionOrUrl<T>) -> VersionOrUrlRef<'a, T>
        ensures { lent result ≡ value.now }
    {
        match value {
            VersionOrUrl::VersionSpecifier(list) => VersionOrUrlRef::VersionSpecifier(list),
            VersionOrUrl::Url(url) => VersionOrUrlRef::Url(url),
        }
    }
}

impl<T: Pep508Url> fmt::Display for VersionOrUrl<T> {
    ghost use Rattle.pep508_requirement.specs.Asked.{asked_text};

    ghost output = { asked_text T.output };

    fn fmt<W: fmt::Write>(&self, f: &mut fmt::Formatter<W>) -> fmt::Result {
        match self {
            VersionOrUrl::VersionSpecifier(list) => write!(f, "{list}"),
            VersionOrUrl::Url(url) => write!(f, "{url}"),
        }
    }
}

impl<T: Pep508Url> fmt::Display for VersionOrUrlRef<'_, T> {
    ghost use Rattle.pep508_requirement.specs.Asked.{asked_text, lent};

    ghost output = { λ asked. asked_text T.output (lent asked) };

    fn fmt<W: fmt::Write>(&self, f: &mut fmt::Formatter<W>) -> fmt::Result {
        match self {
            VersionOrUrlRef::VersionSpecifier(list) => write!(f, "{list}"),
            VersionOrUrlRef::Url(url) => write!(f, "{url}"),
        }
    }
}
