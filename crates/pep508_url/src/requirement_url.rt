//! What a requirement needs of its type of URLs.
//!
//! What a type of URLs reads is a ghost member over the outcome of a call: `Url` and `VerbatimUrl` have
//! different error types, and the relation needs no third one. `Url(ParseError)` never means lack of
//! memory: `OutOfMemory` and `Overflow` are `Memory`.

ghost use Rattle.std.specs.Prelude.{◌≡◌, IfSome, Bool, List, ℕ, Option, Some, None, Result, option_copied};
ghost use Rattle.std.specs.Prelude.{string_bytes};
ghost use Rattle.read_outcome.specs.Outcome.{Answers};
ghost use Rattle.url.specs.Parser.{Gives, parse_url};
ghost use Rattle.pep508_url.specs.Lacking as lacking;
ghost use Rattle.pep508_url.specs.UrlFaults.{told_url};
ghost use Rattle.pep508_url.specs.UrlTexts.{given_as, text_reading, path_reading, verbatim_reading};
ghost use Rattle.pep508_url.specs.Vars.{Variables, IsAbsolute};

use crate::reading_url::read_requirement_url;
use crate::{Vars, VerbatimUrl, VerbatimUrlError, expand_env_vars};
use std::alloc::Global;
use std::error::Error;
use std::fmt;
use url::{ParseError, Url};

/// A type of URLs that a requirement may have (PEP 508, "Grammar").
pub trait Pep508Url: fmt::Display + fmt::Debug + Drop {
    /// Why a text is not a URL.
    type Err: Error + Drop;

    /// The results that are allowed for a text with these variables, in this directory.
    ghost reads: { Variables → List ℕ → Option (List ℕ) → Result Self Self.Err → Type 0 };

    /// Whether the error is lack of memory.
    ghost lacks_memory: { Self.Err → Bool };

    /// Reads a requirement's URL. A relative path is resolved against the absolute directory, where there
    /// is one.
    ///
    /// # Errors
    /// The type's own error, where the text is not a URL or memory ran out.
    fn parse_url(
        alloc: Global,
        text: &str,
        vars: &Vars,
        working_dir: Option<&str>,
    ) -> Result<Self, Self::Err>
        requires { IfSome working_dir (λ directory. IsAbsolute directory.now) }
        ensures { reads vars.now text.now (option_copied working_dir.entry) result };

    /// Returns whether the error is lack of memory.
    fn is_memory(error: &Self::Err) -> bool
        ensures { result ≡ lacks_memory error.now };
}

/// A type of URLs that a requirement without a name may have, which may be paths.
pub trait UnnamedRequirementUrl: Pep508Url {
    /// The results that are allowed for a path, in this directory.
    ghost reads_path: { List ℕ → Option (List ℕ) → Result Self Self.Err → Type 0 };

    /// The results that are allowed for the text of a URL.
    ghost reads_url: { List ℕ → Result Self Self.Err → Type 0 };

    /// The text that the URL was given as.
    ghost given_text: { Self → Option (List ℕ) };

    /// Whether the second URL is the first one, given as the text.
    ghost is_given: { Self → List ℕ → Self → Type 0 };

    /// Returns the URL of a path, which is absolute or relative to the absolute directory.
    ///
    /// # Errors
    /// The type's own error, where the path has no URL or memory ran out.
    fn parse_path(alloc: Global, path: &str, working_dir: &str) -> Result<Self, Self::Err>
        requires { IsAbsolute working_dir.now }
        ensures { reads_path path.now (Some working_dir.now) result };

    /// Returns the URL of an absolute path.
    ///
    /// # Errors
    /// The type's own error, where the path is not absolute or has no URL, or memory ran out.
    fn parse_absolute_path(alloc: Global, path: &str) -> Result<Self, Self::Err>
        ensures { reads_path path.now None result };

    /// Reads a URL from its text, without variables.
    ///
    /// # Errors
    /// The type's own error, where the text is not a URL or memory ran out.
    fn parse_unnamed_url(alloc: Global, text: &str) -> Result<Self, Self::Err>
        ensures { reads_url text.now result };

    /// Returns the URL with this as the text that it was given as.
    fn with_given(self, given: String) -> Self
        ensures { is_given self (string_bytes given) result };

    /// Returns the text that the URL was given as, where it keeps one.
    fn given(&self) -> Option<&str>
        ensures { option_copied result ≡ given_text self.now };
}

/// A URL that the crate `url` reads: no variables, and no paths.
impl Pep508Url for Url {
    type Err = ParseError;

    ghost reads = { λ vars text directory outcome. Gives outcome (parse_url None text) };

    ghost lacks_memory = { lacking.lacks_room };

    fn parse_url(
        alloc: Global,
        text: &str,
        _vars: &Vars,
        _working_dir: Option<&str>,
    ) -> Result<Self, ParseError> {
        Url::parse(alloc, text)
    }

    fn is_memory(error: &ParseError) -> bool {
        matches!(error, ParseError::OutOfMemory | ParseError::Overflow)
    }
}

/// A URL or a path whose variables are expanded; it keeps the text as given.
impl Pep508Url for VerbatimUrl {
    type Err = VerbatimUrlError;

    ghost reads = { λ vars text directory outcome.
        Answers (λ url. url) told_url outcome (verbatim_reading vars text directory) };

    ghost lacks_memory = { lacking.lacks_memory };

    #[tactic(auto, unfolding(crate::specs::UrlTexts::verbatim_reading))]
    fn parse_url(
        alloc: Global,
        text: &str,
        vars: &Vars,
        working_dir: Option<&str>,
    ) -> Result<Self, VerbatimUrlError> {
        let expanded = expand_env_vars(alloc, text, vars)?;
        match read_requirement_url(alloc, expanded.as_str(), working_dir) {
            Ok(url) => Ok(VerbatimUrl::from_url(url).with_given(String::from_str(alloc, text)?)),
            Err(error) => Err(error),
        }
    }

    fn is_memory(error: &VerbatimUrlError) -> bool {
        matches!(error, VerbatimUrlError::Memory)
    }
}

impl UnnamedRequirementUrl for VerbatimUrl {
    ghost reads_path = { λ path directory outcome.
        Answers (λ url. url) told_url outcome (given_as None (path_reading path directory)) };

    ghost reads_url = { λ text outcome.
        Answers (λ url. url) told_url outcome (given_as None (text_reading text)) };

    ghost given_text = { λ v. v.given };

    ghost is_given = { λ v text same. same ≡ record v { given = Some text } };

    fn parse_path(alloc: Global, path: &str, working_dir: &str) -> Result<Self, VerbatimUrlError> {
        VerbatimUrl::from_path(alloc, path, working_dir)
    }

    fn parse_absolute_path(alloc: Global, path: &str) -> Result<Self, VerbatimUrlError> {
        VerbatimUrl::from_absolute_path(alloc, path)
    }

    fn parse_unnamed_url(alloc: Global, text: &str) -> Result<Self, VerbatimUrlError> {
        VerbatimUrl::parse_url(alloc, text)
    }

    fn with_given(self, given: String) -> Self {
        VerbatimUrl::with_given(self, given)
    }

    fn given(&self) -> Option<&str> {
        VerbatimUrl::given(self)
    }
}
