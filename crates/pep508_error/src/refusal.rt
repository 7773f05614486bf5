//! Why a reader stops: a message, and the part of the text at fault.

ghost use Rattle.pep508_error.specs.Spans.{IsSpan};

use std::alloc::{AllocError, AllocFailed};

/// What is wrong with a text that a reader refuses.
#[derive(Debug, Drop)]
pub enum RefusalKind {
    /// Memory ran out.
    Memory,
    /// The text doesn't match its grammar, as this message says.
    String(String),
    /// The text is something that a requirement with a name can't be, as this message says.
    UnsupportedRequirement(String),
    /// A version number of the text can't be raised.
    NumberAtEnd,
}

impl RefusalKind {
    ghost use Rattle.std.specs.Prelude.{◌≡◌, MatchResult};
    ghost use Rattle.pep508_error.specs.declared.refusal.RefusalKind.TheVariants.{Memory, String};
    ghost use Rattle.pep508_error.specs.declared.refusal.RefusalKind.TheVariants.{UnsupportedRequirement};

    /// Returns a refusal with the message, or `Memory` where there was none for the message.
    pub fn string(message: Result<String, AllocError>) -> RefusalKind
        ensures { MatchResult message (λ text. result ≡ String text) (λ error. result ≡ Memory) }
    {
        match message {
            Ok(message) => RefusalKind::String(message),
            Err(_) => RefusalKind::Memory,
        }
    }

    /// Returns a refusal of a text that can't be a requirement with a name, or `Memory` where there was
    /// none for the message.
    pub fn unsupported(message: Result<String, AllocError>) -> RefusalKind
        ensures { MatchResult message (λ text. result ≡ UnsupportedRequirement text)
            (λ error. result ≡ Memory) }
    {
        match message {
            Ok(message) => RefusalKind::UnsupportedRequirement(message),
            Err(_) => RefusalKind::Memory,
        }
    }
}

/// Why a reader stops, and the part of the text that is at fault.
#[derive(Debug, Drop)]
pub struct Refusal<'a> {
    pub(crate) kind: RefusalKind,
    pub(crate) input: &'a str,
    pub(crate) start: usize,
    pub(crate) len: usize,
    pub(crate) ghost placed: { IsSpan input.now start len },
}

impl<'a> Refusal<'a> {
    ghost use Rattle.std.specs.Prelude.{◌≡◌};
    ghost use Rattle.pep508_error.specs.Spans.{IsSpan};
    ghost use Rattle.pep508_error.specs.declared.refusal.RefusalKind.TheVariants.{Memory};

    /// Returns the refusal for lack of memory, which reports no text.
    pub fn memory() -> Refusal<'a>
        ensures { result.kind ≡ Memory }
    {
        Refusal {
            kind: RefusalKind::Memory,
            input: "",
            start: 0,
            len: 0,
        }
    }

    /// Returns what is wrong.
    pub fn kind(&self) -> &RefusalKind
        ensures { result.now ≡ self.now.kind }
    {
        &self.kind
    }

    /// Returns the whole text.
    pub fn input(&self) -> &'a str
        ensures { result.now ≡ self.now.input.now }
    {
        self.input
    }

    /// Returns where the part at fault begins, in bytes.
    pub fn start(&self) -> usize
        ensures start { result ≡ self.now.start }
        ensures placed { IsSpan self.now.input.now self.now.start self.now.len }
    {
        self.start
    }

    /// Returns the length of the part at fault, in bytes.
    pub fn len(&self) -> usize
        ensures { result ≡ self.now.len }
    {
        self.len
    }
}

impl<'a> From<AllocError> for Refusal<'a> {
    ghost use Rattle.std.specs.Prelude.{◌≡◌};
    ghost use Rattle.pep508_error.specs.declared.refusal.RefusalKind.TheVariants.{Memory};

    ghost from_gives = { λ _ refusal. refusal.kind ≡ Memory };

    fn from(_: AllocError) -> Refusal<'a> {
        Refusal::memory()
    }
}

impl<'a, T: Drop> From<AllocFailed<T>> for Refusal<'a> {
    ghost use Rattle.std.specs.Prelude.{◌≡◌};
    ghost use Rattle.pep508_error.specs.declared.refusal.RefusalKind.TheVariants.{Memory};

    ghost from_gives = { λ _ refusal. refusal.kind ≡ Memory };

    fn from(_: AllocFailed<T>) -> Refusal<'a> {
        Refusal::memory()
    }
}
