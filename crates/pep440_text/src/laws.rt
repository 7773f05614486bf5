//! Laws of the texts of versions. The functions do nothing: each one's contract is its law.

ghost use Rattle.std.specs.Prelude.{◌≡◌, ℕ, ◌↔◌, List, Some, Err};
ghost use Rattle.std.specs.Str.{IsUtf8};
ghost use Rattle.pep440_text.specs.declared.TextFault.{TextFault};
ghost use Rattle.pep440_text.specs.Faults.{StandsIn};
ghost use Rattle.pep440_text.specs.Record.{VersionRecord, PatternRecord};
ghost use Rattle.pep440_text.specs.Text.{IsVersionText, IsPatternText};
ghost use Rattle.pep440_text.specs.Printable.{IsPrintable};
ghost use Rattle.pep440_text.specs.Print.{version_text};
ghost use Rattle.pep440_text.specs.Reading.{read_version, read_pattern, version_of, pattern_of};

/// A text is read as a version exactly where the grammar says that it is that version's.
pub fn version_text_is_read()
    ensures { (text : List ℕ) (version : VersionRecord)
        → (version_of text ≡ Some version) ↔ IsVersionText text version }
{}

/// A text is read as a pattern exactly where the grammar says that it is that pattern's.
pub fn pattern_text_is_read()
    ensures { (text : List ℕ) (pattern : PatternRecord)
        → (pattern_of text ≡ Some pattern) ↔ IsPatternText text pattern }
{}

/// A text is that of at most one version.
pub fn text_has_one_version()
    ensures { (text : List ℕ) (version other : VersionRecord)
        → IsVersionText text version → IsVersionText text other → version ≡ other }
{}

/// A text is that of at most one pattern.
pub fn text_has_one_pattern()
    ensures { (text : List ℕ) (pattern other : PatternRecord)
        → IsPatternText text pattern → IsPatternText text other → pattern ≡ other }
{}

/// The print of each printable version is read as that version: also of one that was made from others, as
/// by dropping its local part or by raising a number.
pub fn print_reads_back()
    ensures { (version : VersionRecord)
        → IsPrintable version → version_of (version_text version) ≡ Some version }
{}

/// A version that was read from some text is printable.
pub fn read_is_printable()
    ensures { (text : List ℕ) (version : VersionRecord)
        → version_of text ≡ Some version → IsPrintable version }
{}

/// The fault of a text lies between two of its characters, or at its end: the text may be split there.
pub fn faults_stand_between_characters()
    ensures version { (text : List ℕ) (fault : TextFault)
        → IsUtf8 text → read_version text ≡ Err fault → StandsIn text fault }
    ensures pattern { (text : List ℕ) (fault : TextFault)
        → IsUtf8 text → read_pattern text ≡ Err fault → StandsIn text fault }
{}
