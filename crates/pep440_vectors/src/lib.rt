#![tactic(auto)]
//! Answers questions on versions and specifiers, one a line, whose answers are known from elsewhere.
//!
//! A question is a JSON list: what is asked, and the texts that it is asked of.
//!
//! # Questions
//!
//! - `["print", TEXT]`: the print of the version, or `refused`
//! - `["parts", TEXT]`: its parts one by one, or `refused`
//! - `["order", LEFT, RIGHT]`: `<`, `=` or `>`
//! - `["specifier", TEXT]`: the print of the specifier, or `refused: ` and the fault
//! - `["list", TEXT]`: the print of the list, or `refused`
//! - `["contains", LIST, VERSION]`: whether the list accepts the version
//! - `["range", LIST, VERSION]`: whether the range of the list holds the version
//! - `["union", LIST, LIST, VERSION]`, `["intersection", LIST, LIST, VERSION]`: whether the union or the
//!   intersection of their ranges holds it
//! - `["intervals", LIST]`: of how many intervals the range of the list is
//! - `["version fault", TEXT]`: what is wrong with the text of a version
//! - `["pattern", TEXT]`: the version of the pattern and whether a star follows it, or `refused: ` and the
//!   fault
//! - `["takes", SPECIFIER, VERSION]`: whether the specifier accepts the version
//! - `["list fault", TEXT]`: the first piece between commas that is no specifier, its place in bytes, the
//!   line, and what is wrong with the piece
//! - `["set", SPECIFIER]`, `["list set", LIST]`: the intervals of its range, with brackets for bounds that
//!   are held, or `refused: ` and the fault
//! - `["release set", SPECIFIER]`, `["release list set", LIST]`: the intervals of its range among releases
//! - `["end", SPECIFIER]`: below which version its range ends, with what no print shows of that version: its
//!   least bound, beside its development number
//! - `["compare", LEFT, RIGHT]`: the order of two versions, of their public parts and of their releases,
//!   whether they are equal and have one hash
//! - `["traits", TEXT]`: the version's print for programmers, and what holds of it
//! - `["copy", TEXT]`, `["release", TEXT]`, `["trimmed", TEXT]`, `["public", TEXT]`, `["raised", TEXT]`: its
//!   copy; its release; it without end zeros; without its local part; with its last number raised
//! - `["changed"]`: `9`, of which each part is set anew
//! - `["early", VERSION]`, `["low", VERSION]`, `["high", VERSION]`: the early version, and `1` marked as a
//!   lower and as an upper end, with their order to the version
//! - `["value", JSON]`, `["specifier value", JSON]`, `["list value", JSON]`: the version, the specifier, the
//!   list of a JSON value
//! - `["patterns", LEFT, RIGHT]`, `["pattern copy", TEXT]`, `["pattern of 1.2"]`: whether two patterns are
//!   equal and have one hash; a copy; a pattern made of a version
//! - `["want of memory", NAME]`: what the error of this name says of want of memory
//! - `["operators"]`, `["operator", TEXT]`: each operator's print, its negation, and whether its print is
//!   read as it; the operator of a text
//! - `["specifiers", LEFT, RIGHT]`: the order of two specifiers, whether they are equal and have one hash
//! - `["specifier copy", TEXT]`, `["specifier parts", TEXT]`, `["specifiers of 1"]`: a copy; the parts; the
//!   specifiers of `1` by each operator's own call
//! - `["of pattern", OPERATOR, TEXT]`, `["of version", OPERATOR, TEXT]`: the specifier of an operator and a
//!   pattern or a version, with its operator and its version, or the fault
//! - `["below", LOWER, UPPER]`, `["up to", LOWER, UPPER]`: the specifiers of the releases between two
//!   versions
//! - `["included", VERSION]`, `["excluded", VERSION]`, `["unbounded", VERSION]`: the specifier of a lower,
//!   then of an upper bound
//! - `["counted", LIST, VERSION]`: whether the list accepts the version, asked twice, and how many members
//!   were tested by then
//! - `["list of", SPECIFIER, SPECIFIER, SPECIFIER]`, `["list of one", SPECIFIER]`: the list of these
//!   specifiers; with the number of members, borrowed and moved out
//! - `["list prints", LIST]`: the prints of a list's copy
//! - `["lists", LEFT, RIGHT]`, `["empty list", VERSION]`: the order of two lists, both ways; whether the
//!   empty list accepts the version
//! - `["list picture", TEXT]`: the whole print of a refusal, in three lines
//! - `["but from", UPPER, LOWER]`, `["but up to", UPPER, LOWER]`, `["around", LOWER, MIDDLE, UPPER]`, `["no
//!   intervals"]`: the list of releases with a gap, with a point left out, of none

mod answers;
mod built;
mod lists;
mod patterns;
mod releases;
mod sets;
mod specifiers;
mod values;
mod versions;

pub use answers::answer;
