#![tactic(auto)]
//! Answers questions on names, origins, URLs and requirements, one a line, whose answers are known from
//! elsewhere.
//!
//! A question is a JSON list: what is asked, and the text that it is asked of. Its variables may be `R=/a`,
//! `HOST=e.example`, `EMPTY` and `A_1=${R}`; the project's root is `/`, and relative paths are in `/w`.
//!
//! # Questions
//!
//! - `["name", TEXT]`, `["dist-info", TEXT]`: the normal form of the name; that form as folders have it
//! - `["origin", JSON]`: the origin's value and its path
//! - `["expand", TEXT]`: the text with its variables' values
//! - `["scheme", TEXT]`: the scheme, whether it is `file`, listed or another, and what follows it
//! - `["strip-host", TEXT]`, `["split-extras", TEXT]`: what these calls give
//! - `["url", TEXT]`, `["url-nowhere", TEXT]`: the URL and the text that it was given as, in the directory or
//!   in none
//! - `["path", TEXT]`, `["absolute-path", TEXT]`, `["as-path", URL]`: the URL of a path; the path of a URL
//! - `["requirement", TEXT]`: name, extras and specifiers, or the URL and the text that it was given as; or
//!   where and how long the part at fault is, in bytes, and the message
//! - `["unnamed", TEXT]`: the URL, the extras, and the text that the URL was given as; or the refusal
//! - `["warnings", TEXT]`: how many conjunctions reading a requirement counts, and the kinds and texts of its
//!   marker's warnings
//! - `["picture", TEXT]`: the whole print of a refusal, in three lines
//! - `["copy", TEXT]`, `["unnamed-copy", TEXT]`: what a requirement's copy holds, and whether it is equal;
//!   the same of one without a name
//! - `["print", TEXT]`, `["unnamed-print", TEXT]`: what the requirement prints with its interner, and whether
//!   its JSON value reads back as an equal one; what one without a name prints, if that is its JSON value's
//!   text too
//! - `["nowhere", TEXT]`: the name of a requirement that stands in no directory, or the refusal
//! - `["value", JSON]`: the requirement of a JSON value, without its URL and in a workspace
//! - `["plain", TEXT]`: the URL of a requirement whose URLs are those of the crate `url`
//! - `["extras", TEXT]`: how many extras stand at the front, and whether their copy is equal
//! - `["package", TEXT]`, `["extra", TEXT]`: a name for programmers and as a value, and whether its copy is
//!   equal; of a text that is none what the error's copy keeps
//! - `["package-value", JSON]`, `["extra-value", JSON]`: the name of a JSON value
//! - `["packages", LEFT, RIGHT]`, `["extra-names", LEFT, RIGHT]`, `["origins", JSON, JSON]`: their order, and
//!   whether they have one hash
//! - `["origin-fault", JSON]`: what is wrong with an origin
//! - `["environment", JSON]`: the interpreter's full version, or what is wrong with the environment
//! - `["want of memory"]`, `["error of memory"]`: what the errors say of want of memory; the same of a
//!   requirement's, and the text that it keeps
//! - `["whole", TEXT]`: the whole text that a requirement's refusal keeps, or `read`
//! - `["meant", TEXT, EXTRA]`, `["unnamed-meant", TEXT, EXTRA]`: whether the requirement is meant with the
//!   extra in the environment `E` of the questions on markers, and in any; the first with the kinds and texts
//!   of the warnings
//! - `["with-extra", TEXT, EXTRA]`: the print of the requirement once it asks for the extra too
//! - `["keeps", TEXT, EXTRA]`: whether the requirement is meant in the environment `E` without extras, and
//!   its print, and then its print once it asks for the extra too. Where that is refused memory it is made
//!   once more, if the requirement is meant and prints as before; else the answer is `lost`
//! - `["keeps table", LINES, OTHER]`: the answer of the table of these lines in the environment `E`, with the
//!   versions 1 and 2 of `foo` as candidates, and the cases of `foo` in a table of the other lines, by the
//!   same interner. That one is built twice; where the first attempt is refused memory the table before has
//!   to answer as it did, else the answer is `lost`
//! - `["normal", LINES, MOST]`: the lines of the list's normal text, each with a `/` behind it, where each
//!   marker has at most so many clauses (without a number as many as it has); or why it has none
//! - `["of-url", TEXT]`, `["unnamed-url", TEXT]`, `["unnamed-path", TEXT]`: the URL that is made of one of
//!   the crate `url`, and of a text and a path as of a requirement without a name, with the text that it was
//!   given as

mod answers;
mod kept;
mod meant;
mod names;
mod normals;
mod requirements;
mod tables;
mod unnamed;
mod urls;
mod values;
mod warnings;

pub use answers::answer;
