#![tactic(auto)]
//! Answers questions on markers, one a line, whose answers are known from elsewhere.
//!
//! A question is a JSON list: what is asked, and the texts that it is asked of. The environments
//! that it may name are given with it: a line each, its name, a tab and its JSON value.
//!
//! # Questions
//!
//! - `["marker", TEXT]`: `TRUE`, `FALSE` or `a tree`, with each warning of reading it behind a bar; or where
//!   and how long the part at fault is, in bytes, and the message
//! - `["unwarned", TEXT, OTHER]`: whether the marker, read by the calls that drop warnings, is one tree with
//!   the other
//! - `["from value", JSON, OTHER]`: whether the marker of a JSON value is one tree with the other, or `shape`
//! - `["unwarned expression", TEXT]`: the print of the comparison, read by the call that drops warnings
//! - `["expression", TEXT]`: the print of the comparison, or `left out`, with its warnings; or the refusal
//! - `["view", TEXT]`: what the tree asks first: the key with its edges, brackets for bounds that are held,
//!   or what is asked for and the subtrees where it is so and where not; a subtree that is no constant is `a
//!   tree`
//! - `["evaluate", TEXT, ENVIRONMENT, EXTRA..]`: whether the marker holds, with the warnings of its
//!   evaluation
//! - `["collected", TEXT, ENVIRONMENT, EXTRA..]`, `["called", ..]`, `["logged", ..]`: the same with the
//!   warnings that are collected, that a closure is called with, and that a log of the program's own is
//!   given, each with its level
//! - `["silent", TEXT, ENVIRONMENT, EXTRA..]`: whether the marker holds, asked with a reporter that wants no
//!   warning
//! - `["extras", TEXT, EXTRA..]`: whether some environment with just these extras makes it hold
//! - `["simplified", TEXT, OTHER, LOWER, UPPER]`, `["complexified", TEXT, OTHER, LOWER, UPPER]`: whether the
//!   marker, simplified to a range of versions of Python or held within one, is one tree with the other; a
//!   bound is a version behind `[` where the range has it and behind `(` where it hasn't, or the empty text
//! - `["print", TEXT]`, `["print in part", TEXT]`, `["value", TEXT]`: what the tree prints with its interner;
//!   its text, or `no text`; its JSON value, or `none`
//! - `["operator", TEXT]`: the operator, the same with its sides exchanged and negated, that of specifiers,
//!   that of extras and its negation
//! - `["key", TEXT]`: the key's name; of one of texts also the name that it was written by, whether that is
//!   an old one, and the modern key
//! - `["side", KEY, TEXT]`: the print of a copy of one side: a key, or where there is none the quoted text
//! - `["bounds", LOWER, UPPER]`: the terms of two bounds together, then of each; `[` includes the character
//!   behind it, `(` leaves it out
//! - `["comparison", KEY, OPERATOR, TEXT]`: the text of the tree of this comparison
//! - `["member", ENVIRONMENT, NAME]`, `["key of", ENVIRONMENT, KEY]`: the text of a member; what a marker's
//!   key reads there
//! - `["with", ENVIRONMENT, NAME, TEXT]`: the JSON value of the environment with this text as one member
//! - `["built", TEXT..]`, `["environment value", JSON]`: the JSON value of the environment that eleven texts,
//!   or a value, make; or the member at fault
//! - `["version", TEXT]`: the version with its text: the text, the version, whether a copy and the JSON value
//!   read back are equal
//! - `["contents", TEXT]`: whether the tree has contents, whether it is empty, and whether its contents lead
//!   back to it
//! - `["order", LEFT, RIGHT]`: which of both trees, each of an interner of its own, comes first: `<`, `=` or
//!   `>`
//! - `["present", TEXT, OTHER, EXTRA..]`: whether the marker with these extras taken as present is one tree
//!   with the other
//! - `["same", LEFT, RIGHT]`, `["disjoint", LEFT, RIGHT]`, `["negation", LEFT, RIGHT]`: whether both have one
//!   tree, never hold together, or the one's tree is the other's negation
//! - `["one key", LEFT, RIGHT]`: whether both, each read by an interner of its own, have one key
//! - `["text", TEXT]`, `["text after", EARLIER, TEXT]`: the print of the marker's tree, or `no text`; the
//!   same where another marker was read before it
//! - `["clauses", TEXT]`: its clauses, each in brackets, with `;` between their comparisons
//! - `["clause count", TEXT]`: how many clauses it has before they are simplified, or `many` where it has
//!   more than 8
//! - `["top extra", TEXT]`: the comparison of the extra that all clauses ask for, or `none`
//! - `["asked", TEXT]`: of what kinds the questions of the marker's tree are: `quote` (a text has a single
//!   quote), `old` (a key is an old name), `bound` (a version is more than a release of epoch 0), several of
//!   them in this order, or `none`
//! - `["keeps", LEFT, RIGHT, CALL, ENVIRONMENT, GIVEN, UPPER]`: which of both markers hold, before and after
//!   a third tree is made, and the print of that tree. CALL is `and`, `or`, `forgotten` (`and`, forgotten,
//!   and then with the markers in their other order), or a marker that is read; `expression`, of the
//!   comparison GIVEN; or of the left marker `simplified` or `complexified`, with the bounds GIVEN and UPPER,
//!   `present` or `present by closure`, with the extra GIVEN. Where it is refused memory it is made once
//!   more, if the two hold and print as before; else the answer is `lost`

mod answers;
mod asked;
mod comparisons;
mod environment;
mod evaluations;
mod kept;
mod made;
mod members;
mod noted;
mod pairs;
mod question;
mod reading;
mod shown;
mod simplified;
mod stop;
mod texts;
mod views;
mod warnings;

pub use answers::answer;
