//! Finding where a URL ends in a requirement's text.
//!
//! The end is tested once for each run of white space; upstream's search starts again at each blank of it.

ghost use Rattle.std.specs.Prelude.{◌≡◌, ◌+◌, ◌^◌, ◌<◌, ◌==◌, ◌&&◌, ◌++◌, [], true, false, length};
ghost use Rattle.std.specs.Prelude.{MatchOption};
ghost use Rattle.std.specs.Char.{is_whitespace};
ghost use Rattle.std.specs.Str.{chars};
ghost use Rattle.pep508_requirement_text.specs.UrlEnds.{url_split, depth_behind, is_line_break, is_mark};
ghost use Rattle.pep508_requirement_text.specs.UrlEnds.{is_over, ends_behind};
ghost use Rattle.pep508_error.specs.Cuts.{begins_by};
ghost use Rattle.pep508_requirement_text.specs.UrlTurns.{BeginsWith, AreBlanks, EndsAt, IsTurn};

/// The result of reading one character, or a run of white space, of a URL.
pub(crate) enum Turn<'a> {
    /// The URL ends before this text.
    Ends(&'a str),
    /// The URL goes on with this text, at this depth in brackets.
    GoesOn(&'a str, usize),
}

/// Splits a text into the URL at its front and the text after it. With `brackets`, for a URL without a
/// name, the URL ends outside brackets only, except at line breaks.
///
/// One pass over the text, which looks past each run of white space once. Takes no memory.
pub fn split_url(text: &str, brackets: bool) -> (&str, &str)
    ensures parts { (chars result.0.now, chars result.1.now) ≡ url_split brackets 0 (chars text.now) }
    ensures whole { text.now ≡ result.0.now ++ result.1.now }
{
    let mut rest = text;
    let mut depth = 0;
    loop {
        match read_on(rest, brackets, depth) {
            Turn::Ends(behind) => return split_to(text, brackets, behind),
            Turn::GoesOn(behind, later) => {
                rest = behind;
                depth = later;
            }
        }
    }
}

/// Splits a text before the text at which its URL ends.
fn split_to<'a>(text: &'a str, brackets: bool, behind: &str) -> (&'a str, &'a str)
    requires { EndsAt brackets 0 text.now behind.now }
    ensures parts { (chars result.0.now, chars result.1.now) ≡ url_split brackets 0 (chars text.now) }
    ensures whole { text.now ≡ result.0.now ++ result.1.now }
{
    text.split_at(text.len() - behind.len())
}

/// Reads one character, or a run of white space.
fn read_on(text: &str, brackets: bool, depth: usize) -> Turn<'_>
    requires kept { depth_behind brackets depth 32 ≡ depth }
    requires bound { depth + length text.now < 2 ^ 64 }
    ensures { IsTurn brackets depth text.now result }
{
    match first(text) {
        None => Turn::Ends(text),
        Some((c, rest)) => {
            if c.is_whitespace() {
                read_blanks(text, brackets, depth)
            } else {
                read_char(text, c, rest, brackets, depth)
            }
        }
    }
}

/// Reads the first character of a text, which is not white space.
fn read_char<'a>(text: &'a str, c: char, rest: &'a str, brackets: bool, depth: usize) -> Turn<'a>
    requires begins { BeginsWith text.now c rest.now }
    requires plain { is_whitespace c ≡ false }
    requires bound { depth + length text.now < 2 ^ 64 }
    ensures { IsTurn brackets depth text.now result }
{
    let later = depth_behind(brackets, depth, c);
    if ends_behind(later, c, rest) {
        Turn::Ends(rest)
    } else {
        Turn::GoesOn(rest, later)
    }
}

/// Returns whether a URL ends after this character, before this text.
fn ends_behind(depth: usize, c: char, text: &str) -> bool
    ensures { result ≡ ends_behind depth c (chars text.now) }
{
    depth == 0 && is_mark(c) && begins_with_blank(text)
}

/// Reads a run of white space.
fn read_blanks(text: &str, brackets: bool, depth: usize) -> Turn<'_>
    requires kept { depth_behind brackets depth 32 ≡ depth }
    requires blank { begins_by is_whitespace (chars text.now) ≡ true }
    ensures { IsTurn brackets depth text.now result }
{
    let (run, behind) = split_blanks(text);
    if is_end(depth, behind) {
        return Turn::Ends(text);
    }
    match run.find(|c: char| is_line_break(c)) {
        Some(place) => Turn::Ends(&text[place..]),
        None => Turn::GoesOn(behind, depth),
    }
}

/// Returns whether a URL ends before white space at this depth that this text follows.
fn is_end(depth: usize, text: &str) -> bool
    ensures { result ≡ (depth == 0 && is_over (chars text.now)) }
{
    depth == 0 && is_over(text)
}

/// Splits off the white space at the front.
pub(crate) fn split_blanks(text: &str) -> (&str, &str)
    ensures { AreBlanks text.now result.0.now result.1.now }
{
    let behind = text.trim_start();
    let (run, _) = text.split_at(text.len() - behind.len());
    (run, behind)
}

/// Returns the depth in brackets after a character.
fn depth_behind(brackets: bool, depth: usize, c: char) -> usize
    requires { depth + 1 < 2 ^ 64 }
    ensures { result ≡ depth_behind brackets depth c }
{
    if !brackets {
        return 0;
    }
    match c {
        '[' => depth + 1,
        ']' => depth.saturating_sub(1),
        _ => depth,
    }
}

/// Splits off the first character.
fn first(text: &str) -> Option<(char, &str)>
    ensures { MatchOption result (chars text.now ≡ []) (λ x. BeginsWith text.now x.0 x.1.now) }
{
    let mut chars = text.chars();
    let c = chars.next()?;
    Some((c, chars.as_str()))
}

fn begins_with_blank(text: &str) -> bool
    ensures { result ≡ begins_by is_whitespace (chars text.now) }
{
    match first(text) {
        Some((c, _)) => c.is_whitespace(),
        None => false,
    }
}

/// Returns whether nothing is left, or a `;` or a `#` follows.
fn is_over(text: &str) -> bool
    ensures { result ≡ is_over (chars text.now) }
{
    match first(text) {
        Some((c, _)) => is_mark(c),
        None => true,
    }
}

fn is_line_break(c: char) -> bool
    ensures { result ≡ is_line_break c }
{
    c == '\n' || c == '\r'
}

fn is_mark(c: char) -> bool
    ensures { result ≡ is_mark c }
{
    c == ';' || c == '#'
}
