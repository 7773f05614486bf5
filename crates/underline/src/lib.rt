//! A text with a part of it underlined, as the errors of requirements and of lists print it.
//!
//! Columns are the sum of the characters' widths, not the width of the text as a whole, which is less where
//! characters join.
#![tactic(auto)]

ghost use Rattle.std.specs.Prelude.{◌≡◌, ◌<◌, Some, replicate};
ghost use Rattle.underline.specs.Underline.{char_columns, columns, underlined};

use std::fmt;
use unicode_width::UnicodeWidthChar;

/// Returns the number of columns of a text in a terminal: the sum of its characters' widths, where a
/// control has none.
pub fn columns(text: &str) -> usize
    ensures { result ≡ columns text.now }
{
    let mut total = 0;
    for c in text.chars() {
        total += char_columns(c);
    }
    total
}

fn char_columns(c: char) -> usize
    ensures { result ≡ char_columns c }
{
    c.width().unwrap_or(0)
}

/// A text and, on a line of its own, blanks and then `^`s. Printing it takes no memory.
#[derive(Clone, Copy)]
pub struct Underlined<'a> {
    pub text: &'a str,
    pub blanks: usize,
    pub marks: usize,
}

impl fmt::Display for Underlined<'_> {
    ghost output = { λ u. Some (underlined u.text.now u.blanks u.marks) };

    fn fmt<W: fmt::Write>(&self, f: &mut fmt::Formatter<W>) -> fmt::Result {
        let text = self.text;
        write!(
            f,
            "{text}\n{}{}",
            Repeated {
                mark: ' ',
                count: self.blanks
            },
            Repeated {
                mark: '^',
                count: self.marks
            }
        )
    }
}

/// A printer of an ASCII character, repeated `count` times.
#[derive(Clone, Copy)]
struct Repeated {
    mark: char,
    count: usize,
    ghost ascii: { mark < 128 },
}

impl fmt::Display for Repeated {
    ghost output = { λ r. Some (replicate r.count r.mark) };

    fn fmt<W: fmt::Write>(&self, f: &mut fmt::Formatter<W>) -> fmt::Result {
        let mark = self.mark;
        for _ in 0..self.count {
            write!(f, "{mark}")?;
        }
        Ok(())
    }
}
