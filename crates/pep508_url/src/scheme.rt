//! Schemes of URLs.

ghost use Rattle.std.specs.Prelude.{◌≡◌, ◌↔◌, IsTrue, option_map, slice_index};
ghost use Rattle.std.specs.Char.{is_ascii_alphabetic};
ghost use Rattle.std.specs.List.{list_all};
ghost use Rattle.url.specs.Input.{trim_c0_control_and_space};
ghost use Rattle.pep508_url.specs.Schemes.{scheme_text, scheme_of, scheme_split, is_scheme, is_scheme_byte};

use crate::cuts::cut;
use std::fmt;

/// A scheme of URLs that pip knows: a file, the web, or a version control system and its transport.
#[derive(Debug, Clone, Copy, PartialEq, Eq)]
pub enum Scheme {
    File,
    GitGit,
    GitHttp,
    GitFile,
    GitSsh,
    GitHttps,
    BzrHttp,
    BzrHttps,
    BzrSsh,
    BzrSftp,
    BzrFtp,
    BzrLp,
    BzrFile,
    HgFile,
    HgHttp,
    HgHttps,
    HgSsh,
    HgStaticHttp,
    SvnSsh,
    SvnHttp,
    SvnHttps,
    SvnSvn,
    SvnFile,
    Http,
    Https,
}

impl Scheme {
    ghost use Rattle.pep508_url.specs.declared.scheme.Scheme.TheVariants.{File};

    /// Returns the scheme of this text, in lower case alone; `None` where it is unknown.
    #[tactic(auto, unfolding(crate::specs::Schemes::scheme_of))]
    pub fn parse(text: &str) -> Option<Self>
        ensures { result ≡ scheme_of text.now }
    {
        match text {
            "file" => Some(Scheme::File),
            "git+git" => Some(Scheme::GitGit),
            "git+http" => Some(Scheme::GitHttp),
            "git+file" => Some(Scheme::GitFile),
            "git+ssh" => Some(Scheme::GitSsh),
            "git+https" => Some(Scheme::GitHttps),
            "bzr+http" => Some(Scheme::BzrHttp),
            "bzr+https" => Some(Scheme::BzrHttps),
            "bzr+ssh" => Some(Scheme::BzrSsh),
            "bzr+sftp" => Some(Scheme::BzrSftp),
            "bzr+ftp" => Some(Scheme::BzrFtp),
            "bzr+lp" => Some(Scheme::BzrLp),
            "bzr+file" => Some(Scheme::BzrFile),
            "hg+file" => Some(Scheme::HgFile),
            "hg+http" => Some(Scheme::HgHttp),
            "hg+https" => Some(Scheme::HgHttps),
            "hg+ssh" => Some(Scheme::HgSsh),
            "hg+static-http" => Some(Scheme::HgStaticHttp),
            "svn+ssh" => Some(Scheme::SvnSsh),
            "svn+http" => Some(Scheme::SvnHttp),
            "svn+https" => Some(Scheme::SvnHttps),
            "svn+svn" => Some(Scheme::SvnSvn),
            "svn+file" => Some(Scheme::SvnFile),
            "http" => Some(Scheme::Http),
            "https" => Some(Scheme::Https),
            _ => None,
        }
    }

    /// Returns whether the scheme is `file`.
    pub fn is_file(self) -> bool
        ensures { IsTrue result ↔ (self ≡ File) }
    {
        matches!(self, Scheme::File)
    }

    fn text(self) -> &'static str
        ensures { result.now ≡ scheme_text self }
    {
        match self {
            Scheme::File => "file",
            Scheme::GitGit => "git+git",
            Scheme::GitHttp => "git+http",
            Scheme::GitFile => "git+file",
            Scheme::GitSsh => "git+ssh",
            Scheme::GitHttps => "git+https",
            Scheme::BzrHttp => "bzr+http",
            Scheme::BzrHttps => "bzr+https",
            Scheme::BzrSsh => "bzr+ssh",
            Scheme::BzrSftp => "bzr+sftp",
            Scheme::BzrFtp => "bzr+ftp",
            Scheme::BzrLp => "bzr+lp",
            Scheme::BzrFile => "bzr+file",
            Scheme::HgFile => "hg+file",
            Scheme::HgHttp => "hg+http",
            Scheme::HgHttps => "hg+https",
            Scheme::HgSsh => "hg+ssh",
            Scheme::HgStaticHttp => "hg+static-http",
            Scheme::SvnSsh => "svn+ssh",
            Scheme::SvnHttp => "svn+http",
            Scheme::SvnHttps => "svn+https",
            Scheme::SvnSvn => "svn+svn",
            Scheme::SvnFile => "svn+file",
            Scheme::Http => "http",
            Scheme::Https => "https",
        }
    }
}

impl fmt::Display for Scheme {
    ghost use Rattle.std.specs.Prelude.{Some};

    ghost output = { λ scheme. Some (scheme_text scheme) };

    fn fmt<W: fmt::Write>(&self, f: &mut fmt::Formatter<W>) -> fmt::Result {
        f.write_str(self.text())
    }
}

/// Splits a text into its scheme (RFC 3986, section 3.1) and what follows the `:`. Controls and blanks
/// around the text are left out first. The scheme need not be one of `Scheme`. One pass, and no memory.
#[tactic(auto, unfolding(crate::specs::Schemes::scheme_split))]
pub fn split_scheme(text: &str) -> Option<(&str, &str)>
    ensures { option_map (λ parts. (parts.0.now, parts.1.now)) result ≡ scheme_split text.now }
{
    let (scheme, rest) = cut(':', trimmed(text))?;
    if is_scheme(scheme) {
        Some((scheme, rest))
    } else {
        None
    }
}

/// Returns the text without the bytes up to U+0020 at its ends.
#[tactic(auto, unfolding(url::specs::Input::trim_c0_control_and_space))]
fn trimmed(text: &str) -> &str
    ensures { result.now ≡ trim_c0_control_and_space text.now }
{
    let leading = text
        .as_bytes()
        .iter()
        .take_while(|&&byte| byte <= b' ')
        .count();
    let rest = &text[leading..];
    let trailing = rest
        .as_bytes()
        .iter()
        .rev()
        .take_while(|&&byte| byte <= b' ')
        .count();
    &rest[..rest.len() - trailing]
}

fn is_scheme(text: &str) -> bool
    ensures { result ≡ is_scheme text.now }
{
    begins_with_letter(text) && has_scheme_bytes_alone(text)
}

fn begins_with_letter(text: &str) -> bool
    ensures { result ≡ is_ascii_alphabetic (slice_index text.now 0) }
{
    match text.as_bytes() {
        [first, ..] => first.is_ascii_alphabetic(),
        [] => false,
    }
}

fn has_scheme_bytes_alone(text: &str) -> bool
    ensures { result ≡ list_all is_scheme_byte text.now }
{
    text.as_bytes().iter().all(|byte| is_scheme_byte(*byte))
}

fn is_scheme_byte(byte: u8) -> bool
    ensures { result ≡ is_scheme_byte byte }
{
    byte.is_ascii_alphanumeric() || byte == b'+' || byte == b'-' || byte == b'.'
}
