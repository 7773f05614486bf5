//! The environment variables of the process, whose values are used in URLs.
//!
//! Variables are read once, when the files are open: those entries that are text. The project's directory
//! is `PWD` where that is an absolute path, and otherwise `/`.

ghost use Rattle.std.specs.Prelude.{◌≡◌, map, string_bytes, option_map, IfOk};
ghost use Rattle.pep508_url.specs.Cuts.{cut};
ghost use Rattle.pep508_url.specs.Vars.{IsAbsolute};
ghost use Rattle.reqs_command.specs.Variables.{is_root, root_in, pairs_in, variables_in};

use crate::words::filled;
use pep508_url::Vars;
use std::alloc::{AllocError, Global};
use std::env::Env;

/// The project's root directory if the environment has none.
const ROOT: &str = "/";

/// The variables in some entries. The project's root directory is the value of `PWD`, if that is an absolute
/// path, or else `/`.
///
/// # Errors
///
/// `AllocError` when memory runs out.
pub fn variables(alloc: Global, entries: &[String]) -> Result<Vars, AllocError>
    ensures { IfOk result (λ vars. vars ≡ variables_in (map string_bytes entries.now)) }
{
    let pairs = pairs(alloc, entries)?;
    Vars::new(alloc, &pairs, project_root(&pairs))
}

/// The entries of the process's environment that are UTF-8, as `NAME=value`.
///
/// # Errors
///
/// `AllocError` when memory runs out.
pub fn entries<E: Env>(env: &E, alloc: Global) -> Result<Vec<String>, AllocError> {
    let mut entries = Vec::new(alloc);
    for place in 0..usize::MAX {
        let Some(bytes) = filled(alloc, |buffer| env.var_at(place, buffer))? else {
            break;
        };
        if let Ok(text) = str::from_utf8(&bytes) {
            entries.push(String::from_str(alloc, text)?)?;
        }
    }
    Ok(entries)
}

/// The names of the entries with their values; entries without a `=` are skipped.
fn pairs<'a>(alloc: Global, entries: &'a [String]) -> Result<Vec<(&'a str, &'a str)>, AllocError>
    ensures { IfOk result (λ pairs.
        map (λ pair. (pair.0.now, pair.1.now)) pairs.items ≡ pairs_in (map string_bytes entries.now)) }
{
    let mut pairs = Vec::new(alloc);
    for entry in entries {
        if let Some(pair) = pair_of(entry.as_str()) {
            pairs.push(pair)?;
        }
    }
    Ok(pairs)
}

/// An entry's name and value, or `None` without a `=`.
fn pair_of(entry: &str) -> Option<(&str, &str)>
    ensures { option_map (λ pair. (pair.0.now, pair.1.now)) result ≡ cut 61 entry.now }
{
    entry.split_once('=')
}

/// The project's root directory: the value of the first `PWD` that is an absolute path, or `/`.
fn project_root<'a>(pairs: &[(&'a str, &'a str)]) -> &'a str
    ensures absolute { IsAbsolute result.now }
    ensures root { result.now ≡ root_in (map (λ pair. (pair.0.now, pair.1.now)) pairs.now) }
{
    for (name, value) in pairs {
        if is_root(name, value) {
            return value;
        }
    }
    ROOT
}

/// Whether a variable names the project's root directory.
fn is_root(name: &str, value: &str) -> bool
    ensures { result ≡ is_root (name.now, value.now) }
{
    name == "PWD" && value.starts_with('/')
}
