//! Variables, and texts with their values.
//!
//! For expansion a text is cut at each `$`. A variable's name holds none, so this is leftmost-first
//! replacement, done once, and the definition has no loop; laws state it by the leftmost reference.
//!
//! `Vars` keeps the pairs as given, by which its definition goes, and a map from each name to the index of
//! its first pair, so that a look-up takes O(log n) comparisons. The map has each name once more; a sorted
//! list of indices would save that, but the map's contract saves the proofs of a search.

ghost use Rattle.std.specs.Prelude.{◌≡◌, ◌++◌, ℕ, List, map, IfOk, OnOk, if◌then◌else◌, None, bytes_eq};
ghost use Rattle.std.specs.Prelude.{option_copied, option_map, string_bytes};
ghost use Rattle.std.specs.Cow.{cow_str_bytes};
ghost use Rattle.std.specs.List.{list_all};
ghost use Rattle.std.specs.Option.{option_or};
ghost use Rattle.pep508_url.specs.Vars.{IsAbsolute, value_of, root_value, copied_pair};
ghost use Rattle.pep508_url.specs.Vars.{value_at, value_by_place, ArePlaces};
ghost use Rattle.pep508_url.specs.Expansion as spec;
ghost use Rattle.pep508_url.specs.Expansion.{is_variable_byte, is_variable_name, behind_dollar};

use crate::cuts::{behind, cut};
use std::alloc::{AllocError, Global};
use std::borrow::CowStr;
use std::collections::BTreeMap;
use std::marker::Model;

/// The variables that a URL may name, which a caller reads from the process's environment or makes itself.
///
/// It keeps copies of its own, of the names two. Its model in contracts is the pairs of names and values,
/// in order, and the project's root.
#[derive(Drop)]
pub struct Vars {
    pairs: Vec<(String, String)>,
    places: BTreeMap<String, usize>,
    project_root: String,
}

impl Model for Vars {
    ghost use Rattle.std.specs.Prelude.{map};
    ghost use Rattle.std.specs.String.{string_bytes};
    ghost use Rattle.pep508_url.specs.Vars.{Variables, IsAbsolute, copied_pair, ArePlaces};

    ghost Value = { Variables };

    ghost view = { λ vars. record {
      pairs = map copied_pair vars.pairs.items;
      project_root = string_bytes vars.project_root;
    } };

    ghost invariant = { λ vars. IsAbsolute (string_bytes vars.project_root)
        × ArePlaces vars.pairs.items vars.places };
}

impl Vars {
    /// Returns the variables of names with their values, of which the first pair of a name counts, and the
    /// absolute path of the project.
    ///
    /// Copies every text, and the names twice. With n pairs it takes O(n log n) comparisons of names.
    ///
    /// # Errors
    ///
    /// `AllocError` when memory runs out.
    pub fn new(
        alloc: Global,
        pairs: &[(&str, &str)],
        project_root: &str,
    ) -> Result<Self, AllocError>
        requires { IsAbsolute project_root.now }
        ensures { IfOk result (λ vars. vars
            ≡ record {
              pairs = map (λ pair. (pair.0.now, pair.1.now)) pairs.now;
              project_root = project_root.now;
            }) }
    {
        let mut copies = Vec::with_capacity(alloc, pairs.len())?;
        for (name, value) in pairs {
            copies.push((
                String::from_str(alloc, name)?,
                String::from_str(alloc, value)?,
            ))?;
        }
        let places = first_places(alloc, &copies)?;
        Ok(Vars {
            pairs: copies,
            places,
            project_root: String::from_str(alloc, project_root)?,
        })
    }

    /// Returns the value of a variable: that of its first pair, and for `PROJECT_ROOT` without a pair the
    /// project's root.
    ///
    /// With n pairs it takes O(log n) comparisons of names.
    #[tactic(auto, unfolding(crate::specs::Vars::value_of))]
    pub fn value(&self, name: &str) -> Option<&str>
        ensures { option_copied result ≡ value_of self.now name.now }
    {
        match find(&self.pairs, &self.places, name) {
            Some(value) => Some(value),
            None => self.root_value(name),
        }
    }

    fn root_value(&self, name: &str) -> Option<&str>
        ensures { option_copied result ≡ root_value self.now name.now }
    {
        if name == "PROJECT_ROOT" {
            Some(self.project_root.as_str())
        } else {
            None
        }
    }

    /// Returns the absolute path of the project.
    pub fn project_root(&self) -> &str
        ensures path { result.now ≡ self.now.project_root }
        ensures absolute { IsAbsolute self.now.project_root }
    {
        self.project_root.as_str()
    }
}

/// Returns for each name the place of its first pair.
fn first_places(
    alloc: Global,
    pairs: &[(String, String)],
) -> Result<BTreeMap<String, usize>, AllocError>
    ensures { IfOk result (ArePlaces pairs.now) }
{
    let mut places = BTreeMap::new(alloc);
    for (place, (name, _)) in pairs.iter().enumerate() {
        add_place(alloc, pairs, &mut places, place, name.as_str())?;
    }
    Ok(places)
}

/// Adds the place of a pair, unless its name has one.
fn add_place(
    alloc: Global,
    pairs: &[(String, String)],
    places: &mut BTreeMap<String, usize>,
    place: usize,
    name: &str,
) -> Result<(), AllocError>
    ensures { OnOk result ((q : List ℕ) → value_by_place pairs.now places.new q
        ≡ option_or (value_by_place pairs.now places.old q)
        (if bytes_eq name.now q then value_at pairs.now place else None)) }
{
    if find(pairs, places, name).is_some() {
        return Ok(());
    }
    places.insert(String::from_str(alloc, name)?, place)?;
    Ok(())
}

/// Returns the value of the pair at a name's place.
fn find<'a>(
    pairs: &'a [(String, String)],
    places: &BTreeMap<String, usize>,
    name: &str,
) -> Option<&'a str>
    ensures { option_copied result ≡ value_by_place pairs.now places.now name.now }
{
    let place = places.get(name)?;
    let (_, value) = pairs.get(*place)?;
    Some(value.as_str())
}

/// Returns the text with the value in place of each variable that it names as `${NAME}`, with a NAME of
/// capital letters, digits and `_`. A name that is not known stays as it is written, and values are not
/// expanded again.
///
/// Linear in the result; each name is looked up as by `value`. A text without `$` is borrowed as it is.
///
/// # Errors
///
/// `AllocError` when memory runs out.
pub fn expand_env_vars<'a>(
    alloc: Global,
    text: &'a str,
    vars: &Vars,
) -> Result<CowStr<'a>, AllocError>
    ensures { IfOk result (λ expanded. cow_str_bytes expanded ≡ spec.expanded vars.now text.now) }
{
    let Some((first, others)) = cut('$', text) else {
        return Ok(CowStr::Borrowed(text));
    };
    let mut expanded = String::with_capacity(alloc, text.len())?;
    expanded.push_str(first)?;
    for part in others.split('$') {
        push_part(&mut expanded, part, vars)?;
    }
    Ok(CowStr::Owned(expanded))
}

/// Appends the expansion of a `$` and the text that follows it up to the next one.
#[tactic(auto, unfolding(crate::specs::Expansion::behind_dollar))]
fn push_part(expanded: &mut String, part: &str, vars: &Vars) -> Result<(), AllocError>
    ensures { OnOk result
        (string_bytes expanded.new ≡ string_bytes expanded.old ++ behind_dollar vars.now part.now) }
{
    match reference(part, vars) {
        Some((value, rest)) => {
            expanded.push_str(value)?;
            expanded.push_str(rest)
        }
        None => {
            expanded.push('$')?;
            expanded.push_str(part)
        }
    }
}

/// Returns the value of the variable whose name in braces is at the front, and the text after the braces.
#[tactic(auto, unfolding(crate::specs::Expansion::reference))]
fn reference<'a>(text: &'a str, vars: &'a Vars) -> Option<(&'a str, &'a str)>
    ensures { option_map (λ found. (found.0.now, found.1.now)) result ≡ spec.reference vars.now text.now }
{
    let (name, rest) = cut('}', behind("{", text)?)?;
    if !is_variable_name(name) {
        return None;
    }
    Some((vars.value(name)?, rest))
}

fn is_variable_name(text: &str) -> bool
    ensures { result ≡ is_variable_name text.now }
{
    !text.is_empty() && has_variable_bytes_alone(text)
}

fn has_variable_bytes_alone(text: &str) -> bool
    ensures { result ≡ list_all is_variable_byte text.now }
{
    text.as_bytes().iter().all(|byte| is_variable_byte(*byte))
}

fn is_variable_byte(byte: u8) -> bool
    ensures { result ≡ is_variable_byte byte }
{
    byte.is_ascii_uppercase() || byte.is_ascii_digit() || byte == b'_'
}
