//! Where requirements come from.
//!
//! The object of an origin has one member; with another one it is no origin. Origins are in this crate
//! because names are all that they need.

ghost use Rattle.std.specs.Prelude.{◌≡◌, IfOk, Option, option_map, option_and_then, Ok, string_bytes};
ghost use Rattle.read_outcome.specs.Outcome.{Answers};
ghost use Rattle.serde_json.specs.View.{view};
ghost use Rattle.serde_json.specs.Find.{as_str, as_array, as_object};
ghost use Rattle.pep508_name.specs.Origin.{origin_of, told_origin, sole_member, two_texts, file_reading};
ghost use Rattle.pep508_name.specs.Origin.{project_reading};

use crate::{InvalidNameError, PackageName};
use read_outcome::FromValueError;
use serde_json::{Value, json};
use std::alloc::{AllocError, Global};

/// Where a requirement comes from. Compares and hashes by the variant, then by the fields in order.
#[derive(Debug, PartialEq, Eq, PartialOrd, Ord, Hash, Drop)]
pub enum RequirementOrigin {
    /// A file of requirements, by its path.
    File(String),
    /// A project, by the path of the file that describes it and by its name.
    Project(String, PackageName),
    /// A workspace of several projects.
    Workspace,
}

impl RequirementOrigin {
    ghost use Rattle.pep508_name.specs.Origin.{origin_of, origin_path, origin_value, origin_reading};
    ghost use Rattle.pep508_name.specs.Origin.{told_origin};

    /// Returns the path; `(workspace)` for a workspace.
    pub fn path(&self) -> &str
        ensures { result.now ≡ origin_path (origin_of self.now) }
    {
        match self {
            RequirementOrigin::File(path) => path.as_str(),
            RequirementOrigin::Project(path, _) => path.as_str(),
            RequirementOrigin::Workspace => "(workspace)",
        }
    }

    /// Returns a copy, in memory of its own.
    ///
    /// # Errors
    ///
    /// `AllocError` when memory runs out.
    pub fn try_clone(&self, alloc: Global) -> Result<Self, AllocError>
        ensures { IfOk result (λ copy. origin_of copy ≡ origin_of self.now) }
    {
        match self {
            RequirementOrigin::File(path) => Ok(RequirementOrigin::File(String::from_str(
                alloc,
                path.as_str(),
            )?)),
            RequirementOrigin::Project(path, name) => Ok(RequirementOrigin::Project(
                String::from_str(alloc, path.as_str())?,
                name.try_clone(alloc)?,
            )),
            RequirementOrigin::Workspace => Ok(RequirementOrigin::Workspace),
        }
    }

    /// Returns the origin as a JSON value: `{"file": path}`, `{"project": [path, name]}` or `"workspace"`.
    ///
    /// # Errors
    ///
    /// `AllocError` when memory runs out.
    pub fn to_value(&self, alloc: Global) -> Result<Value, AllocError>
        ensures { IfOk result (λ value. view value ≡ origin_value (origin_of self.now)) }
    {
        match self {
            RequirementOrigin::File(path) => json!(in alloc; {"file": path.as_str()}),
            RequirementOrigin::Project(path, name) => {
                json!(in alloc; {"project": [path.as_str(), name.as_str()]})
            }
            RequirementOrigin::Workspace => {
                Ok(Value::String(String::from_str(alloc, "workspace")?))
            }
        }
    }

    /// Reads an origin from a JSON value, in just the forms of `to_value`.
    ///
    /// # Errors
    /// `Shape` for another value, and for an object with another or a further member; `Text` where a
    /// project's name is not a name, or memory ran out.
    pub fn from_value(
        alloc: Global,
        value: &Value,
    ) -> Result<Self, FromValueError<InvalidNameError>>
        ensures { Answers origin_of told_origin result (origin_reading (view value.now)) }
    {
        match value {
            Value::String(text) if text.as_str() == "workspace" => Ok(RequirementOrigin::Workspace),
            Value::Object(_) => match sole_member(value) {
                Some(("file", path)) => file(alloc, path),
                Some(("project", texts)) => project(alloc, texts),
                _ => Err(FromValueError::Shape),
            },
            _ => Err(FromValueError::Shape),
        }
    }
}

/// Returns the name and the value of an object's only member.
fn sole_member(value: &Value) -> Option<(&str, &Value)>
    ensures { option_map (λ member. (member.0.now, view member.1.now)) result
        ≡ option_and_then sole_member (as_object (view value.entry.now)) }
{
    let members = value.as_object()?;
    if members.len() != 1 {
        return None;
    }
    let (name, member) = members.first_key_value()?;
    Some((name.as_str(), member))
}

/// Returns the texts of an array of two texts.
fn two_texts(value: &Value) -> Option<(&str, &str)>
    ensures { option_map (λ texts. (texts.0.now, texts.1.now)) result
        ≡ option_and_then two_texts (as_array (view value.entry.now)) }
{
    let items = value.as_array()?.as_slice();
    if items.len() != 2 {
        return None;
    }
    let first = &items[0];
    let second = &items[1];
    Some((first.as_str()?, second.as_str()?))
}

fn file(alloc: Global, path: &Value) -> Result<RequirementOrigin, FromValueError<InvalidNameError>>
    ensures { Answers origin_of told_origin result (file_reading (as_str (view path.now))) }
{
    let Some(path) = path.as_str() else {
        return Err(FromValueError::Shape);
    };
    Ok(RequirementOrigin::File(copied(alloc, path)?))
}

fn project(
    alloc: Global,
    texts: &Value,
) -> Result<RequirementOrigin, FromValueError<InvalidNameError>>
    ensures { Answers origin_of told_origin result
        (project_reading (option_and_then two_texts (as_array (view texts.now)))) }
{
    let Some((path, name)) = two_texts(texts) else {
        return Err(FromValueError::Shape);
    };
    match PackageName::from_str(alloc, name) {
        Ok(name) => Ok(RequirementOrigin::Project(copied(alloc, path)?, name)),
        Err(error) => Err(FromValueError::Text(error)),
    }
}

fn copied(alloc: Global, text: &str) -> Result<String, FromValueError<InvalidNameError>>
    ensures { Answers string_bytes told_origin result (Ok text.now) }
{
    match String::from_str(alloc, text) {
        Ok(copy) => Ok(copy),
        Err(_) => Err(FromValueError::Text(InvalidNameError::Memory)),
    }
}
