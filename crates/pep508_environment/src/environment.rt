//! Environments, and their reading from JSON values.

ghost use Rattle.std.specs.Prelude.{◌≡◌, ◌⊎◌, IfOk, IfErr, IfSome, OnOk, None, Some, Err, IsTrue, is_some};
ghost use Rattle.std.specs.Prelude.{false, true, option_and_then, option_copied, option_map};
ghost use Rattle.std.specs.String.{string_bytes};
ghost use Rattle.serde_json.specs.View.{view};
ghost use Rattle.pep440_text.specs.Reading.{version_of};
ghost use Rattle.read_outcome.specs.Outcome.{Answers};
ghost use Rattle.pep508_environment.specs.declared.EnvironmentMember.{EnvironmentMember};
ghost use Rattle.pep508_environment.specs.Environment.{EnvironmentRecord, member_text, member_version};
ghost use Rattle.pep508_environment.specs.Environment.{member_fault, is_version, environment_of};
ghost use Rattle.pep508_environment.specs.Environment.{told_environment, IsReached};

use crate::floats::has_float;
use crate::{EnvironmentError, EnvironmentMember, StringVersion};
use pep440_version::VersionParseError;
use serde_json::Value;
use std::alloc::Global;
use std::marker::Model;

/// Returns the text of a member, which has to be there and a text.
#[tactic(auto, unfolding(crate::specs::Environment::member_fault))]
fn member<'a>(value: &'a Value, member: EnvironmentMember) -> Result<&'a str, EnvironmentError>
    ensures ok { IfOk result (λ text. member_text (view value.entry.now) member ≡ Some text.now) }
    ensures fine { OnOk result
        (is_version member ≡ false → member_fault (view value.entry.now) member ≡ None) }
    ensures fault { IfErr result (λ fault. member_fault (view value.entry.now) member ≡ Some fault) }
    ensures named { IfErr result (λ fault. fault ≡ EnvironmentError.Member member) }
{
    match value.get(member.name()).and_then(Value::as_str) {
        Some(text) => Ok(text),
        None => Err(EnvironmentError::Member(member)),
    }
}

/// Returns a copy of a member's text.
fn text(alloc: Global, value: &Value, name: EnvironmentMember) -> Result<String, EnvironmentError>
    requires { is_version name ≡ false }
    ensures ok { IfOk result (λ text. member_text (view value.now) name ≡ Some (string_bytes text)) }
    ensures fine { OnOk result (member_fault (view value.now) name ≡ None) }
    ensures fault { IfErr result (λ error.
        IfSome (told_environment error) (λ fault. member_fault (view value.now) name ≡ Some fault)) }
    ensures grown { result ≡ Err EnvironmentError.Memory →
        IsTrue (is_some (member_text (view value.now) name)) }
{
    Ok(String::from_str(alloc, member(value, name)?)?)
}

/// Returns the version that a member's text is, with the text.
#[tactic(auto, using(crate::proofs::Reading::found), unfolding(crate::specs::Environment::member_fault))]
fn version(
    alloc: Global,
    value: &Value,
    name: EnvironmentMember,
) -> Result<StringVersion, EnvironmentError>
    requires { is_version name ≡ true }
    ensures text { IfOk result (λ version.
        member_text (view value.now) name ≡ Some (string_bytes version.string)) }
    ensures version { IfOk result (λ version.
        version_of (string_bytes version.string) ≡ Some version.version) }
    ensures fine { OnOk result (member_fault (view value.now) name ≡ None) }
    ensures fault { IfErr result (λ error.
        IfSome (told_environment error) (λ fault. member_fault (view value.now) name ≡ Some fault)) }
    ensures grown { result ≡ Err EnvironmentError.Memory →
        IsTrue (is_some (member_text (view value.now) name)) }
{
    match StringVersion::from_str(alloc, member(value, name)?) {
        Ok(version) => Ok(version),
        Err(VersionParseError::Memory) => Err(EnvironmentError::Memory),
        Err(_) => Err(EnvironmentError::Version(name)),
    }
}

/// The interpreter and machine for which packages are selected (PEP 508, "Environment Markers").
#[derive(Drop)]
pub struct MarkerEnvironment {
    pub(crate) implementation_name: String,
    pub(crate) implementation_version: StringVersion,
    pub(crate) os_name: String,
    pub(crate) platform_machine: String,
    pub(crate) platform_python_implementation: String,
    pub(crate) platform_release: String,
    pub(crate) platform_system: String,
    pub(crate) platform_version: String,
    pub(crate) python_full_version: StringVersion,
    pub(crate) python_version: StringVersion,
    pub(crate) sys_platform: String,
}

impl Model for MarkerEnvironment {
    ghost use Rattle.std.specs.String.{string_bytes};
    ghost use Rattle.pep508_environment.specs.declared.EnvironmentMember.{EnvironmentMember};
    ghost use Rattle.pep508_environment.specs.Environment.{EnvironmentRecord};

    ghost Value = { EnvironmentRecord };

    ghost view = { λ e. record {
      implementation_name = string_bytes e.implementation_name;
      implementation_version = e.implementation_version.version;
      implementation_version_text = string_bytes e.implementation_version.string;
      os_name = string_bytes e.os_name;
      platform_machine = string_bytes e.platform_machine;
      platform_python_implementation = string_bytes e.platform_python_implementation;
      platform_release = string_bytes e.platform_release;
      platform_system = string_bytes e.platform_system;
      platform_version = string_bytes e.platform_version;
      python_full_version = e.python_full_version.version;
      python_full_version_text = string_bytes e.python_full_version.string;
      python_version = e.python_version.version;
      python_version_text = string_bytes e.python_version.string;
      sys_platform = string_bytes e.sys_platform;
    } };
}

impl MarkerEnvironment {
    /// Reads an environment from a value (PEP 508, "Environment Markers"): an object with the eleven
    /// members as texts, of which those for versions are read as versions. Other members are ignored.
    ///
    /// Memory is taken only for a text that is there, so never before a fault that comes earlier. Goes once
    /// through the value, as deep as it nests.
    ///
    /// # Errors
    /// `Float` where there is a float anywhere, then `Shape` where the value is not an object, then the
    /// first member in their order that is wrong, as `Member` or `Version`; `Memory` where memory ran out.
    #[tactic(auto, unfolding(crate::specs::Environment::environment_of))]
    pub fn from_value(alloc: Global, value: &Value) -> Result<MarkerEnvironment, EnvironmentError>
        ensures answered { Answers (λ environment. environment) told_environment result
            (environment_of (view value.now)) }
        ensures grown { result ≡ Err EnvironmentError.Memory →
            (member : EnvironmentMember) × IsReached (view value.now) member }
    {
        if has_float(value) {
            return Err(EnvironmentError::Float);
        }
        if !value.is_object() {
            return Err(EnvironmentError::Shape);
        }
        Ok(MarkerEnvironment {
            implementation_name: text(alloc, value, EnvironmentMember::ImplementationName)?,
            implementation_version: version(
                alloc,
                value,
                EnvironmentMember::ImplementationVersion,
            )?,
            os_name: text(alloc, value, EnvironmentMember::OsName)?,
            platform_machine: text(alloc, value, EnvironmentMember::PlatformMachine)?,
            platform_python_implementation: text(
                alloc,
                value,
                EnvironmentMember::PlatformPythonImplementation,
            )?,
            platform_release: text(alloc, value, EnvironmentMember::PlatformRelease)?,
            platform_system: text(alloc, value, EnvironmentMember::PlatformSystem)?,
            platform_version: text(alloc, value, EnvironmentMember::PlatformVersion)?,
            python_full_version: version(alloc, value, EnvironmentMember::PythonFullVersion)?,
            python_version: version(alloc, value, EnvironmentMember::PythonVersion)?,
            sys_platform: text(alloc, value, EnvironmentMember::SysPlatform)?,
        })
    }
}
