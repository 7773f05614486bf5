//! Answers on environments.

use crate::comparisons::stopped;
use crate::environment::{environment, environment_of};
use crate::question::text_at;
use crate::stop::{Stop, Told, answered, put, said, stop_behind};
use pep440_version::VersionParseError;
use pep508_environment::{
    EnvironmentBuildError, MarkerEnvironment, MarkerEnvironmentBuilder, StringVersion,
};
use pep508_marker::MarkerValue;
use read_outcome::FromValueError;
use serde_json::Value;
use std::alloc::{AllocError, Global};
use std::fmt::Write;

/// Answers with the value of an environment for a key of a marker.
pub fn key(alloc: Global, answer: &mut String, environments: &str, name: &str, key: &str) -> Told {
    let environment = environment(alloc, answer, environments, name)?;
    key_in(alloc, answer, &environment, key)
}

fn key_in(alloc: Global, answer: &mut String, environment: &MarkerEnvironment, key: &str) -> Told {
    match MarkerValue::from_str(alloc, key) {
        Ok(value) => read_by(answer, environment, &value),
        Err(error) => Err(stopped(answer, &error)),
    }
}

fn read_by(answer: &mut String, environment: &MarkerEnvironment, key: &MarkerValue) -> Told {
    match key {
        MarkerValue::MarkerEnvVersion(key) => put(answer, environment.get_version(*key)),
        MarkerValue::MarkerEnvString(key) => said(answer, environment.get_string(*key)),
        _ => said(answer, "no key"),
    }
}

/// Answers with the text that an environment has under a name.
pub fn member(
    alloc: Global,
    answer: &mut String,
    environments: &str,
    name: &str,
    member: &str,
) -> Told {
    let environment = environment(alloc, answer, environments, name)?;
    said(answer, text_under(&environment, member))
}

fn text_under<'a>(environment: &'a MarkerEnvironment, member: &str) -> &'a str {
    match member {
        "implementation_name" => environment.implementation_name(),
        "implementation_version" => environment.implementation_version().string.as_str(),
        "os_name" => environment.os_name(),
        "platform_machine" => environment.platform_machine(),
        "platform_python_implementation" => environment.platform_python_implementation(),
        "platform_release" => environment.platform_release(),
        "platform_system" => environment.platform_system(),
        "platform_version" => environment.platform_version(),
        "python_full_version" => environment.python_full_version().string.as_str(),
        "python_version" => environment.python_version().string.as_str(),
        "sys_platform" => environment.sys_platform(),
        _ => "no member",
    }
}

/// Answers with the value of an environment with another text as one member.
pub fn with(alloc: Global, answer: &mut String, environments: &str, question: &Value) -> Told {
    let environment = environment(alloc, answer, environments, text_at(question, 1))?;
    let (name, text) = (text_at(question, 2), text_at(question, 3));
    let changed = changed(alloc, answer, environment, name, text)?;
    printed(alloc, answer, &changed)
}

fn changed(
    alloc: Global,
    answer: &mut String,
    environment: MarkerEnvironment,
    name: &str,
    text: &str,
) -> Result<MarkerEnvironment, Stop> {
    if name.ends_with("version") && name != "platform_version" {
        let version = string_version(alloc, answer, text)?;
        Ok(with_version(environment, name, version))
    } else {
        Ok(with_text(environment, name, String::from_str(alloc, text)?))
    }
}

fn with_version(
    environment: MarkerEnvironment,
    name: &str,
    value: StringVersion,
) -> MarkerEnvironment {
    match name {
        "implementation_version" => environment.with_implementation_version(value),
        "python_full_version" => environment.with_python_full_version(value),
        _ => environment.with_python_version(value),
    }
}

fn with_text(environment: MarkerEnvironment, name: &str, value: String) -> MarkerEnvironment {
    match name {
        "implementation_name" => environment.with_implementation_name(value),
        "os_name" => environment.with_os_name(value),
        "platform_machine" => environment.with_platform_machine(value),
        "platform_python_implementation" => environment.with_platform_python_implementation(value),
        "platform_release" => environment.with_platform_release(value),
        "platform_system" => environment.with_platform_system(value),
        "platform_version" => environment.with_platform_version(value),
        _ => environment.with_sys_platform(value),
    }
}

fn printed(alloc: Global, answer: &mut String, environment: &MarkerEnvironment) -> Told {
    let value = environment.to_value(alloc)?;
    put(answer, &value)
}

/// Answers with the value of the environment that is built from the texts of a question, in the order of
/// members.
pub fn built(alloc: Global, answer: &mut String, question: &Value) -> Told {
    let builder = MarkerEnvironmentBuilder {
        implementation_name: text_at(question, 1),
        implementation_version: text_at(question, 2),
        os_name: text_at(question, 3),
        platform_machine: text_at(question, 4),
        platform_python_implementation: text_at(question, 5),
        platform_release: text_at(question, 6),
        platform_system: text_at(question, 7),
        platform_version: text_at(question, 8),
        python_full_version: text_at(question, 9),
        python_version: text_at(question, 10),
        sys_platform: text_at(question, 11),
    };
    match MarkerEnvironment::try_from(alloc, builder) {
        Ok(environment) => printed(alloc, answer, &environment),
        Err(error) => not_built(answer, &error),
    }
}

fn not_built(answer: &mut String, error: &EnvironmentBuildError) -> Told {
    match error {
        EnvironmentBuildError::Memory => Err(Stop::Memory),
        EnvironmentBuildError::Version(key, error) => {
            let name = key.name();
            answered(write!(answer, "{name}: {error}"))
        }
    }
}

/// Answers with the member that is wrong in a JSON value, or with the value again.
pub fn environment_value(alloc: Global, answer: &mut String, text: &str) -> Told {
    let environment = environment_of(alloc, answer, text)?;
    printed(alloc, answer, &environment)
}

fn string_version(alloc: Global, answer: &mut String, text: &str) -> Result<StringVersion, Stop> {
    match StringVersion::from_str(alloc, text) {
        Ok(version) => Ok(version),
        Err(VersionParseError::Memory) => Err(Stop::Memory),
        Err(error) => Err(stop_behind(write!(answer, "{error}"))),
    }
}

/// Answers with the print and the version of a text, the print of that version, and whether a copy and what
/// is read from its value are equal.
pub fn version(alloc: Global, answer: &mut String, text: &str) -> Told {
    let read = string_version(alloc, answer, text)?;
    version_shown(alloc, answer, &read)
}

fn version_shown(alloc: Global, answer: &mut String, read: &StringVersion) -> Told {
    write!(answer, "{read} is ")?;
    put(answer, &plain(alloc, read)?)?;
    let is_copied = read.try_clone(alloc)? == *read;
    let is_read = is_read_back(alloc, read)?;
    answered(write!(answer, ", copied {is_copied}, read back {is_read}"))
}

fn plain(alloc: Global, version: &StringVersion) -> Result<StringVersion, AllocError> {
    StringVersion::from_version(alloc, version.version.try_clone(alloc)?)
}

fn is_read_back(alloc: Global, version: &StringVersion) -> Result<bool, AllocError> {
    let value = version.to_value(alloc)?;
    match StringVersion::from_value(alloc, &value) {
        Ok(read) => Ok(read == *version),
        Err(FromValueError::Text(VersionParseError::Memory)) => Err(AllocError),
        Err(_) => Ok(false),
    }
}
