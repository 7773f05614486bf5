//! Environments built from texts.

ghost use Rattle.std.specs.Prelude.{◌≡◌, ◌≢◌, IfOk, Some, Err};
ghost use Rattle.std.specs.String.{string_bytes};
ghost use Rattle.pep440_version.specs.VersionReading.{NoLeadingNumber, version_reading};
ghost use Rattle.pep440_version.specs.declared.parse_error.VersionParseError.TheVariants as versions;
ghost use Rattle.pep508_environment.specs.declared.builder.EnvironmentBuildError.TheVariants as errors;
ghost use Rattle.pep508_environment.specs.Building.{under, environment_built, told_build, build_error_text};
ghost use Rattle.read_outcome.specs.Outcome.{Answers};
ghost use Rattle.pep508_marker.specs.declared.keys.MarkerValueVersion.{MarkerValueVersion};

use crate::{MarkerEnvironment, StringVersion};
use pep440_version::VersionParseError;
use pep508_marker::MarkerValueVersion;
use std::alloc::{AllocError, Global};
use std::error::Error;
use std::fmt;

/// The texts of which `MarkerEnvironment::try_from` builds an environment.
#[derive(Clone, Copy, Debug, PartialEq, Eq, Hash)]
pub struct MarkerEnvironmentBuilder<'a> {
    pub implementation_name: &'a str,
    pub implementation_version: &'a str,
    pub os_name: &'a str,
    pub platform_machine: &'a str,
    pub platform_python_implementation: &'a str,
    pub platform_release: &'a str,
    pub platform_system: &'a str,
    pub platform_version: &'a str,
    pub python_full_version: &'a str,
    pub python_version: &'a str,
    pub sys_platform: &'a str,
}

/// Why no environment can be built from some texts.
#[derive(Debug, PartialEq, Eq, Drop)]
pub enum EnvironmentBuildError {
    /// Memory ran out.
    Memory,
    /// The text of this member is not a version, and why; never for lack of memory.
    Version(MarkerValueVersion, VersionParseError),
}

impl From<AllocError> for EnvironmentBuildError {
    ghost use Rattle.std.specs.Prelude.{◌≡◌};
    ghost use Rattle.pep508_environment.specs.declared.builder.EnvironmentBuildError.TheVariants.{Memory};

    ghost from_gives = { λ _ error. error ≡ Memory };

    fn from(_: AllocError) -> EnvironmentBuildError {
        EnvironmentBuildError::Memory
    }
}

impl fmt::Display for EnvironmentBuildError {
    ghost output = { λ error. Some (build_error_text error) };

    fn fmt<W: fmt::Write>(&self, f: &mut fmt::Formatter<W>) -> fmt::Result {
        match self {
            EnvironmentBuildError::Memory => write!(f, "out of memory"),
            EnvironmentBuildError::Version(key, error) => {
                write!(f, "member {key} is no version: {error}")
            }
        }
    }
}

impl Error for EnvironmentBuildError {}

/// Reads the version of the member under this key.
fn named_version(
    alloc: Global,
    key: MarkerValueVersion,
    text: &str,
) -> Result<StringVersion, EnvironmentBuildError>
    ensures answered { Answers (λ read. read.version) told_build result
        (under key (version_reading text.now)) }
    ensures text { IfOk result (λ read. string_bytes read.string ≡ text.now) }
    ensures grown { result ≡ Err errors.Memory → version_reading text.now ≢ Err NoLeadingNumber }
    ensures plain { (name : MarkerValueVersion) → result ≢ Err (errors.Version name versions.Memory) }
{
    match StringVersion::from_str(alloc, text) {
        Ok(version) => Ok(version),
        Err(VersionParseError::Memory) => Err(EnvironmentBuildError::Memory),
        Err(error) => Err(EnvironmentBuildError::Version(key, error)),
    }
}

impl MarkerEnvironment {
    /// Returns the environment of these texts. Takes memory for copies of the texts, and none where no
    /// number begins `implementation_version`.
    ///
    /// # Errors
    /// `Version` for the first of `implementation_version`, `python_full_version` and `python_version` that
    /// is not a version; `Memory` where memory ran out.
    #[tactic(auto, unfolding(crate::specs::Building::environment_built))]
    pub fn try_from(
        alloc: Global,
        builder: MarkerEnvironmentBuilder<'_>,
    ) -> Result<MarkerEnvironment, EnvironmentBuildError>
        ensures answered { Answers (λ environment. environment) told_build result
            (environment_built builder.entry) }
        ensures grown { result ≡ Err errors.Memory
            → version_reading builder.entry.implementation_version.now ≢ Err NoLeadingNumber }
        ensures plain { (name : MarkerValueVersion) → result ≢ Err (errors.Version name versions.Memory) }
    {
        let implementation_version = named_version(
            alloc,
            MarkerValueVersion::ImplementationVersion,
            builder.implementation_version,
        )?;
        let python_full_version = named_version(
            alloc,
            MarkerValueVersion::PythonFullVersion,
            builder.python_full_version,
        )?;
        let python_version = named_version(
            alloc,
            MarkerValueVersion::PythonVersion,
            builder.python_version,
        )?;
        Ok(MarkerEnvironment {
            implementation_name: String::from_str(alloc, builder.implementation_name)?,
            implementation_version,
            os_name: String::from_str(alloc, builder.os_name)?,
            platform_machine: String::from_str(alloc, builder.platform_machine)?,
            platform_python_implementation: String::from_str(
                alloc,
                builder.platform_python_implementation,
            )?,
            platform_release: String::from_str(alloc, builder.platform_release)?,
            platform_system: String::from_str(alloc, builder.platform_system)?,
            platform_version: String::from_str(alloc, builder.platform_version)?,
            python_full_version,
            python_version,
            sys_platform: String::from_str(alloc, builder.sys_platform)?,
        })
    }
}
