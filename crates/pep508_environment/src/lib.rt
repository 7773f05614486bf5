#![tactic(auto)]
//! Marker environments of Python packages, as PEP 508 has them: the interpreter and machine for which
//! packages are selected.
//!
//! An environment is given as a JSON value. The model of a `MarkerEnvironment` in contracts is an
//! `EnvironmentRecord`.
//!
//! The crate is above `pep508_marker` because `get_string` is given a key; so diagrams and trees need no
//! JSON.

ghost use Rattle.std.specs.Prelude.{◌≡◌, Some};
ghost use Rattle.pep508_environment.specs.Environment.{member_name};

use std::alloc::AllocError;
use std::error::Error;
use std::fmt;

mod builder;
mod environment;
mod environment_equality;
mod environment_value;
mod floats;
mod members;
mod string_version;

pub use builder::{EnvironmentBuildError, MarkerEnvironmentBuilder};
pub use environment::MarkerEnvironment;
pub use floats::has_float;
pub use string_version::StringVersion;

/// A member of an environment (PEP 508, "Environment Markers"). Prints as its name in JSON.
#[derive(Clone, Copy, Debug, PartialEq, Eq, PartialOrd, Ord, Hash)]
pub enum EnvironmentMember {
    ImplementationName,
    ImplementationVersion,
    OsName,
    PlatformMachine,
    PlatformPythonImplementation,
    PlatformRelease,
    PlatformSystem,
    PlatformVersion,
    PythonFullVersion,
    PythonVersion,
    SysPlatform,
}

impl EnvironmentMember {
    ghost use Rattle.pep508_environment.specs.Environment.{member_name};

    /// Returns the member's name in JSON, as `python_full_version`.
    pub fn name(self) -> &'static str
        ensures { result.now ≡ member_name self }
    {
        match self {
            EnvironmentMember::ImplementationName => "implementation_name",
            EnvironmentMember::ImplementationVersion => "implementation_version",
            EnvironmentMember::OsName => "os_name",
            EnvironmentMember::PlatformMachine => "platform_machine",
            EnvironmentMember::PlatformPythonImplementation => "platform_python_implementation",
            EnvironmentMember::PlatformRelease => "platform_release",
            EnvironmentMember::PlatformSystem => "platform_system",
            EnvironmentMember::PlatformVersion => "platform_version",
            EnvironmentMember::PythonFullVersion => "python_full_version",
            EnvironmentMember::PythonVersion => "python_version",
            EnvironmentMember::SysPlatform => "sys_platform",
        }
    }
}

impl fmt::Display for EnvironmentMember {
    ghost use Rattle.std.specs.Prelude.{Some};
    ghost use Rattle.pep508_environment.specs.Environment.{member_name};

    ghost output = { λ member. Some (member_name member) };

    fn fmt<W: fmt::Write>(&self, f: &mut fmt::Formatter<W>) -> fmt::Result {
        write!(f, "{}", self.name())
    }
}

/// Why a value is not an environment.
#[derive(Clone, Copy, Debug, PartialEq, Eq, PartialOrd, Ord, Hash)]
pub enum EnvironmentError {
    /// The value contains a number with a fraction or an exponent, or one that doesn't fit 64 bits.
    Float,
    /// The value is not an object.
    Shape,
    /// The member is missing or not a text.
    Member(EnvironmentMember),
    /// The member's text is not a version.
    Version(EnvironmentMember),
    /// Memory ran out while reading.
    Memory,
}

impl From<AllocError> for EnvironmentError {
    ghost use Rattle.pep508_environment.specs.declared.EnvironmentError.TheVariants.{Memory};

    ghost from_gives = { λ _ error. error ≡ Memory };

    fn from(_: AllocError) -> EnvironmentError {
        EnvironmentError::Memory
    }
}

impl fmt::Display for EnvironmentError {
    ghost use Rattle.std.specs.Prelude.{Some};
    ghost use Rattle.pep508_environment.specs.Environment.{error_text};

    ghost output = { λ error. Some (error_text error) };

    fn fmt<W: fmt::Write>(&self, f: &mut fmt::Formatter<W>) -> fmt::Result {
        match self {
            EnvironmentError::Float => write!(f, "a number is a float"),
            EnvironmentError::Shape => write!(f, "no object"),
            EnvironmentError::Member(member) => {
                write!(f, "member {member} is missing or no text")
            }
            EnvironmentError::Version(member) => write!(f, "member {member} is no version"),
            EnvironmentError::Memory => write!(f, "out of memory"),
        }
    }
}

impl Error for EnvironmentError {}
