//! The keys that markers compare.

ghost use Rattle.std.specs.Prelude.{◌≡◌, Some};
ghost use Rattle.pep508_marker.specs.Keys.{version_key_name, text_key_name, text_key_written, is_deprecated};
ghost use Rattle.pep508_marker.specs.Keys.{modern};

use std::fmt;

/// A key whose values are versions (PEP 508, "Environment Markers"). Prints as its name.
#[derive(Clone, Copy, Debug, PartialEq, Eq, PartialOrd, Ord, Hash)]
pub enum MarkerValueVersion {
    /// `implementation_version`
    ImplementationVersion,
    /// `python_full_version`
    PythonFullVersion,
    /// `python_version`
    PythonVersion,
}

impl MarkerValueVersion {
    /// Returns the name, as it is written in a marker.
    pub fn name(self) -> &'static str
        ensures { result.now ≡ version_key_name self }
    {
        match self {
            MarkerValueVersion::ImplementationVersion => "implementation_version",
            MarkerValueVersion::PythonFullVersion => "python_full_version",
            MarkerValueVersion::PythonVersion => "python_version",
        }
    }
}

impl fmt::Display for MarkerValueVersion {
    ghost output = { λ key. Some (version_key_name key) };

    fn fmt<W: fmt::Write>(&self, f: &mut fmt::Formatter<W>) -> fmt::Result {
        write!(f, "{}", self.name())
    }
}

/// A key whose values are texts (PEP 508, "Environment Markers"). The old names of PEP 345 are keys of their
/// own; they read what the modern key reads.
///
/// Prints as the modern name.
#[derive(Clone, Copy, Debug, PartialEq, Eq, PartialOrd, Ord, Hash)]
pub enum MarkerValueString {
    /// `implementation_name`
    ImplementationName,
    /// `os_name`
    OsName,
    /// `os.name`
    OsNameDeprecated,
    /// `platform_machine`
    PlatformMachine,
    /// `platform.machine`
    PlatformMachineDeprecated,
    /// `platform_python_implementation`
    PlatformPythonImplementation,
    /// `platform.python_implementation`
    PlatformPythonImplementationDeprecated,
    /// `python_implementation`
    PythonImplementationDeprecated,
    /// `platform_release`
    PlatformRelease,
    /// `platform_system`
    PlatformSystem,
    /// `platform_version`
    PlatformVersion,
    /// `platform.version`
    PlatformVersionDeprecated,
    /// `sys_platform`
    SysPlatform,
    /// `sys.platform`
    SysPlatformDeprecated,
}

impl MarkerValueString {
    /// Returns the key as it is written in a marker, as `os.name`.
    pub fn written(self) -> &'static str
        ensures { result.now ≡ text_key_written self }
    {
        match self {
            MarkerValueString::ImplementationName => "implementation_name",
            MarkerValueString::OsName => "os_name",
            MarkerValueString::OsNameDeprecated => "os.name",
            MarkerValueString::PlatformMachine => "platform_machine",
            MarkerValueString::PlatformMachineDeprecated => "platform.machine",
            MarkerValueString::PlatformPythonImplementation => "platform_python_implementation",
            MarkerValueString::PlatformPythonImplementationDeprecated =>
                "platform.python_implementation",
            MarkerValueString::PythonImplementationDeprecated => "python_implementation",
            MarkerValueString::PlatformRelease => "platform_release",
            MarkerValueString::PlatformSystem => "platform_system",
            MarkerValueString::PlatformVersion => "platform_version",
            MarkerValueString::PlatformVersionDeprecated => "platform.version",
            MarkerValueString::SysPlatform => "sys_platform",
            MarkerValueString::SysPlatformDeprecated => "sys.platform",
        }
    }

    /// Returns the modern name, as `os_name` for `os.name` too.
    pub fn name(self) -> &'static str
        ensures { result.now ≡ text_key_name self }
    {
        self.modern().written()
    }

    /// Returns whether the key is an old name of PEP 345.
    pub fn is_deprecated(self) -> bool
        ensures { result ≡ is_deprecated self }
    {
        matches!(
            self,
            MarkerValueString::OsNameDeprecated
                | MarkerValueString::PlatformMachineDeprecated
                | MarkerValueString::PlatformPythonImplementationDeprecated
                | MarkerValueString::PythonImplementationDeprecated
                | MarkerValueString::PlatformVersionDeprecated
                | MarkerValueString::SysPlatformDeprecated
        )
    }

    /// Returns the key whose value is read: the modern one of an old name, else the key itself.
    pub fn modern(self) -> MarkerValueString
        ensures { result ≡ modern self }
    {
        match self {
            MarkerValueString::OsNameDeprecated => MarkerValueString::OsName,
            MarkerValueString::PlatformMachineDeprecated => MarkerValueString::PlatformMachine,
            MarkerValueString::PlatformPythonImplementationDeprecated
            | MarkerValueString::PythonImplementationDeprecated => {
                MarkerValueString::PlatformPythonImplementation
            }
            MarkerValueString::PlatformVersionDeprecated => MarkerValueString::PlatformVersion,
            MarkerValueString::SysPlatformDeprecated => MarkerValueString::SysPlatform,
            key => key,
        }
    }
}

impl fmt::Display for MarkerValueString {
    ghost output = { λ key. Some (text_key_name key) };

    fn fmt<W: fmt::Write>(&self, f: &mut fmt::Formatter<W>) -> fmt::Result {
        write!(f, "{}", self.name())
    }
}
