//! The members of environments, one by one.

ghost use Rattle.std.specs.Prelude.{◌≡◌};
ghost use Rattle.std.specs.String.{string_bytes};
ghost use Rattle.pep508_environment.specs.EnvironmentValues.{version_in, text_in};

use crate::{MarkerEnvironment, StringVersion};
use pep440_version::Version;
use pep508_marker::{MarkerValueString, MarkerValueVersion};

/// The members' values.
impl MarkerEnvironment {
    /// Returns the name of the implementation of Python, as `cpython` (`sys.implementation.name`).
    pub fn implementation_name(&self) -> &str
        ensures { result.now ≡ self.now.implementation_name }
    {
        &self.implementation_name
    }

    /// Returns the version of the implementation of Python (`sys.implementation.version`).
    pub fn implementation_version(&self) -> &StringVersion
        ensures version { result.now.version ≡ self.now.implementation_version }
        ensures text { string_bytes result.now.string ≡ self.now.implementation_version_text }
    {
        &self.implementation_version
    }

    /// Returns the name of the operating system, as `posix` (`os.name`).
    pub fn os_name(&self) -> &str
        ensures { result.now ≡ self.now.os_name }
    {
        &self.os_name
    }

    /// Returns the kind of machine, as `x86_64` (`platform.machine()`).
    pub fn platform_machine(&self) -> &str
        ensures { result.now ≡ self.now.platform_machine }
    {
        &self.platform_machine
    }

    /// Returns the implementation of Python as its platform names it, as `CPython`
    /// (`platform.python_implementation()`).
    pub fn platform_python_implementation(&self) -> &str
        ensures { result.now ≡ self.now.platform_python_implementation }
    {
        &self.platform_python_implementation
    }

    /// Returns the release of the system (`platform.release()`).
    pub fn platform_release(&self) -> &str
        ensures { result.now ≡ self.now.platform_release }
    {
        &self.platform_release
    }

    /// Returns the system, as `Linux` (`platform.system()`).
    pub fn platform_system(&self) -> &str
        ensures { result.now ≡ self.now.platform_system }
    {
        &self.platform_system
    }

    /// Returns the version of the system, which need not be one of PEP 440 (`platform.version()`).
    pub fn platform_version(&self) -> &str
        ensures { result.now ≡ self.now.platform_version }
    {
        &self.platform_version
    }

    /// Returns the full version of Python, as `3.11.4` (`platform.python_version()`).
    pub fn python_full_version(&self) -> &StringVersion
        ensures version { result.now.version ≡ self.now.python_full_version }
        ensures text { string_bytes result.now.string ≡ self.now.python_full_version_text }
    {
        &self.python_full_version
    }

    /// Returns the first two numbers of the version of Python, as `3.11`.
    pub fn python_version(&self) -> &StringVersion
        ensures version { result.now.version ≡ self.now.python_version }
        ensures text { string_bytes result.now.string ≡ self.now.python_version_text }
    {
        &self.python_version
    }

    /// Returns the name of the platform, as `linux` (`sys.platform`).
    pub fn sys_platform(&self) -> &str
        ensures { result.now ≡ self.now.sys_platform }
    {
        &self.sys_platform
    }

    /// Returns the version that a key reads.
    pub fn get_version(&self, key: MarkerValueVersion) -> &Version
        ensures { result.now ≡ version_in self.now key }
    {
        match key {
            MarkerValueVersion::ImplementationVersion => &self.implementation_version.version,
            MarkerValueVersion::PythonFullVersion => &self.python_full_version.version,
            MarkerValueVersion::PythonVersion => &self.python_version.version,
        }
    }

    /// Returns the text that a key reads; an old name reads what the modern one reads.
    pub fn get_string(&self, key: MarkerValueString) -> &str
        ensures { result.now ≡ text_in self.now key }
    {
        match key {
            MarkerValueString::ImplementationName => &self.implementation_name,
            MarkerValueString::OsName | MarkerValueString::OsNameDeprecated => &self.os_name,
            MarkerValueString::PlatformMachine | MarkerValueString::PlatformMachineDeprecated => {
                &self.platform_machine
            }
            MarkerValueString::PlatformPythonImplementation
            | MarkerValueString::PlatformPythonImplementationDeprecated
            | MarkerValueString::PythonImplementationDeprecated => {
                &self.platform_python_implementation
            }
            MarkerValueString::PlatformRelease => &self.platform_release,
            MarkerValueString::PlatformSystem => &self.platform_system,
            MarkerValueString::PlatformVersion | MarkerValueString::PlatformVersionDeprecated => {
                &self.platform_version
            }
            MarkerValueString::SysPlatform | MarkerValueString::SysPlatformDeprecated => {
                &self.sys_platform
            }
        }
    }
}

/// Environments with another value of one member.
impl MarkerEnvironment {
    /// Returns the environment with another `implementation_name`.
    pub fn with_implementation_name(mut self, value: String) -> MarkerEnvironment
        ensures { result ≡ record self { implementation_name = string_bytes value } }
    {
        self.implementation_name = value;
        self
    }

    /// Returns the environment with another `implementation_version`.
    pub fn with_implementation_version(mut self, value: StringVersion) -> MarkerEnvironment
        ensures { result ≡ record self {
          implementation_version = value.version;
          implementation_version_text = string_bytes value.string;
        } }
    {
        self.implementation_version = value;
        self
    }

    /// Returns the environment with another `os_name`.
    pub fn with_os_name(mut self, value: String) -> MarkerEnvironment
        ensures { result ≡ record self { os_name = string_bytes value } }
    {
        self.os_name = value;
        self
    }

    /// Returns the environment with another `platform_machine`.
    pub fn with_platform_machine(mut self, value: String) -> MarkerEnvironment
        ensures { result ≡ record self { platform_machine = string_bytes value } }
    {
        self.platform_machine = value;
        self
    }

    /// Returns the environment with another `platform_python_implementation`.
    pub fn with_platform_python_implementation(mut self, value: String) -> MarkerEnvironment
        ensures { result ≡ record self { platform_python_implementation = string_bytes value } }
    {
        self.platform_python_implementation = value;
        self
    }

    /// Returns the environment with another `platform_release`.
    pub fn with_platform_release(mut self, value: String) -> MarkerEnvironment
        ensures { result ≡ record self { platform_release = string_bytes value } }
    {
        self.platform_release = value;
        self
    }

    /// Returns the environment with another `platform_system`.
    pub fn with_platform_system(mut self, value: String) -> MarkerEnvironment
        ensures { result ≡ record self { platform_system = string_bytes value } }
    {
        self.platform_system = value;
        self
    }

    /// Returns the environment with another `platform_version`.
    pub fn with_platform_version(mut self, value: String) -> MarkerEnvironment
        ensures { result ≡ record self { platform_version = string_bytes value } }
    {
        self.platform_version = value;
        self
    }

    /// Returns the environment with another `python_full_version`.
    pub fn with_python_full_version(mut self, value: StringVersion) -> MarkerEnvironment
        ensures { result ≡ record self {
          python_full_version = value.version;
          python_full_version_text = string_bytes value.string;
        } }
    {
        self.python_full_version = value;
        self
    }

    /// Returns the environment with another `python_version`.
    pub fn with_python_version(mut self, value: StringVersion) -> MarkerEnvironment
        ensures { result ≡ record self {
          python_version = value.version;
          python_version_text = string_bytes value.string;
        } }
    {
        self.python_version = value;
        self
    }

    /// Returns the environment with another `sys_platform`.
    pub fn with_sys_platform(mut self, value: String) -> MarkerEnvironment
        ensures { result ≡ record self { sys_platform = string_bytes value } }
    {
        self.sys_platform = value;
        self
    }
}
