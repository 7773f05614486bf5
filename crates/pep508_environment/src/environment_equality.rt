//! Equality of environments, their hash, and copies.

ghost use Rattle.std.specs.Prelude.{◌≡◌, IfOk};
ghost use Rattle.std.specs.Cmp.Lexicographic.{pointwise};
ghost use Rattle.std.specs.Str.{bytes_eq};
ghost use Rattle.pep440_version.specs.Order.{version_eq};
ghost use Rattle.pep508_environment.specs.EnvironmentValues.{texts_of, versions_of, environment_eq};
ghost use Rattle.pep508_environment.specs.EnvironmentValues.{fed_environment};
ghost use Rattle.pep508_environment.specs.EnvironmentLaws.{environment_eq_equiv, environment_eq_partial};
ghost use Rattle.pep508_environment.specs.EnvironmentLaws.{alike_environments};

use crate::MarkerEnvironment;
use std::alloc::{AllocError, Global};
use std::hash::{Hash, Hasher};

impl MarkerEnvironment {
    /// Returns a copy, in memory of its own.
    ///
    /// # Errors
    ///
    /// `AllocError` when memory runs out.
    pub fn try_clone(&self, alloc: Global) -> Result<MarkerEnvironment, AllocError>
        ensures { IfOk result (λ copy. copy ≡ self.now) }
    {
        Ok(MarkerEnvironment {
            implementation_name: String::from_str(alloc, &self.implementation_name)?,
            implementation_version: self.implementation_version.try_clone(alloc)?,
            os_name: String::from_str(alloc, &self.os_name)?,
            platform_machine: String::from_str(alloc, &self.platform_machine)?,
            platform_python_implementation: String::from_str(
                alloc,
                &self.platform_python_implementation,
            )?,
            platform_release: String::from_str(alloc, &self.platform_release)?,
            platform_system: String::from_str(alloc, &self.platform_system)?,
            platform_version: String::from_str(alloc, &self.platform_version)?,
            python_full_version: self.python_full_version.try_clone(alloc)?,
            python_version: self.python_version.try_clone(alloc)?,
            sys_platform: String::from_str(alloc, &self.sys_platform)?,
        })
    }

    fn has_texts_of(&self, other: &MarkerEnvironment) -> bool
        ensures { result ≡ pointwise bytes_eq (texts_of self.now) (texts_of other.now) }
    {
        self.implementation_name == other.implementation_name
            && self.implementation_version.string == other.implementation_version.string
            && self.os_name == other.os_name
            && self.platform_machine == other.platform_machine
            && self.platform_python_implementation == other.platform_python_implementation
            && self.platform_release == other.platform_release
            && self.platform_system == other.platform_system
            && self.platform_version == other.platform_version
            && self.python_full_version.string == other.python_full_version.string
            && self.python_version.string == other.python_version.string
            && self.sys_platform == other.sys_platform
    }

    fn has_versions_of(&self, other: &MarkerEnvironment) -> bool
        ensures { result ≡ pointwise version_eq (versions_of self.now) (versions_of other.now) }
    {
        self.implementation_version.version == other.implementation_version.version
            && self.python_full_version.version == other.python_full_version.version
            && self.python_version.version == other.python_version.version
    }
}

impl PartialEq for MarkerEnvironment {
    ghost eq = { environment_eq };

    ghost laws = { environment_eq_partial };

    fn eq(&self, other: &MarkerEnvironment) -> bool {
        self.has_texts_of(other) && self.has_versions_of(other)
    }
}

impl Eq for MarkerEnvironment {
    ghost laws = { environment_eq_equiv };
}

impl Hash for MarkerEnvironment {
    ghost hash_input = { fed_environment };

    ghost respects_eq = { alike_environments };

    fn hash<H: Hasher>(&self, state: &mut H) {
        self.implementation_name.hash(state);
        self.implementation_version.string.hash(state);
        self.os_name.hash(state);
        self.platform_machine.hash(state);
        self.platform_python_implementation.hash(state);
        self.platform_release.hash(state);
        self.platform_system.hash(state);
        self.platform_version.hash(state);
        self.python_full_version.string.hash(state);
        self.python_version.string.hash(state);
        self.sys_platform.hash(state);
        self.implementation_version.version.hash(state);
        self.python_full_version.version.hash(state);
        self.python_version.version.hash(state);
    }
}
