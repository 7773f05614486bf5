//! Environments as JSON values.

ghost use Rattle.std.specs.Prelude.{◌≡◌, IfOk};
ghost use Rattle.serde_json.specs.View.{view};
ghost use Rattle.pep508_environment.specs.EnvironmentValues.{environment_value};

use crate::MarkerEnvironment;
use serde_json::{Value, json};
use std::alloc::{AllocError, Global};

impl MarkerEnvironment {
    /// Returns the environment as a JSON value: an object with the eleven members as texts, versions as
    /// they were given. Takes memory for copies of the texts.
    ///
    /// # Errors
    ///
    /// `AllocError` when memory runs out.
    pub fn to_value(&self, alloc: Global) -> Result<Value, AllocError>
        ensures { IfOk result (λ value. view value ≡ environment_value self.now) }
    {
        json!(in alloc; {
            "implementation_name": self.implementation_name.as_str(),
            "implementation_version": self.implementation_version.string.as_str(),
            "os_name": self.os_name.as_str(),
            "platform_machine": self.platform_machine.as_str(),
            "platform_python_implementation": self.platform_python_implementation.as_str(),
            "platform_release": self.platform_release.as_str(),
            "platform_system": self.platform_system.as_str(),
            "platform_version": self.platform_version.as_str(),
            "python_full_version": self.python_full_version.string.as_str(),
            "python_version": self.python_version.string.as_str(),
            "sys_platform": self.sys_platform.as_str(),
        })
    }
}
