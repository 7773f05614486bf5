//! Keys by their names in a marker.

ghost use Rattle.std.specs.Prelude.{◌≡◌};
ghost use Rattle.pep508_marker.specs.Values.{version_key_of, text_key_of};

use crate::{MarkerValueString, MarkerValueVersion};

/// Returns the key with versions as values that is written as this text.
#[tactic(auto, unfolding(crate::specs::Values::version_key_of))]
pub(crate) fn version_key(text: &str) -> Option<MarkerValueVersion>
    ensures { result ≡ version_key_of text.now }
{
    match text {
        "implementation_version" => Some(MarkerValueVersion::ImplementationVersion),
        "python_full_version" => Some(MarkerValueVersion::PythonFullVersion),
        "python_version" => Some(MarkerValueVersion::PythonVersion),
        _ => None,
    }
}

/// Returns the key with texts as values that is written as this text.
#[tactic(auto, unfolding(crate::specs::Values::text_key_of))]
pub(crate) fn text_key(text: &str) -> Option<MarkerValueString>
    ensures { result ≡ text_key_of text.now }
{
    match text {
        "implementation_name" => Some(MarkerValueString::ImplementationName),
        "os_name" => Some(MarkerValueString::OsName),
        "os.name" => Some(MarkerValueString::OsNameDeprecated),
        "platform_machine" => Some(MarkerValueString::PlatformMachine),
        "platform.machine" => Some(MarkerValueString::PlatformMachineDeprecated),
        "platform_python_implementation" => {
            Some(MarkerValueString::PlatformPythonImplementation)
        }
        "platform.python_implementation" => {
            Some(MarkerValueString::PlatformPythonImplementationDeprecated)
        }
        "python_implementation" => Some(MarkerValueString::PythonImplementationDeprecated),
        "platform_release" => Some(MarkerValueString::PlatformRelease),
        "platform_system" => Some(MarkerValueString::PlatformSystem),
        "platform_version" => Some(MarkerValueString::PlatformVersion),
        "platform.version" => Some(MarkerValueString::PlatformVersionDeprecated),
        "sys_platform" => Some(MarkerValueString::SysPlatform),
        "sys.platform" => Some(MarkerValueString::SysPlatformDeprecated),
        _ => None,
    }
}
