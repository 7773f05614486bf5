//! An environment with extras.

ghost use Rattle.std.specs.Prelude.{◌≡◌};
ghost use Rattle.pep508_evaluation.specs.Valuations.{valuation_of};
ghost use Rattle.pep508_tree.specs.Meaning.{IsTree, holds};
ghost use Rattle.reqtable_marker_cache.specs.Settings.{nodes_in, valuation_in};

use pep508_environment::MarkerEnvironment;
use pep508_evaluation::MarkerTreeEvaluation;
use pep508_name::ExtraName;
use pep508_tree::{Interner, MarkerTree};

/// An environment with extras, and the interner of the markers that are evaluated in it.
#[derive(Drop)]
pub struct Setting<'a> {
    pub interner: &'a Interner,
    pub environment: &'a MarkerEnvironment,
    pub extras: &'a [ExtraName],
}

impl<'a> Setting<'a> {
    /// The setting of an environment with extras, for the markers of an interner.
    pub fn new(
        interner: &'a Interner,
        environment: &'a MarkerEnvironment,
        extras: &'a [ExtraName],
    ) -> Setting<'a>
        ensures nodes { nodes_in result ≡ interner.now.nodes }
        ensures valuation { valuation_in result ≡ valuation_of environment.now extras.now }
    {
        Setting {
            interner,
            environment,
            extras,
        }
    }

    /// Whether a marker holds in the environment with the extras.
    pub fn holds(&self, marker: MarkerTree) -> bool
        requires { IsTree (nodes_in self.now) marker }
        ensures { result ≡ holds (nodes_in self.now) marker (valuation_in self.now) }
    {
        marker.evaluate(self.interner, self.environment, self.extras)
    }
}
