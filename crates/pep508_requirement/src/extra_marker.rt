//! Requirements that apply with an extra only.

ghost use Rattle.std.specs.Prelude.{◌≡◌, ◌&&◌, IfOk};
ghost use Rattle.pep508_diagram.specs.Question.{Valuation};
ghost use Rattle.pep508_diagram.specs.declared.variable.Flag.TheVariants.{Extra};
ghost use Rattle.pep508_tree.specs.Meaning.{IsTree, Extends, holds};

use crate::Requirement;
use pep508_diagram::Flag;
use pep508_name::ExtraName;
use pep508_tree::{Interner, uncounted_conjunction};
use pep508_url::Pep508Url;
use std::alloc::{AllocError, Global};

impl<T: Pep508Url> Requirement<T> {
    /// Returns the requirement restricted to an extra: its marker and `extra == name`. The only error is
    /// lack of memory, and earlier trees keep their meaning, also after an error. No conjunction is
    /// counted; it costs what one with a tree of one node does.
    ///
    /// # Errors
    ///
    /// `AllocError` when memory runs out.
    pub fn with_extra_marker(
        self,
        alloc: Global,
        interner: &mut Interner,
        extra: &ExtraName,
    ) -> Result<Self, AllocError>
        requires { IsTree interner.old.nodes self.marker }
        ensures made { IfOk result (λ asked. IsTree interner.new.nodes asked.marker) }
        ensures truth { IfOk result (λ asked. (v : Valuation) → holds interner.new.nodes asked.marker v
            ≡ (holds interner.old.nodes self.marker v && v.flag (Extra extra.now))) }
        ensures same { IfOk result (λ asked. asked ≡ record self { marker = asked.marker }) }
        ensures keeps { Extends interner.old.nodes interner.new.nodes }
        ensures counts { interner.new.conjunctions ≡ interner.old.conjunctions }
    {
        let flag = Flag::Extra(extra.try_clone(alloc)?);
        let asked = interner.flag_tree(alloc, flag)?;
        let marker = uncounted_conjunction(alloc, interner, self.marker, asked)?;
        Ok(Requirement { marker, ..self })
    }
}
