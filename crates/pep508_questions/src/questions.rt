//! The kinds of a marker tree's questions, as a trait of trees.

ghost use Rattle.std.specs.Prelude.{◌≡◌, IfOk};
ghost use Rattle.pep508_tree.specs.Tree.{Tree};
ghost use Rattle.pep508_tree.specs.Meaning.{IsTree, diagram_of};
ghost use Rattle.pep508_questions.specs.Asks.{asked_by};

use crate::question_walk::asked_of_tree;
use pep508_tree::{Interner, MarkerTree};
use std::alloc::{AllocError, Global};

/// The kinds of the questions of a marker tree.
#[derive(Clone, Copy, Debug, PartialEq, Eq)]
pub struct Asked {
    /// A text of a question has a single quote: one that a key is compared with, that is searched for in a
    /// key's text or in which the key's text is, or an extra that is not a name.
    pub single_quote: bool,
    /// A question is about a key by an old name of PEP 345, as `os.name`.
    pub deprecated_key: bool,
    /// A question is about a version that has more than epoch 0 and release numbers, as `1.0a1`.
    pub other_bound: bool,
}

impl Asked {
    /// A tree that always holds, or never, has no questions.
    pub(crate) const NOTHING: Asked = Asked {
        single_quote: false,
        deprecated_key: false,
        other_bound: false,
    };
}

/// Marker trees whose kinds of questions can be queried.
pub trait MarkerTreeQuestions {
    ghost use Rattle.pep508_tree.specs.Tree.{Tree};

    /// The tree that a value is.
    ghost tree: { Self → Tree };

    /// Returns the kinds of the tree's questions. These are the questions on which its truth depends, and
    /// not what was written: a tree that always holds has none.
    ///
    /// Makes no tree and counts nothing; the only error is lack of memory for the nodes that are left to
    /// look at.
    ///
    /// Looks at each node of the tree once, and at each endpoint in it. No recursion, however deep it is.
    fn asked(self, alloc: Global, interner: &Interner) -> Result<Asked, AllocError>
        requires { IsTree interner.now.nodes (tree self) }
        ensures { IfOk result (λ asked. asked ≡ asked_by (diagram_of interner.now.nodes (tree self))) };
}

impl MarkerTreeQuestions for MarkerTree {
    ghost tree = { λ tree. tree };

    fn asked(self, alloc: Global, interner: &Interner) -> Result<Asked, AllocError> {
        asked_of_tree(alloc, interner, self)
    }
}
