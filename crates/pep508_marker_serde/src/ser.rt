//! Marker trees as JSON values.

ghost use Rattle.std.specs.Prelude.{◌≡◌, ◌≢◌, ◌↔◌, IsTrue, IfOk, IfErr, Some, option_map};
ghost use Rattle.serde_json.specs.View.{view};
ghost use Rattle.serde_json.specs.Find.{as_str};
ghost use Rattle.pep508_tree.specs.Tree.{always};
ghost use Rattle.pep508_tree.specs.Meaning.{IsTree, diagram_of};
ghost use Rattle.pep508_marker_text_laws.specs.MarkerText.{marker_text};

use pep508_marker_display::MarkerTreeText;
use pep508_tree::{Interner, MarkerTree};
use serde_json::Value;
use std::alloc::{AllocError, Global};

/// Returns whether the tree always holds, so that it has no JSON value. Takes no memory.
pub fn is_empty(tree: MarkerTree) -> bool
    ensures { IsTrue result ↔ (tree ≡ always) }
{
    tree.is_true()
}

/// Returns the tree as a JSON text, which `MarkerTree::from_value` reads: the text of `try_to_string`;
/// `None` where the tree always holds. Its costs are those of `try_to_string`.
///
/// # Errors
///
/// `AllocError` when memory runs out.
pub fn to_value(
    alloc: Global,
    tree: MarkerTree,
    interner: &Interner,
) -> Result<Option<Value>, AllocError>
    requires { IsTree interner.now.nodes tree }
    ensures text { IfOk result (λ value. option_map (λ v. as_str (view v)) value
        ≡ option_map Some (marker_text (diagram_of interner.now.nodes tree))) }
    ensures grown { IfErr result (λ error. tree ≢ always) }
{
    match tree.try_to_string(alloc, interner)? {
        None => Ok(None),
        Some(text) => Ok(Some(Value::String(text))),
    }
}
