//! Laws about what is shown of a text.
//!
//! Each function has an empty body and states its law in its contract. They are public so that their
//! contracts are among the statements that are held.

ghost use Rattle.std.specs.Prelude.{◌≡◌, ℕ, List, false, chars};
ghost use Rattle.std.specs.List.{list_any};
ghost use Rattle.std.specs.Str.{IsUtf8};
ghost use Rattle.reqs_messages.specs.Shown.{is_hidden, shown_text};

/// What is shown of a text has no control character, and none that changes the direction of text.
#[tactic(auto, using(crate::proofs::Plain::hides_nothing))]
pub fn what_is_shown_hides_nothing()
    ensures { (text : List ℕ) → IsUtf8 text → list_any is_hidden (chars (shown_text text)) ≡ false }
{}

/// A text without such characters is shown as it is.
#[tactic(auto, using(crate::proofs::Plain::as_it_is))]
pub fn a_text_without_them_is_shown_as_it_is()
    ensures { (text : List ℕ) → IsUtf8 text → list_any is_hidden (chars text) ≡ false
        → shown_text text ≡ text }
{}
