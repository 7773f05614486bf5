//! Laws of keys of lists. The functions do nothing: each one's contract is its law.

ghost use Rattle.reqtable_key.specs.Keys.{OneKeyOfLists};

/// Keys of lists are the same exactly where the lists require the same, as `same` compares them.
pub fn one_key_of_lists()
    ensures { OneKeyOfLists }
{}
