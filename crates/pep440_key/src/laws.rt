//! Laws of version keys. The functions do nothing: each one's contract is its law.

ghost use Rattle.std.specs.Prelude.{◌≡◌, ◌↔◌, ◌++◌, List, ℕ, IsTrue};
ghost use Rattle.std.specs.Ordering.{ordering_then, nat_cmp};
ghost use Rattle.pep440_text.specs.Record.{VersionRecord};
ghost use Rattle.pep440_version.specs.Order.{version_cmp, version_eq};
ghost use Rattle.pep440_key.specs.Key.{bytes_cmp, number_bytes, component_bytes, version_bytes};

/// Keys compare as their versions do, and are identical exactly where these are equal; bytes that follow
/// the keys decide between equal versions alone.
pub fn keys_compare_as_versions()
    ensures order { (a b : VersionRecord)
        → bytes_cmp (version_bytes a) (version_bytes b) ≡ version_cmp a b }
    ensures equality { (a b : VersionRecord)
        → (version_bytes a ≡ version_bytes b) ↔ IsTrue (version_eq a b) }
    ensures before_others { (a b : VersionRecord) (x y : List ℕ)
        → bytes_cmp (version_bytes a ++ x) (version_bytes b ++ y)
        ≡ ordering_then (version_cmp a b) (bytes_cmp x y) }
{}

/// The bytes of numbers compare as the numbers do, and those of texts as the texts; bytes that follow
/// decide between equal ones alone. So numbers and texts are told apart whatever follows them.
pub fn numbers_and_texts_compare()
    ensures numbers { (n m : ℕ) (x y : List ℕ)
        → bytes_cmp (number_bytes n ++ x) (number_bytes m ++ y)
        ≡ ordering_then (nat_cmp n m) (bytes_cmp x y) }
    ensures texts { (a b x y : List ℕ)
        → bytes_cmp (component_bytes a ++ x) (component_bytes b ++ y)
        ≡ ordering_then (bytes_cmp a b) (bytes_cmp x y) }
{}
