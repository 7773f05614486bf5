//! URLs print, compare and hash as their text.

ghost use Rattle.std.specs.Prelude.{Some, refl};
ghost use Rattle.std.specs.Hash as fed;
ghost use Rattle.std.specs.Cmp.{on_equiv, on_total, on_po, on_per, partial_equiv_from_equiv};
ghost use Rattle.std.specs.Cmp.Lexicographic.{nat_list_eq_equiv, nat_list_cmp_total, texts_ties, texts_po};
ghost use Rattle.pep508_url.specs.UrlTexts.{url_text, url_eq, url_cmp};
ghost use Rattle.pep508_url.specs.Hashing.{alike_urls};

use crate::VerbatimUrl;
use std::cmp::Ordering;
use std::fmt;
use std::hash::{Hash, Hasher};

impl fmt::Display for VerbatimUrl {
    ghost output = { λ v. Some (url_text v) };

    fn fmt<W: fmt::Write>(&self, f: &mut fmt::Formatter<W>) -> fmt::Result {
        f.write_str(self.raw().as_str())
    }
}

impl fmt::Debug for VerbatimUrl {
    fn fmt<W: fmt::Write>(&self, f: &mut fmt::Formatter<W>) -> fmt::Result {
        f.debug_struct("VerbatimUrl")
            .field("url", &self.raw().as_str())
            .field("given", &self.given())
            .finish()
    }
}

impl PartialEq for VerbatimUrl {
    ghost eq = { url_eq };

    ghost laws = { on_per url_text (partial_equiv_from_equiv nat_list_eq_equiv) };

    fn eq(&self, other: &VerbatimUrl) -> bool {
        self.raw().as_str() == other.raw().as_str()
    }
}

impl Eq for VerbatimUrl {
    ghost laws = { on_equiv url_text nat_list_eq_equiv };
}

impl PartialOrd for VerbatimUrl {
    ghost partial_cmp = { λ a b. Some (url_cmp a b) };

    ghost laws = { on_po url_text texts_po };

    fn partial_cmp(&self, other: &VerbatimUrl) -> Option<Ordering> {
        Some(self.cmp(other))
    }
}

impl Ord for VerbatimUrl {
    ghost cmp = { url_cmp };

    ghost total = { on_total url_text nat_list_cmp_total };

    ghost matches_partial_cmp = { λ a b. refl };

    ghost matches_eq = { λ a b. texts_ties (url_text a) (url_text b) };

    fn cmp(&self, other: &VerbatimUrl) -> Ordering {
        self.raw().as_str().cmp(other.raw().as_str())
    }
}

impl Hash for VerbatimUrl {
    ghost hash_input = { λ v. fed.str (url_text v) };

    ghost respects_eq = { alike_urls };

    fn hash<H: Hasher>(&self, state: &mut H) {
        self.raw().as_str().hash(state);
    }
}
