//! Laws about covering. The functions do nothing: each one's contract is its law.

ghost use Rattle.std.specs.Prelude.{List};
ghost use Rattle.reqtable_requirements.specs.LineReading.{LineRecord};
ghost use Rattle.reqtable_cases.specs.Requires.{RequireTheSame};
ghost use Rattle.reqtable_covers.specs.Covering.{CoversLines};

/// Lists that require the same cover each other.
pub fn lists_that_require_the_same_cover_each_other()
    ensures left { (left right : List LineRecord) → RequireTheSame left right → CoversLines left right }
    ensures right { (left right : List LineRecord) → RequireTheSame left right → CoversLines right left }
{}

/// A list covers what is covered by a list that it covers.
pub fn covering_is_transitive()
    ensures { (lock between lines : List LineRecord) → CoversLines lock between → CoversLines between lines →
        CoversLines lock lines }
{}
