//! Laws of the crates that this one re-exports, by their subject.

pub use pep508_cases::laws as marks;
pub use reqtable_answer::laws as answers;
pub use reqtable_assumption::laws as assumptions;
pub use reqtable_candidates::laws as candidate_lists;
pub use reqtable_cases::laws as cases;
pub use reqtable_compare::laws as comparisons;
pub use reqtable_conflicts::laws as contradictions;
pub use reqtable_covers::laws as coverings;
pub use reqtable_key::laws as keys;
pub use reqtable_normal::laws as normal_texts;
pub use reqtable_requirements::laws as requirement_lists;
pub use reqtable_streaming::laws as selections;
pub use reqtable_table_laws as tables;
