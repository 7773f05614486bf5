//! The laws of versions, specifiers, lists and ranges, re-exported from the crates below.

pub use pep440_key::laws::keys_compare_as_versions;
pub use pep440_operator::laws::operator_text_is_read;
pub use pep440_range::laws::{
    interval_specifiers_hold_the_interval, list_of_a_set_holds_the_set,
    list_of_intervals_holds_their_union, list_ranges_agree_with_matching,
    negation_is_the_complement, ranges_agree_beside_posts, ranges_agree_everywhere,
    ranges_agree_with_matching, release_negation_is_the_complement,
    release_ranges_agree_with_matching, some_are_in_neither_range,
};
pub use pep440_specifier::laws::{
    a_read_specifier_is_built, equal_stars_may_differ, exclusion_is_the_rest,
    specifier_text_is_read, text_has_one_specifier,
};
pub use pep440_specifier_list::laws::{
    a_list_takes_what_each_member_takes, list_text_is_read, members_are_read_from_texts,
    the_empty_list_takes_all,
};
pub use pep440_text::laws::{
    faults_stand_between_characters, pattern_text_is_read, print_reads_back, read_is_printable,
    text_has_one_pattern, text_has_one_version, version_text_is_read,
};
pub use pep440_version::laws::{
    end_zeros_change_nothing, key_decides, readings_find_what_texts_are, releases_compare_padded,
};
