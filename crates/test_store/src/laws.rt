//! The theorems of the libraries that a user relies on, each called as a user would: a call proves its
//! theorem.
use hir_source_map::laws as of_source_maps;
use hir_store::laws as of_stores;

#[test]
fn laws_can_be_called() {
    of_stores::under_two_is_under_one();
    of_stores::descendants_are_in_range();
    of_stores::builders_are_compared_by_all_that_they_have();
    of_source_maps::equality_is_of_the_compared_part();
    of_source_maps::forward_maps_may_differ();
    of_source_maps::equal_maps_know_the_same_sources();
    of_source_maps::builders_are_compared_by_all_maps();
}
