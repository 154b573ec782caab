//! The rules whose filters are evaluated for tests and binaries.
use crate::lines::Lines;
use crate::run::Profile;
use crate::setup::Setup;
use nextest_config::{BinaryQuery, NextestRunMode, TestQuery};
use nextest_explain::engines::filters::ToyTally;

/// Adds the numbers of the rules whose filters are evaluated for each test, in both modes, and for
/// each binary.
pub fn add_numbers(lines: &mut Lines<'_>, case: &Setup<'_>, profile: &Profile<'_>) {
    for test in &case.tests {
        add_numbers_of_test(lines, profile, test);
    }
    for binary in &case.binaries {
        add_numbers_of_binary(lines, profile, binary);
    }
}

/// Adds the numbers for a test, in both modes.
fn add_numbers_of_test(lines: &mut Lines<'_>, profile: &Profile<'_>, test: &TestQuery<'_>) {
    if lines.shows("evaluated") {
        let mut tally = ToyTally::new();
        drop(profile.settings_for(NextestRunMode::Test, test, &mut tally));
        lines.add_of("evaluated", test.test_name, &tally.first_rules());
    }
    if lines.shows("bench-evaluated") {
        let mut tally = ToyTally::new();
        drop(profile.settings_with_source_for(NextestRunMode::Benchmark, test, &mut tally));
        lines.add_of("bench-evaluated", test.test_name, &tally.first_rules());
    }
}

/// Adds the numbers for a binary.
fn add_numbers_of_binary(lines: &mut Lines<'_>, profile: &Profile<'_>, binary: &BinaryQuery<'_>) {
    if lines.shows("list-evaluated") {
        let mut tally = ToyTally::new();
        drop(profile.list_settings_for(binary, &mut tally));
        lines.add_of("list-evaluated", binary.binary_id, &tally.first_rules());
    }
}
