//! Compares what the two sides give to the tests that both have, one test after another.
ghost use Rattle.std.specs.Prelude.{◌≡◌, ◌∷◌, [], IfOk, OnOk};
ghost use Rattle.filter_inputs.specs.Lists.Lists.{tests_in};
ghost use Rattle.filter_inputs.specs.Lists.ListView.{list_test_view, listed_view};
ghost use Rattle.filter_language.specs.Filtersets.{marks_view};
ghost use Rattle.filter_engine.specs.Compiling.{names_of};
ghost use Rattle.filter_engine.specs.Engine.{filter_holds};
ghost use Rattle.nextest_engines.specs.Engines.{test_view};
ghost use Rattle.nextest_settings.specs.Profiles.Meaning.{profile_meaning};
ghost use Rattle.nextest_settings.specs.Queries.{query_in};
ghost use Rattle.rinqebo_changes.specs.Changes.{is_change};
ghost use Rattle.rinqebo_changes.specs.Sides.Matched.{pair_view, tests_of};
ghost use Rattle.rinqebo_diff.specs.Compared.{ReportsBy, AddsCompared, AddsTest, AreTestsCompared, IsComparedBy};
ghost use Rattle.rinqebo_rules.specs.Rows.{IsTestReported};

use filter_engine::{NextestFilters, NextestTally};
use filter_inputs::{ListedBinary, ListedTest};
use platform_language::TargetSpecs;
use rinqebo_changes::{Comparison, Pair, Place, TestChanges, changes_of, pair_of, test_of};
use rinqebo_origins::Origins;
use rinqebo_report::TestRows;
use rinqebo_rules::{Lister, Listing, Progress, UsedRules};
use std::alloc::{AllocError, Global};

/// How the tests of a side are evaluated.
pub type TestLister<'l, 'c> = Lister<'l, 'c, NextestFilters, TargetSpecs>;

/// How the tests of a side are evaluated in turn.
type TestListing<'l, 'c> = Listing<'l, 'c, NextestFilters, TargetSpecs>;

/// The tests of a side, in turn: what filters match of a binary is evaluated once for the tests of
/// the binary that follow one another.
#[derive(Drop)]
struct SideTests<'l, 'c> {
    listing: TestListing<'l, 'c>,
    used: UsedRules,
    tally: NextestTally,
}

impl<'l, 'c> SideTests<'l, 'c> {
    /// No test was evaluated so far.
    fn new(alloc: Global, lister: &TestLister<'l, 'c>) -> Result<SideTests<'l, 'c>, AllocError>
        ensures { IfOk result (λ tests. tests.listing.lister ≡ lister.now) }
    {
        Ok(SideTests {
            listing: lister.in_turn(),
            used: lister.before_tests(alloc)?,
            tally: NextestTally::new(),
        })
    }

    /// What the side gives to a test.
    fn rows_of(
        &mut self,
        alloc: Global,
        test: &ListedTest<'_>,
        origins: &mut Origins<'_, '_, 'c>,
    ) -> Result<TestRows, AllocError>
        ensures lister { self.new.listing.lister ≡ self.old.listing.lister }
        ensures same { origins.new ≡ origins.old }
        ensures told { let lister = self.old.listing.lister in
            let profile = profile_meaning (marks_view names_of) lister.profile.now in
            IfOk result (IsTestReported origins.old
            (query_in filter_holds profile (test_view test.now.query))
            lister.mode profile lister.asked.now (list_test_view test.now)) }
    {
        let used = &mut self.used;
        let tally = &mut self.tally;
        self.listing.next_test(alloc, test, used, tally, origins)
    }
}

/// What changes for a test that both sides have, if something does.
fn compared_pair<'c, 'd>(
    alloc: Global,
    compare: &Comparison<'_>,
    pair: &Pair<'_>,
    from: &mut SideTests<'_, 'c>,
    to: &mut SideTests<'_, 'd>,
    from_origins: &mut Origins<'_, '_, 'c>,
    to_origins: &mut Origins<'_, '_, 'd>,
) -> Result<Option<TestChanges>, AllocError>
    ensures from_lister { from.new.listing.lister ≡ from.old.listing.lister }
    ensures to_lister { to.new.listing.lister ≡ to.old.listing.lister }
    ensures same_from { from_origins.new ≡ from_origins.old }
    ensures same_to { to_origins.new ≡ to_origins.old }
    ensures changes { let left = from.old.listing.lister in
        let right = to.old.listing.lister in
        IfOk result (IsComparedBy (ReportsBy filter_holds from_origins.old
        (profile_meaning (marks_view names_of) left.profile.now) left.mode left.asked.now)
        (ReportsBy filter_holds to_origins.old
        (profile_meaning (marks_view names_of) right.profile.now) right.mode right.asked.now)
        (is_change compare.now.sources.from.now compare.now.sources.to.now
        compare.now.with_origins) compare.now.with_runs (pair_view pair.now)) }
{
    let before = from.rows_of(alloc, &pair.from, from_origins)?;
    let after = to.rows_of(alloc, &pair.to, to_origins)?;
    changes_of(alloc, compare, before, after)
}

/// What changes for the tests that both sides have, as far as they are compared.
#[derive(Drop)]
pub struct ComparedTests {
    /// The tests of which a setting changes, in the order of the right side's list.
    pub changed: Vec<TestChanges>,
    /// How many tests both sides have.
    pub count: usize,
}

impl ComparedTests {
    /// Adds a test that both sides have, and what changes for it, if something does. Too many tests
    /// to count are too many for memory.
    fn add(&mut self, found: Option<TestChanges>) -> Result<(), AllocError>
        ensures { OnOk result (AddsTest found self.old self.new) }
    {
        let Some(count) = self.count.checked_add(1) else {
            return Err(AllocError);
        };
        self.count = count;
        if let Some(test) = found {
            self.changed.push(test)?;
        }
        Ok(())
    }
}

/// What the tests of two lists are compared by, the same for each of them.
#[derive(Clone, Copy)]
struct ComparedBy<'s, 'q> {
    /// What counts as a change.
    compare: Comparison<'s>,
    /// The left list.
    from_tests: &'q [ListedBinary],
    /// The number of tests that both lists have, for a user who waits.
    number: usize,
}

/// How far a comparison of tests is.
#[derive(Drop)]
struct Comparing<'l, 'r, 'c, 'd> {
    /// The tests of the left side, in turn.
    left: SideTests<'l, 'c>,
    /// The tests of the right side, in turn.
    right: SideTests<'r, 'd>,
    /// Where the next test is looked for first in the left list.
    guess: Place,
    /// What changes so far.
    found: ComparedTests,
}

impl<'c, 'd> Comparing<'_, '_, 'c, 'd> {
    /// Compares a test of the right list, if the left list has it, and reports progress then.
    /// Nothing is kept of a test that does not change.
    fn compare_test<'q, P: Progress>(
        &mut self,
        alloc: Global,
        by: &ComparedBy<'_, 'q>,
        test: ListedTest<'q>,
        from_origins: &mut Origins<'_, '_, 'c>,
        to_origins: &mut Origins<'_, '_, 'd>,
        progress: &mut P,
    ) -> Result<(), AllocError>
        ensures from_lister { self.new.left.listing.lister ≡ self.old.left.listing.lister }
        ensures to_lister { self.new.right.listing.lister ≡ self.old.right.listing.lister }
        ensures same_from { from_origins.new ≡ from_origins.old }
        ensures same_to { to_origins.new ≡ to_origins.old }
        ensures compared { let from = self.old.left.listing.lister in
            let to = self.old.right.listing.lister in
            let compare = by.now.compare in
            OnOk result (AddsCompared (ReportsBy filter_holds from_origins.old
            (profile_meaning (marks_view names_of) from.profile.now) from.mode from.asked.now)
            (ReportsBy filter_holds to_origins.old
            (profile_meaning (marks_view names_of) to.profile.now) to.mode to.asked.now)
            (is_change compare.sources.from.now compare.sources.to.now compare.with_origins)
            compare.with_runs (tests_of by.now.from_tests.now)
            (list_test_view test.entry ∷ []) self.old.found self.new.found) }
    {
        if let Some(pair) = pair_of(by.from_tests, test, &mut self.guess) {
            let left = &mut self.left;
            let right = &mut self.right;
            let changes = compared_pair(
                alloc,
                &by.compare,
                &pair,
                left,
                right,
                from_origins,
                to_origins,
            )?;
            self.found.add(changes)?;
            progress.asked(self.found.count, by.number);
        }
        Ok(())
    }

    /// Compares the tests of a binary of the right list that the left list has.
    fn compare_binary<'q, P: Progress>(
        &mut self,
        alloc: Global,
        by: &ComparedBy<'_, 'q>,
        binary: &'q ListedBinary,
        from_origins: &mut Origins<'_, '_, 'c>,
        to_origins: &mut Origins<'_, '_, 'd>,
        progress: &mut P,
    ) -> Result<(), AllocError>
        ensures from_lister { self.new.left.listing.lister ≡ self.old.left.listing.lister }
        ensures to_lister { self.new.right.listing.lister ≡ self.old.right.listing.lister }
        ensures same_from { from_origins.new ≡ from_origins.old }
        ensures same_to { to_origins.new ≡ to_origins.old }
        ensures compared { let from = self.old.left.listing.lister in
            let to = self.old.right.listing.lister in
            let compare = by.now.compare in
            OnOk result (AddsCompared (ReportsBy filter_holds from_origins.old
            (profile_meaning (marks_view names_of) from.profile.now) from.mode from.asked.now)
            (ReportsBy filter_holds to_origins.old
            (profile_meaning (marks_view names_of) to.profile.now) to.mode to.asked.now)
            (is_change compare.sources.from.now compare.sources.to.now compare.with_origins)
            compare.with_runs (tests_of by.now.from_tests.now)
            (tests_in (listed_view binary.now)) self.old.found self.new.found) }
    {
        for case in &binary.tests {
            let test = test_of(binary, case);
            self.compare_test(alloc, by, test, from_origins, to_origins, progress)?;
        }
        Ok(())
    }
}

/// What changes for the tests of the right list that the left list has, in their order: those of
/// which a setting changes. It keeps nothing of the others, and reports progress out of the number
/// of tests that both lists have.
pub fn compared<'c, 'd, 'q, P: Progress>(
    alloc: Global,
    compare: &Comparison<'_>,
    from_tests: &'q [ListedBinary],
    to_tests: &'q [ListedBinary],
    from: &TestLister<'_, 'c>,
    to: &TestLister<'_, 'd>,
    from_origins: &mut Origins<'_, '_, 'c>,
    to_origins: &mut Origins<'_, '_, 'd>,
    number: usize,
    progress: &mut P,
) -> Result<ComparedTests, AllocError>
    ensures { IfOk result (λ compared. AreTestsCompared (ReportsBy filter_holds from_origins.old
        (profile_meaning (marks_view names_of) from.now.profile.now) from.now.mode
        from.now.asked.now)
        (ReportsBy filter_holds to_origins.old
        (profile_meaning (marks_view names_of) to.now.profile.now) to.now.mode
        to.now.asked.now)
        (is_change compare.now.sources.from.now compare.now.sources.to.now
        compare.now.with_origins) compare.now.with_runs (tests_of from_tests.now)
        (tests_of to_tests.now) compared.changed.items compared.count) }
{
    let by = ComparedBy {
        compare: *compare,
        from_tests,
        number,
    };
    let left = SideTests::new(alloc, from)?;
    let right = SideTests::new(alloc, to)?;
    let mut comparing = Comparing {
        left,
        right,
        guess: Place::first(),
        found: ComparedTests {
            changed: Vec::new(alloc),
            count: 0,
        },
    };
    for binary in to_tests {
        comparing.compare_binary(alloc, &by, binary, from_origins, to_origins, progress)?;
    }
    Ok(comparing.found)
}
