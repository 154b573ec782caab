//! What changes between two sides that are loaded.
ghost use Rattle.std.specs.Prelude.{IfOk, map};
ghost use Rattle.std.specs.List.{AllZip};
ghost use Rattle.filter_inputs.specs.Lists.Lists.{list_tests};
ghost use Rattle.filter_inputs.specs.Lists.ListView.{list_test_view, list_view, listed_view};
ghost use Rattle.nextest_tables.specs.FileTexts.{names_in, IsIn};
ghost use Rattle.rinqebo_changes.specs.Changes.{is_change};
ghost use Rattle.rinqebo_diff.specs.Asked.{compares_runs};
ghost use Rattle.rinqebo_diff.specs.Compared.{AreTestsCompared};
ghost use Rattle.rinqebo_diff.specs.Differences.{SideReports, IsCountOf, IsDiffOf, IsIdOf};
ghost use Rattle.rinqebo_diff.specs.Beside.{IsBeside};
ghost use Rattle.rinqebo_diff.specs.Evaluated.{evaluation_of, IsDiffOfLoaded, IsEvaluated};
ghost use Rattle.rinqebo_diff.specs.RunChanges.{AreRunChangesIf, AreRunRowsOf};
ghost use Rattle.rinqebo_diff.specs.Sides.{IsSideOf};

use crate::compared::{ComparedTests, TestLister, compared};
use crate::list_scripts::scripts_of_list;
use crate::loaded::Loaded;
use crate::request::{DiffRequest, DiffSide};
use filter_inputs::{ListedBinary, ListedTest, ListedTests};
use rinqebo_changes::{
    AloneTests, BinaryTests, Comparison, Diff, RowChange, Side, TwoSources, keyed_changes,
    run_rows, tests_alone,
};
use rinqebo_load::chain_of_profile;
use rinqebo_origins::Origins;
use rinqebo_report::{SettingRow, TestId};
use rinqebo_request::sources_of;
use rinqebo_results::{Profile, entries_in, profile_on, requested_of};
use rinqebo_rules::{Progress, reported_platform};
use std::alloc::{AllocError, Global};

/// What a side is compared by.
#[derive(Drop)]
pub struct Evaluated<'c> {
    /// The profiles that count, the nearest first.
    pub chain: Vec<&'c str>,
    /// The profile on the platforms of the build.
    pub profile: Profile<'c>,
}

/// The name of a test.
fn id_of(alloc: Global, test: &ListedTest<'_>) -> Result<TestId, AllocError>
    ensures { IfOk result (IsIdOf (list_test_view test.now)) }
{
    let binary = &test.query.binary_query;
    Ok(TestId {
        binary: String::from_str(alloc, binary.binary_id)?,
        name: String::from_str(alloc, test.query.test_name)?,
        platform: reported_platform(binary.platform),
    })
}

/// The names of tests.
fn ids_of(alloc: Global, tests: &[ListedTest<'_>]) -> Result<Vec<TestId>, AllocError>
    ensures { IfOk result (λ ids. AllZip IsIdOf (map list_test_view tests.now) ids.items) }
{
    let mut ids = Vec::new(alloc);
    for test in tests {
        ids.push(id_of(alloc, test)?)?;
    }
    Ok(ids)
}

/// How many tests a binary of a list has.
fn count_of(alloc: Global, binary: &ListedBinary) -> Result<BinaryTests, AllocError>
    ensures { IfOk result (IsCountOf (listed_view binary.now)) }
{
    Ok(BinaryTests {
        binary: String::from_str(alloc, binary.id.as_str())?,
        tests: binary.tests.len(),
    })
}

/// The binaries of a list, and how many tests each has.
fn counts_of(alloc: Global, binaries: &[ListedBinary]) -> Result<Vec<BinaryTests>, AllocError>
    ensures { IfOk result (λ counts. AllZip IsCountOf (map listed_view binaries.now)
        counts.items) }
{
    let mut counts = Vec::new(alloc);
    for binary in binaries {
        counts.push(count_of(alloc, binary)?)?;
    }
    Ok(counts)
}

/// A side in a report.
fn side_of(
    alloc: Global,
    side: &DiffSide<'_>,
    loaded: &Loaded<'_>,
    evaluated: &Evaluated<'_>,
) -> Result<Side, AllocError>
    ensures { IfOk result (IsSideOf side.now (evaluation_of loaded.now evaluated.now)) }
{
    Ok(Side {
        root: loaded.session.gathered.paths.workspace_root.clone()?,
        sources: sources_of(alloc, &loaded.session.layers)?,
        asked: requested_of(
            alloc,
            &loaded.session,
            side.profile,
            &evaluated.chain,
            side.mode,
        )?,
    })
}

/// What a side gives to the whole run.
fn rows_of_run(
    alloc: Global,
    loaded: &Loaded<'_>,
    evaluated: &Evaluated<'_>,
) -> Result<Vec<SettingRow>, AllocError>
    ensures { IfOk result (λ rows. AreRunRowsOf (evaluation_of loaded.now evaluated.now)
        rows.items) }
{
    let layers = &loaded.session.layers;
    let entries = entries_in(alloc, layers, &evaluated.chain, &[], false)?;
    let scripts = scripts_of_list(alloc, &loaded.session, &evaluated.profile)?;
    run_rows(alloc, entries, scripts)
}

/// What changes for the whole run, if it is compared.
fn changed_run(
    alloc: Global,
    with_run: bool,
    from: &Loaded<'_>,
    to: &Loaded<'_>,
    left: &Evaluated<'_>,
    right: &Evaluated<'_>,
) -> Result<Vec<RowChange>, AllocError>
    ensures { IfOk result (λ changes. AreRunChangesIf with_run (evaluation_of from.now left.now)
        (evaluation_of to.now right.now) changes.items) }
{
    if !with_run {
        return Ok(Vec::new(alloc));
    }
    let before = rows_of_run(alloc, from, left)?;
    let after = rows_of_run(alloc, to, right)?;
    keyed_changes(alloc, before, after)
}

/// How many tests of the right side's list are in the left side's list, for a user who waits.
fn count_of_both(list: &ListedTests, alone: &AloneTests<'_>) -> usize {
    let mut count = 0usize;
    for binary in &list.binaries {
        count = count.saturating_add(binary.tests.len());
    }
    count.saturating_sub(alone.added.len())
}

/// What changes for the tests that both sides have.
fn changed_tests<P: Progress>(
    alloc: Global,
    request: &DiffRequest<'_>,
    sources: TwoSources<'_>,
    alone: &AloneTests<'_>,
    from: &Loaded<'_>,
    to: &Loaded<'_>,
    left: &Evaluated<'_>,
    right: &Evaluated<'_>,
    progress: &mut P,
) -> Result<ComparedTests, AllocError>
    ensures { IfOk result (λ compared. AreTestsCompared
        (SideReports (evaluation_of from.now left.now) request.now.from.mode
        request.now.compared.asked)
        (SideReports (evaluation_of to.now right.now) request.now.to.mode
        request.now.compared.asked)
        (is_change sources.entry.from.now sources.entry.to.now request.now.with_origins)
        (compares_runs request.now.compared.asked)
        (list_tests (list_view from.now.session.tests))
        (list_tests (list_view to.now.session.tests))
        compared.changed.items compared.count) }
{
    let from_lister = TestLister {
        profile: &left.profile,
        mode: request.from.mode,
        asked: request.compared.asked(),
    };
    let to_lister = TestLister {
        profile: &right.profile,
        mode: request.to.mode,
        asked: request.compared.asked(),
    };
    let mut from_origins = Origins::new(alloc, &from.session.layers, &left.chain);
    let mut to_origins = Origins::new(alloc, &to.session.layers, &right.chain);
    let compare = Comparison {
        sources,
        with_origins: request.with_origins,
        with_runs: request.compared.with_runs(),
    };
    let number = count_of_both(&to.session.tests, alone);
    compared(
        alloc,
        &compare,
        &from.session.tests.binaries,
        &to.session.tests.binaries,
        &from_lister,
        &to_lister,
        &mut from_origins,
        &mut to_origins,
        number,
        progress,
    )
}

/// What a diff has beside its changes.
#[derive(Drop)]
pub struct Beside {
    /// The binaries of the right side, and how many tests each has.
    pub binaries: Vec<BinaryTests>,
    /// The names of the tests of the left side alone.
    pub removed: Vec<TestId>,
    /// The names of the tests of the right side alone.
    pub added: Vec<TestId>,
}

/// What a diff has beside its changes, of the tests that one side has alone and the binaries of the
/// right side.
fn beside_of(
    alloc: Global,
    alone: &AloneTests<'_>,
    binaries: &[ListedBinary],
) -> Result<Beside, AllocError>
    ensures { IfOk result (IsBeside alone.now (map listed_view binaries.now)) }
{
    let binaries = counts_of(alloc, binaries)?;
    let removed = ids_of(alloc, &alone.removed)?;
    let added = ids_of(alloc, &alone.added)?;
    Ok(Beside {
        binaries,
        removed,
        added,
    })
}

/// What changes from one side to another, which are loaded, by what they are compared by.
fn diff_by<P: Progress>(
    alloc: Global,
    request: &DiffRequest<'_>,
    from: &Loaded<'_>,
    to: &Loaded<'_>,
    left: &Evaluated<'_>,
    right: &Evaluated<'_>,
    progress: &mut P,
) -> Result<Diff, AllocError>
    ensures { IfOk result (IsDiffOf request.now (evaluation_of from.now left.now)
        (evaluation_of to.now right.now)) }
{
    let alone = tests_alone(alloc, &from.session.tests, &to.session.tests)?;
    let from_side = side_of(alloc, &request.from, from, left)?;
    let to_side = side_of(alloc, &request.to, to, right)?;
    let sources = TwoSources {
        from: &from_side.sources,
        to: &to_side.sources,
    };
    let ComparedTests { changed, count } = changed_tests(
        alloc, request, sources, &alone, from, to, left, right, progress,
    )?;
    let run = changed_run(alloc, request.with_run, from, to, left, right)?;
    let Beside {
        binaries,
        removed,
        added,
    } = beside_of(alloc, &alone, &to.session.tests.binaries)?;
    Ok(Diff {
        from: from_side,
        to: to_side,
        changed,
        compared: count as u64,
        binaries,
        removed,
        added,
        run,
    })
}

/// What a side is compared by: a profile of its configuration.
fn evaluated_side<'c>(
    alloc: Global,
    loaded: &'c Loaded<'_>,
    name: &'c str,
) -> Result<Evaluated<'c>, AllocError>
    requires { IsIn (names_in loaded.now.config.config.profiles) name.now }
    ensures { IfOk result (IsEvaluated loaded.now name.now) }
{
    let chain = chain_of_profile(alloc, &loaded.config, name)?;
    let profile = profile_on(alloc, &loaded.session, &loaded.config, name)?;
    Ok(Evaluated { chain, profile })
}

/// What changes from one side to another, which are loaded.
pub fn diff_of<P: Progress>(
    alloc: Global,
    request: &DiffRequest<'_>,
    from: &Loaded<'_>,
    to: &Loaded<'_>,
    progress: &mut P,
) -> Result<Diff, AllocError>
    requires from { IsIn (names_in from.now.config.config.profiles) request.now.from.profile.now }
    requires to { IsIn (names_in to.now.config.config.profiles) request.now.to.profile.now }
    ensures { IfOk result (IsDiffOfLoaded request.now from.now to.now) }
{
    let left = evaluated_side(alloc, &*from, request.from.profile)?;
    let right = evaluated_side(alloc, &*to, request.to.profile)?;
    diff_by(alloc, request, from, to, &left, &right, progress)
}
