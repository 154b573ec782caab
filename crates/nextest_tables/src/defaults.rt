//! The default table, over which every file is read.
ghost use Rattle.std.specs.Prelude.{◌≡◌, [], IfOk};
ghost use Rattle.nextest_tree.specs.Key.{key_text};
ghost use Rattle.nextest_tree.specs.Schema.{faults, unknown};
ghost use Rattle.nextest_tree.specs.View.{tree_view, entries_view};
ghost use Rattle.nextest_tree.specs.Node as Node;
ghost use Rattle.nextest_tree.specs.Node.{IsSorted, put};
ghost use Rattle.nextest_tables.specs.Defaults.{store_default, bench_default, junit_default, slow_default, with_runs_default, with_outputs_default, with_ends_default, profile_default, profiles_default, defaults};
ghost use Rattle.nextest_tables.specs.Tables.{a_file};

use nextest_tree::{Key, Tree};
use std::alloc::{AllocError, Global};
use std::collections::BTreeMap;

/// The text of the default table.
pub const DEFAULT_CONFIG: &str = r#"[store]
dir = "target/nextest"

[profile.default]
retries = 0
flaky-result = "pass"
test-threads = "num-cpus"
threads-required = 1
run-extra-args = []
status-level = "pass"
final-status-level = "flaky"
failure-output = "immediate"
success-output = "never"
fail-fast = true
slow-timeout = { period = "60s", on-timeout = "fail" }
global-timeout = "30y"
leak-timeout = "200ms"

[profile.default.junit]
report-name = "nextest-run"
store-success-output = false
store-failure-output = true
report-skipped = "none"
flaky-fail-status = "failure"

[profile.default.bench]
slow-timeout = { period = "30y" }
global-timeout = "30y"

[profile.default-miri]
"#;

/// Entries and one more.
#[tactic(auto, using(crate::proofs::Rows::entry_put))]
fn with_entry(
    alloc: Global,
    mut rows: BTreeMap<String, Tree>,
    name: &str,
    value: Tree,
) -> Result<BTreeMap<String, Tree>, AllocError>
    ensures { IfOk result (λ new. entries_view new.entries
        ≡ put name.now (tree_view value) (entries_view rows.entries)) }
{
    drop(rows.insert(String::from_str(alloc, name)?, value)?);
    Ok(rows)
}

/// Rows and one more.
fn with_row(
    alloc: Global,
    rows: BTreeMap<String, Tree>,
    key: Key,
    value: Tree,
) -> Result<BTreeMap<String, Tree>, AllocError>
    ensures { IfOk result (λ new. entries_view new.entries
        ≡ put (key_text key) (tree_view value) (entries_view rows.entries)) }
{
    with_entry(alloc, rows, key.text(), value)
}

/// Rows and one more, of a text.
fn with_text(
    alloc: Global,
    rows: BTreeMap<String, Tree>,
    key: Key,
    value: &str,
) -> Result<BTreeMap<String, Tree>, AllocError>
    ensures { IfOk result (λ new. entries_view new.entries
        ≡ put (key_text key) (Node.text value.now) (entries_view rows.entries)) }
{
    let text = String::from_str(alloc, value)?;
    with_row(alloc, rows, key, Tree::Text(text))
}

/// A table of one row, of a text.
fn table_of_text(alloc: Global, key: Key, value: &str) -> Result<Tree, AllocError>
    ensures { IfOk result (λ tree. tree_view tree
        ≡ Node.table (Node.entry (key_text key) (Node.text value.now) Node.no_entries)) }
{
    let rows = with_text(alloc, BTreeMap::new(alloc), key, value)?;
    Ok(Tree::Table(rows))
}

#[tactic(auto, unfolding(crate::specs::Defaults::bench_default, nextest_tree::specs::Key::key_text))]
fn bench_tree(alloc: Global) -> Result<Tree, AllocError>
    ensures { IfOk result (λ tree. tree_view tree ≡ bench_default) }
{
    let slow = table_of_text(alloc, Key::Period, "30y")?;
    let rows = with_text(alloc, BTreeMap::new(alloc), Key::GlobalTimeout, "30y")?;
    let rows = with_row(alloc, rows, Key::SlowTimeout, slow)?;
    Ok(Tree::Table(rows))
}

#[tactic(auto, unfolding(crate::specs::Defaults::junit_default, nextest_tree::specs::Key::key_text))]
fn junit_tree(alloc: Global) -> Result<Tree, AllocError>
    ensures { IfOk result (λ tree. tree_view tree ≡ junit_default) }
{
    let rows = BTreeMap::new(alloc);
    let rows = with_text(alloc, rows, Key::ReportName, "nextest-run")?;
    let rows = with_row(alloc, rows, Key::StoreSuccessOutput, Tree::Bool(false))?;
    let rows = with_row(alloc, rows, Key::StoreFailureOutput, Tree::Bool(true))?;
    let rows = with_text(alloc, rows, Key::ReportSkipped, "none")?;
    let rows = with_text(alloc, rows, Key::FlakyFailStatus, "failure")?;
    Ok(Tree::Table(rows))
}

#[tactic(auto, unfolding(crate::specs::Defaults::slow_default, nextest_tree::specs::Key::key_text))]
fn slow_tree(alloc: Global) -> Result<Tree, AllocError>
    ensures { IfOk result (λ tree. tree_view tree ≡ slow_default) }
{
    let rows = BTreeMap::new(alloc);
    let rows = with_text(alloc, rows, Key::Period, "60s")?;
    let rows = with_text(alloc, rows, Key::OnTimeout, "fail")?;
    Ok(Tree::Table(rows))
}

#[tactic(auto, unfolding(crate::specs::Defaults::store_default))]
fn store_tree(alloc: Global) -> Result<Tree, AllocError>
    ensures { IfOk result (λ tree. tree_view tree ≡ store_default) }
{
    table_of_text(alloc, Key::Dir, "target/nextest")
}

/// Rows and those of how tests are run.
fn with_runs(
    alloc: Global,
    rows: BTreeMap<String, Tree>,
) -> Result<BTreeMap<String, Tree>, AllocError>
    ensures { IfOk result (λ new. entries_view new.entries
        ≡ with_runs_default (entries_view rows.entries)) }
{
    let rows = with_row(alloc, rows, Key::Retries, Tree::Int(0))?;
    let rows = with_text(alloc, rows, Key::FlakyResult, "pass")?;
    let rows = with_text(alloc, rows, Key::TestThreads, "num-cpus")?;
    let rows = with_row(alloc, rows, Key::ThreadsRequired, Tree::Int(1))?;
    with_row(alloc, rows, Key::RunExtraArgs, Tree::Array(Vec::new(alloc)))
}

/// Rows and those of what is shown.
fn with_outputs(
    alloc: Global,
    rows: BTreeMap<String, Tree>,
) -> Result<BTreeMap<String, Tree>, AllocError>
    ensures { IfOk result (λ new. entries_view new.entries
        ≡ with_outputs_default (entries_view rows.entries)) }
{
    let rows = with_text(alloc, rows, Key::StatusLevel, "pass")?;
    let rows = with_text(alloc, rows, Key::FinalStatusLevel, "flaky")?;
    let rows = with_text(alloc, rows, Key::FailureOutput, "immediate")?;
    with_text(alloc, rows, Key::SuccessOutput, "never")
}

/// Rows and those of when a run or a test is ended.
fn with_ends(
    alloc: Global,
    rows: BTreeMap<String, Tree>,
) -> Result<BTreeMap<String, Tree>, AllocError>
    ensures { IfOk result (λ new. entries_view new.entries
        ≡ with_ends_default (entries_view rows.entries)) }
{
    let rows = with_row(alloc, rows, Key::FailFast, Tree::Bool(true))?;
    let rows = with_row(alloc, rows, Key::SlowTimeout, slow_tree(alloc)?)?;
    let rows = with_text(alloc, rows, Key::GlobalTimeout, "30y")?;
    with_text(alloc, rows, Key::LeakTimeout, "200ms")
}

/// The profile that every configuration has.
#[tactic(auto, unfolding(crate::specs::Defaults::profile_default, nextest_tree::specs::Key::key_text))]
fn profile_tree(alloc: Global) -> Result<Tree, AllocError>
    ensures { IfOk result (λ tree. tree_view tree ≡ profile_default) }
{
    let rows = with_runs(alloc, BTreeMap::new(alloc))?;
    let rows = with_outputs(alloc, rows)?;
    let rows = with_ends(alloc, rows)?;
    let rows = with_row(alloc, rows, Key::Junit, junit_tree(alloc)?)?;
    let rows = with_row(alloc, rows, Key::Bench, bench_tree(alloc)?)?;
    Ok(Tree::Table(rows))
}

/// The default profiles. The second writes nothing.
#[tactic(auto, unfolding(crate::specs::Defaults::profiles_default, nextest_tree::specs::Key::key_text))]
fn profiles_tree(alloc: Global) -> Result<Tree, AllocError>
    ensures { IfOk result (λ tree. tree_view tree ≡ profiles_default) }
{
    let rows = BTreeMap::new(alloc);
    let rows = with_row(alloc, rows, Key::Default, profile_tree(alloc)?)?;
    let miri = Tree::Table(BTreeMap::new(alloc));
    let rows = with_entry(alloc, rows, "default-miri", miri)?;
    Ok(Tree::Table(rows))
}

/// The default table.
#[tactic(auto, unfolding(crate::specs::Defaults::defaults, nextest_tree::specs::Key::key_text))]
pub fn default_tree(alloc: Global) -> Result<Tree, AllocError>
    ensures { IfOk result (λ tree. tree_view tree ≡ defaults) }
{
    let rows = BTreeMap::new(alloc);
    let rows = with_row(alloc, rows, Key::Store, store_tree(alloc)?)?;
    let rows = with_row(alloc, rows, Key::Profile, profiles_tree(alloc)?)?;
    Ok(Tree::Table(rows))
}

/// What the default table is: its keys ascend, and it has no fault and no unknown key.
#[tactic(auto, using(crate::proofs::Defaulting::no_faults, crate::proofs::Defaulting::nothing_unknown, crate::proofs::Defaulting::sorted))]
pub fn law_defaults()
    ensures sorted { IsSorted defaults }
    ensures no_fault { faults a_file [] defaults ≡ [] }
    ensures no_unknown { unknown a_file [] defaults ≡ [] }
{}
