//! Where the values of a run and its groups come from, as JSON.
ghost use Rattle.std.specs.Prelude.{◌≡◌, IfOk, OnOk, fold, option_map};
ghost use Rattle.serde_json.specs.Data.{no_members, object};
ghost use Rattle.serde_json.specs.View.{members_view, view};
ghost use Rattle.rinqebo_objects.specs.Origins.{object_origins_data, optional_origins_data, report_origins_data, run_origins_data, timeout_origins_data, with_bound_origins, with_group_origins, with_name_origins, with_output_origins};

use rinqebo_report::{Origin, origins_json};
use serde_json::{Map, Value, json, put};
use std::alloc::{AllocError, Global};

/// Where what bounds a run comes from.
#[derive(Drop)]
pub struct BoundOrigins {
    /// How many tests run at a time.
    pub test_threads: Vec<Origin>,
    /// After how many failures the run ends.
    pub max_fail: Vec<Origin>,
    /// How long a run of tests may take.
    pub global_timeout: Vec<Origin>,
    /// How long a run of benchmarks may take.
    pub benchmark_timeout: Vec<Origin>,
}

/// Where what a run shows and stores comes from.
#[derive(Drop)]
pub struct OutputOrigins {
    /// Which tests are shown as they end.
    pub status_level: Vec<Origin>,
    /// Which tests are shown at the end of the run.
    pub final_status_level: Vec<Origin>,
    /// The path of the report.
    pub report_path: Vec<Origin>,
    /// The name of the report.
    pub report_name: Vec<Origin>,
    /// The directory in which profiles store what they write.
    pub store_dir: Vec<Origin>,
}

/// Where the parent of a profile, its default filter, and the arguments of tests come from.
#[derive(Drop)]
pub struct NameOrigins {
    /// The profile that it inherits from.
    pub inherits: Vec<Origin>,
    /// The default filter that counts.
    pub default_filter: Vec<Origin>,
    /// The arguments that a test is given where no rule says so.
    pub run_extra_args: Vec<Origin>,
}

/// Where the values that a profile has for a whole run come from.
#[derive(Drop)]
pub struct RunOrigins {
    /// Where the parent of the profile, its default filter, and the arguments of tests come from.
    pub names: NameOrigins,
    /// Where what the run shows and stores comes from.
    pub output: OutputOrigins,
    /// Where what bounds the run comes from.
    pub bounds: BoundOrigins,
}

/// Where a test group comes from.
#[derive(Drop)]
pub struct GroupOrigins {
    /// Its name.
    pub name: String,
    /// Where its number of threads comes from.
    pub origins: Vec<Origin>,
}

/// Where the values of a run and the groups of its configuration come from.
pub struct ObjectOrigins {
    /// The values of the run.
    pub run: RunOrigins,
    /// The groups, by name.
    pub groups: Vec<GroupOrigins>,
}

// Written out, so that the proof of a caller sees one call and not the drop of each part.
impl Drop for ObjectOrigins {
    fn drop(self) {
        let ObjectOrigins {
            run: _run,
            groups: _groups,
        } = self;
    }
}

/// Where the two timeouts of a whole run come from.
fn timeout_origins_json(alloc: Global, bounds: &BoundOrigins) -> Result<Value, AllocError>
    ensures { IfOk result (λ value. view value ≡ timeout_origins_data bounds.now) }
{
    let test = origins_json(alloc, &bounds.global_timeout)?;
    let benchmark = origins_json(alloc, &bounds.benchmark_timeout)?;
    json!(in alloc; {"test": test, "benchmark": benchmark})
}

/// Where the report of a run comes from.
fn report_origins_json(alloc: Global, output: &OutputOrigins) -> Result<Value, AllocError>
    ensures { IfOk result (λ value. view value ≡ report_origins_data output.now) }
{
    let path = origins_json(alloc, &output.report_path)?;
    let report_name = origins_json(alloc, &output.report_name)?;
    json!(in alloc; {"path": path, "report-name": report_name})
}

/// Puts among members where what bounds a run comes from.
fn put_bound_origins(
    members: &mut Map<String, Value>,
    alloc: Global,
    bounds: &BoundOrigins,
) -> Result<(), AllocError>
    ensures { OnOk result (members_view members.new.entries
        ≡ with_bound_origins bounds.now (members_view members.old.entries)) }
{
    let timeout = timeout_origins_json(alloc, bounds)?;
    put(members, alloc, "global-timeout", timeout)?;
    let max_fail = origins_json(alloc, &bounds.max_fail)?;
    put(members, alloc, "max-fail", max_fail)?;
    let threads = origins_json(alloc, &bounds.test_threads)?;
    put(members, alloc, "test-threads", threads)
}

/// Puts among members where what a run shows and stores comes from.
fn put_output_origins(
    members: &mut Map<String, Value>,
    alloc: Global,
    output: &OutputOrigins,
) -> Result<(), AllocError>
    ensures { OnOk result (members_view members.new.entries
        ≡ with_output_origins output.now (members_view members.old.entries)) }
{
    let level = origins_json(alloc, &output.final_status_level)?;
    put(members, alloc, "final-status-level", level)?;
    let report = report_origins_json(alloc, output)?;
    put(members, alloc, "junit", report)?;
    let level = origins_json(alloc, &output.status_level)?;
    put(members, alloc, "status-level", level)?;
    let store_dir = origins_json(alloc, &output.store_dir)?;
    put(members, alloc, "store-dir", store_dir)
}

/// Puts among members where the parent of a profile, its default filter, and the arguments of tests
/// come from.
fn put_name_origins(
    members: &mut Map<String, Value>,
    alloc: Global,
    names: &NameOrigins,
) -> Result<(), AllocError>
    ensures { OnOk result (members_view members.new.entries
        ≡ with_name_origins names.now (members_view members.old.entries)) }
{
    let filter = origins_json(alloc, &names.default_filter)?;
    put(members, alloc, "default-filter", filter)?;
    let inherits = origins_json(alloc, &names.inherits)?;
    put(members, alloc, "inherits", inherits)?;
    let arguments = origins_json(alloc, &names.run_extra_args)?;
    put(members, alloc, "run-extra-args", arguments)
}

/// Where the values that a profile has for a whole run come from.
fn run_origins_json(alloc: Global, run: &RunOrigins) -> Result<Value, AllocError>
    ensures { IfOk result (λ value. view value ≡ run_origins_data run.now) }
{
    let mut members = Map::new(alloc);
    put_name_origins(&mut members, alloc, &run.names)?;
    put_output_origins(&mut members, alloc, &run.output)?;
    put_bound_origins(&mut members, alloc, &run.bounds)?;
    Ok(Value::Object(members))
}

/// Where groups come from, by their names.
fn group_origins_json(alloc: Global, groups: &[GroupOrigins]) -> Result<Value, AllocError>
    ensures { IfOk result (λ value.
        view value ≡ object (fold with_group_origins no_members groups.now)) }
{
    let mut members = Map::new(alloc);
    for group in groups {
        let origins = origins_json(alloc, &group.origins)?;
        put(&mut members, alloc, group.name.as_str(), origins)?;
    }
    Ok(Value::Object(members))
}

/// Where the values of a run and its groups come from.
fn object_origins_json(alloc: Global, origins: &ObjectOrigins) -> Result<Value, AllocError>
    ensures { IfOk result (λ value. view value ≡ object_origins_data origins.now) }
{
    let run = run_origins_json(alloc, &origins.run)?;
    let groups = group_origins_json(alloc, &origins.groups)?;
    json!(in alloc; {"run": run, "groups": groups})
}

/// Where the values of a run and its groups come from, or null.
pub(crate) fn optional_origins_json(
    alloc: Global,
    origins: Option<&ObjectOrigins>,
) -> Result<Value, AllocError>
    ensures { IfOk result (λ value. view value
        ≡ optional_origins_data (option_map (λ origins. origins.now) origins.entry)) }
{
    match origins {
        Some(origins) => object_origins_json(alloc, origins),
        None => Ok(Value::Null),
    }
}
