//! The setup scripts that tests enable, by the script rules that are marked: those that hold for
//! some of the tests. No filter is evaluated.
ghost use Rattle.std.specs.Prelude.{◌≡◌, ◌&&◌, IfOk, List, false, map, slice_get, string_bytes, unwrap_or};
ghost use Rattle.std.specs.List.{list_any};
ghost use Rattle.nextest_load.specs.ConfigView.{scripts_view};
ghost use Rattle.nextest_scripts.specs.ScriptId.{script_text};
ghost use Rattle.nextest_settings.specs.Deciding.{QueryContext};
ghost use Rattle.nextest_settings.specs.Queries.{enabled_by, is_enabled_for};
ghost use Rattle.nextest_settings.specs.View.{meant_script_rule};
ghost use Rattle.nextest_tree.specs.Schema.{is_one_of};
ghost use Rattle.rinqebo_rules.specs.Unused.{is_used};

use crate::marks::is_marked;
use nextest_engines::{Filters, Specs};
use nextest_load::ScriptConfig;
use nextest_scripts::ScriptId;
use nextest_settings::{EvaluatedScriptRule, names_script};
use std::alloc::{AllocError, Global};

/// Whether the script rule of a number is marked and names a script.
fn is_marked_for<F: Filters, S: Specs>(
    rule: &EvaluatedScriptRule<'_, F, S>,
    number: usize,
    marks: &[bool],
    id: &ScriptId,
) -> bool
    ensures { let rule = meant_script_rule F.meaning rule.now in
        result ≡ (unwrap_or (slice_get marks.now number) false
        && is_one_of rule.writes.scripts.setup (script_text id.now)) }
{
    is_marked(marks, number) && names_script(rule.rule().setup(), id)
}

/// Whether some of the tests enable a script, by the rules that hold for some of them: whether one
/// of these names it.
fn is_enabled_by_marks<F: Filters, S: Specs>(
    id: &ScriptId,
    rules: &[EvaluatedScriptRule<'_, F, S>],
    marks: &[bool],
) -> bool
    ensures { let rules = map (meant_script_rule F.meaning) rules.now in
        (tests : List (QueryContext F.Meaning)) → marks.now ≡ map (is_used tests) rules
        → result ≡ list_any (λ query. is_enabled_for query rules (script_text id.now)) tests }
{
    for (number, rule) in rules.iter().enumerate() {
        if is_marked_for(rule, number, marks, id) {
            return true;
        }
    }
    false
}

/// The ids of the setup scripts that tests enable, in the order in which they run, by the script
/// rules that hold for some of the tests.
pub(crate) fn ids_by_marks<F: Filters, S: Specs>(
    alloc: Global,
    scripts: &ScriptConfig,
    rules: &[EvaluatedScriptRule<'_, F, S>],
    marks: &[bool],
) -> Result<Vec<String>, AllocError>
    ensures { let rules = map (meant_script_rule F.meaning) rules.now in
        (tests : List (QueryContext F.Meaning)) → marks.now ≡ map (is_used tests) rules
        → IfOk result (λ ids. map string_bytes ids.items
        ≡ map (λ script. script.0) (enabled_by tests rules (scripts_view scripts.now).setup)) }
{
    let mut ids = Vec::new(alloc);
    for (id, _) in scripts.setup.iter() {
        if is_enabled_by_marks(id, rules, marks) {
            ids.push(String::from_str(alloc, id.as_identifier().as_str())?)?;
        }
    }
    Ok(ids)
}
