//! The setup scripts that tests enable.
ghost use Rattle.std.specs.Prelude.{◌≡◌, ◌++◌, ◌<◌, ◌+◌, ◌^◌, ◌↔◌, ℕ, List, [], IfOk, IsTrue, map, length};
ghost use Rattle.std.specs.List.{list_any};
ghost use Rattle.nextest_load.specs.ConfigView.{scripts_view};
ghost use Rattle.nextest_scripts.specs.ScriptId.{script_text};
ghost use Rattle.nextest_scripts.specs.ScriptTexts.{setup_script_view};
ghost use Rattle.nextest_settings.specs.Engines.{test_query_by};
ghost use Rattle.nextest_settings.specs.Queries.{is_enabled_for, enabled_by};
ghost use Rattle.nextest_settings.specs.SetupView.{numbered_rule_view, named_setup_script_view, script_id_view, setup_rules_view, setup_scripts_rules_view, setup_scripts_view, scripts_left_view};
ghost use Rattle.nextest_settings.specs.View.{meant_script_rule};
ghost use Rattle.nextest_tree.specs.Schema.{is_one_of};

use crate::evaluated::EvaluatedRules;
use crate::platforms::EvaluatedScriptRule;
use crate::wrappers::holds_for_test;
use nextest_engines::{EvalContext, Filters, Specs, Tally, TestQuery};
use nextest_load::ScriptConfig;
use nextest_scripts::{ScriptId, SetupScriptConfig};
use std::alloc::{AllocError, Global};

/// A script rule with its number.
#[derive_where(Clone, Copy)]
struct NumberedRule<'cfg, F: Filters, S: Specs> {
    number: usize,
    rule: EvaluatedScriptRule<'cfg, F, S>,
}

/// A setup script by its id.
#[derive(Clone, Copy)]
struct NamedSetupScript<'cfg> {
    id: &'cfg ScriptId,
    config: &'cfg SetupScriptConfig,
}

/// Whether the setup scripts that a rule names include a script.
pub fn names_script(setup: &[ScriptId], id: &ScriptId) -> bool
    ensures { result ≡ is_one_of (map script_text setup.now) (script_text id.now) }
{
    for named in setup {
        if named == id {
            return true;
        }
    }
    false
}

/// Whether some rule that names a script holds for a test.
fn is_enabled<F: Filters, S: Specs>(
    id: &ScriptId,
    rules: &[NumberedRule<'_, F, S>],
    query: &TestQuery<'_>,
    cx: &EvalContext<'_, F::Expr>,
    tally: &mut F::Tally,
) -> bool
    ensures answer { let query = test_query_by F.Filters cx.now.default_filter.now query.now in
        result ≡ is_enabled_for query (map (numbered_rule_view F.meaning) rules.now)
        (script_text id.now) }
    ensures tally { (added : List ℕ)
        × (F.Tally.numbers tally.new ≡ F.Tally.numbers tally.old ++ added) }
{
    for numbered in rules {
        let is_named = names_script(numbered.rule.rule.setup(), id);
        if holds_for_test(&numbered.rule, is_named, numbered.number, query, cx, tally) {
            return true;
        }
    }
    false
}

/// Whether some rule that names a script holds for one of these tests.
fn is_enabled_by_some<F: Filters, S: Specs>(
    id: &ScriptId,
    rules: &[NumberedRule<'_, F, S>],
    queries: &[TestQuery<'_>],
    cx: &EvalContext<'_, F::Expr>,
    tally: &mut F::Tally,
) -> bool
    ensures answer { result
        ≡ list_any (λ query. is_enabled_for query (map (numbered_rule_view F.meaning) rules.now)
        (script_text id.now))
        (map (test_query_by F.Filters cx.now.default_filter.now) queries.now) }
    ensures tally { (added : List ℕ)
        × (F.Tally.numbers tally.new ≡ F.Tally.numbers tally.old ++ added) }
{
    for query in queries {
        if is_enabled(id, rules, query, cx, tally) {
            return true;
        }
    }
    false
}

/// A setup script that tests enable.
#[derive_where(Clone, Copy)]
pub struct SetupScript<'s, 'cfg, F: Filters, S: Specs> {
    script: NamedSetupScript<'cfg>,
    rules: &'s [NumberedRule<'cfg, F, S>],
}

impl<'cfg, F: Filters, S: Specs> SetupScript<'_, 'cfg, F, S> {
    /// The script's id.
    pub fn id(&self) -> &'cfg ScriptId
        ensures { script_text result.now ≡ script_id_view self.now }
    {
        self.script.id
    }

    /// What the configuration says of the script.
    pub fn config(&self) -> &'cfg SetupScriptConfig
        ensures { setup_script_view result.now ≡ (named_setup_script_view self.now.script).1 }
    {
        self.script.config
    }

    /// Whether some rule that names the script holds for a test.
    pub fn is_enabled(
        &self,
        query: &TestQuery<'_>,
        cx: &EvalContext<'_, F::Expr>,
        tally: &mut F::Tally,
    ) -> bool
        ensures answer { let query = test_query_by F.Filters cx.now.default_filter.now query.now in
            result ≡ is_enabled_for query (setup_rules_view F.meaning self.now)
            (script_id_view self.now) }
        ensures tally { (added : List ℕ)
            × (F.Tally.numbers tally.new ≡ F.Tally.numbers tally.old ++ added) }
    {
        is_enabled(self.script.id, self.rules, query, cx, tally)
    }
}

/// The setup scripts that tests enable, in the order in which they run.
#[derive(Drop)]
pub struct SetupScripts<'cfg, F: Filters, S: Specs> {
    scripts: Vec<NamedSetupScript<'cfg>>,
    rules: Vec<NumberedRule<'cfg, F, S>>,
}

impl<'cfg, F: Filters, S: Specs> SetupScripts<'cfg, F, S> {
    /// The scripts, in the order in which they run.
    pub fn iter(&self) -> SetupScriptIter<'_, 'cfg, F, S>
        ensures scripts { map (λ s. named_setup_script_view s.script) (scripts_left_view result)
            ≡ setup_scripts_view self.now }
        ensures rules { map (numbered_rule_view F.meaning) result.rules.now
            ≡ setup_scripts_rules_view F.meaning self.now }
    {
        SetupScriptIter {
            scripts: &self.scripts,
            rules: &self.rules,
            index: 0,
        }
    }

    /// How many scripts are enabled.
    pub fn len(&self) -> usize
        ensures { result ≡ length (setup_scripts_view self.now) }
    {
        self.scripts.len()
    }

    /// Whether no script is enabled.
    pub fn is_empty(&self) -> bool
        ensures { IsTrue result ↔ (setup_scripts_view self.now ≡ []) }
    {
        self.scripts.is_empty()
    }
}

/// Setup scripts, in the order in which they run.
#[derive(Drop)]
pub struct SetupScriptIter<'s, 'cfg, F: Filters, S: Specs> {
    scripts: &'s [NamedSetupScript<'cfg>],
    rules: &'s [NumberedRule<'cfg, F, S>],
    index: usize,
}

impl<'s, 'cfg, F: Filters, S: Specs> Iterator for SetupScriptIter<'s, 'cfg, F, S> {
    ghost use Rattle.std.specs.Iterator.{YieldsFirst, item_count};
    ghost use Rattle.nextest_settings.specs.SetupView.{scripts_left_view};

    type Item = SetupScript<'s, 'cfg, F, S>;

    ghost next_gives = { YieldsFirst scripts_left_view };

    ghost remaining = { item_count scripts_left_view };

    fn next(&mut self) -> Option<SetupScript<'s, 'cfg, F, S>> {
        let script = *self.scripts.get(self.index)?;
        self.index += 1;
        Some(SetupScript {
            script,
            rules: self.rules,
        })
    }
}

/// The rules, numbered on from the first number.
fn numbered_rules<'cfg, F: Filters, S: Specs>(
    alloc: Global,
    rules: &[EvaluatedScriptRule<'cfg, F, S>],
    first: usize,
) -> Result<Vec<NumberedRule<'cfg, F, S>>, AllocError>
    requires { first + length rules.now < 2 ^ 64 }
    ensures { IfOk result (λ found. map (numbered_rule_view F.meaning) found.items
        ≡ map (meant_script_rule F.meaning) rules.now) }
{
    let mut found = Vec::with_capacity(alloc, rules.len())?;
    for (index, rule) in rules.iter().enumerate() {
        found.push(NumberedRule {
            number: first + index,
            rule: *rule,
        })?;
    }
    Ok(found)
}

/// The scripts that tests enable by rules.
fn enabled_scripts<'cfg, F: Filters, S: Specs>(
    alloc: Global,
    scripts: &'cfg ScriptConfig,
    rules: &[NumberedRule<'cfg, F, S>],
    queries: &[TestQuery<'_>],
    cx: &EvalContext<'_, F::Expr>,
    tally: &mut F::Tally,
) -> Result<Vec<NamedSetupScript<'cfg>>, AllocError>
    ensures scripts { IfOk result (λ found. map named_setup_script_view found.items
        ≡ enabled_by (map (test_query_by F.Filters cx.now.default_filter.now) queries.now)
        (map (numbered_rule_view F.meaning) rules.now) (scripts_view scripts.now).setup) }
    ensures tally { (added : List ℕ)
        × (F.Tally.numbers tally.new ≡ F.Tally.numbers tally.old ++ added) }
{
    let mut found = Vec::new(alloc);
    for (id, config) in scripts.setup.iter() {
        if is_enabled_by_some(id, rules, queries, cx, tally) {
            found.push(NamedSetupScript { id, config })?;
        }
    }
    Ok(found)
}

impl<'cfg, F: Filters, S: Specs> EvaluatedRules<'cfg, F, S> {
    /// The setup scripts that tests enable: those, in their order, that a script rule names which
    /// holds for some of the tests.
    pub fn setup_scripts(
        &self,
        alloc: Global,
        scripts: &'cfg ScriptConfig,
        queries: &[TestQuery<'_>],
        tally: &mut F::Tally,
    ) -> Result<SetupScripts<'cfg, F, S>, AllocError>
        ensures scripts { IfOk result (λ found. setup_scripts_view found
            ≡ enabled_by
            (map (test_query_by F.Filters self.now.default_filter.expr.now) queries.now)
            (map (meant_script_rule F.meaning) self.now.script_rules.items)
            (scripts_view scripts.now).setup) }
        ensures rules { IfOk result (λ found. setup_scripts_rules_view F.meaning found
            ≡ map (meant_script_rule F.meaning) self.now.script_rules.items) }
        ensures tally { (added : List ℕ)
            × (F.Tally.numbers tally.new ≡ F.Tally.numbers tally.old ++ added) }
    {
        let cx = EvalContext {
            default_filter: self.default_filter.expr,
        };
        let rules = numbered_rules(alloc, &self.script_rules, self.overrides.len())?;
        Ok(SetupScripts {
            scripts: enabled_scripts(alloc, scripts, &rules, queries, &cx, tally)?,
            rules,
        })
    }
}
